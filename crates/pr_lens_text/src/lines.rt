//! Lines.

ghost use Rattle.std.specs.Prelude.{◌≡◌, ◌≤◌, ◌+◌, ℕ, length, count_by, take};
ghost use Rattle.pr_lang.specs.Spelling.{is_line_feed};
ghost use Rattle.pr_lens_text.specs.Places.{IsLine, HasNoEnd, IsEndBefore, IsEndAt};

/// A line of a text.
#[derive(Clone, Copy, PartialEq, Eq, Debug)]
pub struct Line {
    /// Its number, from 1.
    pub number: usize,
    /// The place of its first byte.
    pub start: usize,
    /// The place behind its last byte, its line feed not included.
    pub end: usize,
}

/// Where the line of a byte begins.
fn start_of(text: &[u8], offset: usize) -> usize
    requires { offset ≤ length text.now }
    ensures within { result ≤ offset }
    ensures none { HasNoEnd text.now result offset }
    ensures end { IsEndBefore text.now result }
{
    let mut start = offset;
    while 0 < start && text[start - 1] != b'\n' {
        start -= 1;
    }
    start
}

/// Where the line of a byte ends.
pub fn end_of(text: &[u8], offset: usize) -> usize
    requires { offset ≤ length text.now }
    ensures least { offset ≤ result }
    ensures within { result ≤ length text.now }
    ensures none { HasNoEnd text.now offset result }
    ensures end { IsEndAt text.now result }
{
    let mut end = offset;
    while end < text.len() && text[end] != b'\n' {
        end += 1;
    }
    end
}

/// The line of the byte behind so many bytes of a text, or the last line.
pub fn line_at(text: &[u8], offset: usize) -> Line
    requires { offset ≤ length text.now }
    ensures { IsLine text.now offset result }
{
    let ends = text[..offset].iter().filter(|b| **b == b'\n').count();
    Line {
        number: ends + 1,
        start: start_of(text, offset),
        end: end_of(text, offset),
    }
}
