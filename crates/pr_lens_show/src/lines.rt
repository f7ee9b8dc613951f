//! A line of a text with marks below it.

ghost use Rattle.std.specs.Prelude.{◌≡◌, ◌≤◌, ◌+◌, ◌++◌, OnOk, length, map, min};
ghost use Rattle.pr_lens_show.specs.Lines.{Shows, blank_for, left_out, line_text, margin_text, marks_text, room_of, shown_from};

use crate::bytes::{put_shown, shown};
use itoa::Buffer;
use pr_lens_text::{Line, line_at, put, put_counted, put_many};
use std::alloc::{AllocError, Global};

/// The bytes of a line that are shown before the place, at most.
const BEFORE: usize = 100;
/// The bytes of a line that are shown from the place on, at most.
const BEHIND: usize = 60;

/// Where the part of a line that is shown begins.
fn shown_from(line: &Line, start: usize) -> usize
    ensures { result ≡ shown_from line.now start }
{
    line.start.max(start.saturating_sub(BEFORE))
}

/// Where the part of a line with this end ends that is shown.
fn shown_to(end: usize, start: usize) -> usize
    requires { start ≤ end }
    ensures { result ≡ min end (start + 60) }
{
    if end - start <= BEHIND {
        end
    } else {
        start + BEHIND
    }
}

/// What stands for the rest of a line: `…` where there is more.
fn left_out(more: bool) -> &'static [u8]
    ensures { result.now ≡ left_out more }
{
    if more { b"\xe2\x80\xa6" } else { b"" }
}

/// A blank below that.
fn room_of(more: bool) -> &'static str
    ensures { result.now ≡ room_of more }
{
    if more { " " } else { "" }
}

/// A blank in the place of a byte; a tab stays a tab.
fn blank_for(byte: u8) -> u8
    ensures { result ≡ blank_for byte }
{
    if byte == b'\t' { b'\t' } else { b' ' }
}

/// Adds blanks for these bytes.
fn put_blanks(told: &mut Vec<u8>, bytes: &[u8]) -> Result<(), AllocError>
    ensures { OnOk result (told.new.items ≡ told.old.items ++ map blank_for bytes.now) }
{
    for byte in bytes {
        told.push(blank_for(*byte))?;
    }
    Ok(())
}

/// Adds this part of a line, its number before it.
#[tactic(auto, unfolding(crate::specs::Lines::line_text))]
fn put_line(
    told: &mut Vec<u8>,
    text: &[u8],
    line: &Line,
    from: usize,
    to: usize,
) -> Result<(), AllocError>
    requires order { from ≤ to }
    requires within { to ≤ length text.now }
    ensures { OnOk result (told.new.items ≡ told.old.items ++ line_text text.now line.now from to) }
{
    put_counted(told, "  ", line.number)?;
    put(told, " | ")?;
    told.extend_from_slice(left_out(line.start < from))?;
    put_shown(told, &text[from..to])?;
    told.extend_from_slice(left_out(to < line.end))?;
    put(told, "\n")
}

/// Adds a margin of the width of a line's number.
#[tactic(auto, unfolding(crate::specs::Lines::margin_text))]
fn put_margin(told: &mut Vec<u8>, number: usize) -> Result<(), AllocError>
    ensures { OnOk result (told.new.items ≡ told.old.items ++ margin_text number) }
{
    let mut buffer = Buffer::new();
    let digits = buffer.format(number);
    put(told, "  ")?;
    put_many(told, b' ', digits.len())?;
    put(told, " | ")
}

/// Adds so many marks, one at least, below what follows on these bytes, which are the first that are shown of a line or
/// stand behind a `…`.
#[tactic(auto, unfolding(crate::specs::Lines::marks_text))]
fn put_marks(
    told: &mut Vec<u8>,
    number: usize,
    more: bool,
    before: &[u8],
    count: usize,
) -> Result<(), AllocError>
    ensures { OnOk result (told.new.items ≡ told.old.items ++ marks_text number more before.now count) }
{
    put_margin(told, number)?;
    put(told, room_of(more))?;
    put_blanks(told, before)?;
    put_many(told, b'^', count.max(1))?;
    put(told, "\n")
}

/// Adds the line of a place, and marks below it.
pub fn put_source(
    alloc: Global,
    told: &mut Vec<u8>,
    text: &[u8],
    start: usize,
    end: usize,
) -> Result<(), AllocError>
    requires { start ≤ length text.now }
    ensures { OnOk result (Shows text.now start end told.old.items told.new.items) }
{
    let line = line_at(text, start);
    let from = shown_from(&line, start);
    let to = shown_to(line.end, start);
    put_line(told, text, &line, from, to)?;
    let before = shown(alloc, &text[from..start])?;
    let marked = shown(alloc, &text[start..end.min(to).max(start)])?;
    put_marks(told, line.number, line.start < from, &before, marked.len())
}
