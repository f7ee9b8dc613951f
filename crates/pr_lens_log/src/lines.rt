//! Lines of a log.

ghost use Rattle.std.specs.Prelude.{◌≡◌, ◌≢◌, ◌↔◌, ◌≤◌, ◌<◌, true, false, Option, IsTrue, IfSome, IfNone, length, slice_index};
ghost use Rattle.pr_log.specs.Lines.{line_of};
ghost use Rattle.pr_lens_log.specs.Lines.{is_word_end, is_end, CanBe, IsCycleLine, HasNoCycle, IsLogged, IsNoOther, IsNoLine};

use crate::words::{configured, cut, entry, number, saved, second, state};
use pr_conf::Turn;
use pr_log::line;

/// A cycle of a run, as its line tells it.
#[derive(Clone, Copy)]
pub struct Logged {
    pub turn: Turn,
    pub time: u64,
}

impl Logged {
    ghost use Rattle.pr_lens_log.specs.Lines.{is_into};

    /// Whether a stage comes into this stripe.
    pub fn comes_into(&self, stripe: usize) -> bool
        ensures { result ≡ is_into self.now.turn.configured stripe }
    {
        match self.turn.configured {
            None => false,
            Some((_, into)) => into as usize == stripe,
        }
    }
}

/// A line of a log.
#[derive(Clone, Copy)]
pub enum LogLine {
    /// A cycle.
    Cycle(Logged),
    /// A result, which begins with a digit.
    Result,
    /// The end of a run, or a blank line.
    End,
}

/// The cycle, where this is its line: what was read is printed again and compared.
fn confirmed(bytes: &[u8], turn: Turn, time: u64, row: &[u8]) -> Option<Logged>
    requires can { CanBe turn }
    requires short { length row.now ≤ 64 }
    ensures told { IfSome result (IsCycleLine bytes.now) }
    ensures none { IfNone result (bytes.now ≢ line_of turn time row.now) }
{
    let printed = line(&turn, time, row);
    if printed.as_str().as_bytes() != bytes {
        return None;
    }
    Some(Logged { turn, time })
}

/// The cycle of a line that begins with `c`, its line feed included.
fn read_cycle(bytes: &[u8]) -> Option<Logged>
    ensures told { IfSome result (IsCycleLine bytes.now) }
    ensures none { IfNone result (HasNoCycle true bytes.now) }
{
    let (time, words) = second(bytes);
    let (stage, words) = second(words);
    let (_, words) = cut(words, b' ');
    let (saved, row, words) = saved(words);
    let (entered, words) = second(words);
    let (_, words) = cut(words, b' ');
    let (left, _) = cut(words, b'\n');
    let turn = Turn {
        advanced: true,
        configured: configured(stage),
        saved,
        entered: entry(entered),
        left: entry(left),
    };
    let (row, count) = state(row);
    confirmed(bytes, turn, number(time), &row[..count])
}

/// The cycle of a line that begins with `s`, its line feed included.
fn read_stall(bytes: &[u8]) -> Option<Logged>
    ensures told { IfSome result (IsCycleLine bytes.now) }
    ensures none { IfNone result (HasNoCycle false bytes.now) }
{
    let (_, words) = cut(bytes, b' ');
    let (time, _) = cut(words, b'\n');
    let turn = Turn {
        advanced: false,
        configured: None,
        saved: None,
        entered: None,
        left: None,
    };
    confirmed(bytes, turn, number(time), &[])
}

/// Whether a result begins with this byte.
fn begins_result(byte: u8) -> bool
    ensures { IsTrue result ↔ ((48 ≤ byte) × (byte ≤ 57)) }
{
    b'0' <= byte && byte <= b'9'
}

/// Whether a word ends before this byte, or with the line.
fn is_word_end(byte: Option<u8>) -> bool
    ensures { result ≡ is_word_end byte }
{
    match byte {
        None => true,
        Some(byte) => byte == b' ' || byte == b'\n',
    }
}

/// Whether the first word of a line is `end`.
fn is_end(bytes: &[u8]) -> bool
    ensures { result ≡ is_end bytes.now }
{
    bytes.starts_with(b"end") && is_word_end(bytes.get(3).copied())
}

/// A line that tells no cycle.
fn read_other(bytes: &[u8]) -> Option<LogLine>
    ensures told { IfSome result (IsLogged bytes.now) }
    ensures none { IfNone result (IsNoOther bytes.now) }
{
    if bytes.is_empty() || bytes[0] == b'\n' || is_end(bytes) {
        return Some(LogLine::End);
    }
    if begins_result(bytes[0]) {
        Some(LogLine::Result)
    } else {
        None
    }
}

/// The first byte of a line, or 0.
fn first_of(bytes: &[u8]) -> u8
    ensures { result ≡ slice_index bytes.now 0 }
{
    if bytes.is_empty() { 0 } else { bytes[0] }
}

/// A line of a log, its line feed included where it has one; none where it is no line of a log.
pub fn read_line(bytes: &[u8]) -> Option<LogLine>
    ensures told { IfSome result (IsLogged bytes.now) }
    ensures none { IfNone result (IsNoLine bytes.now) }
{
    let first = first_of(bytes);
    if first == b'c' {
        return read_cycle(bytes).map(LogLine::Cycle);
    }
    if first == b's' {
        return read_stall(bytes).map(LogLine::Cycle);
    }
    read_other(bytes)
}
