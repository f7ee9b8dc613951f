// One line, read byte by byte, also in parts.
ghost use Rattle.std.specs.Prelude.{◌≡◌, ◌≢◌, ℕ, ◌+◌, ◌*◌, ◌^◌, ◌<◌, ◌≤◌, List, ◌++◌, All, length, take, drop, get_or, slice_get, Some, IfSome, IfNone, IsTrue};
ghost use Rattle.std.specs.Option.{SomeIff};
ghost use Rattle.pr_samples.specs.Scan.{scan_of, step, first_line, begun, with_digit, finished, whole_end, cut_end, taken_of, taken_numbers, met_first};

use crate::digits::{front_number, is_low};
use pr_base::{GREATEST, Num};

/// What stands at the end of the part of a line that was read.
#[derive(Clone, Copy)]
pub enum Phase {
    /// A blank, or nothing.
    Gap,
    /// A number, with its value so far.
    Number(Num),
    /// The line's CR.
    Closed,
    /// A byte at which the line is bad.
    Wrong,
}

/// How far a line was read: the count of its numbers that are done, and what stands after them.
#[derive(Clone, Copy)]
pub struct Cursor {
    pub done: usize,
    pub phase: Phase,
}

/// Before a line.
pub const START: Cursor = Cursor {
    done: 0,
    phase: Phase::Gap,
};

/// What becomes of a line.
#[derive(Clone, Copy)]
pub enum Met {
    /// It is blank.
    Skipped,
    /// It is a sample.
    Lawful,
    /// It is bad.
    Unlawful,
    /// The byte limit cuts it, and it may be a sample.
    CutShort,
}

/// The number `before` with a digit more, if it is below 2 to the width.
fn grown(before: Num, digit: u8, width: u8) -> Option<Num>
    requires digit { digit ≤ 9 }
    requires width { width ≤ 128 }
    ensures { SomeIff result (10 * before + digit < 2 ^ width) (10 * before + digit) }
{
    const TENTH: Num = Num::MAX / 10;
    if before > TENTH || (before == TENTH && digit > 5) {
        return None;
    }
    let n = 10 * before + Num::from(digit);
    if width == GREATEST || n < 1 << width {
        Some(n)
    } else {
        None
    }
}

/// The cursor after a digit.
fn after_digit(widths: &[u8], cursor: Cursor, digit: u8) -> Cursor
    requires digit { digit ≤ 9 }
    requires widths { All (λ w. w ≤ 128) widths.now }
    requires room { cursor.done + begun cursor.phase ≤ length widths.now }
    ensures scan { (numbers : List ℕ) →
        scan_of widths.now numbers result ≡ with_digit (scan_of widths.now numbers cursor) digit }
    ensures room { result.done + begun result.phase ≤ length widths.now }
{
    let wrong = Cursor {
        done: cursor.done,
        phase: Phase::Wrong,
    };
    let before = match cursor.phase {
        Phase::Gap => 0,
        Phase::Number(n) => n,
        Phase::Closed | Phase::Wrong => return wrong,
    };
    if cursor.done >= widths.len() {
        return wrong;
    }
    match grown(before, digit, widths[cursor.done]) {
        None => wrong,
        Some(n) => Cursor {
            done: cursor.done,
            phase: Phase::Number(n),
        },
    }
}

/// The cursor where a number may end, with this phase after it.
fn after_number(numbers: &mut [Num], cursor: Cursor, phase: Phase) -> Cursor
    requires room { cursor.done + begun cursor.phase ≤ length numbers.old }
    requires phase { begun phase ≡ 0 }
    ensures scan { (widths : List ℕ) →
        scan_of widths numbers.new result ≡ finished (scan_of widths numbers.old cursor) phase }
    ensures room { result.done + begun result.phase ≤ length numbers.new }
{
    match cursor.phase {
        Phase::Gap => Cursor {
            done: cursor.done,
            phase,
        },
        Phase::Number(n) => {
            numbers[cursor.done] = n;
            Cursor {
                done: cursor.done + 1,
                phase,
            }
        }
        Phase::Closed | Phase::Wrong => Cursor {
            done: cursor.done,
            phase: Phase::Wrong,
        },
    }
}

/// The cursor after a byte that is no LF.
#[tactic(auto, unfolding(crate::specs::Scan::step))]
fn after_byte(widths: &[u8], numbers: &mut [Num], cursor: Cursor, byte: u8) -> Cursor
    requires widths { All (λ w. w ≤ 128) widths.now }
    requires numbers { length numbers.old ≡ length widths.now }
    requires room { cursor.done + begun cursor.phase ≤ length widths.now }
    ensures scan { scan_of widths.now numbers.new result ≡ step (scan_of widths.now numbers.old cursor) byte }
    ensures room { result.done + begun result.phase ≤ length widths.now }
{
    match byte {
        b'0'..=b'9' => after_digit(widths, cursor, byte - b'0'),
        b' ' | b'\t' => after_number(numbers, cursor, Phase::Gap),
        b'\r' => after_number(numbers, cursor, Phase::Closed),
        _ => Cursor {
            done: cursor.done,
            phase: Phase::Wrong,
        },
    }
}

/// Reads on from a byte that is no LF: the digits of a short number at once, and else that byte. Answers how many bytes
/// were read, and the cursor after them.
fn step_on(widths: &[u8], numbers: &mut [Num], cursor: Cursor, rest: &[u8]) -> (usize, Cursor)
    requires widths { All (λ w. w ≤ 128) widths.now }
    requires numbers { length numbers.old ≡ length widths.now }
    requires room { cursor.done + begun cursor.phase ≤ length widths.now }
    requires some { 0 < length rest.now }
    requires other { get_or rest.now 0 0 ≢ 10 }
    ensures some { 0 < result.0 }
    ensures bound { result.0 ≤ length rest.now }
    ensures scan { (passed : ℕ) (more : List ℕ) →
        first_line widths.now (scan_of widths.now numbers.new result.1) passed (drop result.0 rest.now ++ more)
        ≡ first_line widths.now (scan_of widths.now numbers.old cursor) passed (rest.now ++ more) }
    ensures room { result.1.done + begun result.1.phase ≤ length widths.now }
{
    if matches!(cursor.phase, Phase::Gap) && cursor.done < widths.len() {
        let (count, n) = front_number(rest);
        if count > 0 && is_low(n, widths[cursor.done]) {
            let next = Cursor {
                done: cursor.done,
                phase: Phase::Number(Num::from(n)),
            };
            return (count, next);
        }
    }
    (1, after_byte(widths, numbers, cursor, rest[0]))
}

/// Reads the bytes before the first LF, and answers how many there are, and the cursor after them.
pub fn read_line(
    widths: &[u8],
    numbers: &mut [Num],
    cursor: Cursor,
    bytes: &[u8],
) -> (usize, Cursor)
    requires widths { All (λ w. w ≤ 128) widths.now }
    requires numbers { length numbers.old ≡ length widths.now }
    requires room { cursor.done + begun cursor.phase ≤ length widths.now }
    ensures bound { result.0 ≤ length bytes.now }
    ensures stops { result.0 < length bytes.now → slice_get bytes.now result.0 ≡ Some 10 }
    ensures scan { (passed : ℕ) (more : List ℕ) →
        first_line widths.now (scan_of widths.now numbers.new result.1) passed (drop result.0 bytes.now ++ more)
        ≡ first_line widths.now (scan_of widths.now numbers.old cursor) passed (bytes.now ++ more) }
    ensures room { result.1.done + begun result.1.phase ≤ length widths.now }
{
    let mut cursor = cursor;
    let mut at = 0;
    while at < bytes.len() {
        if bytes[at] == b'\n' {
            return (at, cursor);
        }
        let (count, next) = step_on(widths, numbers, cursor, &bytes[at..]);
        at += count;
        cursor = next;
    }
    (at, cursor)
}

/// What becomes of a line that is over, of which so many numbers are done.
fn met_by(widths: &[u8], numbers: &[Num], done: usize) -> Met
    requires numbers { length numbers.now ≡ length widths.now }
    requires room { done ≤ length widths.now }
    ensures { taken_of result numbers.now ≡ taken_numbers (take done numbers.now) (drop done widths.now) }
{
    if done == 0 {
        Met::Skipped
    } else if done == widths.len() {
        Met::Lawful
    } else {
        Met::Unlawful
    }
}

/// What becomes of a whole line. The numbers are those of its sample then.
#[tactic(auto, unfolding(crate::specs::Scan::whole_end))]
pub fn met_whole(widths: &[u8], numbers: &mut [Num], cursor: Cursor) -> Met
    requires numbers { length numbers.old ≡ length widths.now }
    requires room { cursor.done + begun cursor.phase ≤ length widths.now }
    ensures { taken_of result numbers.new ≡ whole_end (scan_of widths.now numbers.old cursor) }
{
    match cursor.phase {
        Phase::Wrong => Met::Unlawful,
        Phase::Gap | Phase::Closed => met_by(widths, numbers, cursor.done),
        Phase::Number(n) => {
            numbers[cursor.done] = n;
            met_by(widths, numbers, cursor.done + 1)
        }
    }
}

/// What becomes of a line that the byte limit cuts.
#[tactic(auto, unfolding(crate::specs::Scan::cut_end))]
pub fn met_cut(widths: &[u8], cursor: Cursor) -> Met
    requires room { cursor.done + begun cursor.phase ≤ length widths.now }
    ensures taken { (numbers : List ℕ) → taken_of result numbers ≡ cut_end (scan_of widths.now numbers cursor) }
    ensures met { result ≢ Met.Skipped }
{
    match cursor.phase {
        Phase::Gap | Phase::Number(_) => Met::CutShort,
        Phase::Closed => {
            if cursor.done == widths.len() {
                Met::CutShort
            } else {
                Met::Unlawful
            }
        }
        Phase::Wrong => Met::Unlawful,
    }
}

/// A part of the bytes that was read, up to the first line that is not blank.
#[derive(Clone, Copy)]
pub struct Part {
    /// The number of its bytes.
    pub used: usize,
    /// What becomes of the line, where it stands there whole.
    pub met: Option<Met>,
    /// The lines up to and with that line.
    pub passed: u64,
    /// How far the last line was read, where none was met.
    pub cursor: Cursor,
}

/// Reads bytes line by line up to the first line that is not blank. The numbers are those of its sample then.
pub fn read_lines(
    widths: &[u8],
    numbers: &mut [Num],
    cursor: Cursor,
    passed: u64,
    bytes: &[u8],
) -> Part
    requires widths { All (λ w. w ≤ 128) widths.now }
    requires numbers { length numbers.old ≡ length widths.now }
    requires room { cursor.done + begun cursor.phase ≤ length widths.now }
    requires passed { passed + length bytes.now < 2 ^ 64 }
    ensures bound { result.used ≤ length bytes.now }
    ensures all { IfNone result.met (result.used ≡ length bytes.now) }
    ensures met { IfSome result.met (λ met. met ≢ Met.Skipped) }
    ensures first { (more : List ℕ) →
        met_first widths.now result.met numbers.new (scan_of widths.now numbers.new result.cursor) result.passed
        (drop result.used bytes.now ++ more)
        ≡ first_line widths.now (scan_of widths.now numbers.old cursor) passed (bytes.now ++ more) }
    ensures passed { result.passed ≤ passed + result.used }
    ensures room { result.cursor.done + begun result.cursor.phase ≤ length widths.now }
{
    let mut used = 0;
    let mut cursor = cursor;
    let mut passed = passed;
    while used < bytes.len() {
        let (count, next) = read_line(widths, numbers, cursor, &bytes[used..]);
        used += count;
        cursor = next;
        if used == bytes.len() {
            break;
        }
        used += 1;
        passed += 1;
        match met_whole(widths, numbers, cursor) {
            Met::Skipped => cursor = START,
            met => {
                return Part {
                    used,
                    met: Some(met),
                    passed,
                    cursor: START,
                };
            }
        }
    }
    Part {
        used,
        met: None,
        passed,
        cursor,
    }
}
