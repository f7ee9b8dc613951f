//! Lines of results.
ghost use Rattle.std.specs.Prelude.{◌≡◌, ◌<◌, ◌+◌, ◌≤◌, ◌++◌, ◌∷◌, ◌==◌, List, ℕ, [], All, length, drop, sum_by, decimal, not, OnOk, OnErr, if◌then◌else◌};
ghost use Rattle.arrayvec.specs.ArrayString.{array_string_len};
ghost use Rattle.pr_base.specs.Numbers.{slices_of, number_of};
ghost use Rattle.pr_base.specs.Rows.{row_line};
ghost use Rattle.pr_edge.specs.Count.{Rose};
ghost use Rattle.pr_edge.specs.Tape.{Tape, Appends, AppendsFront};
ghost use Rattle.pr_samples.specs.Results.{rest_line, result_line, IsPut};

use arrayvec::ArrayString;
use itoa::{Buffer, write_digits};
use pr_base::{Num, number, slices};
use pr_edge::{Sink, WriteFault, write_all};

/// The bytes that a number takes at most, with the blank before it and the LF after it.
const NUMBER: usize = 42;

/// Appends a number, after a blank where it is not the first.
fn put_number<const ROOM: usize>(text: &mut ArrayString<ROOM>, begun: bool, n: Num)
    requires room { array_string_len text.old + 41 ≤ ROOM }
    requires most { ROOM ≤ 4096 }
    ensures bytes { text.new.bytes ≡ text.old.bytes ++ (if begun then 32 ∷ decimal n else decimal n) }
    ensures len { array_string_len text.new ≤ array_string_len text.old + 41 }
{
    let mut buffer = Buffer::new();
    if begun {
        text.push_str(" ");
    }
    text.push_str(buffer.format(n));
}

/// Makes room for one number more: where it lacks, the bytes so far are written.
fn make_room<K: Sink, const ROOM: usize>(
    sink: &mut K,
    text: &mut ArrayString<ROOM>,
) -> Result<(), WriteFault>
    requires least { 42 ≤ ROOM }
    requires most { ROOM ≤ 4096 }
    ensures put { (old : Tape) (rest line : List ℕ) → IsPut old (K.view sink.old).told text.old.bytes rest line
        → OnOk result (IsPut old (K.view sink.new).told text.new.bytes rest line) }
    ensures front { (old : Tape) (rest line : List ℕ) → IsPut old (K.view sink.old).told text.old.bytes rest line
        → OnErr result (AppendsFront old (K.view sink.new).told line) }
    ensures room { OnOk result (array_string_len text.new + 42 ≤ ROOM) }
    ensures cause { OnErr result (Rose (K.view sink.old).faults (K.view sink.new).faults) }
    ensures later { (K.view sink.old).faults ≤ (K.view sink.new).faults }
{
    if text.remaining_capacity() >= NUMBER {
        return Ok(());
    }
    match write_all(sink, text.as_str().as_bytes()) {
        Err(fault) => Err(fault),
        Ok(()) => {
            text.clear();
            Ok(())
        }
    }
}

/// Writes a line, through a buffer with this much room.
fn put_line<K: Sink, const ROOM: usize>(
    sink: &mut K,
    widths: &[u8],
    bytes: &[u8],
) -> Result<(), WriteFault>
    requires least { 42 ≤ ROOM }
    requires most { ROOM ≤ 4096 }
    requires widths { All (λ w. (1 ≤ w) × (w ≤ 128)) widths.now }
    requires bytes { length bytes.now ≡ sum_by slices_of widths.now }
    ensures all { OnOk result
        (Appends (K.view sink.old).told (K.view sink.new).told (result_line widths.now bytes.now)) }
    ensures front { OnErr result
        (AppendsFront (K.view sink.old).told (K.view sink.new).told (result_line widths.now bytes.now)) }
    ensures cause { OnErr result (Rose (K.view sink.old).faults (K.view sink.new).faults) }
    ensures later { (K.view sink.old).faults ≤ (K.view sink.new).faults }
{
    let mut text = ArrayString::<ROOM>::new();
    let mut at = 0;
    for i in 0..widths.len() {
        if let Err(fault) = make_room(sink, &mut text) {
            return Err(fault);
        }
        let end = at + slices(widths[i]);
        put_number(&mut text, i > 0, number(&bytes[at..end]));
        at = end;
    }
    text.push_str("\n");
    write_all(sink, text.as_str().as_bytes())
}

/// The number of at most eight bytes, the least first.
#[inline(always)]
fn short_number(bytes: &[u8]) -> u64
    requires { length bytes.now ≤ 8 }
    ensures { result ≡ number_of bytes.now }
{
    let mut n = 0;
    for i in 0..bytes.len() {
        n += u64::from(bytes[i]) << (8 * i);
    }
    n
}

/// Writes the line of one number, which is put into its buffer from the end on.
#[inline(always)]
fn put_short<K: Sink>(sink: &mut K, n: u64) -> Result<(), WriteFault>
    ensures all { OnOk result (Appends (K.view sink.old).told (K.view sink.new).told (row_line (n ∷ []))) }
    ensures front { OnErr result (AppendsFront (K.view sink.old).told (K.view sink.new).told (row_line (n ∷ []))) }
    ensures cause { OnErr result (Rose (K.view sink.old).faults (K.view sink.new).faults) }
    ensures later { (K.view sink.old).faults ≤ (K.view sink.new).faults }
{
    let mut text = [b'\n'; 21];
    let start = write_digits(n, &mut text, 20);
    write_all(sink, &text[start..])
}

/// Writes the line of one result: for each output in order the number of its bytes, in decimal, with a blank between
/// two, and LF.
///
/// The bytes are those of all outputs, the least of each first. The sink is given the line in one piece, unless it has
/// more than 64 outputs. Where the sink fails, the first bytes of the line were written.
#[inline(always)]
pub fn put_result<K: Sink>(sink: &mut K, widths: &[u8], bytes: &[u8]) -> Result<(), WriteFault>
    requires widths { All (λ w. (1 ≤ w) × (w ≤ 128)) widths.now }
    requires bytes { length bytes.now ≡ sum_by slices_of widths.now }
    ensures all { OnOk result
        (Appends (K.view sink.old).told (K.view sink.new).told (result_line widths.now bytes.now)) }
    ensures front { OnErr result
        (AppendsFront (K.view sink.old).told (K.view sink.new).told (result_line widths.now bytes.now)) }
    ensures cause { OnErr result (Rose (K.view sink.old).faults (K.view sink.new).faults) }
    ensures later { (K.view sink.old).faults ≤ (K.view sink.new).faults }
{
    if widths.len() == 1 && bytes.len() <= 8 {
        return put_short(sink, short_number(bytes));
    }
    // As little room as the line may take, since all of a buffer is filled with zeros first.
    match widths.len() {
        0..=3 => put_line::<K, 128>(sink, widths, bytes),
        4..=6 => put_line::<K, 256>(sink, widths, bytes),
        _ => put_line::<K, 2688>(sink, widths, bytes),
    }
}
