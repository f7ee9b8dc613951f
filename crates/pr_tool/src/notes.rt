//! The line that goes to the note.
ghost use Rattle.std.specs.Prelude.{◌≡◌, ◌+◌, ◌≤◌, ◌++◌, length, decimal};
ghost use Rattle.arrayvec.specs.ArrayString.{array_string_len};
ghost use Rattle.pr_tool.specs.Notes.{bound_of, cap_name, cause_text, answer_text, note_of};
ghost use Rattle.pr_tool.specs.Noted.{GainsNote};

use arrayvec::ArrayString;
use itoa::Buffer;
use pr_base::{Cap, Fabric};
use pr_edge::{Sink, write_all};
use pr_tool_answers::{Answer, Cause};

type Line = ArrayString<128>;

/// The limits that are not the same in every call.
#[derive(Clone, Copy, PartialEq, Eq, Debug)]
pub struct Bounds {
    /// The fabric that programs are for.
    pub fabric: Fabric,
    /// Bytes of a sample file.
    pub sample_bytes: u64,
}

impl Bounds {
    /// Those of a call that asks for nothing.
    pub const BASE: Bounds = Bounds {
        fabric: Fabric::Base,
        sample_bytes: Cap::MOST_SAMPLE_BYTES,
    };

    /// The number that the quantity may not pass.
    pub fn number(&self, which: Cap) -> u64
        ensures { result ≡ bound_of self.now which }
    {
        match which {
            Cap::SampleBytes => self.sample_bytes,
            other => other.number(self.fabric),
        }
    }
}

/// The name of a limit.
fn name_of(which: Cap) -> &'static str
    ensures name { result.now ≡ cap_name which }
    ensures len { length result.now ≤ 13 }
{
    match which {
        Cap::ProgramBytes => "program-bytes",
        Cap::Nesting => "nesting",
        Cap::Turns => "turns",
        Cap::Equations => "equations",
        Cap::InputBytes => "input-bytes",
        Cap::Outputs => "outputs",
        Cap::Units => "units",
        Cap::StallBytes => "stall-bytes",
        Cap::ConfigBytes => "config-bytes",
        Cap::SampleBytes => "sample-bytes",
        Cap::Samples => "samples",
        Cap::ListBytes => "list-bytes",
    }
}

/// Appends a label and a number.
fn put(text: &mut Line, label: &str, n: u64)
    requires { array_string_len text.old + length label.now + 20 ≤ 128 }
    ensures bytes { text.new.bytes ≡ text.old.bytes ++ (label.now ++ decimal n) }
    ensures len { array_string_len text.new ≤ array_string_len text.old + length label.now + 20 }
{
    text.push_str(label);
    let mut buffer = Buffer::new();
    text.push_str(buffer.format(n));
}

/// Appends the line of a cause, without its end.
fn put_cause(text: &mut Line, bounds: &Bounds, cause: &Cause)
    requires { array_string_len text.old ≤ 30 }
    ensures bytes { text.new.bytes ≡ text.old.bytes ++ cause_text bounds.now cause.now }
    ensures len { array_string_len text.new ≤ array_string_len text.old + 60 }
{
    match *cause {
        Cause::Syntax { token } => put(text, "syntax: token ", u64::from(token)),
        Cause::Scope { rule, item } => {
            put(text, "scope: rule ", u64::from(rule));
            put(text, " item ", u64::from(item));
        }
        Cause::NoWidth { equation } => put(text, "no width: equation ", u64::from(equation)),
        Cause::NoFit { unit } => put(text, "no fit: unit ", u64::from(unit)),
        Cause::Limit { which } => {
            text.push_str("limit: ");
            text.push_str(name_of(which));
            put(text, " ", bounds.number(which));
        }
        Cause::BadSample { line } => put(text, "bad sample: line ", line),
    }
}

/// Appends the line of an answer, without its end.
fn put_answer(text: &mut Line, bounds: &Bounds, answer: &Answer)
    requires { array_string_len text.old ≡ 0 }
    ensures bytes { text.new.bytes ≡ text.old.bytes ++ answer_text bounds.now answer.now }
    ensures len { array_string_len text.new ≤ 127 }
{
    match *answer {
        Answer::Ok => {}
        Answer::Usage => text.push_str(
            "usage: piperench MODE FIRST [SECOND] [--stripes P] [--stall FILE] [--fabric F] [--narrow]",
        ),
        Answer::Syntax { token } => put_cause(text, bounds, &Cause::Syntax { token }),
        Answer::Scope { rule, item } => put_cause(text, bounds, &Cause::Scope { rule, item }),
        Answer::NoWidth { equation } => put_cause(text, bounds, &Cause::NoWidth { equation }),
        Answer::NoFit { unit } => put_cause(text, bounds, &Cause::NoFit { unit }),
        Answer::Limit { which } => put_cause(text, bounds, &Cause::Limit { which }),
        Answer::BadSample { line } => put_cause(text, bounds, &Cause::BadSample { line }),
        Answer::BadStall { place } => put(text, "bad stall: byte ", u64::from(place)),
        Answer::BadConfig { rule, place } => {
            put(text, "bad config: rule ", u64::from(rule));
            put(text, " word ", u64::from(place));
        }
        Answer::BadList { line } => put(text, "bad list: line ", line),
        Answer::Part { program, cause } => {
            put(text, "program ", u64::from(program));
            text.push_str(": ");
            put_cause(text, bounds, &cause);
        }
        Answer::ReadFault => text.push_str("read fault"),
        Answer::WriteFault => text.push_str("write fault"),
        Answer::Memory => text.push_str("out of memory"),
    }
}

/// The line of an answer; Ok has none.
pub fn note_line(bounds: &Bounds, answer: &Answer) -> ArrayString<128>
    ensures bytes { result.bytes ≡ note_of bounds.now answer.now }
    ensures short { length result.bytes ≤ 128 }
{
    let mut text = Line::new();
    if let Answer::Ok = answer {
        return text;
    }
    put_answer(&mut text, bounds, answer);
    text.push_str("\n");
    text
}

/// Writes the line of an answer that is not Ok. It takes no memory, and a failure of it is of no account.
pub fn put_note<E: Sink>(note: &mut E, bounds: &Bounds, answer: &Answer)
    ensures gains { GainsNote (E.view note.old).told (E.view note.new).told (E.view note.old).faults
        (E.view note.new).faults (note_of bounds.now answer.now) }
    ensures short { length (note_of bounds.now answer.now) ≤ 128 }
    ensures later { (E.view note.old).faults ≤ (E.view note.new).faults }
{
    if let Answer::Ok = answer {
        return;
    }
    let text = note_line(bounds, answer);
    put_bytes(note, text.as_bytes());
}

/// Writes these bytes. A failure is of no account.
fn put_bytes<E: Sink>(note: &mut E, bytes: &[u8])
    ensures gains { GainsNote (E.view note.old).told (E.view note.new).told (E.view note.old).faults
        (E.view note.new).faults bytes.now }
    ensures later { (E.view note.old).faults ≤ (E.view note.new).faults }
{
    match write_all(note, bytes) {
        Ok(()) => {}
        Err(_) => {}
    }
}
