//! What a call comes to.

ghost use Rattle.std.specs.Prelude.{◌≡◌, ◌≤◌};
ghost use Rattle.pr_tool.specs.Noted.{GainsNote};
ghost use Rattle.pr_lens_tool.specs.Outcomes.{status_of, bad_log_line, line_of, own_line, unshown_line};

use arrayvec::ArrayString;
use itoa::Buffer;
use pr_edge::{Sink, write_all};
use pr_lens_log::LogFault;
use pr_lens_why::Help;
use pr_tool::{Answer, Bounds, put_note};
use std::alloc::AllocError;

/// What a call comes to.
#[derive(Clone, Copy, PartialEq, Eq, Debug)]
pub enum Outcome {
    /// As `piperench` answers.
    Plain(Answer),
    /// A program is refused, as `piperench` refuses it, and these options make it fit.
    Refused { answer: Answer, help: Help },
    /// The same, and what was written explains it.
    Explained(Answer),
    /// As `piperench` answers, of samples on which streams are told or a bench is made.
    Streamed(Answer),
    /// The words are no lawful command line.
    Usage,
    /// The line of a log, counted from 1, is none.
    BadLog { line: usize },
    /// A log has no line of a cycle.
    NoCycle,
    /// No cycle of a log is shown. Its first one has this number, and its last one that.
    Unshown { first: u64, last: u64 },
    /// A log has too many bytes.
    LongLog,
    /// A module has too many bytes.
    LongModule,
    /// A bench has too many bytes.
    LongBench,
    /// The name at a place of the list of names, counted from 0, is that of no stream.
    NoStream { place: usize },
}

/// A text that is made whole, and what the call comes to where it is written.
#[derive(Drop)]
pub struct Output {
    pub text: Vec<u8>,
    pub outcome: Outcome,
}

/// What a call comes to, and what its line tells.
#[derive(Drop)]
pub struct Reply {
    pub outcome: Outcome,
    /// The limits that an answer's own line tells.
    pub bounds: Bounds,
    /// The line in place of an answer's own, where it tells more; or memory was wanting for it, and the own line is told.
    pub line: Result<Option<Vec<u8>>, AllocError>,
}

/// The line for words that are no lawful command line.
const USAGE: &str =
    "usage: pipelens TASK FILE [SAMPLES] [--fabric F] [--narrow] [--samples N] [--json] [--csv] [--signed NAME,..] [--no-warnings] [--name MODULE] [--seed N] [--from T] [--to T]; pipelens --help says more\n";

/// The line for a log without a cycle.
const NO_CYCLE: &str = "bad log: no cycle\n";

/// The line for a log with too many bytes.
const LONG: &str = "limit: log-bytes 17592186044416\n";

/// The line for a module with too many bytes.
const LONG_MODULE: &str = "limit: module-bytes 16777216\n";

/// The line for a bench with too many bytes.
const LONG_BENCH: &str = "limit: bench-bytes 16777216\n";
/// The line for a name that no stream has, where memory wants for the name.
const NO_STREAM: &str = "no stream\n";

impl Outcome {
    /// The status with which a process ends.
    pub fn status(&self) -> u8
        ensures { result ≡ status_of self.now }
    {
        match self {
            Outcome::Plain(answer) | Outcome::Explained(answer) => answer.status(),
            Outcome::Streamed(answer) | Outcome::Refused { answer, help: _ } => answer.status(),
            Outcome::Usage | Outcome::NoStream { .. } => 2,
            Outcome::BadLog { .. } | Outcome::NoCycle | Outcome::Unshown { .. } => 15,
            Outcome::LongLog | Outcome::LongModule | Outcome::LongBench => 6,
        }
    }
}

/// The line for a line of a log that is none.
fn bad_log(line: usize) -> ArrayString<64>
    ensures { result.bytes ≡ bad_log_line line }
{
    let mut text = ArrayString::new();
    text.push_str("bad log: line ");
    let mut buffer = Buffer::new();
    text.push_str(buffer.format(line));
    text.push_str("\n");
    text
}

/// The line for a log of which no cycle is shown.
fn unshown(first: u64, last: u64) -> ArrayString<96>
    ensures { result.bytes ≡ unshown_line first last }
{
    let mut text = ArrayString::new();
    text.push_str("no such cycle: the log has cycles ");
    let mut buffer = Buffer::new();
    text.push_str(buffer.format(first));
    text.push_str(" to ");
    text.push_str(buffer.format(last));
    text.push_str("\n");
    text
}

/// Writes these bytes. A failure is of no account.
fn put_bytes<E: Sink>(note: &mut E, bytes: &[u8])
    ensures gains { GainsNote (E.view note.old).told (E.view note.new).told (E.view note.old).faults
        (E.view note.new).faults bytes.now }
    ensures later { (E.view note.old).faults ≤ (E.view note.new).faults }
{
    match write_all(note, bytes) {
        Ok(()) => {}
        Err(_) => {}
    }
}

impl Reply {
    /// Writes the line that is told beside what is written, where there is one. A failure of it is of no account.
    pub fn put_note<E: Sink>(&self, note: &mut E)
        ensures gains { GainsNote (E.view note.old).told (E.view note.new).told (E.view note.old).faults
            (E.view note.new).faults (line_of self.now) }
        ensures later { (E.view note.old).faults ≤ (E.view note.new).faults }
    {
        match &self.line {
            Ok(Some(line)) => put_bytes(note, line),
            Ok(None) | Err(_) => self.put_own(note),
        }
    }

    /// Writes the line of the outcome itself, where there is one.
    fn put_own<E: Sink>(&self, note: &mut E)
        ensures gains { GainsNote (E.view note.old).told (E.view note.new).told (E.view note.old).faults
            (E.view note.new).faults (own_line self.now) }
        ensures later { (E.view note.old).faults ≤ (E.view note.new).faults }
    {
        match self.outcome {
            Outcome::Plain(answer) | Outcome::Streamed(answer) => {
                put_note(note, &self.bounds, &answer);
            }
            Outcome::Refused { answer, help: _ } => put_note(note, &self.bounds, &answer),
            Outcome::Explained(_) => {}
            Outcome::Usage => put_bytes(note, USAGE.as_bytes()),
            Outcome::BadLog { line } => {
                let text = bad_log(line);
                put_bytes(note, text.as_bytes());
            }
            Outcome::NoCycle => put_bytes(note, NO_CYCLE.as_bytes()),
            Outcome::Unshown { first, last } => {
                let text = unshown(first, last);
                put_bytes(note, text.as_bytes());
            }
            Outcome::LongLog => put_bytes(note, LONG.as_bytes()),
            Outcome::LongModule => put_bytes(note, LONG_MODULE.as_bytes()),
            Outcome::LongBench => put_bytes(note, LONG_BENCH.as_bytes()),
            Outcome::NoStream { .. } => put_bytes(note, NO_STREAM.as_bytes()),
        }
    }
}

impl From<AllocError> for Outcome {
    ghost use Rattle.std.specs.Prelude.{◌≡◌};
    ghost use Rattle.pr_tool_answers.specs.declared.answers.Answer.{Answer};
    ghost use Rattle.pr_lens_tool.specs.declared.outcomes.Outcome.TheVariants.{Plain};

    ghost from_gives = { λ a e. e ≡ Plain Answer.Memory };

    fn from(_error: AllocError) -> Outcome {
        Outcome::Plain(Answer::Memory)
    }
}

impl From<LogFault> for Outcome {
    ghost use Rattle.std.specs.Prelude.{◌≡◌};
    ghost use Rattle.pr_lens_tool.specs.Logs.{outcome_of};

    ghost from_gives = { λ a e. e ≡ outcome_of a };

    fn from(fault: LogFault) -> Outcome {
        match fault {
            LogFault::BadLine { line } => Outcome::BadLog { line },
            LogFault::NoCycle => Outcome::NoCycle,
            LogFault::Memory(_) => Outcome::Plain(Answer::Memory),
        }
    }
}
