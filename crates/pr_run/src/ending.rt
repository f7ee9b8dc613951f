//! The end of a run.
ghost use Rattle.std.specs.Prelude.{ℕ, ◌≡◌, ◌≤◌, false, IfOk, OnOk, OnErr};
ghost use Rattle.pr_edge.specs.Count.{Rose};
ghost use Rattle.pr_edge.specs.Tape.{Appends, AppendsFront};
ghost use Rattle.pr_samples.specs.declared.feed.Feed.{Feed};
ghost use Rattle.pr_samples.specs.Got.{is_sample};
ghost use Rattle.pr_machine.specs.Stands.{time_of};
ghost use Rattle.pr_edge.specs.Files.{View};
ghost use Rattle.pr_run.specs.Setting.{Setting, IsSet};
ghost use Rattle.pr_run.specs.Turns.{logged_end};
ghost use Rattle.pr_run.specs.Runs.{IsEnded, IsFinished, Ran};

use pr_base::Cap;
use pr_edge::{Sink, WriteFault, write_all};
use pr_log::end_line;
use pr_machine::{Machine, Running};
use pr_samples::Got;

/// How a run ended.
#[derive(Clone, Copy, PartialEq, Eq, Debug)]
pub enum RunEnd {
    /// All samples were good and all results were written: the cycles that advanced, those that were stalled, and the
    /// number of results.
    Done {
        cycles: u64,
        stalls: u64,
        results: u64,
    },
    /// The line of this number, counted from 1, is no sample. All results of the samples before it were written.
    BadSample {
        line: u64,
    },
    /// The samples could not be read further. All results of those before were written.
    ReadFault,
    /// A result or a line of the log could not be written.
    WriteFault,
    /// The samples passed this limit. All results of those before were written.
    Limit(Cap),
}

/// The end of a run before its last line: how the samples ended, and how many cycles were asked for.
#[derive(Clone, Copy)]
pub struct Finished {
    pub last: Got,
    pub asked: u64,
}

/// Writes the last line of the log, where the log is asked for.
fn write_end<K: Sink>(
    out: &mut K,
    log: bool,
    cycles: u64,
    stalls: u64,
    results: u64,
) -> Result<(), WriteFault>
    ensures all { OnOk result
        (Appends (K.view out.old).told (K.view out.new).told (logged_end log cycles stalls results)) }
    ensures front { OnErr result
        (AppendsFront (K.view out.old).told (K.view out.new).told (logged_end log cycles stalls results)) }
    ensures cause { OnErr result (Rose (K.view out.old).faults (K.view out.new).faults) }
    ensures later { (K.view out.old).faults ≤ (K.view out.new).faults }
{
    if !log {
        return Ok(());
    }
    let text = end_line(cycles, stalls, results);
    write_all(out, text.as_bytes())
}

/// The end of a run of good samples, for which so many cycles were asked.
fn close<const N: usize, const P: usize, K: Sink>(
    machine: &Machine<N, P, Running>,
    out: &mut K,
    log: bool,
    asked: u64,
) -> RunEnd
    requires { time_of machine.now ≤ asked }
    ensures ran { (s : Setting) (f : Feed) (now : View) → IsSet s → s.log ≡ log
        → IsFinished s machine.now f now (K.view out.old).told (record { last = Got.End; asked = asked })
        → Ran s machine.now f now (K.view out.new).told result }
    ensures cause { result ≡ RunEnd.WriteFault → Rose (K.view out.old).faults (K.view out.new).faults }
    ensures later { (K.view out.old).faults ≤ (K.view out.new).faults }
{
    let cycles = machine.time();
    let results = machine.left();
    let stalls = asked - cycles;
    match write_end(out, log, cycles, stalls, results) {
        Ok(()) => RunEnd::Done {
            cycles,
            stalls,
            results,
        },
        Err(_) => RunEnd::WriteFault,
    }
}

/// The end of a run of which all turns were made.
pub fn finish<const N: usize, const P: usize, K: Sink>(
    machine: &Machine<N, P, Running>,
    out: &mut K,
    log: bool,
    end: Result<Finished, WriteFault>,
) -> RunEnd
    requires ended { IfOk end (λ e. is_sample e.last ≡ false) }
    requires asked { IfOk end (λ e. time_of machine.now ≤ e.asked) }
    ensures ran { (s : Setting) (f : Feed) (now : View) → IsSet s → s.log ≡ log
        → IsEnded s machine.now f now (K.view out.old).told end → Ran s machine.now f now (K.view out.new).told result }
    ensures cause { (before : ℕ) → before ≤ (K.view out.old).faults → OnErr end (Rose before (K.view out.old).faults)
        → result ≡ RunEnd.WriteFault → Rose before (K.view out.new).faults }
    ensures later { (K.view out.old).faults ≤ (K.view out.new).faults }
{
    match end {
        Err(_) => RunEnd::WriteFault,
        Ok(Finished { last, asked }) => match last {
            Got::Sample => unreachable!(),
            Got::End => close(machine, out, log, asked),
            Got::BadSample { line } => RunEnd::BadSample { line },
            Got::ReadFault => RunEnd::ReadFault,
            Got::Limit(cap) => RunEnd::Limit(cap),
        },
    }
}
