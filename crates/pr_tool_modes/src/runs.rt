//! A run, and what it came to.
ghost use Rattle.std.specs.Prelude.{◌≡◌, ◌≢◌, ◌≤◌, ℕ, List};
ghost use Rattle.pr_edge.specs.Count.{Rose};
ghost use Rattle.pr_samples.specs.Feed.{name_of, most_of};
ghost use Rattle.pr_tool_modes.specs.Files.{IsInOrder};
ghost use Rattle.pr_tool_modes.specs.Ready.{IsReady};
ghost use Rattle.pr_tool_modes.specs.Runs.{answer_by, course_from, IsRun};

use crate::ready::Ready;
use pr_edge::{Shelf, Sink};
use pr_machine::{Machine, Running};
use pr_run::{RunEnd, run};
use pr_tool_answers::Answer;

/// A run that is over.
#[derive(Drop)]
pub struct Over<const N: usize, const P: usize> {
    /// What it came to.
    pub answer: Answer,
    /// The machine, as the run left it.
    pub machine: Machine<N, P, Running>,
}

/// What a run came to.
fn answer_of(end: RunEnd) -> Answer
    ensures { result ≡ answer_by end }
{
    match end {
        RunEnd::Done { .. } => Answer::Ok,
        RunEnd::BadSample { line } => Answer::BadSample { line },
        RunEnd::ReadFault => Answer::ReadFault,
        RunEnd::WriteFault => Answer::WriteFault,
        RunEnd::Limit(which) => Answer::Limit { which },
    }
}

/// Runs all samples, with the log or without it. No memory is taken.
pub fn run_all<const N: usize, const P: usize, S: Shelf, K: Sink>(
    ready: Ready<N, P>,
    log: bool,
    shelf: &mut S,
    out: &mut K,
) -> Over<N, P>
    requires { IsReady ready.machine ready.feed ready.stall (most_of ready.feed) (name_of ready.feed) }
    ensures ran { IsRun (course_from ready.entry log (S.view shelf.old) (S.view shelf.new)
        (K.view out.old).told (K.view out.new).told) result.machine result.answer }
    ensures write_fault { result.answer ≡ Answer.WriteFault → Rose (K.view out.old).faults (K.view out.new).faults }
    ensures told { (S.view shelf.new).told ≡ (S.view shelf.old).told }
    ensures once { IsInOrder ((S.view shelf.old).reach (name_of ready.entry.feed))
        ((S.view shelf.new).reach (name_of ready.entry.feed)) }
    ensures others { (q : List ℕ) → q ≢ name_of ready.entry.feed
        → (S.view shelf.new).reach q ≡ (S.view shelf.old).reach q }
    ensures shelf_later { (S.view shelf.old).faults ≤ (S.view shelf.new).faults }
    ensures out_later { (K.view out.old).faults ≤ (K.view out.new).faults }
{
    let Ready {
        mut machine,
        mut feed,
        mut stall,
        mut room,
    } = ready;
    let end = run(
        &mut machine,
        &mut feed,
        shelf,
        &mut stall,
        out,
        log,
        &mut room,
    );
    Over {
        answer: answer_of(end),
        machine,
    }
}
