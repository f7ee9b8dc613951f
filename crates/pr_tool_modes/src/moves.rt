//! Runs that go on from a checkpoint.
ghost use Rattle.std.specs.Prelude.{◌≤◌};
ghost use Rattle.pr_tool_modes.specs.Calls.{call, IsOrderly};
ghost use Rattle.pr_tool_modes.specs.Jobs.{resumption_of, IsResumedOnce};
ghost use Rattle.pr_tool_modes.specs.Resumptions.{HasMoved, IsNoFile};

use crate::benches::Bench;
use crate::checkpoints::read_checkpoint;
use crate::executions::run_from;
use crate::jobs::Resumption;
use pr_edge::{Shelf, Sink};
use pr_tool_answers::Answer;
use std::alloc::Global;

/// Runs the configuration of a checkpoint on further samples, as `execute` runs that of a file. The line of each result
/// goes to `out`, and the machine to the bench.
///
/// The samples before the checkpoint and the further ones together are at most as many as one run may have.
pub fn move_on<S: Shelf, K: Sink>(
    alloc: Global,
    resumption: &Resumption<'_>,
    shelf: &mut S,
    out: &mut K,
    bench: &mut Bench,
) -> Answer
    // What it came to: a refusal before the run, or the run.
    ensures ended { HasMoved (resumption_of resumption.now)
        (call (S.view shelf.old) (S.view shelf.new) (K.view out.old) (K.view out.new)) bench.old bench.new result }

    // Each file that it names once is read in order, and no byte of it twice. No other file is read.
    ensures orderly { IsOrderly (IsResumedOnce (resumption_of resumption.now)) (IsNoFile (resumption_of resumption.now))
        (S.view shelf.old) (S.view shelf.new) }
    ensures out_later { (K.view out.old).faults ≤ (K.view out.new).faults }
{
    match read_checkpoint(alloc, shelf, resumption.checkpoint) {
        Err(answer) => answer,
        Ok(origin) => run_from(alloc, origin, &resumption.run, shelf, out, bench),
    }
}
