//! A configuration that is run on samples for the checkpoint after them.
ghost use Rattle.std.specs.Prelude.{◌≡◌, ◌≢◌, ◌≤◌, ◌+◌, ◌^◌, ℕ, List, false, IfOk, IfErr};
ghost use Rattle.pr_conf.specs.Configuration.{shape_of};
ghost use Rattle.pr_edge.specs.Tape.{untold};
ghost use Rattle.pr_samples.specs.Feed.{name_of, most_of};
ghost use Rattle.pr_tool_modes.specs.Calls.{call, IsOrderly};
ghost use Rattle.pr_tool_modes.specs.Files.{IsInOrder};
ghost use Rattle.pr_tool_modes.specs.Jobs.{job_on, job_of, stall_in, resumption_of, IsNoStall, IsNotBoth, IsApart, IsNamedOnce, IsNotNamed, IsResumedOnce};
ghost use Rattle.pr_tool_modes.specs.Ready.{IsReady};
ghost use Rattle.pr_tool_modes.specs.Resumptions.{IsNoFile};
ghost use Rattle.pr_tool_modes.specs.Runs.{course_from};
ghost use Rattle.pr_tool_modes.specs.Sources.{ConfSource, count_in, columns_in, registers_in, shape_in};
ghost use Rattle.pr_tool_modes.specs.Texts.{IsPut};
ghost use Rattle.pr_tool_modes.specs.Folds.{HasMarked, IsUnmarked, HasRunFor, IsUnfolded, IsFoldOf, IsFolded, HasExtended};

use crate::checkpoints::read_checkpoint;
use crate::jobs::{Job, Resumption, Run};
use crate::loadables::{Loadable, Origin};
use crate::ready::{Ready, make_ready};
use crate::sources::load;
use crate::stalls::read_stall;
use pr_conf::Configuration;
use pr_edge::{Shelf, Sink, write_all};
use pr_move::{finish, mark_of};
use pr_run::RunEnd;
use pr_tool_answers::Answer;
use std::alloc::Global;

/// Runs all samples and drops their results. Where they are all good, the checkpoint after them, and so many before.
fn fold_all<const N: usize, const P: usize, S: Shelf>(
    alloc: Global,
    ready: Ready<N, P>,
    before: u64,
    shelf: &mut S,
) -> Result<Vec<u8>, Answer>
    requires ready { IsReady ready.machine ready.feed ready.stall (most_of ready.feed) (name_of ready.feed) }
    requires most { before + most_of ready.feed ≤ 2 ^ 40 }
    ensures marked { IfOk result
        (λ v. HasMarked N P
        (course_from ready.entry false (S.view shelf.old) (S.view shelf.new) untold untold) before v.items) }
    ensures unmarked { IfErr result (IsUnmarked
        (course_from ready.entry false (S.view shelf.old) (S.view shelf.new) untold untold)) }
    ensures told { (S.view shelf.new).told ≡ (S.view shelf.old).told }
    ensures once { IsInOrder ((S.view shelf.old).reach (name_of ready.entry.feed))
        ((S.view shelf.new).reach (name_of ready.entry.feed)) }
    ensures others { (q : List ℕ) → q ≢ name_of ready.entry.feed
        → (S.view shelf.new).reach q ≡ (S.view shelf.old).reach q }
    ensures later { (S.view shelf.old).faults ≤ (S.view shelf.new).faults }
{
    let Ready {
        mut machine,
        mut feed,
        mut stall,
        mut room,
    } = ready;
    match finish(&mut machine, &mut feed, shelf, &mut stall, &mut room) {
        RunEnd::Done { .. } => match mark_of(alloc, machine, before) {
            Ok(text) => Ok(text),
            Err(_) => Err(Answer::Memory),
        },
        RunEnd::BadSample { line } => Err(Answer::BadSample { line }),
        RunEnd::ReadFault => Err(Answer::ReadFault),
        RunEnd::WriteFault => unreachable!(),
        RunEnd::Limit(which) => Err(Answer::Limit { which }),
    }
}

/// The checkpoint of a configuration that is run as it is asked for, where so many samples came before. The stall text is read
/// first, and then the samples.
fn fold_on<const N: usize, const P: usize, S: Shelf>(
    alloc: Global,
    conf: Configuration<N, P>,
    before: u64,
    run: &Run<'_>,
    shelf: &mut S,
) -> Result<Vec<u8>, Answer>
    requires { before ≤ 2 ^ 40 }
    ensures marked { (source : ConfSource) → count_in source ≡ before
        → IfOk result (λ v. HasRunFor (IsNoStall (job_on source run.now)) (shape_of conf.entry) (job_on source run.now)
        (S.view shelf.old) (S.view shelf.new) (λ r. HasMarked N P r before v.items)) }
    ensures refused { (source : ConfSource) → count_in source ≡ before
        → IfErr result (IsUnfolded (shape_of conf.entry) (job_on source run.now)
        (S.view shelf.old) (S.view shelf.new)) }
    ensures orderly { IsOrderly (IsNotBoth run.now.samples.now (stall_in run.now))
        (IsApart run.now.samples.now (stall_in run.now)) (S.view shelf.old) (S.view shelf.new) }
{
    let stall = read_stall(alloc, shelf, run.stall)?;
    let ready = make_ready(alloc, conf, before, run, stall)?;
    fold_all(alloc, ready, before, shelf)
}

/// The same of a configuration of either fabric.
fn fold_loaded<S: Shelf>(
    alloc: Global,
    origin: Origin,
    run: &Run<'_>,
    shelf: &mut S,
) -> Result<Vec<u8>, Answer>
    ensures marked { (source : ConfSource) → count_in source ≡ origin.before
        → IfOk result (λ v. HasRunFor (IsNoStall (job_on source run.now)) (shape_in origin.conf) (job_on source run.now)
        (S.view shelf.old) (S.view shelf.new)
        (λ r. HasMarked (columns_in origin.conf) (registers_in origin.conf) r origin.before v.items)) }
    ensures refused { (source : ConfSource) → count_in source ≡ origin.before
        → IfErr result (IsUnfolded (shape_in origin.conf) (job_on source run.now)
        (S.view shelf.old) (S.view shelf.new)) }
    ensures orderly { IsOrderly (IsNotBoth run.now.samples.now (stall_in run.now))
        (IsApart run.now.samples.now (stall_in run.now)) (S.view shelf.old) (S.view shelf.new) }
{
    let Origin { conf, before } = origin;
    match conf {
        Loadable::Base(conf) => fold_on(alloc, conf, before, run, shelf),
        Loadable::Wide(conf) => fold_on(alloc, conf, before, run, shelf),
    }
}

/// Writes a checkpoint.
fn put_mark<K: Sink>(text: &[u8], out: &mut K) -> Answer
    ensures put { IsPut text.now (K.view out.old).told (K.view out.new).told
        (K.view out.old).faults (K.view out.new).faults result }
    ensures later { (K.view out.old).faults ≤ (K.view out.new).faults }
{
    match write_all(out, text) {
        Ok(()) => Answer::Ok,
        Err(_) => Answer::WriteFault,
    }
}

/// Runs a configuration as it is asked for, drops the results, and writes the checkpoint after its samples. It is made whole before
/// its first byte is written. Samples that end otherwise than with their file give none.
fn fold_from<S: Shelf, K: Sink>(
    alloc: Global,
    origin: Origin,
    run: &Run<'_>,
    shelf: &mut S,
    out: &mut K,
) -> Answer
    ensures ended { (source : ConfSource) → count_in source ≡ origin.before
        → IsFoldOf origin.conf origin.before (job_on source run.now)
        (call (S.view shelf.old) (S.view shelf.new) (K.view out.old) (K.view out.new)) result }
    ensures orderly { IsOrderly (IsNotBoth run.now.samples.now (stall_in run.now))
        (IsApart run.now.samples.now (stall_in run.now)) (S.view shelf.old) (S.view shelf.new) }
    ensures out_later { (K.view out.old).faults ≤ (K.view out.new).faults }
{
    match fold_loaded(alloc, origin, run, shelf) {
        Ok(text) => put_mark(&text, out),
        Err(answer) => answer,
    }
}

/// Runs a configuration on the samples of a file, and writes the checkpoint after them. A checkpoint is the number of
/// samples, and the configuration whose stages begin in the states that the samples left.
///
/// The source is read first, then the stall text, and then the samples. Where one of them is refused, or there is no memory,
/// nothing is written.
pub fn fold<S: Shelf, K: Sink>(alloc: Global, job: &Job<'_>, shelf: &mut S, out: &mut K) -> Answer
    ensures ended { IsFolded (job_of job.now)
        (call (S.view shelf.old) (S.view shelf.new) (K.view out.old) (K.view out.new)) result }

    // Each file that the job names once is read in order, and no byte of it twice. No other file is read.
    ensures orderly { IsOrderly (IsNamedOnce (job_of job.now)) (IsNotNamed (job_of job.now))
        (S.view shelf.old) (S.view shelf.new) }
    ensures out_later { (K.view out.old).faults ≤ (K.view out.new).faults }
{
    match load(alloc, &job.source, shelf) {
        Err(answer) => answer,
        Ok(conf) => fold_from(alloc, Origin { conf, before: 0 }, &job.run, shelf, out),
    }
}

/// Runs the configuration of a checkpoint on further samples and writes the checkpoint after these, as `fold` does it. The number
/// of its samples counts those before, too.
pub fn extend<S: Shelf, K: Sink>(
    alloc: Global,
    resumption: &Resumption<'_>,
    shelf: &mut S,
    out: &mut K,
) -> Answer
    ensures ended { HasExtended (resumption_of resumption.now)
        (call (S.view shelf.old) (S.view shelf.new) (K.view out.old) (K.view out.new)) result }

    // Each file that it names once is read in order, and no byte of it twice. No other file is read.
    ensures orderly { IsOrderly (IsResumedOnce (resumption_of resumption.now)) (IsNoFile (resumption_of resumption.now))
        (S.view shelf.old) (S.view shelf.new) }
    ensures out_later { (K.view out.old).faults ≤ (K.view out.new).faults }
{
    match read_checkpoint(alloc, shelf, resumption.checkpoint) {
        Err(answer) => answer,
        Ok(origin) => fold_from(alloc, origin, &resumption.run, shelf, out),
    }
}
