//! A configuration that is run on samples.
ghost use Rattle.std.specs.Prelude.{◌≡◌, ◌≢◌, ◌≤◌, ◌^◌, ◌⊎◌, ℕ, List, Some, IfOk, IfErr, OnErr};
ghost use Rattle.pr_edge.specs.Count.{Rose};
ghost use Rattle.pr_conf.specs.Configuration.{shape_of};
ghost use Rattle.pr_tool_modes.specs.Calls.{call, IsOrderly};
ghost use Rattle.pr_tool_modes.specs.Files.{ShowsFault};
ghost use Rattle.pr_tool_modes.specs.Jobs.{job_on, job_of, stall_in, IsNoStall, IsNotBoth, IsApart, IsNamedOnce, IsNotNamed};
ghost use Rattle.pr_tool_modes.specs.Sources.{ConfSource, count_in};
ghost use Rattle.pr_tool_modes.specs.Stalls.{IsStallRefusal};
ghost use Rattle.pr_tool_modes.specs.Executions.{HasRun, IsRunOn, IsRunOf, HasCome};

use crate::benches::Bench;
use crate::jobs::{Job, Run};
use crate::loadables::{Loadable, Origin};
use crate::ready::make_ready;
use crate::runs::{Over, run_all};
use crate::sources::load;
use crate::stalls::read_stall;
use pr_conf::Configuration;
use pr_edge::{Shelf, Sink};
use pr_tool_answers::Answer;
use std::alloc::Global;

/// Runs a configuration as it is asked for, where so many samples came before. The stall text is read first, and then the samples
/// as the run asks for them. Where the stall text is refused, or there is no memory, nothing is written. After the run has begun
/// no memory is taken.
fn run_on<const N: usize, const P: usize, S: Shelf, K: Sink>(
    alloc: Global,
    conf: Configuration<N, P>,
    before: u64,
    run: &Run<'_>,
    shelf: &mut S,
    out: &mut K,
) -> Result<Over<N, P>, Answer>
    requires { before ≤ 2 ^ 40 }
    ensures ran { (source : ConfSource) → count_in source ≡ before
        → IfOk result (λ o. HasRun (IsNoStall (job_on source run.now)) (shape_of conf.entry) (job_on source run.now)
        (S.view shelf.old) (S.view shelf.new) (K.view out.old).told (K.view out.new).told o.machine o.answer) }
    ensures refused { IfErr result
        (λ a. IsStallRefusal (S.view shelf.old).told (stall_in run.now) (S.view shelf.old).faults
        (S.view shelf.new).faults a
        ⊎ (a ≡ Answer.Memory)) }
    ensures shown { IfErr result (ShowsFault (S.view shelf.old).faults (S.view shelf.new).faults) }
    ensures unwritten { OnErr result ((K.view out.new).told ≡ (K.view out.old).told) }
    ensures unread { OnErr result
        ((q : List ℕ) → stall_in run.now ≢ Some q → (S.view shelf.new).reach q ≡ (S.view shelf.old).reach q) }
    ensures write_fault { IfOk result
        (λ o. o.answer ≡ Answer.WriteFault → Rose (K.view out.old).faults (K.view out.new).faults) }
    ensures orderly { IsOrderly (IsNotBoth run.now.samples.now (stall_in run.now))
        (IsApart run.now.samples.now (stall_in run.now)) (S.view shelf.old) (S.view shelf.new) }
    ensures out_later { (K.view out.old).faults ≤ (K.view out.new).faults }
{
    let stall = read_stall(alloc, shelf, run.stall)?;
    let ready = make_ready(alloc, conf, before, run, stall)?;
    Ok(run_all(ready, run.log, shelf, out))
}

/// A run of a configuration of either fabric that is over.
#[derive(Drop)]
pub struct Ran {
    /// What it came to.
    pub answer: Answer,
    /// Its machine.
    pub bench: Bench,
}

/// Runs a configuration as it is asked for, on the fabric that it is for. Where the stall text is refused, or there is no memory,
/// nothing is written.
pub fn run_either<S: Shelf, K: Sink>(
    alloc: Global,
    origin: Origin,
    run: &Run<'_>,
    shelf: &mut S,
    out: &mut K,
) -> Result<Ran, Answer>
    // Whatever the source that the configuration comes from.
    ensures ran { (source : ConfSource) → count_in source ≡ origin.before
        → IfOk result (λ r. IsRunOn origin.conf (job_on source run.now)
        (call (S.view shelf.old) (S.view shelf.new) (K.view out.old) (K.view out.new)) r.bench r.answer) }
    ensures left { IfOk result (λ r. r.bench ≢ Bench.Nothing) }
    ensures refused { IfErr result
        (λ a. IsStallRefusal (S.view shelf.old).told (stall_in run.now) (S.view shelf.old).faults
        (S.view shelf.new).faults a
        ⊎ (a ≡ Answer.Memory)) }
    ensures shown { IfErr result (ShowsFault (S.view shelf.old).faults (S.view shelf.new).faults) }
    ensures unwritten { OnErr result ((K.view out.new).told ≡ (K.view out.old).told) }
    ensures unread { OnErr result
        ((q : List ℕ) → stall_in run.now ≢ Some q → (S.view shelf.new).reach q ≡ (S.view shelf.old).reach q) }
    ensures orderly { IsOrderly (IsNotBoth run.now.samples.now (stall_in run.now))
        (IsApart run.now.samples.now (stall_in run.now)) (S.view shelf.old) (S.view shelf.new) }
    ensures out_later { (K.view out.old).faults ≤ (K.view out.new).faults }
{
    let Origin { conf, before } = origin;
    match conf {
        Loadable::Base(conf) => {
            let over = run_on(alloc, conf, before, run, shelf, out)?;
            Ok(Ran {
                answer: over.answer,
                bench: Bench::Base(over.machine),
            })
        }
        Loadable::Wide(conf) => {
            let over = run_on(alloc, conf, before, run, shelf, out)?;
            Ok(Ran {
                answer: over.answer,
                bench: Bench::Wide(over.machine),
            })
        }
    }
}

/// Runs a configuration as it is asked for, on the fabric that it is for, and leaves the machine on the bench. Where the stall text
/// is refused, or there is no memory, nothing is written and the bench is as it was.
pub fn run_from<S: Shelf, K: Sink>(
    alloc: Global,
    origin: Origin,
    run: &Run<'_>,
    shelf: &mut S,
    out: &mut K,
    bench: &mut Bench,
) -> Answer
    // Whatever the source that the configuration comes from.
    ensures ended { (source : ConfSource) → count_in source ≡ origin.before → IsRunOf origin.conf (job_on source run.now)
        (call (S.view shelf.old) (S.view shelf.new) (K.view out.old) (K.view out.new)) bench.old bench.new result }
    ensures orderly { IsOrderly (IsNotBoth run.now.samples.now (stall_in run.now))
        (IsApart run.now.samples.now (stall_in run.now)) (S.view shelf.old) (S.view shelf.new) }
    ensures out_later { (K.view out.old).faults ≤ (K.view out.new).faults }
{
    match run_either(alloc, origin, run, shelf, out) {
        Err(answer) => answer,
        Ok(ran) => {
            *bench = ran.bench;
            ran.answer
        }
    }
}

/// Runs a configuration as the job says, on the fabric that it is for, and leaves the machine on the bench. Where the stall text
/// is refused, or there is no memory, nothing is written and the bench is as it was.
pub fn run_loaded<S: Shelf, K: Sink>(
    alloc: Global,
    loaded: Loadable,
    job: &Job<'_>,
    shelf: &mut S,
    out: &mut K,
    bench: &mut Bench,
) -> Answer
    ensures ended { IsRunOf loaded (job_of job.now)
        (call (S.view shelf.old) (S.view shelf.new) (K.view out.old) (K.view out.new)) bench.old bench.new result }
    ensures orderly { IsOrderly (IsNotBoth (job_of job.now).second (job_of job.now).stall)
        (IsApart (job_of job.now).second (job_of job.now).stall) (S.view shelf.old) (S.view shelf.new) }
    ensures out_later { (K.view out.old).faults ≤ (K.view out.new).faults }
{
    let origin = Origin {
        conf: loaded,
        before: 0,
    };
    run_from(alloc, origin, &job.run, shelf, out, bench)
}

/// Runs a configuration on the samples of a file, with the job's stripes and stall file. The line of each result goes
/// to `out`, with the log among them if the job asks for it. The machine goes to the bench.
///
/// The source is read first, then the stall text, and then the samples as the run asks for them. Where one of the first two is
/// refused, or there is no memory, nothing is written and the bench is as it was. After the run has begun no memory is taken.
pub fn execute<S: Shelf, K: Sink>(
    alloc: Global,
    job: &Job<'_>,
    shelf: &mut S,
    out: &mut K,
    bench: &mut Bench,
) -> Answer
    // What it came to: a refusal before the run, or the run.
    ensures ended { HasCome (job_of job.now)
        (call (S.view shelf.old) (S.view shelf.new) (K.view out.old) (K.view out.new)) bench.old bench.new result }

    // Each file that the job names once is read in order, and no byte of it twice. No other file is read.
    ensures orderly { IsOrderly (IsNamedOnce (job_of job.now)) (IsNotNamed (job_of job.now))
        (S.view shelf.old) (S.view shelf.new) }
    ensures out_later { (K.view out.old).faults ≤ (K.view out.new).faults }
{
    match load(alloc, &job.source, shelf) {
        Err(answer) => answer,
        Ok(loaded) => run_loaded(alloc, loaded, job, shelf, out, bench),
    }
}
