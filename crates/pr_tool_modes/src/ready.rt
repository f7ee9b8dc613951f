//! What is made before a run.
ghost use Rattle.std.specs.Prelude.{◌≡◌, ◌≤◌, ◌-◌, ◌^◌, [], length, IfOk, IfErr};
ghost use Rattle.pr_conf.specs.Configuration.{shape_of};
ghost use Rattle.pr_samples.specs.Stall.{turns_left};
ghost use Rattle.pr_machine.specs.Stands.{Stands, conf_of, stripes_of};
ghost use Rattle.pr_run.specs.Setting.{stall_turns};
ghost use Rattle.pr_tool_modes.specs.Ready.{IsReady, IsFeedOf};

use crate::jobs::Run;
use pr_base::Cap;
use pr_conf::Configuration;
use pr_machine::{Bare, LoadRefused, Machine, Running};
use pr_run::Room;
use pr_samples::{Feed, Stall};
use pr_tool_answers::Answer;
use std::alloc::{AllocError, Global};

/// All that a run takes.
#[derive(Drop)]
pub struct Ready<const N: usize, const P: usize> {
    /// A machine that was just loaded.
    pub machine: Machine<N, P, Running>,
    /// The samples, of which none was asked for.
    pub feed: Feed,
    /// The stall text.
    pub stall: Stall,
    /// The buffers.
    pub room: Room,
}

/// A machine of so many stripes that was just loaded.
fn load<const N: usize, const P: usize>(
    alloc: Global,
    conf: Configuration<N, P>,
    stripes: usize,
) -> Result<Machine<N, P, Running>, Answer>
    requires two { 2 ≤ stripes }
    requires most { stripes ≤ 256 }
    ensures loaded { IfOk result (λ m. Stands m (shape_of conf.entry) stripes []) }
    ensures refused { IfErr result (λ a. a ≡ Answer.Memory) }
{
    let machine = Machine::<N, P, Bare>::make(alloc, stripes)?;
    match machine.load(alloc, conf) {
        Ok(machine) => Ok(machine),
        Err(LoadRefused { .. }) => Err(Answer::Memory),
    }
}

/// At most so many samples of a file, for a machine.
fn open_feed<const N: usize, const P: usize>(
    alloc: Global,
    name: &str,
    most: u64,
    machine: &Machine<N, P, Running>,
) -> Result<Feed, AllocError>
    requires { most ≤ 2 ^ 40 }
    ensures { IfOk result (λ f. IsFeedOf most (conf_of machine.now).inputs name.now f) }
{
    Feed::make_within(alloc, name, &machine.conf().inputs, most)
}

/// All that a run of a configuration takes, as it is asked for, where so many samples came before.
pub fn make_ready<const N: usize, const P: usize>(
    alloc: Global,
    conf: Configuration<N, P>,
    before: u64,
    run: &Run<'_>,
    stall: Stall,
) -> Result<Ready<N, P>, Answer>
    requires before { before ≤ 2 ^ 40 }
    requires few { length (turns_left stall) ≤ 1048576 }
    ensures ready { IfOk result (λ r. IsReady r.machine r.feed r.stall (2 ^ 40 - before) run.now.samples.now) }
    ensures conf { IfOk result (λ r. conf_of r.machine ≡ shape_of conf.entry) }
    ensures stripes { IfOk result (λ r. stripes_of r.machine ≡ run.now.stripes) }
    ensures turns { IfOk result (λ r. stall_turns r.stall ≡ stall_turns stall) }
    ensures refused { IfErr result (λ a. a ≡ Answer.Memory) }
{
    let machine = load(alloc, conf, run.stripes)?;
    let feed = open_feed(alloc, run.samples, Cap::MOST_SAMPLES - before, &machine)?;
    let room = Room::make(alloc)?;
    Ok(Ready {
        machine,
        feed,
        stall,
        room,
    })
}
