//! Runs over files in memory, and what is checked of them.

ghost use Rattle.std.specs.Prelude.{◌≡◌, ◌≤◌, [], IfOk, length};
ghost use Rattle.pr_machine.specs.Stands.{Stands, conf_of, stripes_of};
ghost use Rattle.pr_run.specs.Setting.{IsFresh};
ghost use Rattle.pr_samples.specs.Feed.{widths_of};
ghost use Rattle.pr_samples.specs.Stall.{turns_left};

use crate::configurations::{Program, XOR, configuration_of};
use pr_edge::{MemShelf, MemSink, Shelf, Sink};
use pr_machine::{Bare, Machine, Running};
use pr_run::{Room, RunEnd, run};
use pr_samples::{Feed, Stall};
use std::alloc::{AllocError, Global};
use std::fmt::Write;
use std::process::Abort;

/// How a program is run: on so many stripes, under this stall text, with a log or without, on these samples, and the
/// reads and writes that fail.
#[derive(Clone, Copy)]
pub(crate) struct Trial<'a> {
    pub(crate) program: Program,
    pub(crate) stripes: usize,
    pub(crate) turns: &'a [u8],
    pub(crate) log: bool,
    pub(crate) samples: &'a str,
    pub(crate) reads: &'a [u64],
    pub(crate) writes: &'a [u64],
}

/// The exclusive or on 16 stripes, without samples, where nothing is held and nothing fails.
pub(crate) const FREE: Trial<'static> = Trial {
    program: XOR,
    stripes: 16,
    turns: b"",
    log: false,
    samples: "",
    reads: &[],
    writes: &[],
};

/// A shelf with the samples in the file `s`, of which these reads fail.
fn shelf_of(alloc: Global, trial: Trial<'_>) -> Result<MemShelf, AllocError> {
    let samples = trial.samples.as_bytes().to_vec(alloc)?;
    let failing = trial.reads.to_vec(alloc)?;
    let files = vec![in alloc; (String::from_str(alloc, "s")?, samples)]?;
    MemShelf::make(alloc, files, failing)
}

/// A new machine that is loaded with a program.
fn loaded(
    alloc: Global,
    program: Program,
    stripes: usize,
) -> Result<Machine<16, 8, Running>, AllocError>
    requires two { 2 ≤ stripes }
    requires few { stripes ≤ 256 }
    ensures { IfOk result (λ m. Stands m (conf_of m) (stripes_of m) []) }
{
    let conf = configuration_of(alloc, program)?;
    match Machine::<16, 8, Bare>::make(alloc, stripes)?.load(alloc, conf) {
        Ok(machine) => Ok(machine),
        Err(_) => Err(AllocError),
    }
}

/// The feed of the file `s` with the widths of a machine's inputs.
fn feed_of(alloc: Global, machine: &Machine<16, 8, Running>) -> Result<Feed, AllocError>
    ensures fresh { IfOk result (λ f. IsFresh f) }
    ensures inputs { IfOk result (λ f. widths_of f ≡ (conf_of machine.now).inputs) }
{
    Feed::make(alloc, "s", &machine.conf().inputs)
}

/// The stalls of this text.
fn stall_of(alloc: Global, turns: &[u8]) -> Result<Stall, AllocError>
    requires { length turns.now ≤ 1048576 }
    ensures { IfOk result (λ s. length (turns_left s) ≤ 1048576) }
{
    let text = Vec::from_slice(alloc, turns)?;
    Stall::make(text).map_err(|_| AllocError)
}

/// Runs a machine that was loaded, on the samples of the file `s`.
fn outcome<S: Shelf, K: Sink>(
    alloc: Global,
    machine: &mut Machine<16, 8, Running>,
    trial: Trial<'_>,
    shelf: &mut S,
    out: &mut K,
) -> Result<RunEnd, AllocError>
    requires loaded { Stands machine.old (conf_of machine.old) (stripes_of machine.old) [] }
    requires turns { length trial.turns.now ≤ 1048576 }
{
    let mut feed = feed_of(alloc, machine)?;
    let mut stall = stall_of(alloc, trial.turns)?;
    let mut room = Room::make(alloc)?;
    Ok(run(
        machine, &mut feed, shelf, &mut stall, out, trial.log, &mut room,
    ))
}

/// Runs a program on the samples of the file `s`.
fn ending(
    alloc: Global,
    trial: Trial<'_>,
    shelf: &mut MemShelf,
    out: &mut MemSink,
) -> Result<RunEnd, AllocError>
    requires two { 2 ≤ trial.stripes }
    requires few { trial.stripes ≤ 256 }
    requires turns { length trial.turns.now ≤ 1048576 }
{
    let mut machine = loaded(alloc, trial.program, trial.stripes)?;
    outcome(alloc, &mut machine, trial, shelf, out)
}

/// The bytes that were written, and behind them the end.
fn text_of(alloc: Global, bytes: &[u8], end: RunEnd) -> Result<String, AllocError> {
    let mut text = String::from_utf8_lossy(alloc, bytes)?;
    write!(text, "{end:?}")?;
    Ok(text)
}

/// What a run writes, and behind it how the run ends.
fn written(alloc: Global, trial: Trial<'_>) -> Result<String, AllocError>
    requires two { 2 ≤ trial.stripes }
    requires few { trial.stripes ≤ 256 }
    requires turns { length trial.turns.now ≤ 1048576 }
{
    let mut shelf = shelf_of(alloc, trial)?;
    let mut out = MemSink::make(alloc, 100_000, trial.writes.to_vec(alloc)?)?;
    let end = ending(alloc, trial, &mut shelf, &mut out)?;
    text_of(alloc, out.bytes(), end)
}

/// Runs a program, and checks what was written and how the run ends, which stands behind it.
pub(crate) fn check_run(
    rt: &impl Abort,
    alloc: Global,
    trial: Trial<'_>,
    wanted: &str,
) -> Result<(), AllocError> {
    assert!(rt; 2 <= trial.stripes && trial.stripes <= 256 && trial.turns.len() <= 1_048_576);
    assert_eq!(rt; written(alloc, trial)?.as_str(), wanted);
    Ok(())
}
