//! Turns of a machine, and what came of them.

use crate::fabrics::machine_of;
use pr_conf::{Pe, Turn};
use pr_machine::{Machine, Running};
use std::alloc::{AllocError, Global};
use std::fmt::Write;
use std::process::Abort;

/// What came of the turns of a machine so far.
#[derive(Drop)]
pub(crate) struct Trial {
    /// How many samples were accepted.
    offered: usize,
    /// What each cycle did, a line each.
    pub(crate) log: String,
    /// The results taken.
    pub(crate) results: Vec<u8>,
}

/// Offers a sample, if it has the sample's size, and says whether it was accepted.
pub(crate) fn offer(machine: &mut Machine<16, 8, Running>, sample: &[u8]) -> bool {
    let size = machine.conf().sample_bytes();
    sample.len() == size && machine.offer(sample).is_ok()
}

/// The front result, if one waits and it is a byte.
pub(crate) fn take(machine: &mut Machine<16, 8, Running>) -> Option<u8> {
    let mut into = [0u8; 1];
    if machine.conf().result_bytes() == 1 && machine.take(&mut into).is_ok() {
        return Some(into[0]);
    }
    None
}

/// Takes all results that wait.
fn take_all(
    machine: &mut Machine<16, 8, Running>,
    results: &mut Vec<u8>,
) -> Result<(), AllocError> {
    for _ in 0..machine.waiting_out() {
        if let Some(byte) = take(machine) {
            results.push(byte)?;
        }
    }
    Ok(())
}

/// Appends the state row of a stage, if the store has it.
fn put_stored(
    log: &mut String,
    machine: &Machine<16, 8, Running>,
    stage: u32,
) -> Result<(), AllocError> {
    if let Some(row) = machine.stored(stage) {
        for byte in row {
            write!(log, " {byte}")?;
        }
    }
    Ok(())
}

/// Appends what a cycle did: the stage that was configured and its stripe, the stage whose state was saved, and the
/// numbers of the sample that entered and of the result that left.
fn put_turn(log: &mut String, time: u64, turn: &Turn) -> Result<(), AllocError> {
    let word = if turn.advanced { "cycle" } else { "stall" };
    write!(
        log,
        "{word} {time} conf {:?} save {:?} in {:?} out {:?}",
        turn.configured, turn.saved, turn.entered, turn.left
    )
}

/// Which side a byte of a stall text leaves free: that of the inputs, and that of the outputs.
fn free_sides(held: u8) -> (bool, bool) {
    (held != b'i' && held != b'b', held != b'o' && held != b'b')
}

/// The byte for a turn of a stall text that goes round; every turn of an empty one is free.
fn stall_at(stall: &[u8], turn: usize) -> u8 {
    if stall.is_empty() {
        return b'.';
    }
    stall[turn % stall.len()]
}

impl Trial {
    /// Offers the next sample, if there is one.
    fn offer_next<const B: usize>(
        &mut self,
        machine: &mut Machine<16, 8, Running>,
        samples: &[[u8; B]],
    ) {
        if let Some(sample) = samples.get(self.offered) {
            if offer(machine, sample) {
                self.offered += 1;
            }
        }
    }

    /// Appends the counts of a machine that is stalled.
    fn put_counts(&mut self, machine: &Machine<16, 8, Running>) -> Result<(), AllocError> {
        write!(
            self.log,
            ": entered {} left {} taken {} waiting {} and {}",
            machine.entered(),
            machine.left(),
            self.results.len(),
            machine.waiting_in(),
            machine.waiting_out()
        )
    }

    /// One cycle, if the time has not run out, with its line of the log: behind what it did stand the counts, if it was
    /// stalled, and the row of a state that it saved, as the store then has it.
    fn cycle(&mut self, machine: &mut Machine<16, 8, Running>) -> Result<(), AllocError> {
        let time = machine.time();
        if time >= 1 << 63 {
            return Ok(());
        }
        let turn = machine.cycle();
        put_turn(&mut self.log, time, &turn)?;
        if !turn.advanced {
            self.put_counts(machine)?;
        }
        if let Some(stage) = turn.saved {
            put_stored(&mut self.log, machine, stage)?;
        }
        self.log.push_str("\n")
    }

    /// One turn: a sample is offered and the results are taken, each if its side is free, and then comes a cycle.
    fn turn<const B: usize>(
        &mut self,
        machine: &mut Machine<16, 8, Running>,
        samples: &[[u8; B]],
        held: u8,
    ) -> Result<(), AllocError> {
        let (inputs, outputs) = free_sides(held);
        if inputs {
            self.offer_next(machine, samples);
        }
        if outputs {
            take_all(machine, &mut self.results)?;
        }
        self.cycle(machine)
    }

    /// So many turns under a stall text that goes round, and then the results that still wait are taken.
    fn run<const B: usize>(
        &mut self,
        machine: &mut Machine<16, 8, Running>,
        samples: &[[u8; B]],
        stall: &[u8],
        turns: usize,
    ) -> Result<(), AllocError> {
        for turn in 0..turns {
            self.turn(machine, samples, stall_at(stall, turn))?;
        }
        take_all(machine, &mut self.results)
    }
}

/// Runs samples through a machine for so many turns under a stall text, and takes all results.
pub(crate) fn play<const B: usize>(
    alloc: Global,
    machine: &mut Machine<16, 8, Running>,
    samples: &[[u8; B]],
    stall: &[u8],
    turns: usize,
) -> Result<Trial, AllocError> {
    let mut trial = Trial {
        offered: 0,
        log: String::new(alloc),
        results: Vec::new(alloc),
    };
    trial.run(machine, samples, stall, turns)?;
    Ok(trial)
}

/// On what machine samples are tried, under which stall text, and for how many turns.
#[derive(Clone, Copy)]
pub(crate) struct Setting<'a> {
    pub(crate) stages: &'a [[Pe; 2]],
    pub(crate) stripes: usize,
    pub(crate) stall: &'a str,
    pub(crate) turns: usize,
}

/// Runs samples through a new machine whose inputs have 8 bits each.
pub(crate) fn play_new<const B: usize>(
    rt: &impl Abort,
    alloc: Global,
    setting: Setting<'_>,
    samples: &[[u8; B]],
) -> Result<Trial, AllocError> {
    let mut machine = machine_of(rt, alloc, &[8; B], setting.stages, setting.stripes)?;
    play(
        alloc,
        &mut machine,
        samples,
        setting.stall.as_bytes(),
        setting.turns,
    )
}
