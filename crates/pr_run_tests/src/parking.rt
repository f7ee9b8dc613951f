//! Programs that take turns on one machine.

use crate::fabrics::{FIRST, NOT, SUM_COMPLEMENT, configuration_of, machine_of};
use crate::machine_trials::play;
use pr_conf::Pe;
use pr_machine::{Bare, Machine, Parked, Running};
use std::alloc::{AllocError, Global};
use std::process::Abort;

/// An input of 8 bits, complemented three times by a stage each.
const THREE_NOTS: &[[Pe; 2]] = &[
    [FIRST, Pe::IDLE],
    [NOT, Pe::IDLE],
    [NOT, Pe::IDLE],
    [NOT, Pe::IDLE],
];

/// These stages, parked.
fn parked_nots(alloc: Global) -> Result<Parked<16, 8>, AllocError> {
    match Parked::make(alloc, configuration_of(alloc, &[8], THREE_NOTS)?) {
        Ok(parked) => Ok(parked),
        Err(_) => Err(AllocError),
    }
}

/// The state that the processing element in column 1 of stage 1 begins with.
fn first_state(parked: &Parked<16, 8>) -> Option<u8> {
    let stage = parked.conf().stages.get(1)?;
    Some(stage.pes.get(1)?.init)
}

/// Runs samples through a machine, and checks the results.
fn check_results(
    rt: &impl Abort,
    alloc: Global,
    machine: &mut Machine<16, 8, Running>,
    samples: &[[u8; 1]],
    results: &[u8],
) {
    let trial = play(alloc, machine, samples, b"", 20)
        .ok()
        .expect(rt, "memory");
    assert!(rt; trial.results.as_slice() == results, "{results:?}");
}

/// Parks the configuration of a machine in which nothing is in flight.
fn park(
    rt: &impl Abort,
    machine: Machine<16, 8, Running>,
) -> (Machine<16, 8, Bare>, Parked<16, 8>) {
    assert!(rt; machine.entered() == machine.left());
    assert!(rt; machine.waiting_in() == 0 && machine.waiting_out() == 0);
    machine.park()
}

/// Runs samples through a machine, checks the results, parks the configuration, and checks its state.
fn run_and_park(
    rt: &impl Abort,
    alloc: Global,
    mut machine: Machine<16, 8, Running>,
    samples: &[[u8; 1]],
    results: &[u8],
    state: u8,
) -> (Machine<16, 8, Bare>, Parked<16, 8>) {
    check_results(rt, alloc, &mut machine, samples, results);
    let (bare, parked) = park(rt, machine);
    assert!(rt; first_state(&parked) == Some(state), "{results:?}");
    (bare, parked)
}

/// The same for a program that does not come again: the bare machine is left.
fn run_to_end(
    rt: &impl Abort,
    alloc: Global,
    machine: Machine<16, 8, Running>,
    samples: &[[u8; 1]],
    results: &[u8],
    state: u8,
) -> Machine<16, 8, Bare> {
    let (bare, _) = run_and_park(rt, alloc, machine, samples, results, state);
    bare
}

/// The sum of 250 and all samples, complemented, with another program between the first sample and the others.
#[test]
fn a_parked_sum_goes_on_from_its_state(rt: HostRuntime) -> Result<(), AllocError> {
    let alloc = rt.alloc();
    let machine = machine_of(&rt, alloc, &[8], SUM_COMPLEMENT, 2)?;
    let (bare, sum) = run_and_park(&rt, alloc, machine, &[[5]], &[0], 255);
    let other = parked_nots(alloc).ok().expect(&rt, "memory");
    let machine = bare.resume(other);
    let bare = run_to_end(&rt, alloc, machine, &[[1], [2], [3]], &[254, 253, 252], 0);
    run_to_end(&rt, alloc, bare.resume(sum), &[[1], [1]], &[255, 254], 1);
    Ok(())
}
