//! The largest configuration that a machine takes.

use crate::fabrics::{BEFORE, FIRST, PASSING, configuration_of, machine_of};
use crate::machine_trials::play;
use pr_conf::{Carry, Mode, Pe};
use pr_machine::{Machine, Running};
use std::alloc::{AllocError, Global};
use std::process::Abort;

/// The stages of a configuration, at most.
const MOST: usize = 32_768;

/// A stage that adds 1.
const ONE_MORE: Pe = Pe {
    a: BEFORE,
    table: 0,
    mode: Mode::Sum,
    cin: Carry::One,
    ..PASSING
};

/// So many stages: the first gives the input, and each further one adds 1.
fn rows_of(alloc: Global, count: usize) -> Result<Vec<[Pe; 2]>, AllocError> {
    let mut rows = Vec::new(alloc);
    rows.push([FIRST, Pe::IDLE])?;
    for _ in 1..count {
        rows.push([ONE_MORE, Pe::IDLE])?;
    }
    Ok(rows)
}

/// Lets a machine work for so many turns, and says which results it gives.
fn results_in(
    alloc: Global,
    machine: &mut Machine<16, 8, Running>,
    samples: &[[u8; 1]],
    turns: usize,
) -> Result<Vec<u8>, AllocError> {
    Ok(play(alloc, machine, samples, b"", turns)?.results)
}

/// The sample 5 comes out as 4, which is 5 + 32,767 without the bits above the lowest eight. It leaves in the cycle of
/// number 32,768, however many stripes there are.
fn check_stripes(rt: &impl Abort, alloc: Global, stripes: usize) -> Result<(), AllocError> {
    let mut machine = machine_of(rt, alloc, &[8], &rows_of(alloc, MOST)?, stripes)?;
    assert!(rt;
        results_in(alloc, &mut machine, &[[5]], MOST)?.is_empty(),
        "{stripes} stripes"
    );
    assert!(rt;
        results_in(alloc, &mut machine, &[], 1)?.as_slice() == [4].as_slice(),
        "{stripes} stripes"
    );
    Ok(())
}

#[test]
fn as_many_stages_as_there_may_be(rt: HostRuntime) -> Result<(), AllocError> {
    check_stripes(&rt, rt.alloc(), 2)?;
    check_stripes(&rt, rt.alloc(), 256)
}

/// With a stage more there is no configuration.
#[test]
fn a_stage_too_many(rt: HostRuntime) -> Result<(), AllocError> {
    let alloc = rt.alloc();
    let rows = rows_of(alloc, MOST + 1)?;
    assert!(rt; configuration_of(alloc, &[8], &rows).is_err());
    Ok(())
}
