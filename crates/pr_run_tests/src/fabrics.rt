//! Configurations made by hand, and machines that are loaded with them.

use pr_conf::{Configuration, Mode, Next, Output, Pe, Source, Stage, Tap};
use pr_machine::{Bare, Machine, Running};
use std::alloc::{AllocError, Global};
use std::process::Abort;

/// A processing element that writes its A to register 1.
pub(crate) const PASSING: Pe = Pe {
    table: 0xaa,
    mask: 255,
    write: 1,
    ..Pe::IDLE
};

/// The first input.
pub(crate) const FIRST: Pe = Pe {
    a: Source::Bus(0),
    ..PASSING
};

/// Register 1 of column 0 of the stage before.
pub(crate) const BEFORE: Source = Source::Prev { col: 0, reg: 1 };

/// The complement of that register.
pub(crate) const NOT: Pe = Pe {
    a: BEFORE,
    table: 0x55,
    ..PASSING
};

/// An input of 8 bits, complemented four times by a stage each.
pub(crate) const FOUR_NOTS: &[[Pe; 2]] = &[
    [FIRST, Pe::IDLE],
    [NOT, Pe::IDLE],
    [NOT, Pe::IDLE],
    [NOT, Pe::IDLE],
    [NOT, Pe::IDLE],
];

/// The sum of 250 and all samples so far, complemented. The sum is the state of stage 1 in column 1.
pub(crate) const SUM_COMPLEMENT: &[[Pe; 2]] = &[
    [FIRST, Pe::IDLE],
    [
        Pe::IDLE,
        Pe {
            a: Source::State(1),
            hi: BEFORE,
            table: 0xcc,
            mode: Mode::Sum,
            next: Next::Output,
            init: 250,
            ..PASSING
        },
    ],
    [
        Pe {
            a: Source::Prev { col: 1, reg: 1 },
            ..NOT
        },
        Pe::IDLE,
    ],
];

/// The bits in which two inputs of 8 bits differ.
pub(crate) const XOR: &[[Pe; 2]] = &[
    [
        FIRST,
        Pe {
            a: Source::Bus(1),
            ..PASSING
        },
    ],
    [
        Pe {
            a: BEFORE,
            hi: Source::Prev { col: 1, reg: 1 },
            table: 0x66,
            ..PASSING
        },
        Pe::IDLE,
    ],
];

/// A stage with these processing elements in columns 0 and 1, and idle ones.
fn stage_of(alloc: Global, first: [Pe; 2]) -> Result<Stage<16>, AllocError> {
    let mut pes = vec![in alloc; Pe::IDLE; 16]?;
    pes[0] = first[0];
    pes[1] = first[1];
    Ok(Stage { pes })
}

/// Stages with these processing elements in columns 0 and 1.
fn stages_of(alloc: Global, rows: &[[Pe; 2]]) -> Result<Vec<Stage<16>>, AllocError> {
    let mut stages = Vec::new(alloc);
    for row in rows {
        stages.push(stage_of(alloc, *row)?)?;
    }
    Ok(stages)
}

/// A configuration of these stages, whose inputs have these widths and whose result is register 1 of column 0.
pub(crate) fn configuration_of(
    alloc: Global,
    inputs: &[u8],
    rows: &[[Pe; 2]],
) -> Result<Configuration<16, 8>, AllocError> {
    let taps = vec![in alloc; Tap::Reg { col: 0, reg: 1 }]?;
    let outputs = vec![in alloc; Output { width: 8, taps }]?;
    let inputs = inputs.to_vec(alloc)?;
    Configuration::of(inputs, outputs, stages_of(alloc, rows)?).ok_or(AllocError)
}

/// A machine that is loaded with such a configuration.
pub(crate) fn machine_of(
    rt: &impl Abort,
    alloc: Global,
    inputs: &[u8],
    rows: &[[Pe; 2]],
    stripes: usize,
) -> Result<Machine<16, 8, Running>, AllocError> {
    assert!(rt; 2 <= stripes && stripes <= 256);
    let conf = configuration_of(alloc, inputs, rows)?;
    match Machine::<16, 8, Bare>::make(alloc, stripes)?.load(alloc, conf) {
        Ok(machine) => Ok(machine),
        Err(_) => Err(AllocError),
    }
}
