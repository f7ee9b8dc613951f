//! Configurations made by hand.

use pr_conf::{Configuration, Mode, Next, Output, Pe, Source, Stage, Tap};
use std::alloc::{AllocError, Global};

/// The widths of inputs, and the processing elements in the columns 0 and 1 of each stage. There is one output of 8
/// bits, which stands in register 1 of column 0.
#[derive(Clone, Copy)]
pub(crate) struct Program {
    inputs: &'static [u8],
    stages: &'static [[Pe; 2]],
}

/// A processing element that writes its A to register 1.
const PASSING: Pe = Pe {
    table: 0xaa,
    mask: 0xff,
    write: 1,
    ..Pe::IDLE
};

/// A byte on the bus.
const TAKEN: Pe = Pe {
    a: Source::Bus(0),
    ..PASSING
};

/// The complement of register 1 of column 0 of the stage before.
const NOT: Pe = Pe {
    a: Source::Prev { col: 0, reg: 1 },
    table: 0x55,
    ..PASSING
};

/// The exclusive or of two inputs.
pub(crate) const XOR: Program = Program {
    inputs: &[8, 8],
    stages: &[
        [
            TAKEN,
            Pe {
                a: Source::Bus(1),
                ..PASSING
            },
        ],
        [
            Pe {
                a: Source::Prev { col: 0, reg: 1 },
                hi: Source::Prev { col: 1, reg: 1 },
                table: 0x66,
                ..PASSING
            },
            Pe::IDLE,
        ],
    ],
};

/// The complement of one input, four times.
pub(crate) const FOUR_NOTS: Program = Program {
    inputs: &[8],
    stages: &[
        [TAKEN, Pe::IDLE],
        [NOT, Pe::IDLE],
        [NOT, Pe::IDLE],
        [NOT, Pe::IDLE],
        [NOT, Pe::IDLE],
    ],
};

/// The complement of a running sum that begins with 250, which column 1 of the second stage keeps.
pub(crate) const SUM_COMPLEMENT: Program = Program {
    inputs: &[8],
    stages: &[
        [TAKEN, Pe::IDLE],
        [
            Pe {
                a: Source::Prev { col: 0, reg: 1 },
                hi: Source::State(1),
                table: 0xcc,
                mode: Mode::Sum,
                write: 0,
                ..PASSING
            },
            Pe {
                a: Source::Here(0),
                next: Next::Output,
                init: 250,
                ..PASSING
            },
        ],
        [
            Pe {
                a: Source::Prev { col: 1, reg: 1 },
                table: 0x55,
                ..PASSING
            },
            Pe::IDLE,
        ],
    ],
};

/// A stage with these processing elements, and idle ones.
fn stage_of(alloc: Global, first: [Pe; 2]) -> Result<Stage<16>, AllocError> {
    let mut pes = vec![in alloc; Pe::IDLE; 16]?;
    pes[0] = first[0];
    pes[1] = first[1];
    Ok(Stage { pes })
}

/// The stages of a program.
fn stages_of(alloc: Global, program: Program) -> Result<Vec<Stage<16>>, AllocError> {
    let mut stages = Vec::new(alloc);
    for pes in program.stages {
        stages.push(stage_of(alloc, *pes)?)?;
    }
    Ok(stages)
}

/// The configuration of a program.
pub(crate) fn configuration_of(
    alloc: Global,
    program: Program,
) -> Result<Configuration<16, 8>, AllocError> {
    let taps = vec![in alloc; Tap::Reg { col: 0, reg: 1 }]?;
    let outputs = vec![in alloc; Output { width: 8, taps }]?;
    let inputs = program.inputs.to_vec(alloc)?;
    Configuration::of(inputs, outputs, stages_of(alloc, program)?).ok_or(AllocError)
}
