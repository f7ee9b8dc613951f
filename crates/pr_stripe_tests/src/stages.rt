//! Stages of four columns and four registers.

ghost use Rattle.std.specs.Prelude.{◌≡◌, true, IfOk};
ghost use Rattle.pr_conf.specs.Rules.{are_lawful_pes, site_of};

use pr_conf::{Bit, Carry, Mode, Next, Pe, Source, Stage};
use std::alloc::{AllocError, Global};

/// A processing element that passes the byte of `hi` and writes to no register.
pub(crate) const PASSING: Pe = Pe {
    a: Source::Const(0),
    hi: Source::Const(0),
    lo: Source::Const(0),
    shift: 0,
    c: Bit::None,
    table: 0xcc,
    mode: Mode::Plain,
    cin: Carry::Zero,
    mask: 0xff,
    next: Next::Keep,
    init: 0,
    write: 0,
};

/// The bus's bytes combined, added, added with the carry to an output and a state, and tested for 0.
const FIRST: [Pe; 4] = [
    Pe {
        a: Source::Bus(0),
        hi: Source::Bus(1),
        lo: Source::Bus(0),
        shift: 3,
        table: 0x66,
        next: Next::A,
        write: 1,
        ..PASSING
    },
    Pe {
        a: Source::Bus(0),
        hi: Source::Bus(1),
        mode: Mode::Sum,
        cin: Carry::One,
        mask: 0x7f,
        next: Next::Output,
        write: 2,
        ..PASSING
    },
    Pe {
        a: Source::Here(0),
        hi: Source::State(1),
        c: Bit::Of(Source::Here(1), 6),
        table: 0xca,
        mode: Mode::Sum,
        cin: Carry::Chain,
        write: 3,
        ..PASSING
    },
    Pe {
        a: Source::Here(2),
        hi: Source::Const(0x0f),
        c: Bit::CarryIn,
        table: 0x88,
        mode: Mode::Zero,
        cin: Carry::Chain,
        next: Next::Output,
        write: 1,
        ..PASSING
    },
];

/// The stage of these elements.
pub(crate) fn first_stage(alloc: Global) -> Result<Stage<4>, AllocError>
    ensures { IfOk result (λ s. are_lawful_pes (site_of 4 4 2 0) s.pes.items ≡ true) }
{
    let pes = Vec::from_slice(alloc, &FIRST)?;
    Ok(Stage { pes })
}

/// A choice, a test for 0 with a bit of a state, a sum with an output and the carry, and the carry alone.
const LATER: [Pe; 4] = [
    Pe {
        a: Source::Prev { col: 0, reg: 1 },
        hi: Source::Prev { col: 1, reg: 2 },
        lo: Source::Prev { col: 2, reg: 3 },
        shift: 5,
        c: Bit::Of(Source::Prev { col: 3, reg: 1 }, 4),
        table: 0xca,
        next: Next::Output,
        write: 2,
        ..PASSING
    },
    Pe {
        a: Source::Prev { col: 1, reg: 2 },
        hi: Source::Const(3),
        c: Bit::Of(Source::State(0), 0),
        table: 0x88,
        mode: Mode::Zero,
        cin: Carry::FromC,
        next: Next::A,
        ..PASSING
    },
    Pe {
        a: Source::Prev { col: 2, reg: 3 },
        hi: Source::Here(0),
        c: Bit::CarryIn,
        mode: Mode::Sum,
        cin: Carry::Chain,
        next: Next::A,
        write: 1,
        ..PASSING
    },
    Pe {
        a: Source::Here(2),
        c: Bit::CarryIn,
        table: 0xf0,
        cin: Carry::Chain,
        mask: 1,
        write: 3,
        ..PASSING
    },
];

/// The stage of these elements.
pub(crate) fn later_stage(alloc: Global) -> Result<Stage<4>, AllocError>
    ensures { IfOk result (λ s. are_lawful_pes (site_of 4 4 2 1) s.pes.items ≡ true) }
{
    let pes = Vec::from_slice(alloc, &LATER)?;
    Ok(Stage { pes })
}

/// As in a filter: eight times the byte before, which a state keeps, is added to a number of three bytes.
pub(crate) fn filter_stage(alloc: Global) -> Result<Stage<4>, AllocError>
    ensures { IfOk result (λ s. are_lawful_pes (site_of 4 4 2 2) s.pes.items ≡ true) }
{
    let delay = Pe {
        a: Source::Prev { col: 0, reg: 1 },
        hi: Source::State(0),
        next: Next::A,
        write: 1,
        ..PASSING
    };
    let low = Pe {
        a: Source::Prev { col: 1, reg: 2 },
        hi: Source::Here(0),
        shift: 3,
        mode: Mode::Sum,
        write: 2,
        ..PASSING
    };
    let middle = Pe {
        a: Source::Prev { col: 2, reg: 2 },
        lo: Source::Here(0),
        shift: 3,
        mode: Mode::Sum,
        cin: Carry::Chain,
        write: 2,
        ..PASSING
    };
    let high = Pe {
        a: Source::Prev { col: 3, reg: 2 },
        mode: Mode::Sum,
        cin: Carry::Chain,
        write: 2,
        ..PASSING
    };
    let pes = vec![in alloc; delay, low, middle, high]?;
    Ok(Stage { pes })
}
