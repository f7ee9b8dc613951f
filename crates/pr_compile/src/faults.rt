//! Why a text has no configuration.

ghost use Rattle.std.specs.Prelude.{◌≡◌};
ghost use Rattle.pr_compile.specs.Faults.{front_fault, cut_fault, place_fault};
ghost use Rattle.pr_compile.specs.declared.faults.CompileFault.TheVariants.{Memory};

use pr_base::Cap;
use pr_compile_front::FrontFault;
use pr_cut_plan::CutFault;
use pr_place::PlaceFault;
use std::alloc::AllocError;
use thiserror::Error;

/// Why a text has no configuration on a fabric.
#[derive(Debug, Drop, Error)]
pub enum CompileFault {
    /// The token at this place breaks the grammar.
    #[error("syntax: token {token}")]
    Syntax { token: u32 },
    /// A scope rule is broken, after so many items.
    #[error("scope: rule {rule} item {item}")]
    Scope { rule: u8, item: u32 },
    /// The equation is the first that has no width.
    #[error("no width: equation {equation}")]
    NoWidth { equation: u32 },
    /// A group, whose last unit this is, fits in no stripe.
    #[error("no fit: unit {unit}")]
    NoFit { unit: u32 },
    /// A quantity passed its limit.
    #[error("limit: {0:?}")]
    Limit(Cap),
    #[error("out of memory")]
    Memory(AllocError),
}

impl From<AllocError> for CompileFault {
    ghost from_gives = { λ a e. e ≡ Memory a };

    fn from(error: AllocError) -> CompileFault {
        CompileFault::Memory(error)
    }
}

impl From<FrontFault> for CompileFault {
    ghost from_gives = { λ a e. e ≡ front_fault a };

    fn from(fault: FrontFault) -> CompileFault {
        match fault {
            FrontFault::Syntax { token } => CompileFault::Syntax { token },
            FrontFault::Scope { rule, item } => CompileFault::Scope { rule, item },
            FrontFault::NoWidth { equation } => CompileFault::NoWidth { equation },
            FrontFault::Limit(cap) => CompileFault::Limit(cap),
            FrontFault::Memory(error) => CompileFault::Memory(error),
        }
    }
}

impl From<CutFault> for CompileFault {
    ghost from_gives = { λ a e. e ≡ cut_fault a };

    fn from(fault: CutFault) -> CompileFault {
        match fault {
            CutFault::Limit(cap) => CompileFault::Limit(cap),
            CutFault::Memory(error) => CompileFault::Memory(error),
        }
    }
}

impl From<PlaceFault> for CompileFault {
    ghost from_gives = { λ a e. e ≡ place_fault a };

    fn from(fault: PlaceFault) -> CompileFault {
        match fault {
            PlaceFault::NoFit { unit } => CompileFault::NoFit { unit },
            PlaceFault::Memory(error) => CompileFault::Memory(error),
        }
    }
}
