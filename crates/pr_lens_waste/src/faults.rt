//! Why nothing is told of the lines of a text.

ghost use Rattle.std.specs.Prelude.{◌≡◌};
ghost use Rattle.pr_lens_waste.specs.Programs.{cut_fault, front_fault, probe_fault};
ghost use Rattle.pr_lens_waste.specs.declared.faults.LineFault.TheVariants.{Memory};

use pr_compile_front::FrontFault;
use pr_cut_plan::CutFault;
use pr_lens_probe::ProbeFault;
use std::alloc::AllocError;
use thiserror::Error;

/// Why nothing is told of the lines of a text.
#[derive(Debug, Drop, Error)]
pub enum LineFault {
    /// The text is refused, leaves no turn of the walk, or makes a net that passes a limit.
    #[error("nothing is told")]
    Untold,
    #[error("out of memory")]
    Memory(AllocError),
}

impl From<AllocError> for LineFault {
    ghost from_gives = { λ a e. e ≡ Memory a };

    fn from(error: AllocError) -> LineFault {
        LineFault::Memory(error)
    }
}

impl From<FrontFault> for LineFault {
    ghost from_gives = { λ a e. e ≡ front_fault a };

    fn from(fault: FrontFault) -> LineFault {
        match fault {
            FrontFault::Memory(error) => LineFault::Memory(error),
            _ => LineFault::Untold,
        }
    }
}

impl From<CutFault> for LineFault {
    ghost from_gives = { λ a e. e ≡ cut_fault a };

    fn from(fault: CutFault) -> LineFault {
        match fault {
            CutFault::Memory(error) => LineFault::Memory(error),
            CutFault::Limit(_) => LineFault::Untold,
        }
    }
}

impl From<ProbeFault> for LineFault {
    ghost from_gives = { λ a e. e ≡ probe_fault a };

    fn from(fault: ProbeFault) -> LineFault {
        match fault {
            ProbeFault::Memory(error) => LineFault::Memory(error),
            ProbeFault::Turns => LineFault::Untold,
        }
    }
}
