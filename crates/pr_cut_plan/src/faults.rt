//! Why there is no net.

ghost use Rattle.std.specs.Prelude.{◌≡◌};

use pr_base::Cap;
use std::alloc::AllocError;
use thiserror::Error;

/// Why equations are cut into no units.
#[derive(Debug, Drop, Error)]
pub enum CutFault {
    /// The net passes this limit.
    #[error("limit: {0:?}")]
    Limit(Cap),
    #[error("out of memory")]
    Memory(AllocError),
}

impl From<AllocError> for CutFault {
    ghost use Rattle.std.specs.Prelude.{◌≡◌};
    ghost use Rattle.pr_cut_plan.specs.declared.faults.CutFault.TheVariants.{Memory};

    ghost from_gives = { λ a e. e ≡ Memory a };

    fn from(error: AllocError) -> CutFault {
        CutFault::Memory(error)
    }
}
