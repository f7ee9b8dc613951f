//! Why a list is refused.

ghost use Rattle.std.specs.Prelude.{◌≡◌, alloc_error};
ghost use Rattle.pr_tool_share.specs.declared.faults.ListFault.TheVariants.{Memory};

use std::alloc::{AllocError, AllocFailed};
use thiserror::Error;

/// Why a list of programs was not taken.
#[derive(Debug, Drop, Error)]
pub enum ListFault {
    /// This line, counted from 1, is the first that is not as it should be; where no line says anything, it is the one
    /// after the last.
    #[error("a bad line in a list of programs")]
    BadList { line: u64 },
    /// Memory was wanting.
    #[error("out of memory")]
    Memory(AllocError),
}

impl From<AllocError> for ListFault {
    ghost from_gives = { λ a e. e ≡ Memory a };

    fn from(error: AllocError) -> ListFault {
        ListFault::Memory(error)
    }
}

impl<T: Drop> From<AllocFailed<T>> for ListFault {
    ghost from_gives = { λ _ e. e ≡ Memory alloc_error };

    fn from(refused: AllocFailed<T>) -> ListFault {
        ListFault::Memory(AllocError::from(refused))
    }
}
