//! Why a text is not read.

ghost use Rattle.std.specs.Prelude.{◌≡◌, alloc_error};
ghost use Rattle.pr_parse.specs.declared.fault.Fault.TheVariants.{Memory};

use std::alloc::{AllocError, AllocFailed};

/// Why tokens were not read: how many were left at the wrong one, or want of memory.
#[derive(Debug, Drop)]
pub enum Fault {
    Wrong(usize),
    Memory(AllocError),
}

impl From<AllocError> for Fault {
    ghost from_gives = { λ a e. e ≡ Memory a };

    fn from(error: AllocError) -> Fault {
        Fault::Memory(error)
    }
}

impl<T: Drop> From<AllocFailed<T>> for Fault {
    ghost from_gives = { λ _ e. e ≡ Memory alloc_error };

    fn from(refused: AllocFailed<T>) -> Fault {
        Fault::Memory(AllocError::from(refused))
    }
}
