//! Why a file is refused.

ghost use Rattle.std.specs.Prelude.{◌≡◌, ◌<◌, ◌^◌, true, false, alloc_error, MatchResult};
ghost use Rattle.pr_code.specs.declared.faults.CodeFault.TheVariants.{Memory, BadConfig};

use std::alloc::{AllocError, AllocFailed};
use thiserror::Error;

/// Why a configuration or a checkpoint could not be read.
#[derive(Debug, Drop, Error)]
pub enum CodeFault {
    /// A word that breaks a rule.
    #[error("rule {rule} word {place}")]
    BadConfig {
        /// The number of the rule.
        rule: u8,
        /// The place of the first word that breaks one, from 0.
        place: u32,
    },
    /// Want of memory.
    #[error("out of memory")]
    Memory(AllocError),
}

impl From<AllocError> for CodeFault {
    ghost from_gives = { λ a e. e ≡ Memory a };

    fn from(error: AllocError) -> CodeFault {
        CodeFault::Memory(error)
    }
}

impl<T: Drop> From<AllocFailed<T>> for CodeFault {
    ghost from_gives = { λ _ e. e ≡ Memory alloc_error };

    fn from(refused: AllocFailed<T>) -> CodeFault {
        CodeFault::Memory(AllocError::from(refused))
    }
}

/// Refuses the word at a place by a rule, unless it keeps it.
pub fn demand(holds: bool, rule: u8, place: usize) -> Result<(), CodeFault>
    requires { place < 2 ^ 31 }
    ensures { MatchResult result (λ _. holds ≡ true) (λ e. (holds ≡ false) × (e ≡ BadConfig rule place)) }
{
    if holds {
        return Ok(());
    }
    Err(CodeFault::BadConfig {
        rule,
        place: place as u32,
    })
}
