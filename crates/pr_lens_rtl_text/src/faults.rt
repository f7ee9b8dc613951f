//! Why there is no text.

use std::alloc::AllocError;
use thiserror::Error;

/// Why there is no text of a module.
#[derive(Debug, Drop, Error)]
pub enum NoText {
    /// It has too many bytes.
    #[error("the text has too many bytes")]
    Long,
    /// Memory was wanting.
    #[error("out of memory")]
    Memory(AllocError),
}

impl From<AllocError> for NoText {
    ghost use Rattle.std.specs.Prelude.{◌≡◌};
    ghost use Rattle.pr_lens_rtl_text.specs.declared.faults.NoText.TheVariants.{Memory};

    ghost from_gives = { λ a e. e ≡ Memory a };

    fn from(error: AllocError) -> NoText {
        NoText::Memory(error)
    }
}
