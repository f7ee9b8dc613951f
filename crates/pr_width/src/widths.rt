//! Lists of widths, and why there are none.

ghost use Rattle.std.specs.Prelude.{◌≡◌, ℕ, List};

use std::alloc::AllocError;
use std::marker::Model;
use thiserror::Error;

/// The width of each equation in bits, each recurrence's the least.
#[derive(Debug, Drop)]
pub struct Widths {
    pub of: Vec<u8>,
}

impl Model for Widths {
    ghost Value = { List ℕ };

    ghost view = { λ w. w.of.items };
}

/// Why equations have no widths.
#[derive(Debug, Drop, Error)]
pub enum WidthFault {
    /// The first equation without a width; what the body of a recurrence without declared width lacks counts at it.
    #[error("no width: equation {equation}")]
    NoWidth { equation: u32 },
    #[error("out of memory")]
    Memory(AllocError),
}

impl From<AllocError> for WidthFault {
    ghost use Rattle.std.specs.Prelude.{◌≡◌};
    ghost use Rattle.pr_width.specs.declared.widths.WidthFault.TheVariants.{Memory};

    ghost from_gives = { λ a e. e ≡ Memory a };

    fn from(error: AllocError) -> WidthFault {
        WidthFault::Memory(error)
    }
}
