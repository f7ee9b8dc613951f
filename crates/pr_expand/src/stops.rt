//! What ends the making of equations.

use std::alloc::AllocError;

/// What ends the making of equations.
#[derive(Debug, Drop)]
pub enum Stop {
    /// There are more equations than there may be.
    Limit,
    Memory(AllocError),
}

impl From<AllocError> for Stop {
    ghost use Rattle.std.specs.Prelude.{◌≡◌};
    ghost use Rattle.pr_expand.specs.declared.stops.Stop.TheVariants.{Memory};

    ghost from_gives = { λ a e. e ≡ Memory a };

    fn from(error: AllocError) -> Stop {
        Stop::Memory(error)
    }
}
