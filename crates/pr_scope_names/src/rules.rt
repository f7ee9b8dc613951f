//! What a walk can break.
ghost use Rattle.std.specs.Prelude.{◌≡◌, alloc_error};
ghost use Rattle.pr_scope_names.specs.declared.rules.Stop.TheVariants.{Memory, Offends};
ghost use Rattle.pr_scope_names.specs.Outcomes.{number_of};

use std::alloc::{AllocError, AllocFailed};

/// The rules of scope, in the order of their numbers, which are 1 to 10.
#[derive(Clone, Copy, Debug, PartialEq, Eq)]
pub enum Rule {
    /// A name has one kind while it is visible, and each instance of it is introduced once.
    Introduced,
    /// An instance of a stream is assigned before it is used.
    Assigned,
    /// A name is visible and stands as its kind may.
    Kinds,
    /// A call has the function's number of arguments and leads to no function that is too deep.
    Calls,
    /// Each step of a constant expression has 64 bits.
    Steps,
    /// No constant divisor is 0.
    Divisors,
    /// An index of a table is below its length.
    Entries,
    /// Widths, slices, delays and constant shifts keep their bounds.
    Bounds,
    /// The initial value of a recurrence has its width, and its body calls nothing that has a past.
    Recurrences,
    /// There is an input and an output.
    Ends,
}

impl Rule {
    /// The number that stands for the rule in answers.
    pub fn number(self) -> u8
        ensures { result ≡ number_of self }
    {
        match self {
            Rule::Introduced => 1,
            Rule::Assigned => 2,
            Rule::Kinds => 3,
            Rule::Calls => 4,
            Rule::Steps => 5,
            Rule::Divisors => 6,
            Rule::Entries => 7,
            Rule::Bounds => 8,
            Rule::Recurrences => 9,
            Rule::Ends => 10,
        }
    }
}

/// What ends the walk over a program.
#[derive(Clone, Copy, Debug, PartialEq, Eq)]
pub enum Offence {
    /// More turns than there may be.
    Turns,
    Breaks(Rule),
}

/// What ends a step of the walk that takes memory.
#[derive(Drop)]
pub enum Stop {
    Offends(Offence),
    Memory(AllocError),
}

impl From<Offence> for Stop {
    ghost from_gives = { λ a e. e ≡ Offends a };

    fn from(offence: Offence) -> Stop {
        Stop::Offends(offence)
    }
}

impl From<AllocError> for Stop {
    ghost from_gives = { λ a e. e ≡ Memory a };

    fn from(error: AllocError) -> Stop {
        Stop::Memory(error)
    }
}

impl<T: Drop> From<AllocFailed<T>> for Stop {
    ghost from_gives = { λ _ e. e ≡ Memory alloc_error };

    fn from(refused: AllocFailed<T>) -> Stop {
        Stop::Memory(AllocError::from(refused))
    }
}
