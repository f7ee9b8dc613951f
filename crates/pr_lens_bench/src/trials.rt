//! What is tried, and why nothing is.

use crate::texts::Design;
use pr_compile_front::Front;
use pr_tool_answers::Answer;
use std::alloc::AllocError;

/// A program, and the module that is tried.
#[derive(Drop)]
pub struct Trial {
    pub front: Front,
    pub design: Design,
}

/// Why there is no bench.
#[derive(Clone, Copy, PartialEq, Eq, Debug)]
pub enum NoBench {
    /// It has too many bytes.
    Long,
    /// So `piperench` answers.
    Ended(Answer),
}

impl From<AllocError> for NoBench {
    ghost use Rattle.std.specs.Prelude.{◌≡◌};
    ghost use Rattle.pr_tool_answers.specs.declared.answers.Answer.{Answer};
    ghost use Rattle.pr_lens_bench.specs.declared.trials.NoBench.TheVariants.{Ended};

    ghost from_gives = { λ a e. e ≡ Ended Answer.Memory };

    fn from(_error: AllocError) -> NoBench {
        NoBench::Ended(Answer::Memory)
    }
}
