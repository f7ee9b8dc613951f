//! What the walk over a program answers.
ghost use Rattle.std.specs.Prelude.{◌≡◌, ◌≤◌, None, vec_len};
ghost use Rattle.std.proofs.Props.{props};
ghost use Rattle.pr_scope.specs.Walk.{inputs_after, offence, program_walk, turns_after};

use pr_base::Cap;
use pr_lang::Program;
use std::alloc::AllocError;
use thiserror::Error;

/// A program that keeps the rules.
#[derive(Debug, Drop)]
pub struct Scoped {
    pub program: Program,
    /// The widths of its inputs, in bits.
    pub inputs: Vec<u8>,
    /// The turns of the walk, at most 65,536.
    pub turns: u32,
    pub ghost few: { vec_len program.items ≤ turns },
    pub ghost lawful: { offence program ≡ None } by { Prim.hlevel props },
    pub ghost declared: { inputs.items ≡ inputs_after (program_walk program) },
    pub ghost walked: { turns ≡ turns_after (program_walk program) },
}

/// Why a program is refused.
#[derive(Debug, Drop, Error)]
pub enum ScopeFault {
    /// The rule of this number breaks, and so many items stand before.
    #[error("scope: rule {rule} item {item}")]
    Scope { rule: u8, item: u32 },
    /// The walk has too many turns.
    #[error("the walk has too many turns")]
    Limit(Cap),
    #[error("out of memory")]
    Memory(AllocError),
}

impl From<AllocError> for ScopeFault {
    ghost use Rattle.pr_scope.specs.declared.checking.ScopeFault.TheVariants.{Memory};

    ghost from_gives = { λ a e. e ≡ Memory a };

    fn from(error: AllocError) -> ScopeFault {
        ScopeFault::Memory(error)
    }
}
