//! Why a text is refused.

ghost use Rattle.std.specs.Prelude.{◌≡◌};
ghost use Rattle.pr_compile_front.specs.Faults.{parse_fault, scope_fault, expand_fault, width_fault};
ghost use Rattle.pr_compile_front.specs.declared.faults.FrontFault.TheVariants.{Memory};

use pr_base::Cap;
use pr_expand::ExpandFault;
use pr_parse::ParseFault;
use pr_scope::ScopeFault;
use pr_width::WidthFault;
use std::alloc::AllocError;
use thiserror::Error;

/// Why a text is no program that has equations with widths.
#[derive(Debug, Drop, Error)]
pub enum FrontFault {
    /// The token at this place breaks the grammar.
    #[error("syntax: token {token}")]
    Syntax { token: u32 },
    /// A scope rule is broken, after so many items.
    #[error("scope: rule {rule} item {item}")]
    Scope { rule: u8, item: u32 },
    /// The equation is the first that has no width.
    #[error("no width: equation {equation}")]
    NoWidth { equation: u32 },
    /// The nesting, the turns of loops or the equations passed their limit.
    #[error("limit: {0:?}")]
    Limit(Cap),
    #[error("out of memory")]
    Memory(AllocError),
}

impl From<AllocError> for FrontFault {
    ghost from_gives = { λ a e. e ≡ Memory a };

    fn from(error: AllocError) -> FrontFault {
        FrontFault::Memory(error)
    }
}

impl From<ParseFault> for FrontFault {
    ghost from_gives = { λ a e. e ≡ parse_fault a };

    fn from(fault: ParseFault) -> FrontFault {
        match fault {
            ParseFault::Syntax { token } => FrontFault::Syntax { token },
            ParseFault::Limit(cap) => FrontFault::Limit(cap),
            ParseFault::Memory(error) => FrontFault::Memory(error),
        }
    }
}

impl From<ScopeFault> for FrontFault {
    ghost from_gives = { λ a e. e ≡ scope_fault a };

    fn from(fault: ScopeFault) -> FrontFault {
        match fault {
            ScopeFault::Scope { rule, item } => FrontFault::Scope { rule, item },
            ScopeFault::Limit(cap) => FrontFault::Limit(cap),
            ScopeFault::Memory(error) => FrontFault::Memory(error),
        }
    }
}

impl From<ExpandFault> for FrontFault {
    ghost from_gives = { λ a e. e ≡ expand_fault a };

    fn from(fault: ExpandFault) -> FrontFault {
        match fault {
            ExpandFault::Limit(cap) => FrontFault::Limit(cap),
            ExpandFault::Memory(error) => FrontFault::Memory(error),
        }
    }
}

impl From<WidthFault> for FrontFault {
    ghost from_gives = { λ a e. e ≡ width_fault a };

    fn from(fault: WidthFault) -> FrontFault {
        match fault {
            WidthFault::NoWidth { equation } => FrontFault::NoWidth { equation },
            WidthFault::Memory(error) => FrontFault::Memory(error),
        }
    }
}
