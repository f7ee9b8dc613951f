//! What the tool answers.
ghost use Rattle.std.specs.Prelude.{◌≡◌};
ghost use Rattle.pr_tool_answers.specs.Statuses.{status_of, cause_status};

use pr_base::Cap;
use std::alloc::AllocError;

/// Why a program or its samples were refused. Tokens, items, equations and units are counted from 0, lines from 1.
#[derive(Clone, Copy, PartialEq, Eq, Debug)]
pub enum Cause {
    /// The grammar allows no such token there.
    Syntax { token: u32 },
    /// A scope rule is broken at this item.
    Scope { rule: u8, item: u32 },
    /// The equation has no width.
    NoWidth { equation: u32 },
    /// The unit fits in no empty stripe.
    NoFit { unit: u32 },
    /// A quantity passed its limit.
    Limit { which: Cap },
    /// The line is no lawful sample.
    BadSample { line: u64 },
}

/// What a call of the tool came to. Bytes, words and programs are counted from 0, lines from 1.
#[derive(Clone, Copy, PartialEq, Eq, Debug)]
pub enum Answer {
    /// All that was asked for was done.
    Ok,
    /// The words are no lawful command line.
    Usage,
    /// The grammar allows no such token there.
    Syntax { token: u32 },
    /// A scope rule is broken at this item.
    Scope { rule: u8, item: u32 },
    /// The equation has no width.
    NoWidth { equation: u32 },
    /// The unit fits in no empty stripe.
    NoFit { unit: u32 },
    /// A quantity passed its limit.
    Limit { which: Cap },
    /// The line is no lawful sample.
    BadSample { line: u64 },
    /// The byte of the stall text is none that it may have.
    BadStall { place: u32 },
    /// The word of a configuration or a checkpoint breaks this rule.
    BadConfig { rule: u8, place: u32 },
    /// The line of a list of programs is not as it must be.
    BadList { line: u64 },
    /// One program of a list was refused.
    Part { program: u8, cause: Cause },
    /// A read failed, or a file is not there.
    ReadFault,
    /// A write failed.
    WriteFault,
    /// Memory was wanting.
    Memory,
}

impl From<AllocError> for Answer {
    ghost use Rattle.std.specs.Prelude.{◌≡◌};
    ghost use Rattle.pr_tool_answers.specs.declared.answers.Answer.TheVariants.{Memory};

    ghost from_gives = { λ a e. e ≡ Memory };

    fn from(_error: AllocError) -> Answer {
        Answer::Memory
    }
}

impl Cause {
    /// The status with which the process ends.
    pub fn status(&self) -> u8
        ensures { result ≡ cause_status self.now }
    {
        match self {
            Cause::Syntax { .. } | Cause::Scope { .. } => 3,
            Cause::NoWidth { .. } => 4,
            Cause::NoFit { .. } => 5,
            Cause::Limit { .. } => 6,
            Cause::BadSample { .. } => 7,
        }
    }
}

impl Answer {
    /// The status with which the process ends.
    pub fn status(&self) -> u8
        ensures { result ≡ status_of self.now }
    {
        match self {
            Answer::Ok => 0,
            Answer::Usage => 2,
            Answer::Syntax { .. } | Answer::Scope { .. } => 3,
            Answer::NoWidth { .. } => 4,
            Answer::NoFit { .. } => 5,
            Answer::Limit { .. } => 6,
            Answer::BadSample { .. } => 7,
            Answer::BadStall { .. } => 8,
            Answer::BadConfig { .. } => 9,
            Answer::ReadFault => 10,
            Answer::WriteFault => 11,
            Answer::Memory => 12,
            Answer::BadList { .. } => 14,
            Answer::Part { cause, .. } => cause.status(),
        }
    }
}
