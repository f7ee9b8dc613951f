//! Equations, each with its operation and its operands.

/// What an equation reads, or an output gives.
#[derive(Clone, Copy, PartialEq, Eq, Debug)]
pub enum Operand {
    /// The same number at each sample.
    Const(u64),
    /// The stream of the equation of this number.
    Eq(u32),
    /// The stream of a recurrence, so many samples earlier.
    Past { rec: u32, k: u32 },
}

/// What an equation makes of its operands.
#[derive(Clone, Copy, PartialEq, Eq, Debug)]
pub enum Op {
    /// A column of the samples.
    Input,
    Add,
    Sub,
    Mul,
    And,
    Or,
    Xor,
    Not,
    Equal,
    NotEqual,
    Less,
    LessEqual,
    Greater,
    GreaterEqual,
    /// The second operand where the first is 1, and else the third.
    Choose,
    /// A shift to the left by so many bits.
    Left(u8),
    /// A shift to the right by so many bits.
    Right(u8),
    /// A shift to the left by the second operand.
    LeftBy,
    /// A shift to the right by the second operand.
    RightBy,
    /// The bits from the first place down to the second.
    Slice(u64, u64),
    /// The first operand's bits above the second's.
    Cat,
    /// The operand, at another width.
    Fit,
    /// The operand one sample earlier, after this number.
    Delay(u64),
    /// A recurrence: its initial value, and the number of the first equation of its body.
    Rec { init: u64, first: u32 },
}

/// One equation: each operand has a kind, which is true where it is read as signed.
#[derive(Debug, Drop)]
pub struct Equation {
    pub op: Op,
    pub args: Vec<Operand>,
    /// The width in bits, where one is declared.
    pub declared: Option<u8>,
    pub kinds: Vec<bool>,
}
