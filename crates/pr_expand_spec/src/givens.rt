//! What expressions and names give.

use pr_flat::Operand;

/// An operand, and whether it is read as signed.
#[derive(Clone, Copy, PartialEq, Eq, Debug)]
pub struct Given {
    pub operand: Operand,
    pub signed: bool,
}

/// What a stream instance stands for.
#[derive(Clone, Copy, PartialEq, Eq, Debug)]
pub enum Standing {
    /// An operand, and the number before its first one.
    Stream { given: Given, init: u64 },
    /// The recurrence whose body this is, by the number that it will have.
    Own(u32),
}
