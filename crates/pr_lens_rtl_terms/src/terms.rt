//! Right sides of assignments, as small values that need no memory.

use pr_lens_rtl::Net;

/// A constant, a vector, or a part of one.
#[derive(Clone, Copy)]
pub enum Atom {
    /// A constant byte.
    Byte(u8),
    /// A constant bit.
    Bit(bool),
    /// A vector.
    Read(Net),
    /// A bit of a vector.
    Pick(Net, u8),
    /// The lowest bits of a vector with zeros above them, eight bits together.
    Low(Net, u8),
    /// A vector in nine bits.
    Wide(Net),
}

/// What an operator is applied to.
#[derive(Clone, Copy)]
pub enum Factor {
    /// An atom.
    Plain(Atom),
    /// Its complement.
    Not(Atom),
    /// It moved up by so many bits.
    Left(Atom, u8),
    /// It moved down by so many bits.
    Right(Atom, u8),
    /// Whether it is 0.
    IsZero(Atom),
}

/// The operators between two.
#[derive(Clone, Copy)]
pub enum Sign {
    /// Both.
    And,
    /// One at least.
    Or,
    /// One alone.
    Xor,
    /// The sum.
    Plus,
}

/// At most one operator.
#[derive(Clone, Copy)]
pub enum Form {
    /// No operator.
    One(Factor),
    /// An operator.
    Two(Sign, Factor, Factor),
    /// Its complement.
    NotTwo(Sign, Factor, Factor),
}

/// A right side.
#[derive(Clone, Copy)]
pub enum Term {
    /// At most one operator.
    Whole(Form),
    /// The first where the vector is not 0, and else the second.
    Choice(Net, Form, Form),
    /// A sum of three.
    Sum(Atom, Atom, Atom),
    /// What a register takes where the pipeline is enabled; else it keeps what this vector holds.
    Next(Atom, Net),
    /// What a state takes.
    State(Change),
    /// What a flag takes.
    Flag {
        /// The flag of what the stage reads.
        read: Net,
        /// The flag itself.
        own: Net,
    },
}

/// What a state takes: this byte in a reset, and, where the pipeline is enabled and a sample is read, another vector.
#[derive(Clone, Copy)]
pub struct Change {
    /// The byte at a reset.
    pub first: u8,
    /// The flag of what the stage reads.
    pub read: Net,
    /// The vector that is taken.
    pub next: Net,
    /// The state itself.
    pub own: Net,
}

/// An assignment: a vector, and the right side.
#[derive(Clone, Copy)]
pub struct Line {
    /// The vector.
    pub net: Net,
    /// The right side.
    pub term: Term,
}
