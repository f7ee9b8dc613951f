//! The vectors of a module.

/// What a vector of a stage holds, for a column or, of a row, for a byte of it.
#[derive(Clone, Copy, PartialEq, Eq, Debug)]
pub enum Part {
    /// The byte A.
    A,
    /// The byte B.
    B,
    /// The carry-in.
    CarryIn,
    /// The bit C.
    C,
    /// X, what the table makes of A, B and C.
    X,
    /// The sum of A, X and the carry-in, in nine bits.
    Sum,
    /// The carry-out.
    Carry,
    /// The output.
    Output,
    /// The state.
    State,
    /// A byte of the row that the stage shows.
    Row,
}

/// A vector of a module: a port, the flag of a stage, or a part of a stage.
#[derive(Clone, Copy, PartialEq, Eq, Debug)]
pub enum Net {
    /// The reset.
    Reset,
    /// Whether a sample is offered.
    InValid,
    /// Whether a sample would be taken in.
    InReady,
    /// Whether a result stands at the end.
    OutValid,
    /// Whether a result would be taken.
    OutReady,
    /// A byte of the sample.
    In(u32),
    /// A byte of the result.
    Out(u32),
    /// Whether the row that a stage shows comes of a sample.
    Valid(u32),
    /// A part of a stage: the stage, and the column or the byte of its row.
    Of(Part, u32, u32),
}
