//! Points and frames.

/// What a statement or an item has beside its expressions, as tokens.
#[derive(Drop)]
pub struct Frame {
    /// The names that it introduces, its own first.
    pub names: Vec<u32>,
    /// Its declared widths.
    pub widths: Vec<u32>,
    /// The points of its constant expressions.
    pub fixeds: Vec<u32>,
}

/// The points of an item, as tokens.
#[derive(Drop)]
pub struct Points {
    /// The points of its expressions.
    pub values: Vec<u32>,
    /// A frame for each statement, the outer before the inner.
    pub frames: Vec<Frame>,
}
