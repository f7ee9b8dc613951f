//! Equations that keep the facts of flat ones.

ghost use Rattle.pr_flat.specs.Shape.{shapes_of};
ghost use Rattle.pr_flat.specs.Facts.{IsFlat};

use crate::equations::{Equation, Operand};

/// Equations in order, and the operand of each output.
#[derive(Debug, Drop)]
pub struct Flat {
    /// The equations; each is named by its place.
    pub equations: Vec<Equation>,
    /// What each output gives.
    pub outputs: Vec<Operand>,
    pub ghost lawful: { IsFlat (shapes_of equations.items) outputs.items },
}
