//! The widths of flat equations, each recurrence's the least.
#![tactic(auto)]

mod operators;
mod solver;
mod widths;

pub use operators::operand_width;
pub use solver::solve;
pub use widths::{WidthFault, Widths};
