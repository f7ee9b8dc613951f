//! What units are made of: cells and their fields, chains, and operands made wider.
#![tactic(auto)]

mod arguments;
mod cells;
mod chains;
mod parts;
mod widening;

pub use arguments::Argument;
pub use cells::{bit_of, byte, plain, slice_at, slice_below, top, with_left, with_right};
pub use chains::{chain, closed_chain};
pub use parts::{joined, push_unit, same, slices_of_unit};
pub use widening::{flipped, widened};
