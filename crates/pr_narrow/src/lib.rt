//! Equations narrowed to the bits that outputs demand.
#![tactic(auto)]

mod cutting;
mod demand;
mod known;
mod laws;

pub use cutting::narrow;
pub use laws::{narrowing_law, units_law};
