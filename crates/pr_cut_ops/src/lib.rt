//! The units of one operator, of an input, and of what holds a state.
#![tactic(auto)]

mod compared;
mod operators;
mod states;
mod sums;
mod table;

pub use operators::input_unit;
pub use states::{delayed, hold_units, past_slices};
pub use table::{finished, operator_choice, operator_one, operator_two};
