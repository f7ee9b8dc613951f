//! Products and shifts by an operand, row by row.
#![tactic(auto)]

mod counts;
mod products;
mod rows;
mod shifts;

pub use counts::{chain_count, product_count, slice_count};
pub use products::{Factors, product};
pub use rows::{RowFault, mul_rows, shift_rows};
pub use shifts::{Shift, shifted_by};
