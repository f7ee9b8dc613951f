//! Equations between streams, without functions and loops, and what each operator makes of its operands
//! (`specs/Rows.antt`).
#![tactic(auto)]

mod equations;
mod flat;
mod forms;
mod laws;

pub use equations::{Equation, Op, Operand};
pub use flat::Flat;
pub use forms::{Form, Point};
pub use laws::{natural_law, numbers_law, row_law, rows_law};
