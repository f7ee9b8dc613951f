//! Operators on numbers: the kind, the width and the number that each makes of its operands.
#![tactic(auto)]

mod arithmetic;
mod operands;
mod results;
mod shifts;
mod wholes;
mod widths;

pub use operands::{natural, operate};
pub use results::{choose, operate_one, operate_two};
pub use wholes::fit;
pub use widths::{natural_choice, natural_one, natural_two, number_width, signed_one, signed_two};
