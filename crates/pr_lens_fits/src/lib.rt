//! Programs that are too large for a fabric: which of their units fits nowhere, and with which of their items a limit
//! is passed.
#![tactic(auto)]

mod cells;
mod ends;
mod groups;
mod kept;
mod makers;
mod nets;
mod ready;
mod targets;
mod units;

pub use cells::{cells_in, cells_of, group_ending};
pub use ends::{input_item, output_item};
pub use groups::{Unfit, find_unfit};
pub use makers::{first_unit, width_at};
pub use nets::plan_and_net;
pub use ready::{read_front, ready_in, ready_of};
pub use units::units_item;
