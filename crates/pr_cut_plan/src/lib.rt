//! What is known of a net before a unit is made: who has units, how many, where hold units stand, and the groups.
#![tactic(auto)]

mod counts;
mod equations;
mod faults;
mod groups;
mod laws;
mod plans;
mod reached;

pub use faults::CutFault;
pub use groups::{Holds, groups_of, holds_of};
pub use laws::parts_law;
pub use plans::{CutPlan, plan_of};
