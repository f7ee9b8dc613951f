//! The answers of the tool, with the status of each.
#![tactic(auto)]

mod answers;

pub use answers::{Answer, Cause};
pub use pr_base::Cap;
