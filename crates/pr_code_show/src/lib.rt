//! A summary of a configuration: how much of each stage is in use.
#![tactic(auto)]

mod counts;
mod lines;
mod summary;

pub use counts::{cells, states, writes};
pub use summary::show;
