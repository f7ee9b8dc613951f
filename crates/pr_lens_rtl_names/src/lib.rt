//! The names of the ports of a module.
#![tactic(auto)]

mod names;

pub use names::{Side, port_bytes, port_names};
