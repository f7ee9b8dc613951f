//! Machines that are kept from one call to the next.

use pr_machine::{Machine, Running};

/// Room for the machine that a run leaves behind.
#[derive(Drop)]
pub enum Bench {
    /// None.
    Nothing,
    /// One of the base fabric.
    Base(Machine<16, 8, Running>),
    /// One of the wide fabric.
    Wide(Machine<32, 16, Running>),
}
