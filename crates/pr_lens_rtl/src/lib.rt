//! A compiled pipeline as a Verilog module: what the module is, and that it makes of samples what the configuration
//! does. Below that, a law about every pipeline that a clock drives.
#![tactic(auto)]

mod clocked;
mod laws;
mod vectors;

pub use clocked::clocked_law;
pub use laws::{driven_law, kept_law, module_law, table_law};
pub use vectors::{Net, Part};
