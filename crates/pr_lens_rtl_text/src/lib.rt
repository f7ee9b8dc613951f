//! The text of the module of a configuration, in Verilog.
#![tactic(auto)]

mod bytes;
mod faults;
mod laws;
mod lines;
mod notes;
mod ports;
mod whole;

pub use faults::NoText;
pub use laws::{names_law, written_law};
pub use notes::{Notes, owner_at};
pub use ports::Port;
pub use whole::{MOST_TEXT_BYTES, input_ports, module_name, output_ports, rtl};
