//! A test bench in Verilog for the module of a program: samples, the results that they give, and handshakes with gaps.
#![tactic(auto)]

mod benches;
mod cells;
mod pieces;
mod reading;
mod texts;
mod trials;

pub use benches::bench;
pub use texts::Design;
pub use trials::{NoBench, Trial};
