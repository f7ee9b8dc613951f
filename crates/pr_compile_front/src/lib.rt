//! The first half of the compiler: from a text to its program, the program's equations and their widths, or to the
//! first point that refuses the text.
#![tactic(auto)]

mod faults;
mod fronts;
mod laws;

pub use faults::FrontFault;
pub use fronts::{Front, read_program};
pub use laws::front_law;
