//! A program with an output more for each stream instance, taken through the passes once more.
//!
//! A program with an input `x` and `let s = x + 1;` gets two outputs, which show `x` and `s`. Their names are none of the
//! program's, the equations stay the same, and so do their widths. So what the outputs give are the streams that the
//! names stand for. Where that is asked, other outputs tell which of the streams are signed.
//!
//! An output takes a turn of the walk, and two equations where it tells a kind. So the outputs are added for as many
//! instances as there is room for, taken back, and added for the next ones.
#![tactic(auto)]

mod asking;
mod fresh;
mod kinds;
mod lengths;
mod parts;
mod passes;
mod probing;

pub use kinds::Detail;
pub use probing::{ProbeFault, Probed, probe};
