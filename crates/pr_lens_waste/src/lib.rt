//! Delay lines that are longer than what reads them.
//!
//! In `let d[0] = x; for i in 1..9 { let d[i] = d[i-1]@1; } output y = d[0] + d[3];` no output needs `d[4]` to `d[8]`.
#![tactic(auto)]

mod delays;
mod faults;
mod lines;
mod programs;

pub use lines::{Lines, Tail, tail_of};
pub use programs::lines_of;
