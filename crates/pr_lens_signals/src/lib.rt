//! What the names of a program stand for, sample by sample.
//!
//! `input x:8; let s = x + 1; output y = s;` has the streams `x`, `s` and `y`. Their numbers are written while the samples
//! are read: as a waveform, or as lines with a name for each column.
#![tactic(auto)]

mod probing;
mod rows;
mod streams;
mod tracks;

pub use probing::Showing;
pub use streams::signals;
pub use tracks::{NoStream, Style};
