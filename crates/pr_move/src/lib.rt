//! Moving a run: its samples are finished without a result being written, and the configuration that the stages have come
//! to is written with the count of the samples, from which another run goes on.
#![tactic(auto)]

mod finishing;
pub mod laws;
mod marking;
mod nowhere;

pub use finishing::finish;
pub use marking::mark_of;
