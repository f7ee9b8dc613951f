//! The comments of a module: for which stream of the program each column of a stage was made.
#![tactic(auto)]

mod labels;
mod laws;
mod noted;
mod tables;

pub use laws::notes_law;
pub use noted::notes_of;
