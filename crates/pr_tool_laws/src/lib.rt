//! Laws of the tool, on which no code stands. Nothing here runs.
//!
//! Words and files have exactly one verdict. What is written of a program's configuration is read as it. Generated samples are as
//! many as their lines.
#![tactic(auto)]

mod generated;
mod verdicts;
mod written;

pub use generated::generated_law;
pub use verdicts::{list_verdict_law, words_verdict_law};
pub use written::{bytes_law, kept_law, written_law};
