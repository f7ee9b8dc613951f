//! Findings about a text, as people read them in a terminal and as JSON.
#![tactic(auto)]

mod bytes;
mod findings;
mod json;
mod lines;
mod names;

pub use findings::{Finding, Severity, put_as};
pub use names::{put_name, put_word};
