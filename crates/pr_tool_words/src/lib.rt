//! The words of a command line: what they ask for, or that they are no lawful command line.
//!
//! `read_words` asks `clap`. The definition that it is proved against, `specs/Lawful.antt`, knows nothing of `clap`.
#![tactic(auto)]

mod asking;
mod calling;
mod modes;
mod options;
mod parsing;
mod quantities;

pub use calling::{Words, WordsFault, read_words};
pub use modes::{GenSize, Mode};
pub use options::Options;
pub use quantities::number_in;
