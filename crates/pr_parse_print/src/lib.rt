//! The text of a program.
#![tactic(auto)]

mod expressions;
mod fixed;
mod items;
mod lines;
mod signs;
mod statements;
mod words;

pub use lines::print;
pub use signs::{fixed_sign_of, sign_of};
