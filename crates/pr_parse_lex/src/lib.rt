//! The tokens of a text, and how deep they are nested.
#![tactic(auto)]

mod depth;
mod lexer;
mod numbers;
mod pieces;

pub use depth::first_deep;
pub use lexer::tokens;
