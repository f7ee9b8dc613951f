//! What is told of a broken rule of scope.
#![tactic(auto)]

mod crossed;
mod rules;
mod uses;

pub use rules::tell;
pub use uses::is_signed;
