//! The numbers of flat equations, sample by sample.
#![tactic(auto)]

mod evaluation;
mod evaluator;
mod reader;
mod recent;

pub use evaluation::eval;
pub use evaluator::Evaluator;
