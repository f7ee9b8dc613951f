//! The companion, over files and sinks: words in, texts for people out.
#![tactic(auto)]

mod accepted;
mod asking;
mod benches;
mod calling;
mod compiling;
mod logs;
mod orders;
mod outcomes;
mod programs;
mod refusals;
mod replies;
mod rtl;
mod signals;

pub use calling::pipelens;
pub use outcomes::{Outcome, Reply};
