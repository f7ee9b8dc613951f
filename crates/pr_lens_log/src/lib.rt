//! The log of a run, read back from its text piece by piece; which of its cycles are shown; and which stage stands in
//! which stripe as they go by.
#![tactic(auto)]

mod boards;
mod excerpts;
mod lines;
mod logs;
mod pasts;
mod readers;
mod totals;
mod windows;
mod words;

pub use boards::Board;
pub use excerpts::{Choice, Excerpt};
pub use lines::{LogLine, Logged, read_line};
pub use logs::{Log, LogFault};
pub use pasts::Past;
pub use readers::Reader;
pub use totals::Totals;
pub use windows::{Part, Window};
