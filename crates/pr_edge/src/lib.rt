//! Files and output as traits: a `Shelf` reads files, a `Sink` takes bytes. Both have implementations in memory, for
//! tests and proofs.
//!
//! A shelf and a sink count their failures. By that count a caller proves that a failure which it reports came from
//! outside, and not from itself.
#![tactic(auto)]

mod finding;
mod mem_shelf;
mod mem_sink;
mod parts;
mod reading;
mod sure_shelf;
mod sure_sink;
mod writing;

pub use mem_shelf::MemShelf;
pub use mem_sink::MemSink;
pub use reading::{ReadAll, Shelf, read_all};
pub use sure_shelf::SureShelf;
pub use sure_sink::SureSink;
use thiserror::Error;
pub use writing::{Sink, WriteFault, write_all};

/// A read or a write that the outside refused.
#[derive(Debug, Drop, Error)]
#[error("the outside failed")]
pub struct Failed;
