//! The files and streams of the system as a shelf and sinks, and its words. Files and streams tell nothing, and count their
//! failures.
//!
//! What a reader gives and a writer takes is said in the words of the library, which speak of readers and writers whose
//! bytes are known. All memory is taken where a shelf or a gathering is made.
#![tactic(auto)]

mod files;
mod gathering;
mod opened;
mod slots;
mod streams;
mod words;

pub use files::FileShelf;
pub use gathering::{Finished, Gathered, Gathering, are_through};
pub use streams::OutSink;
pub use words::{WordsFault, words_of};

/// How often an interrupted call is tried.
const TRIES: usize = 16;
