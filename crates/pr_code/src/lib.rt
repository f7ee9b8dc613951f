//! Configuration files and checkpoints: writing them (`encode`, `write_mark`) and reading them (`decode`, `read_mark`).
//!
//! The two are inverse: `files_law` and `marks_law` say that a file is read as what was written, and as nothing else.
#![tactic(auto)]

mod decoding;
mod encoding;
mod fabrics;
mod faults;
mod formats;
mod laws;
mod marking;
mod parts;
mod reading;
mod spelled;
mod stages;
mod words;

pub use decoding::{decode, read_mark};
pub use encoding::encode;
pub use fabrics::fabric_of;
pub use faults::CodeFault;
pub use laws::{files_law, marks_law};
pub use marking::write_mark;
