//! Texts of streams: as a waveform (VCD), or as lines of numbers with a comma between.
//!
//! A pen writes them row by row. A row has the numbers of all streams at one sample.
#![tactic(auto)]

mod changes;
mod looks;
mod names;
mod pens;
mod tables;
mod waves;

pub use changes::put_time;
pub use looks::{Form, Look, Track};
pub use names::{is_listed, name_at, unknown_in};
pub use pens::{Pen, put_head};
pub use tables::put_index;
