//! The log of a run, drawn as a picture (SVG).
#![tactic(auto)]

mod cells;
mod charts;
mod colours;
mod frames;
mod pieces;

pub use charts::{MOST, chart};
