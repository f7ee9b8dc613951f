//! The log of a run, drawn as a waveform (VCD).
#![tactic(auto)]

mod changes;
mod head;
mod values;
mod waves;

pub use waves::wave;
