//! A whole run of a machine: samples are read, results are written, and the run ends when nothing is in flight.
//!
//! Begin at `run`. Its contract says which lines are written, by the definitions of `pr_run_script`. These speak of
//! turns and counts, and know no machine.
#![tactic(auto)]

mod cycling;
mod ending;
mod feeding;
mod rooms;
mod runs;
mod turning;
mod writing;

pub use ending::RunEnd;
pub use feeding::{goes_on, offer_sample};
pub use rooms::Room;
pub use runs::run;
pub use writing::put_widths;
