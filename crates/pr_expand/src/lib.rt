//! The flat equations of a program: functions inlined and loops unrolled.
#![tactic(auto)]

mod delays;
mod descents;
mod environment;
mod expressions;
mod flats;
mod items;
mod keys;
mod ledgers;
mod making;
mod operands;
mod stops;

pub use flats::{ExpandFault, expand};
pub use items::equations;
pub use ledgers::Expansion;
pub use stops::Stop;
