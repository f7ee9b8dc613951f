//! Programs that take turns on one machine.
//!
//! In each round each program whose samples have not ended takes up the machine, is fed up to its quota, and is parked
//! again when nothing is in flight. So its state goes with it, and what it writes is what it writes alone.
#![tactic(auto)]

mod feeding;
mod items;
mod rounds;
mod turns;
mod uses;
mod writing;

pub use items::ShareItem;
pub use rounds::{ShareEnd, share};
