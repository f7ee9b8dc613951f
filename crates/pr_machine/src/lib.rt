//! A machine that runs many stages on a few stripes.
//!
//! Begin at `Machine`: `load` gives it a configuration, `offer` a sample, `take` takes a result, and `cycle` lets the
//! stripes work once. The contracts say what a machine holds by the history of its calls: see `Stands` in
//! `specs/Stands.antt`.
#![tactic(auto)]

mod buffers;
mod emptying;
pub mod laws;
mod loaded;
mod machine;
mod parking;
mod places;
mod results;

pub use loaded::Loaded;
pub use machine::{Bare, Condition, Idle, InFull, LoadRefused, Machine, OutEmpty, Running};
pub use parking::{ParkRefused, Parked};
pub use pr_conf::Turn;
