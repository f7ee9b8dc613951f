//! The flat equations of a program, by definition: functions inlined, loops unrolled, and each equation where the walk of
//! the text makes it. Nothing here runs.
#![tactic(auto)]

mod givens;

pub use givens::{Given, Standing};
