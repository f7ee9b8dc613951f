//! Whether a program keeps the rules of scope: which names are visible where, and what may stand in their places.
//!
//! A walk goes through the program in text order, with loops unrolled. The first point that breaks a rule decides.
#![tactic(auto)]

mod checking;
mod expressions;
mod items;
mod programs;
mod progress;
mod statements;

pub use checking::{ScopeFault, Scoped};
pub use pr_scope_names::{
    Callee, Offence, Rule, Static, Statics, Table, amount, constant, place, read_name, read_static,
};
pub use programs::check;
