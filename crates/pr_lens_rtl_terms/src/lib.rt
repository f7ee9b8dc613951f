//! The assignments of the module of a configuration, and which of them are written.
#![tactic(auto)]

mod edges;
mod elements;
mod marks;
mod stages;
mod terms;

pub use edges::{hand_lines, last_stage, tap_lines};
pub use marks::{is_kept, marks_of};
pub use stages::{stage_registers, stage_wires};
pub use terms::{Atom, Change, Factor, Form, Line, Sign, Term};
