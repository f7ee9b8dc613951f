//! The bytes of the numbers of flat equations, as their net shows them. Nothing here runs.
#![tactic(auto)]

mod laws;

pub use laws::cut_bytes_law;
