//! What a recurrence needs that fits in no stage: how many columns its operators take, and how many it takes with
//! smaller widths.
//!
//! In `input x:64; rec s:64 = 1 by (s@1 ^ x) & s@1;` the operators `^` and `&` read the recurrence. So both stand in one
//! stage with the unit that keeps it for the next sample, and each of the three takes eight columns. With `s:56` the unit
//! and `&` take seven, and `^` still takes eight, as x has 64 bits.
#![tactic(auto)]

mod columns;
mod groups;
mod needs;
mod recurrences;
mod smaller;
mod takes;
mod telling;

pub use needs::{Needs, Parts, find_needs};
pub use smaller::Narrower;
pub use takes::Take;
pub use telling::tell_columns;
