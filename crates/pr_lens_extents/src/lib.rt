//! What is known of the expressions of a program, which comparisons this settles, and which declared widths cut bits off.
//!
//! `x < 300` is true of every `x` of 8 bits, and `let s:8 = x + x;` cuts a bit off. What is known of a name is its kind
//! and width, and between which values it stands, and of a number or a constant which number it is. Of a parameter and
//! of a recurrence without declared width nothing is known.
#![tactic(auto)]

mod expressions;
mod parameters;
mod programs;
mod scenes;
mod statements;
mod verdicts;

pub use programs::verdicts_of;
pub use verdicts::Verdict;
