//! Why a text is refused, for people: the answer of the compiler, where it points to, and what to do about it.
#![tactic(auto)]

mod codes;
mod explaining;
mod fits;
mod helps;
mod limits;
mod slips;
mod syntax;
mod telling;
mod widths;

pub use codes::put_code;
pub use explaining::{Explanation, Verdict, explain};
pub use helps::{Help, help_of, put_help};
