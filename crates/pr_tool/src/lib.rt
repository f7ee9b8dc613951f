//! The whole tool as one call: the words of a command line, files and sinks in; an answer out.
//!
//! Begin at `piperench`. It reads the words to a `Request` (`request_of`) and carries that out (`carry_out`). Its clauses are
//! the claims about the whole product.
#![tactic(auto)]

mod laws;
mod modes;
mod notes;
mod requests;
mod tool;

pub use laws::answer_law;
pub use notes::{Bounds, note_line, put_note};
pub use pr_base::Cap;
pub use pr_tool_answers::{Answer, Cause};
pub use pr_tool_modes::Bench;
pub use tool::piperench;
