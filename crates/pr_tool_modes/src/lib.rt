//! The modes of the tool: what each reads, and what it writes.
//!
//! Each mode has a file and a function: `execute` runs a configuration, `eval` evaluates a program, `write_text` writes
//! a configuration, `fold` and `extend` write checkpoints, `move_on` goes on from one, `generate` runs a generated
//! program. `load` reads the configuration of a source for all of them.
#![tactic(auto)]

mod benches;
mod checkpoints;
mod configurations;
mod evaluations;
mod executions;
mod files;
mod folds;
mod generations;
mod jobs;
mod laws;
mod lines;
mod loadables;
mod moves;
mod programs;
mod ready;
mod results;
mod runs;
mod sources;
mod stalls;
mod targets;
mod texts;

pub use benches::Bench;
pub use evaluations::{answer_of, eval};
pub use executions::execute;
pub use files::read_file;
pub use folds::{extend, fold};
pub use generations::generate;
pub use jobs::{ConfSource, Generation, Job, Resumption, Run};
pub use laws::{behaviour_law, moving_law, verdict_law};
pub use loadables::{Loadable, Origin};
pub use moves::move_on;
pub use pr_tool_answers::Answer;
pub use programs::{compile_answer, compile_on};
pub use sources::load;
pub use targets::Target;
pub use texts::{Form, write_text};
