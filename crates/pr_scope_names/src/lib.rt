//! What names stand for while the scope rules are looked at: streams, constants, tables, indices and functions, the
//! value of a constant expression, and the count of turns.
#![tactic(auto)]

mod amounts;
mod constants;
mod counts;
mod instances;
mod laws;
mod names;
mod rules;
mod streams;

pub use amounts::amount;
pub use constants::{apply, constant, place, read_name, read_static};
pub use counts::{Count, count_one};
pub use instances::Instances;
pub use laws::{later_names_law, next_item_law};
pub use names::{Callee, Frame, Static, Statics, Table};
pub use rules::{Offence, Rule, Stop};
pub use streams::{Instance, Streams};
