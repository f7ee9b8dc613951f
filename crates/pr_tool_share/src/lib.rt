//! The mode of the tool that runs the programs of a list in turns on the same stripes.
//!
//! A list has a line for each program, which names its file, that of its samples, and its quota.
#![tactic(auto)]

mod ends;
mod entries;
mod faults;
mod items;
mod laws;
mod lists;
mod parts;
mod shares;
mod words;

pub use entries::Entry;
pub use faults::ListFault;
pub use laws::{list_law, share_law};
pub use lists::read_list;
pub use shares::{Sharing, share_list};
