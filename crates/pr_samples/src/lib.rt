//! Samples that are read line by line from a file of any size (`Feed`), lines of results (`put_result`), and stall
//! texts (`Stall`).
#![tactic(auto)]

mod digits;
mod feed;
mod items;
mod laws;
mod lines;
mod results;
mod rooms;
mod scan;
mod stall;
mod tails;

pub use feed::{Feed, Got};
pub use laws::{cut_law, last_line_law, samples_law};
pub use lines::line_end;
pub use results::put_result;
pub use rooms::filled;
pub use stall::{BadStall, Held, Stall};
pub use tails::Tail;
