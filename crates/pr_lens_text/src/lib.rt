//! Texts for people: how they are put together, and where the bytes and the tokens of a text stand.
#![tactic(auto)]

mod lines;
mod pieces;
mod places;

pub use lines::{Line, end_of, line_at};
pub use pieces::{put, put_counted, put_many, put_number};
pub use places::{Place, place_at, token_place};
