//! How names, tokens and their places are told, and what the tokens around a name say of it.
//!
//! A name can be one number, as `k` is 3 behind `const k = 3;`. Behind `const k = 2 + 1;` it is not looked at.
#![tactic(auto)]

mod brackets;
mod constants;
mod instances;
mod names;
mod pieces;

pub use brackets::{kind_behind, parts_behind, square_around};
pub use constants::{Named, constant_at, number_of_name};
pub use instances::{
    is_assigned_at, is_same_instance, is_target, last_number, put_first_turn, put_instance,
    put_tokens, target_around,
};
pub use names::{Introduction, Sort, introduction_of, put_introduced, put_introduction};
pub use pieces::{put_in_quotes, put_place, put_quoted};
