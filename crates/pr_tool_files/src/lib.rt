//! Files and command lines that the tests of the tool are made of.
#![tactic(auto)]

mod configurations;
mod pieces;

pub use configurations::{
    BASE, Change, Kind, NEWER, OLDER, OTHER, WIDE, WIDER, XOR, changed, made, packed, plain,
    running_sum,
};
pub use pieces::{command_line, repeated};
