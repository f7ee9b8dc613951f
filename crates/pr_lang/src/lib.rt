//! The stream language DIL: its tokens, its syntax trees, and its grammar as a definition.
#![tactic(auto)]

mod names;
mod tokens;
mod trees;

pub use names::Name;
pub use tokens::{Keyword, Kind, Symbol, Token};
pub use trees::{BinOp, Expr, Fixed, FixedOp, Item, Param, Program, Ref, Stmt};
