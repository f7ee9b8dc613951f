//! The parser: from tokens to a program (`parse`), and from a program to a text (`print`).
#![tactic(auto)]

mod build;
mod expressions;
mod fault;
mod fixed;
mod items;
mod levels;
mod parser;
mod statements;
mod tags;
mod take;

pub use parser::{ParseFault, parse, wrong_token_law};
pub use pr_parse_lex::tokens;
pub use pr_parse_print::print;
