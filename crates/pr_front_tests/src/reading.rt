//! What is answered to a text, and what is printed for it.

ghost use Rattle.std.specs.Prelude.{◌≤◌, length};

use pr_parse::{ParseFault, parse, print, tokens};
use std::alloc::{AllocError, Global};

#[derive(Clone, Copy, Debug, PartialEq, Eq)]
pub enum Answer {
    Program,
    Syntax(u32),
    TooDeep,
}

/// What is answered to a text.
pub fn answer_to(alloc: Global, text: &[u8]) -> Result<Answer, AllocError>
    requires { length text.now ≤ 1048576 }
{
    let tokens = tokens(alloc, text)?;
    match parse(alloc, text, &tokens) {
        Ok(_) => Ok(Answer::Program),
        Err(ParseFault::Syntax { token }) => Ok(Answer::Syntax(token)),
        Err(ParseFault::Limit(_)) => Ok(Answer::TooDeep),
        Err(ParseFault::Memory(error)) => Err(error),
    }
}

/// The text that is printed for the program of a text; nothing where it is refused.
pub fn printed(alloc: Global, text: &[u8]) -> Result<Vec<u8>, AllocError>
    requires { length text.now ≤ 1048576 }
{
    let tokens = tokens(alloc, text)?;
    match parse(alloc, text, &tokens) {
        Ok(program) => print(alloc, &program),
        Err(ParseFault::Memory(error)) => Err(error),
        Err(_) => Ok(Vec::new(alloc)),
    }
}
