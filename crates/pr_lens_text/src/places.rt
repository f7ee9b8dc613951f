//! Lines and columns.

ghost use Rattle.std.specs.Prelude.{◌≡◌, ◌≤◌, length};
ghost use Rattle.pr_lens_text.specs.Places.{IsPlace};

use crate::lines::line_at;
use pr_lang::Token;

/// Where a byte of a text stands.
#[derive(Clone, Copy, PartialEq, Eq, Debug)]
pub struct Place {
    /// The bytes before it.
    pub offset: usize,
    /// The number of its line, from 1.
    pub line: usize,
    /// Its place in the line, in bytes, from 1.
    pub column: usize,
}

/// The place of the byte behind so many bytes of a text, or of the text's end.
pub fn place_at(text: &[u8], offset: usize) -> Place
    requires { offset ≤ length text.now }
    ensures { IsPlace text.now offset result }
{
    let line = line_at(text, offset);
    Place {
        offset,
        line: line.number,
        column: offset - line.start + 1,
    }
}

/// The place of a token of a text: that of its first byte.
pub fn token_place(text: &[u8], token: &Token) -> Place
    requires { token.now.start ≤ length text.now }
    ensures { IsPlace text.now token.now.start result }
{
    place_at(text, token.start as usize)
}
