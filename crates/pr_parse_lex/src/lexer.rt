//! The tokens of a text.

ghost use Rattle.std.specs.Prelude.{◌≡◌, ◌≤◌, ◌+◌, length, IfOk};
ghost use Rattle.pr_lang.specs.Tokens.{tokens_of, token};

use crate::pieces::{Piece, front_piece};
use pr_lang::{Kind, Token};
use std::alloc::{AllocError, Global};

/// The token of `size` bytes at a place.
fn token_at(kind: Kind, start: usize, size: usize) -> Token
    requires { start + size ≤ 1048576 }
    ensures { result ≡ token kind start size }
{
    Token {
        kind,
        start: start as u32,
        end: (start + size) as u32,
    }
}

/// The tokens of a text of at most 1,048,576 bytes. The last one is an End, or a Bad where the text stops being tokens.
pub fn tokens(alloc: Global, text: &[u8]) -> Result<Vec<Token>, AllocError>
    requires { length text.now ≤ 1048576 }
    ensures { IfOk result (λ found. found.items ≡ tokens_of text.now) }
{
    let mut found = Vec::new(alloc);
    let mut at = 0;
    while at < text.len() {
        match front_piece(text[at], &text[at..]) {
            Piece::Gap(size) => at += size,
            Piece::Whole(kind, size) => {
                found.push(token_at(kind, at, size))?;
                at += size;
            }
            Piece::Broken(size) => {
                found.push(token_at(Kind::Bad, at, size))?;
                return Ok(found);
            }
        }
    }
    found.push(token_at(Kind::End, at, 0))?;
    Ok(found)
}
