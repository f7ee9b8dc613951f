//! Programs from tokens.

ghost use Rattle.std.specs.Prelude.{◌≡◌, ◌^◌, ◌≤◌, ◌<◌, IfOk, IfErr, OnOk, Some, None, length};
ghost use Rattle.pr_lang.specs.Tokens.{tokens_of};
ghost use Rattle.pr_lang.specs.Word.{words, words_of};
ghost use Rattle.pr_lang.specs.Machine.{first_wrong};
ghost use Rattle.pr_lang.specs.Tree.{Tree};
ghost use Rattle.pr_lang.specs.Load.{first_deep as first_deep_of};
ghost use Rattle.pr_lang.specs.Shape.{program_shape};
ghost use Rattle.pr_lang.specs.Syntax.{IsProgram, refusal_of, refusal_of_words};
ghost use Rattle.pr_parse.specs.declared.parser.ParseFault.TheVariants.{Memory};
ghost use Rattle.pr_parse.specs.Outcomes.{IsBuilt, Stops, IsRefused, IsAnswer, LeavesAtMost, IsFaultAt, IsFaultBefore};

use crate::fault::Fault;
use crate::items::program;
use pr_base::Cap;
use pr_lang::{Program, Token};
use pr_parse_lex::first_deep;
use std::alloc::{AllocError, Global};
use thiserror::Error;

/// Why a text is no program.
#[derive(Debug, Drop, Error)]
pub enum ParseFault {
    /// The token at this place breaks the grammar.
    #[error("syntax: token {token}")]
    Syntax { token: u32 },
    /// A token before any wrong one, or at it, is nested too deep.
    #[error("limit: {0:?}")]
    Limit(Cap),
    #[error("out of memory")]
    Memory(AllocError),
}

impl From<AllocError> for ParseFault {
    ghost from_gives = { λ a e. e ≡ Memory a };

    fn from(error: AllocError) -> ParseFault {
        ParseFault::Memory(error)
    }
}

/// A program that takes up all the tokens.
fn whole(alloc: Global, text: &[u8], tokens: &[Token]) -> Result<Program, Fault>
    ensures ok { IfOk result (λ q. IsBuilt (words text.now tokens.now) (program_shape q)) }
    ensures err { IfErr result (λ e. Stops text.now tokens.now e) }
{
    let (program, rest) = program(alloc, text, tokens)?;
    let left = rest.len();
    if left > 0 {
        return Err(Fault::Wrong(left));
    }
    Ok(program)
}

/// The refusal where so many tokens were read, all but those that the fault tells.
fn fault_at(end: usize, fault: Fault) -> ParseFault
    requires within { LeavesAtMost end fault }
    requires few { end < 2 ^ 32 }
    ensures { IsFaultAt end fault result }
{
    match fault {
        Fault::Wrong(left) => ParseFault::Syntax {
            token: (end - left) as u32,
        },
        Fault::Memory(error) => ParseFault::Memory(error),
    }
}

/// The same where the token at this place is deep: it is the one unless a token before it is wrong.
fn fault_before(place: usize, fault: Fault) -> ParseFault
    requires within { LeavesAtMost place fault }
    requires few { place < 2 ^ 32 }
    ensures { IsFaultBefore place fault result }
{
    match fault {
        Fault::Wrong(left) => {
            if left == 0 {
                ParseFault::Limit(Cap::Nesting)
            } else {
                ParseFault::Syntax {
                    token: (place - left) as u32,
                }
            }
        }
        Fault::Memory(error) => ParseFault::Memory(error),
    }
}

/// Where no token is deep.
fn parse_all(alloc: Global, text: &[u8], tokens: &[Token]) -> Result<Program, ParseFault>
    requires shallow { first_deep_of (words text.now tokens.now) ≡ None }
    requires few { length tokens.now < 2 ^ 32 }
    ensures { IsAnswer (words text.now tokens.now) result }
{
    match whole(alloc, text, tokens) {
        Ok(program) => Ok(program),
        Err(fault) => Err(fault_at(tokens.len(), fault)),
    }
}

/// Where the token at this place is the first that is deep: only the tokens before it are read.
fn parse_front(alloc: Global, text: &[u8], tokens: &[Token], place: usize) -> ParseFault
    requires deep { first_deep_of (words text.now tokens.now) ≡ Some place }
    requires within { place ≤ length tokens.now }
    requires few { length tokens.now < 2 ^ 32 }
    ensures { IsRefused (refusal_of_words (words text.now tokens.now)) result }
{
    let (near, _) = tokens.split_at(place);
    match whole(alloc, text, near) {
        Ok(_) => {
            return ParseFault::Limit(Cap::Nesting);
        }
        Err(fault) => {
            return fault_before(place, fault);
        }
    }
}

/// The program of a text of at most 1,048,576 bytes and its tokens, or the first token that breaks the grammar or is
/// nested too deep.
pub fn parse(alloc: Global, text: &[u8], tokens: &[Token]) -> Result<Program, ParseFault>
    requires text { length text.now ≤ 1048576 }
    requires tokens { tokens.now ≡ tokens_of text.now }
    ensures program { IfOk result (λ q. IsProgram text.now (program_shape q)) }
    ensures accepted { OnOk result (refusal_of text.now ≡ None) }
    ensures refused { IfErr result (λ e. IsRefused (refusal_of text.now) e) }
{
    let deep = first_deep(alloc, tokens)?;
    match deep {
        None => parse_all(alloc, text, tokens),
        Some(place) => Err(parse_front(alloc, text, tokens, place)),
    }
}

/// What binds the wrong token and the grammar: no token of a text is wrong exactly where the text is that of some
/// program, and it is that of one program at most.
pub fn wrong_token_law(text: &[u8])
    ensures accepted { (q : Tree) → IsProgram text.now q → first_wrong (words_of text.now) ≡ None }
    ensures derived { first_wrong (words_of text.now) ≡ None → (q : Tree) × IsProgram text.now q }
    ensures one { (p q : Tree) → IsProgram text.now p → IsProgram text.now q → p ≡ q }
{
    let _ = text;
}
