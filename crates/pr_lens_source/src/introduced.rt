//! Where names are introduced.

ghost use Rattle.std.specs.Prelude.{◌≡◌, ◌&&◌, ◌-◌, ◌==◌, IfSome, IsTrue, not};
ghost use Rattle.pr_lens_source.specs.Kinds.{introduces, is_close_curly, is_fn, is_for, is_of_parameters, is_open_curly, is_open_round};
ghost use Rattle.pr_lens_source.specs.Names.{IsEarlierName, SameName};
ghost use Rattle.pr_lens_source.specs.Spans.{item_of};
ghost use Rattle.pr_lens_source.specs.Tokens.{first_of, kind_of};
ghost use Rattle.pr_lens_source.specs.Introduced.{introduced_before, is_closed, is_introduced_at, is_introduction, is_over, is_parameter, is_same_name};

use crate::kinds::{introduces, is_close_curly, is_fn, is_for, is_of_parameters, is_open_curly};
use crate::sources::{Source, counted};
use pr_lang::{Kind, Symbol};

/// Whether the bracket of a function's parameters opens at a token.
fn opens_parameters(source: &Source, at: usize) -> bool
    ensures { result ≡ is_open_round (kind_of source.now.tokens.now at)
        && is_fn (kind_of source.now.tokens.now (at - 2)) }
{
    match source.kind(at) {
        Kind::Mark(Symbol::OpenRound) => {
            return is_fn(source.kind(at.saturating_sub(2)));
        }
        _ => {
            return false;
        }
    }
}

/// Whether this token stands among the parameters of a function: those that a bracket opens behind the function's name.
fn is_parameter(source: &Source, at: usize) -> bool
    ensures { result ≡ is_parameter source.now.tokens.now at }
{
    let mut before = at;
    while 0 < before {
        before -= 1;
        if !is_of_parameters(source.kind(before)) {
            return opens_parameters(source, before);
        }
    }
    false
}

/// Whether a name is introduced at this token.
#[tactic(auto, unfolding(crate::specs::Introduced::is_introduction))]
fn is_introduction(source: &Source, at: usize) -> bool
    ensures { result ≡ is_introduction source.now.tokens.now at }
{
    introduces(source.kind(at.saturating_sub(1))) || is_parameter(source, at)
}

/// Whether the block that opens first from a token on is closed before another one.
fn is_closed(source: &Source, from: usize, at: usize) -> bool
    ensures { result ≡ is_closed source.now.tokens.now from at }
{
    let mut depth: usize = 0;
    for token in from..at {
        let kind = source.kind(token);
        let closes = is_close_curly(kind);
        if depth <= 1 && closes {
            return true;
        }
        depth = counted(depth, is_open_curly(kind), closes);
    }
    false
}

/// Whether a token stands in a function, and another one not.
fn is_left(source: &Source, introduced: usize, at: usize) -> bool
    ensures { let spans = source.now.spans.now in result
        ≡ (is_fn (kind_of source.now.tokens.now (first_of source.now.tokens.now spans (item_of spans introduced)))
        && not (item_of spans at == item_of spans introduced)) }
{
    let item = source.item_at(introduced);
    is_fn(source.kind(source.first(item))) && source.item_at(at) != item
}

/// Whether the name that is introduced at a token is visible no more at a later one: an index behind its loop, and what
/// a function introduces behind the function.
#[tactic(auto, unfolding(crate::specs::Introduced::is_over))]
fn is_over(source: &Source, introduced: usize, at: usize) -> bool
    ensures { result ≡ is_over source.now.tokens.now source.now.spans.now introduced at }
{
    let word = source.kind(introduced.saturating_sub(1));
    if is_fn(word) {
        return false;
    }
    if is_for(word) {
        return is_closed(source, introduced, at);
    }
    is_left(source, introduced, at)
}

/// Whether a token is a name, and the same one as another token.
#[tactic(auto, unfolding(crate::specs::Introduced::is_same_name))]
fn is_same_name(source: &Source, earlier: usize, at: usize) -> bool
    ensures value { result ≡ is_same_name source.now.text.now source.now.tokens.now earlier at }
    ensures same { IsTrue result → SameName source.now.text.now source.now.tokens.now earlier at }
{
    match source.kind(earlier) {
        Kind::Name => {
            return source.bytes(earlier) == source.bytes(at);
        }
        _ => {
            return false;
        }
    }
}

/// Whether the name of a token is introduced at an earlier one, and visible still.
#[tactic(auto, unfolding(crate::specs::Introduced::is_introduced_at))]
fn is_introduced_at(source: &Source, at: usize, earlier: usize) -> bool
    ensures value { result
        ≡ is_introduced_at source.now.text.now source.now.tokens.now source.now.spans.now at earlier }
    ensures same { IsTrue result → SameName source.now.text.now source.now.tokens.now earlier at }
{
    if !is_same_name(source, earlier, at) {
        return false;
    }
    is_introduction(source, earlier) && !is_over(source, earlier, at)
}

/// The first token before this one at which the same name is introduced, where it is visible still.
pub fn introduced_before(source: &Source, at: usize) -> Option<usize>
    ensures value { result
        ≡ introduced_before source.now.text.now source.now.tokens.now source.now.spans.now at }
    ensures earlier { IfSome result (IsEarlierName source.now.text.now source.now.tokens.now at) }
{
    for earlier in 0..at {
        if is_introduced_at(source, at, earlier) {
            return Some(earlier);
        }
    }
    None
}
