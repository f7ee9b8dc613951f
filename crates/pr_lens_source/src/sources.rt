//! A text, its tokens, and where its items stand.

ghost use Rattle.std.specs.Prelude.{◌≡◌, ◌<◌, ◌≤◌, ◌+◌, ◌^◌, ◌⊎◌, ◌==◌, ◌&&◌, ℕ, Some, cond, length, max, nat_le, position, IfOk, IsTrue, All};
ghost use Rattle.pr_lens_source.specs.Tokens.{kind_of, start_of, end_of, bytes_of, text_before, first_of, last_of, front_text};
ghost use Rattle.pr_lens_source.specs.Depths.{depth_after};
ghost use Rattle.pr_lens_source.specs.Items.{AreItems, ends_item, has_body};
ghost use Rattle.pr_lens_source.specs.Spans.{IsSpanWithin, IsItemAt, StandsIn, item_of};

use pr_lang::{Keyword, Kind, Symbol, Token};
use std::alloc::{AllocError, Global};

/// The first token of an item, and the last.
#[derive(Clone, Copy)]
pub struct Span {
    pub first: usize,
    pub last: usize,
}

/// A text that is looked at, with its tokens and its items.
#[derive(Clone, Copy)]
pub struct Source<'a> {
    pub text: &'a [u8],
    pub tokens: &'a [Token],
    pub spans: &'a [Span],
}

impl<'a> Source<'a> {
    /// The kind of a token, and End behind the last.
    pub fn kind(&self, at: usize) -> Kind
        ensures { result ≡ kind_of self.now.tokens.now at }
    {
        kind_at(self.tokens, at)
    }

    /// The place of a token's first byte, and the text's end behind the last token.
    pub fn start(&self, at: usize) -> usize
        ensures value { result ≡ start_of self.now.text.now self.now.tokens.now at }
        ensures within { result ≤ length self.now.text.now }
    {
        match self.tokens.get(at) {
            None => self.text.len(),
            Some(token) => self.text.len().min(token.start as usize),
        }
    }

    /// The place behind a token's last byte, and the text's end behind the last token.
    pub fn end(&self, at: usize) -> usize
        ensures value { result ≡ end_of self.now.text.now self.now.tokens.now at }
        ensures within { result ≤ length self.now.text.now }
    {
        match self.tokens.get(at) {
            None => self.text.len(),
            Some(token) => self.text.len().min(token.end as usize),
        }
    }

    /// The text before a token.
    pub fn before(&self, at: usize) -> &[u8]
        ensures text { result.now ≡ text_before self.now.text.now self.now.tokens.now at }
        ensures within { length result.now ≤ length self.now.text.now }
    {
        let end = self.start(at);
        &self.text[..end]
    }

    /// The bytes of a token.
    pub fn bytes(&self, at: usize) -> &[u8]
        ensures { result.now ≡ bytes_of self.now.text.now self.now.tokens.now at }
    {
        let start = self.start(at);
        let end = self.end(at);
        if start <= end {
            &self.text[start..end]
        } else {
            &[]
        }
    }

    /// The token at which an item begins, and the last token behind the last item.
    pub fn first(&self, item: usize) -> usize
        ensures { result ≡ first_of self.now.tokens.now self.now.spans.now item }
    {
        match self.spans.get(item) {
            None => self.tokens.len().saturating_sub(1),
            Some(span) => span.first,
        }
    }

    /// The last token of an item, but none before its first; the last of all tokens behind the last item.
    pub fn last(&self, item: usize) -> usize
        ensures value { result ≡ last_of self.now.tokens.now self.now.spans.now item }
        ensures order { first_of self.now.tokens.now self.now.spans.now item ≤ result }
    {
        match self.spans.get(item) {
            None => self.tokens.len().saturating_sub(1),
            Some(span) => span.first.max(span.last),
        }
    }

    /// The token that was found, where it stands in the item; else the item's first token.
    pub fn held(&self, item: usize, found: Option<usize>) -> usize
        ensures stands { StandsIn self.now.tokens.now self.now.spans.now item result }
        ensures taken { (token : ℕ) → found ≡ Some token →
            StandsIn self.now.tokens.now self.now.spans.now item token → result ≡ token }
        ensures other { (result ≡ first_of self.now.tokens.now self.now.spans.now item) ⊎ (found ≡ Some result) }
        ensures left { (token : ℕ) → found ≡ Some token →
            (result ≡ token) ⊎ (StandsIn self.now.tokens.now self.now.spans.now item token → ⊥) }
    {
        let first = self.first(item);
        let last = self.last(item);
        match found {
            None => {
                return first;
            }
            Some(token) => {
                if first <= token && token <= last {
                    return token;
                }
                return first;
            }
        }
    }

    /// The item in which a token stands: the first that does not end before it; the number of items behind them all.
    pub fn item_at(&self, token: usize) -> usize
        ensures value { result ≡ item_of self.now.spans.now token }
        ensures is { IsItemAt self.now.spans.now token result }
    {
        first_ending(self.spans, token).unwrap_or(self.spans.len())
    }

    /// The text of the items before this one.
    pub fn front(&self, item: usize) -> &[u8]
        ensures text { result.now ≡ front_text self.now.text.now self.now.tokens.now self.now.spans.now item }
        ensures within { length result.now ≤ length self.now.text.now }
    {
        self.before(self.first(item))
    }
}

/// The first item that does not end before a token.
fn first_ending(spans: &[Span], token: usize) -> Option<usize>
    ensures { result ≡ position (λ span. nat_le token span.last) spans.now }
{
    spans.iter().position(|span| token <= span.last)
}

/// A count with one more, or one less, where it is not 0.
pub fn counted(count: usize, more: bool, less: bool) -> usize
    requires { count + 1 < 2 ^ 64 }
    ensures { result + cond less 1 0 ≡ max (count + cond more 1 0) (cond less 1 0) }
{
    let most = if more { count + 1 } else { count };
    if less { most.saturating_sub(1) } else { most }
}

/// How deep brackets are open after a token.
pub fn depth_after(depth: usize, kind: Kind) -> usize
    ensures { result ≡ depth_after depth kind }
{
    match kind {
        Kind::Mark(symbol) => match symbol {
            Symbol::OpenRound | Symbol::OpenSquare | Symbol::OpenCurly => depth.saturating_add(1),
            Symbol::CloseRound | Symbol::CloseSquare | Symbol::CloseCurly => {
                depth.saturating_sub(1)
            }
            _ => depth,
        },
        _ => depth,
    }
}

/// The kind of a token, and End behind the last.
fn kind_at(tokens: &[Token], at: usize) -> Kind
    ensures { result ≡ kind_of tokens.now at }
{
    match tokens.get(at) {
        None => Kind::End,
        Some(token) => token.kind,
    }
}

/// Whether an item that begins with this token ends with a curly bracket, and not with a semicolon.
fn has_body(kind: Kind) -> bool
    ensures { result ≡ has_body kind }
{
    matches!(kind, Kind::Word(Keyword::Fn) | Kind::Word(Keyword::For))
}

/// Whether an item can end with the second token that begins with the first.
fn ends_item(first: Kind, kind: Kind) -> bool
    ensures { result ≡ ends_item first kind }
{
    if has_body(first) {
        matches!(kind, Kind::Mark(Symbol::CloseCurly))
    } else {
        matches!(kind, Kind::Mark(Symbol::Semi))
    }
}

/// Whether the item that began with the first token ends with this one, behind which brackets are open so deep.
fn is_last(first: Kind, kind: Kind, depth: usize) -> bool
    ensures value { result ≡ ((depth == 0) && ends_item first kind) }
    ensures flat { IsTrue result → depth ≡ 0 }
{
    if depth > 0 {
        return false;
    }
    ends_item(first, kind)
}

/// The items of the tokens of a program, in order.
pub fn spans_of(alloc: Global, tokens: &[Token]) -> Result<Vec<Span>, AllocError>
    ensures within { IfOk result (λ spans. All (IsSpanWithin (length tokens.now)) spans.items) }
    ensures items { IfOk result (λ spans. AreItems tokens.now 0 spans.items) }
{
    let mut spans = Vec::new(alloc);
    let mut first = 0;
    let mut depth = 0;
    for last in 0..tokens.len() {
        let kind = kind_at(tokens, last);
        depth = depth_after(depth, kind);
        if is_last(kind_at(tokens, first), kind, depth) {
            spans.push(Span { first, last })?;
            first = last + 1;
        }
    }
    Ok(spans)
}
