//! How many columns a recurrence needs with smaller widths.

ghost use Rattle.std.specs.Prelude.{◌≡◌, ◌≤◌, IfNone, IfOk, IfSome, IsFalse, IsTrue};
ghost use Rattle.pr_lang.specs.declared.tokens.Kind.TheVariants.{Mark};
ghost use Rattle.pr_lang.specs.declared.tokens.Symbol.TheVariants.{Colon};
ghost use Rattle.pr_lens_needs.specs.Smaller.{AreNarrower, AreNarrowerIn, HasNone, HasNoOwnWidth, HasNoWidthToken, IsBehind, IsFirstOf, IsNarrower, IsOwnWidth, IsWidthToken, TakesNoWidth, TakesWidth, next_width, searched_to, with_number};

use crate::columns::{columns_of, declares_in};
use pr_lang::{Keyword, Kind, Symbol};
use pr_lens_source::Source;
use pr_lens_text::put_number;
use std::alloc::{AllocError, Global};

/// How many tokens of an item are searched. Each `rec` among them costs a pass over the text.
const MOST_SEARCHED: usize = 512;

/// A width of a recurrence, and how many columns it needs with it, where it can have it.
#[derive(Clone, Copy)]
pub struct Narrower {
    pub width: u8,
    pub columns: Option<usize>,
}

/// A recurrence of a text, which is looked at on so many columns.
#[derive(Clone, Copy)]
pub struct Asked<'a> {
    pub source: Source<'a>,
    pub narrowed: bool,
    pub columns: usize,
    /// The number of its equation.
    pub rec: usize,
    pub width: u8,
}

/// The first token of a kind from one up to another.
fn first_of(source: &Source, kind: Kind, from: usize, to: usize) -> Option<usize>
    ensures some { IfSome result (IsFirstOf kind source.now.tokens.now from to) }
    ensures none { IfNone result (HasNone kind source.now.tokens.now from to) }
{
    for token in from..to {
        if source.kind(token) == kind {
            return Some(token);
        }
    }
    None
}

/// The text with a number in the place of a token.
fn with_number(
    alloc: Global,
    source: &Source,
    token: usize,
    number: u8,
) -> Result<Vec<u8>, AllocError>
    ensures { IfOk result (λ changed.
        changed.items ≡ with_number source.now.text.now source.now.tokens.now token number) }
{
    let mut text = Vec::new(alloc);
    text.extend_from_slice(source.before(token))?;
    put_number(&mut text, usize::from(number))?;
    text.extend_from_slice(&source.text[source.end(token)..])?;
    Ok(text)
}

/// The next smaller number of whole bytes, and below them of bits.
fn next_width(width: u8) -> u8
    ensures { result ≡ next_width width }
{
    if width > 8 {
        (width - 1) / 8 * 8
    } else {
        width.saturating_sub(1)
    }
}

/// How many columns a recurrence needs with this width in the place of the token of its own.
fn narrower_at(
    alloc: Global,
    asked: &Asked,
    token: usize,
    width: u8,
) -> Result<Narrower, AllocError>
    requires { (1 ≤ asked.now.columns) × (asked.now.columns ≤ 64) }
    ensures { let a = asked.now in IfOk result (IsNarrower a.columns a.narrowed a.source.text.now
        a.source.tokens.now token a.rec width) }
{
    let text = with_number(alloc, &asked.source, token, width)?;
    let columns = columns_of(
        alloc,
        &text,
        asked.narrowed,
        asked.columns,
        asked.rec,
        Some(width),
    )?;
    Ok(Narrower { width, columns })
}

/// The same, with the next three smaller widths.
fn three_smaller(alloc: Global, asked: &Asked, token: usize) -> Result<Vec<Narrower>, AllocError>
    requires { (1 ≤ asked.now.columns) × (asked.now.columns ≤ 64) }
    ensures { let a = asked.now in IfOk result (λ found. AreNarrower a.columns a.narrowed a.source.text.now
        a.source.tokens.now token a.rec a.width found.items) }
{
    let first = next_width(asked.width);
    let second = next_width(first);
    let third = next_width(second);
    let one = narrower_at(alloc, asked, token, first)?;
    let two = narrower_at(alloc, asked, token, second)?;
    let three = narrower_at(alloc, asked, token, third)?;
    Ok(vec![in alloc; one, two, three]?)
}

/// The token behind the first colon from a `rec` on, before another token: where the recurrence declares a width, it is
/// the token of this.
fn token_behind(source: &Source, rec: usize, to: usize) -> Option<usize>
    ensures some { IfSome result (IsBehind source.now.tokens.now rec to) }
    ensures none { IfNone result (HasNone (Mark Colon) source.now.tokens.now rec to) }
{
    match first_of(source, Kind::Mark(Symbol::Colon), rec, to) {
        None => None,
        Some(colon) => Some(colon + 1),
    }
}

/// Whether the recurrence declares the next smaller width, where this stands in the place of a token.
fn takes_width(alloc: Global, asked: &Asked, token: usize) -> Result<bool, AllocError>
    ensures yes { let a = asked.now in IfOk result (λ answer. IsTrue answer →
        TakesWidth a.source.text.now a.source.tokens.now a.rec a.width token) }
    ensures no { let a = asked.now in IfOk result (λ answer. IsFalse answer →
        TakesNoWidth a.source.text.now a.source.tokens.now a.rec a.width token) }
{
    let next = next_width(asked.width);
    let text = with_number(alloc, &asked.source, token, next)?;
    declares_in(alloc, &text, asked.rec, next)
}

/// The token of the width behind this one, where this is the `rec` of the recurrence.
fn own_width(
    alloc: Global,
    asked: &Asked,
    rec: usize,
    to: usize,
) -> Result<Option<usize>, AllocError>
    ensures some { let a = asked.now in IfOk result (λ found. IfSome found
        (IsOwnWidth a.source.text.now a.source.tokens.now a.rec a.width to rec)) }
    ensures none { let a = asked.now in IfOk result (λ found. IfNone found
        (HasNoOwnWidth a.source.text.now a.source.tokens.now a.rec a.width to rec)) }
{
    if asked.source.kind(rec) != Kind::Word(Keyword::Rec) {
        return Ok(None);
    }
    let Some(token) = token_behind(&asked.source, rec, to) else {
        return Ok(None);
    };
    if takes_width(alloc, asked, token)? {
        return Ok(Some(token));
    }
    Ok(None)
}

/// The token of the width of the recurrence among those from one token up to another.
fn width_token(
    alloc: Global,
    asked: &Asked,
    from: usize,
    to: usize,
) -> Result<Option<usize>, AllocError>
    ensures some { let a = asked.now in IfOk result (λ found. IfSome found
        (IsWidthToken a.source.text.now a.source.tokens.now a.rec a.width from to)) }
    ensures none { let a = asked.now in IfOk result (λ found. IfNone found
        (HasNoWidthToken a.source.text.now a.source.tokens.now a.rec a.width from to)) }
{
    for rec in from..to {
        if let Some(token) = own_width(alloc, asked, rec, to)? {
            return Ok(Some(token));
        }
    }
    Ok(None)
}

/// Up to which token an item is searched for the `rec` of its recurrence.
fn searched_to(source: &Source, item: usize) -> usize
    ensures { result ≡ searched_to source.now.tokens.now source.now.spans.now item }
{
    let first = source.first(item);
    let last = source.last(item);
    first + last.saturating_sub(first).min(MOST_SEARCHED)
}

/// How many columns a recurrence needs with the next three smaller widths, where a `rec` among the first tokens of this item
/// declares its width.
pub fn smaller_widths(
    alloc: Global,
    asked: &Asked,
    item: usize,
) -> Result<Vec<Narrower>, AllocError>
    requires { (1 ≤ asked.now.columns) × (asked.now.columns ≤ 64) }
    ensures { let a = asked.now in IfOk result (λ found. AreNarrowerIn a.columns a.narrowed a.source.text.now
        a.source.tokens.now a.source.spans.now item a.rec a.width found.items) }
{
    let first = asked.source.first(item);
    let to = searched_to(&asked.source, item);
    match width_token(alloc, asked, first, to)? {
        None => Ok(Vec::new(alloc)),
        Some(token) => three_smaller(alloc, asked, token),
    }
}
