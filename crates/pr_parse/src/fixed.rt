//! Reading constant expressions, names with an index, and widths.

ghost use Rattle.std.specs.Prelude.{IfOk, IfErr, map};
ghost use Rattle.pr_lang.specs.Grammar.{rule, level, FixedSums, FixedProducts, TheFixedPrimary, TheIndex, TheTarget, TheWidth, ListOf, Entries};
ghost use Rattle.pr_lang.specs.Shape.{fixed_shape, index_shape, ref_shape, width_tree, comma_listed};
ghost use Rattle.pr_parse.specs.Reads.{IsRead, Fails};
ghost use Rattle.pr_parse.specs.Levels.{fixed_paren_part};

use crate::build;
use crate::fault::Fault;
use crate::take::{fixed_operator, is, name, number, take};
use pr_lang::{Fixed, FixedOp, Kind, Ref, Symbol, Token};
use std::alloc::Global;

const SUMS: [FixedOp; 2] = [FixedOp::Add, FixedOp::Sub];

const PRODUCTS: [FixedOp; 3] = [FixedOp::Mul, FixedOp::Div, FixedOp::Mod];

/// A constant expression.
#[cycle(fixed)]
pub fn fixed<'a>(
    alloc: Global,
    text: &[u8],
    tokens: &'a [Token],
) -> Result<(Fixed, &'a [Token]), Fault>
    ensures ok { IfOk result (λ x. IsRead (rule (level FixedSums)) text.now tokens.now x.1.now (fixed_shape x.0)) }
    ensures err { IfErr result (λ e. Fails (rule (level FixedSums)) text.now tokens.now e) }
{
    let (mut left, mut rest) = product(alloc, text, tokens)?;
    while let Some((op, after)) = fixed_operator(rest, &SUMS) {
        let (right, end) = product(alloc, text, after)?;
        left = build::fixed_binary(alloc, op, left, right)?;
        rest = end;
    }
    Ok((left, rest))
}

#[cycle(fixed)]
fn product<'a>(
    alloc: Global,
    text: &[u8],
    tokens: &'a [Token],
) -> Result<(Fixed, &'a [Token]), Fault>
    ensures ok { IfOk result (λ x. IsRead (rule (level FixedProducts)) text.now tokens.now x.1.now (fixed_shape x.0)) }
    ensures err { IfErr result (λ e. Fails (rule (level FixedProducts)) text.now tokens.now e) }
{
    let (mut left, mut rest) = primary(alloc, text, tokens)?;
    while let Some((op, after)) = fixed_operator(rest, &PRODUCTS) {
        let (right, end) = primary(alloc, text, after)?;
        left = build::fixed_binary(alloc, op, left, right)?;
        rest = end;
    }
    Ok((left, rest))
}

/// A number, a name or a constant expression in parentheses.
#[cycle(fixed)]
pub fn primary<'a>(
    alloc: Global,
    text: &[u8],
    tokens: &'a [Token],
) -> Result<(Fixed, &'a [Token]), Fault>
    ensures ok { IfOk result (λ x. IsRead (rule TheFixedPrimary) text.now tokens.now x.1.now (fixed_shape x.0)) }
    ensures err { IfErr result (λ e. Fails (rule TheFixedPrimary) text.now tokens.now e) }
{
    if let Ok((value, rest)) = number(tokens) {
        return Ok((build::fixed_number(value), rest));
    }
    if is(tokens, Kind::Mark(Symbol::OpenRound)) {
        return grouped(alloc, text, tokens);
    }
    let (bytes, after) = name(text, tokens)?;
    let name = build::name(alloc, bytes)?;
    let (index, rest) = index(alloc, text, after)?;
    let whole = build::fixed_refer(alloc, name, index)?;
    Ok((whole, rest))
}

/// A constant expression in parentheses.
#[cycle(fixed)]
fn grouped<'a>(
    alloc: Global,
    text: &[u8],
    tokens: &'a [Token],
) -> Result<(Fixed, &'a [Token]), Fault>
    ensures ok { IfOk result (λ x. IsRead fixed_paren_part text.now tokens.now x.1.now (fixed_shape x.0)) }
    ensures err { IfErr result (λ e. Fails fixed_paren_part text.now tokens.now e) }
{
    let inside = take(tokens, Kind::Mark(Symbol::OpenRound))?;
    let (inner, after) = fixed(alloc, text, inside)?;
    let rest = take(after, Kind::Mark(Symbol::CloseRound))?;
    let whole = build::fixed_paren(alloc, inner)?;
    Ok((whole, rest))
}

/// An index in brackets, or nothing.
#[cycle(fixed)]
pub fn index<'a>(
    alloc: Global,
    text: &[u8],
    tokens: &'a [Token],
) -> Result<(Option<Fixed>, &'a [Token]), Fault>
    ensures ok { IfOk result (λ x. IsRead (rule TheIndex) text.now tokens.now x.1.now (index_shape x.0)) }
    ensures err { IfErr result (λ e. Fails (rule TheIndex) text.now tokens.now e) }
{
    if !is(tokens, Kind::Mark(Symbol::OpenSquare)) {
        return Ok((None, tokens));
    }
    let inside = take(tokens, Kind::Mark(Symbol::OpenSquare))?;
    let (value, after) = fixed(alloc, text, inside)?;
    let rest = take(after, Kind::Mark(Symbol::CloseSquare))?;
    Ok((Some(value), rest))
}

/// A name and its index.
pub fn target<'a>(
    alloc: Global,
    text: &[u8],
    tokens: &'a [Token],
) -> Result<(Ref, &'a [Token]), Fault>
    ensures ok { IfOk result (λ x. IsRead (rule TheTarget) text.now tokens.now x.1.now (ref_shape x.0)) }
    ensures err { IfErr result (λ e. Fails (rule TheTarget) text.now tokens.now e) }
{
    let (bytes, after) = name(text, tokens)?;
    let name = build::name(alloc, bytes)?;
    let (index, rest) = index(alloc, text, after)?;
    Ok((Ref { name, index }, rest))
}

/// A declared width, or nothing.
pub fn width<'a>(text: &[u8], tokens: &'a [Token]) -> Result<(Option<u64>, &'a [Token]), Fault>
    ensures ok { IfOk result (λ x. IsRead (rule TheWidth) text.now tokens.now x.1.now (width_tree x.0)) }
    ensures err { IfErr result (λ e. Fails (rule TheWidth) text.now tokens.now e) }
{
    if !is(tokens, Kind::Mark(Symbol::Colon)) {
        return Ok((None, tokens));
    }
    let after = take(tokens, Kind::Mark(Symbol::Colon))?;
    let (value, rest) = number(after)?;
    Ok((Some(value), rest))
}

/// Constant expressions with commas between, at least one.
pub fn entries<'a>(
    alloc: Global,
    text: &[u8],
    tokens: &'a [Token],
) -> Result<(Vec<Fixed>, &'a [Token]), Fault>
    ensures ok { IfOk result (λ x. IsRead (rule (ListOf Entries)) text.now tokens.now x.1.now
        (comma_listed (map fixed_shape x.0.items))) }
    ensures err { IfErr result (λ e. Fails (rule (ListOf Entries)) text.now tokens.now e) }
{
    let (first, mut rest) = fixed(alloc, text, tokens)?;
    let mut list = build::one_fixed(alloc, first)?;
    while is(rest, Kind::Mark(Symbol::Comma)) {
        let after = take(rest, Kind::Mark(Symbol::Comma))?;
        let (next, end) = fixed(alloc, text, after)?;
        list = build::more_fixed(list, next)?;
        rest = end;
    }
    Ok((list, rest))
}
