//! Reading expressions.

ghost use Rattle.std.specs.Prelude.{IfOk, IfErr, map};
ghost use Rattle.pr_lang.specs.Grammar.{rule, level, operand as operand_of, TheExpr, TheCompare, ThePrefix, ThePostfix, ThePrimary, ListOf, MaybeListOf, Exprs};
ghost use Rattle.pr_lang.specs.Shape.{expr_shape, comma_listed};
ghost use Rattle.pr_parse.specs.Reads.{IsRead, Fails};
ghost use Rattle.pr_parse.specs.Levels.{level_seen, paren_part, cat_part, call_or_stream};

use crate::build;
use crate::fault::Fault;
use crate::fixed::{fixed, index, primary as fixed_primary};
use crate::levels::{COMPARISONS, Level, operators};
use crate::take::{begins_expr, is, name, next_kind, number, operator, take};
use pr_lang::{Expr, Keyword, Kind, Ref, Symbol, Token};
use std::alloc::Global;

/// An expression.
#[cycle(expressions)]
pub fn expr<'a>(
    alloc: Global,
    text: &[u8],
    tokens: &'a [Token],
) -> Result<(Expr, &'a [Token]), Fault>
    ensures ok { IfOk result (λ x. IsRead (rule TheExpr) text.now tokens.now x.1.now (expr_shape x.0)) }
    ensures err { IfErr result (λ e. Fails (rule TheExpr) text.now tokens.now e) }
{
    let (test, rest) = chain(alloc, text, tokens, Level::Ors)?;
    if !is(rest, Kind::Mark(Symbol::Ask)) {
        return Ok((test, rest));
    }
    let condition = build::boxed(alloc, test)?;
    let rest = take(rest, Kind::Mark(Symbol::Ask))?;
    let (yes, rest) = expr(alloc, text, rest)?;
    let chosen = build::boxed(alloc, yes)?;
    let rest = take(rest, Kind::Mark(Symbol::Colon))?;
    let (no, rest) = expr(alloc, text, rest)?;
    let whole = build::choose(alloc, condition, chosen, no)?;
    Ok((whole, rest))
}

/// Operators of one level, which group to the left.
#[cycle(expressions)]
fn chain<'a>(
    alloc: Global,
    text: &[u8],
    tokens: &'a [Token],
    at: Level,
) -> Result<(Expr, &'a [Token]), Fault>
    ensures ok { IfOk result (λ x. IsRead (rule (level (level_seen at))) text.now tokens.now x.1.now (expr_shape x.0)) }
    ensures err { IfErr result (λ e. Fails (rule (level (level_seen at))) text.now tokens.now e) }
{
    let (mut left, mut rest) = operand(alloc, text, tokens, at)?;
    while let Some((op, after)) = operator(rest, operators(at)) {
        let first = build::boxed(alloc, left)?;
        let (right, end) = operand(alloc, text, after, at)?;
        left = build::binary(alloc, op, first, right)?;
        rest = end;
    }
    Ok((left, rest))
}

/// What stands between the operators of a level.
#[cycle(expressions)]
fn operand<'a>(
    alloc: Global,
    text: &[u8],
    tokens: &'a [Token],
    at: Level,
) -> Result<(Expr, &'a [Token]), Fault>
    ensures ok { IfOk result (λ x. IsRead (rule (operand_of (level_seen at))) text.now tokens.now x.1.now
        (expr_shape x.0)) }
    ensures err { IfErr result (λ e. Fails (rule (operand_of (level_seen at))) text.now tokens.now e) }
{
    match at {
        Level::Ors => chain(alloc, text, tokens, Level::Xors),
        Level::Xors => chain(alloc, text, tokens, Level::Ands),
        Level::Ands => comparison(alloc, text, tokens),
        Level::Shifts => chain(alloc, text, tokens, Level::Sums),
        Level::Sums => chain(alloc, text, tokens, Level::Products),
        Level::Products => prefix(alloc, text, tokens),
    }
}

/// A comparison, which does not chain.
#[cycle(expressions)]
fn comparison<'a>(
    alloc: Global,
    text: &[u8],
    tokens: &'a [Token],
) -> Result<(Expr, &'a [Token]), Fault>
    ensures ok { IfOk result (λ x. IsRead (rule TheCompare) text.now tokens.now x.1.now (expr_shape x.0)) }
    ensures err { IfErr result (λ e. Fails (rule TheCompare) text.now tokens.now e) }
{
    let (left, rest) = chain(alloc, text, tokens, Level::Shifts)?;
    let Some((op, after)) = operator(rest, &COMPARISONS) else {
        return Ok((left, rest));
    };
    let first = build::boxed(alloc, left)?;
    let (right, end) = chain(alloc, text, after, Level::Shifts)?;
    let whole = build::binary(alloc, op, first, right)?;
    Ok((whole, end))
}

#[cycle(expressions)]
fn prefix<'a>(alloc: Global, text: &[u8], tokens: &'a [Token]) -> Result<(Expr, &'a [Token]), Fault>
    ensures ok { IfOk result (λ x. IsRead (rule ThePrefix) text.now tokens.now x.1.now (expr_shape x.0)) }
    ensures err { IfErr result (λ e. Fails (rule ThePrefix) text.now tokens.now e) }
{
    if !is(tokens, Kind::Mark(Symbol::Tilde)) {
        return postfix(alloc, text, tokens);
    }
    let rest = take(tokens, Kind::Mark(Symbol::Tilde))?;
    let (inner, rest) = prefix(alloc, text, rest)?;
    let whole = build::not(alloc, inner)?;
    Ok((whole, rest))
}

/// Slices, one after the other.
#[cycle(expressions)]
fn postfix<'a>(
    alloc: Global,
    text: &[u8],
    tokens: &'a [Token],
) -> Result<(Expr, &'a [Token]), Fault>
    ensures ok { IfOk result (λ x. IsRead (rule ThePostfix) text.now tokens.now x.1.now (expr_shape x.0)) }
    ensures err { IfErr result (λ e. Fails (rule ThePostfix) text.now tokens.now e) }
{
    let (mut whole, mut rest) = primary(alloc, text, tokens)?;
    while is(rest, Kind::Mark(Symbol::OpenCurly)) {
        let sliced = build::boxed(alloc, whole)?;
        let inside = take(rest, Kind::Mark(Symbol::OpenCurly))?;
        let (high, after) = fixed(alloc, text, inside)?;
        let after = take(after, Kind::Mark(Symbol::Dots))?;
        let (low, after) = fixed(alloc, text, after)?;
        let after = take(after, Kind::Mark(Symbol::CloseCurly))?;
        whole = build::slice(sliced, high, low);
        rest = after;
    }
    Ok((whole, rest))
}

#[cycle(expressions)]
fn primary<'a>(
    alloc: Global,
    text: &[u8],
    tokens: &'a [Token],
) -> Result<(Expr, &'a [Token]), Fault>
    ensures ok { IfOk result (λ x. IsRead (rule ThePrimary) text.now tokens.now x.1.now (expr_shape x.0)) }
    ensures err { IfErr result (λ e. Fails (rule ThePrimary) text.now tokens.now e) }
{
    if let Ok((value, rest)) = number(tokens) {
        return Ok((build::number(value), rest));
    }
    if is(tokens, Kind::Mark(Symbol::OpenRound)) {
        return grouped(alloc, text, tokens);
    }
    if is(tokens, Kind::Word(Keyword::Cat)) {
        return concatenation(alloc, text, tokens);
    }
    named(alloc, text, tokens)
}

/// An expression in parentheses.
#[cycle(expressions)]
fn grouped<'a>(
    alloc: Global,
    text: &[u8],
    tokens: &'a [Token],
) -> Result<(Expr, &'a [Token]), Fault>
    ensures ok { IfOk result (λ x. IsRead paren_part text.now tokens.now x.1.now (expr_shape x.0)) }
    ensures err { IfErr result (λ e. Fails paren_part text.now tokens.now e) }
{
    let inside = take(tokens, Kind::Mark(Symbol::OpenRound))?;
    let (inner, after) = expr(alloc, text, inside)?;
    let held = build::boxed(alloc, inner)?;
    let rest = take(after, Kind::Mark(Symbol::CloseRound))?;
    Ok((build::paren(held), rest))
}

/// A concatenation.
#[cycle(expressions)]
fn concatenation<'a>(
    alloc: Global,
    text: &[u8],
    tokens: &'a [Token],
) -> Result<(Expr, &'a [Token]), Fault>
    ensures ok { IfOk result (λ x. IsRead cat_part text.now tokens.now x.1.now (expr_shape x.0)) }
    ensures err { IfErr result (λ e. Fails cat_part text.now tokens.now e) }
{
    let after = take(tokens, Kind::Word(Keyword::Cat))?;
    let inside = take(after, Kind::Mark(Symbol::OpenRound))?;
    let (parts, after) = exprs(alloc, text, inside)?;
    let rest = take(after, Kind::Mark(Symbol::CloseRound))?;
    Ok((build::cat(parts), rest))
}

/// A call, or a stream, perhaps some samples earlier.
#[cycle(expressions)]
fn named<'a>(alloc: Global, text: &[u8], tokens: &'a [Token]) -> Result<(Expr, &'a [Token]), Fault>
    ensures ok { IfOk result (λ x. IsRead call_or_stream text.now tokens.now x.1.now (expr_shape x.0)) }
    ensures err { IfErr result (λ e. Fails call_or_stream text.now tokens.now e) }
{
    let (bytes, tail) = name(text, tokens)?;
    let name = build::name(alloc, bytes)?;
    if is(tail, Kind::Mark(Symbol::OpenRound)) {
        let inside = take(tail, Kind::Mark(Symbol::OpenRound))?;
        let (list, after) = arguments(alloc, text, inside)?;
        let rest = take(after, Kind::Mark(Symbol::CloseRound))?;
        return Ok((build::call(name, list), rest));
    }
    let (index, rest) = index(alloc, text, tail)?;
    let target = Ref { name, index };
    if !is(rest, Kind::Mark(Symbol::At)) {
        return Ok((build::refer(target), rest));
    }
    let after = take(rest, Kind::Mark(Symbol::At))?;
    let (delay, end) = fixed_primary(alloc, text, after)?;
    Ok((build::delay(target, delay), end))
}

/// Expressions with commas between, or nothing.
#[cycle(expressions)]
fn arguments<'a>(
    alloc: Global,
    text: &[u8],
    tokens: &'a [Token],
) -> Result<(Vec<Expr>, &'a [Token]), Fault>
    ensures ok { IfOk result (λ x. IsRead (rule (MaybeListOf Exprs)) text.now tokens.now x.1.now
        (comma_listed (map expr_shape x.0.items))) }
    ensures err { IfErr result (λ e. Fails (rule (MaybeListOf Exprs)) text.now tokens.now e) }
{
    if !begins_expr(next_kind(tokens)) {
        return Ok((Vec::new(alloc), tokens));
    }
    exprs(alloc, text, tokens)
}

/// Expressions with commas between, at least one.
#[cycle(expressions)]
fn exprs<'a>(
    alloc: Global,
    text: &[u8],
    tokens: &'a [Token],
) -> Result<(Vec<Expr>, &'a [Token]), Fault>
    ensures ok { IfOk result (λ x. IsRead (rule (ListOf Exprs)) text.now tokens.now x.1.now
        (comma_listed (map expr_shape x.0.items))) }
    ensures err { IfErr result (λ e. Fails (rule (ListOf Exprs)) text.now tokens.now e) }
{
    let (first, mut rest) = expr(alloc, text, tokens)?;
    let mut list = build::one_expr(alloc, first)?;
    while is(rest, Kind::Mark(Symbol::Comma)) {
        let after = take(rest, Kind::Mark(Symbol::Comma))?;
        let (next, end) = expr(alloc, text, after)?;
        list = build::more_exprs(list, next)?;
        rest = end;
    }
    Ok((list, rest))
}
