//! Reading items and programs.

ghost use Rattle.std.specs.Prelude.{◌<◌, IfOk, IfErr, length, map};
ghost use Rattle.pr_lang.specs.Grammar.{rule, TheProgram, TheItem, TheParam, AnyOf, Items, ListOf, MaybeListOf, Params};
ghost use Rattle.pr_lang.specs.Shape.{item_shape, param_shape, program_shape, listed, comma_listed};
ghost use Rattle.pr_parse.specs.Reads.{IsRead, Fails};
ghost use Rattle.pr_parse.specs.Fronts.{input_part, output_part, const_part, function_part};

use crate::build;
use crate::fault::Fault;
use crate::fixed::{entries, fixed, width};
use crate::statements::{name_after, stmt, stmts, value_after};
use crate::take::{begins_fixed, begins_item, begins_param, is, name, next_kind, number, take};
use pr_lang::{Item, Keyword, Kind, Param, Program, Symbol, Token};
use std::alloc::Global;

/// A program up to its end.
pub fn program<'a>(
    alloc: Global,
    text: &[u8],
    tokens: &'a [Token],
) -> Result<(Program, &'a [Token]), Fault>
    ensures ok { IfOk result (λ x. IsRead (rule TheProgram) text.now tokens.now x.1.now (program_shape x.0)) }
    ensures err { IfErr result (λ e. Fails (rule TheProgram) text.now tokens.now e) }
{
    let (items, after) = items(alloc, text, tokens)?;
    let rest = take(after, Kind::End)?;
    Ok((Program { items }, rest))
}

/// Items, as many as there are.
fn items<'a>(
    alloc: Global,
    text: &[u8],
    tokens: &'a [Token],
) -> Result<(Vec<Item>, &'a [Token]), Fault>
    ensures ok { IfOk result (λ x. IsRead (rule (AnyOf Items)) text.now tokens.now x.1.now
        (listed (map item_shape x.0.items))) }
    ensures err { IfErr result (λ e. Fails (rule (AnyOf Items)) text.now tokens.now e) }
{
    let mut list = Vec::new(alloc);
    let mut rest = tokens;
    while begins_item(next_kind(rest)) {
        let (next, end) = item(alloc, text, rest)?;
        list = build::more_items(list, next)?;
        rest = end;
    }
    Ok((list, rest))
}

fn item<'a>(alloc: Global, text: &[u8], tokens: &'a [Token]) -> Result<(Item, &'a [Token]), Fault>
    ensures ok { IfOk result (λ x. IsRead (rule TheItem) text.now tokens.now x.1.now (item_shape x.0)) }
    ensures err { IfErr result (λ e. Fails (rule TheItem) text.now tokens.now e) }
    ensures shorter { IfOk result (λ x. length x.1.now < length tokens.now) }
{
    if is(tokens, Kind::Word(Keyword::Input)) {
        return input(alloc, text, tokens);
    }
    if is(tokens, Kind::Word(Keyword::Output)) {
        return output(alloc, text, tokens);
    }
    if is(tokens, Kind::Word(Keyword::Const)) {
        return constant(alloc, text, tokens);
    }
    if is(tokens, Kind::Word(Keyword::Fn)) {
        return function(alloc, text, tokens);
    }
    let (step, rest) = stmt(alloc, text, tokens)?;
    Ok((Item::Step(step), rest))
}

fn input<'a>(alloc: Global, text: &[u8], tokens: &'a [Token]) -> Result<(Item, &'a [Token]), Fault>
    ensures ok { IfOk result (λ x. IsRead input_part text.now tokens.now x.1.now (item_shape x.0)) }
    ensures err { IfErr result (λ e. Fails input_part text.now tokens.now e) }
    ensures shorter { IfOk result (λ x. length x.1.now < length tokens.now) }
{
    let (name, after) = name_after(alloc, text, tokens, Kind::Word(Keyword::Input))?;
    let after = take(after, Kind::Mark(Symbol::Colon))?;
    let (width, after) = number(after)?;
    let rest = take(after, Kind::Mark(Symbol::Semi))?;
    Ok((Item::Input { name, width }, rest))
}

fn output<'a>(alloc: Global, text: &[u8], tokens: &'a [Token]) -> Result<(Item, &'a [Token]), Fault>
    ensures ok { IfOk result (λ x. IsRead output_part text.now tokens.now x.1.now (item_shape x.0)) }
    ensures err { IfErr result (λ e. Fails output_part text.now tokens.now e) }
    ensures shorter { IfOk result (λ x. length x.1.now < length tokens.now) }
{
    let (name, after) = name_after(alloc, text, tokens, Kind::Word(Keyword::Output))?;
    let (width, after) = width(text, after)?;
    let (value, rest) = value_after(alloc, text, after, Kind::Mark(Symbol::Assign))?;
    let item = Item::Output { name, width, value };
    Ok((item, rest))
}

fn constant<'a>(
    alloc: Global,
    text: &[u8],
    tokens: &'a [Token],
) -> Result<(Item, &'a [Token]), Fault>
    ensures ok { IfOk result (λ x. IsRead const_part text.now tokens.now x.1.now (item_shape x.0)) }
    ensures err { IfErr result (λ e. Fails const_part text.now tokens.now e) }
    ensures shorter { IfOk result (λ x. length x.1.now < length tokens.now) }
{
    let (name, after) = name_after(alloc, text, tokens, Kind::Word(Keyword::Const))?;
    let start = take(after, Kind::Mark(Symbol::Assign))?;
    if begins_fixed(next_kind(start)) {
        let (value, end) = fixed(alloc, text, start)?;
        let rest = take(end, Kind::Mark(Symbol::Semi))?;
        return Ok((Item::Const { name, value }, rest));
    }
    let inside = take(start, Kind::Mark(Symbol::OpenSquare))?;
    let (values, end) = entries(alloc, text, inside)?;
    let end = take(end, Kind::Mark(Symbol::CloseSquare))?;
    let rest = take(end, Kind::Mark(Symbol::Semi))?;
    Ok((Item::Table { name, values }, rest))
}

fn function<'a>(
    alloc: Global,
    text: &[u8],
    tokens: &'a [Token],
) -> Result<(Item, &'a [Token]), Fault>
    ensures ok { IfOk result (λ x. IsRead function_part text.now tokens.now x.1.now (item_shape x.0)) }
    ensures err { IfErr result (λ e. Fails function_part text.now tokens.now e) }
    ensures shorter { IfOk result (λ x. length x.1.now < length tokens.now) }
{
    let (name, after) = name_after(alloc, text, tokens, Kind::Word(Keyword::Fn))?;
    let after = take(after, Kind::Mark(Symbol::OpenRound))?;
    let (params, after) = params(alloc, text, after)?;
    let after = take(after, Kind::Mark(Symbol::CloseRound))?;
    let (width, after) = width(text, after)?;
    let after = take(after, Kind::Mark(Symbol::OpenCurly))?;
    let (body, after) = stmts(alloc, text, after)?;
    let (result, after) = value_after(alloc, text, after, Kind::Word(Keyword::Return))?;
    let rest = take(after, Kind::Mark(Symbol::CloseCurly))?;
    let item = Item::Function {
        name,
        params,
        width,
        body,
        result,
    };
    Ok((item, rest))
}

/// Parameters with commas between, or nothing.
fn params<'a>(
    alloc: Global,
    text: &[u8],
    tokens: &'a [Token],
) -> Result<(Vec<Param>, &'a [Token]), Fault>
    ensures ok { IfOk result (λ x. IsRead (rule (MaybeListOf Params)) text.now tokens.now x.1.now
        (comma_listed (map param_shape x.0.items))) }
    ensures err { IfErr result (λ e. Fails (rule (MaybeListOf Params)) text.now tokens.now e) }
{
    if !begins_param(next_kind(tokens)) {
        return Ok((Vec::new(alloc), tokens));
    }
    some_params(alloc, text, tokens)
}

/// Parameters with commas between, at least one.
fn some_params<'a>(
    alloc: Global,
    text: &[u8],
    tokens: &'a [Token],
) -> Result<(Vec<Param>, &'a [Token]), Fault>
    ensures ok { IfOk result (λ x. IsRead (rule (ListOf Params)) text.now tokens.now x.1.now
        (comma_listed (map param_shape x.0.items))) }
    ensures err { IfErr result (λ e. Fails (rule (ListOf Params)) text.now tokens.now e) }
{
    let (first, mut rest) = param(alloc, text, tokens)?;
    let mut list = build::one_param(alloc, first)?;
    while is(rest, Kind::Mark(Symbol::Comma)) {
        let after = take(rest, Kind::Mark(Symbol::Comma))?;
        let (next, end) = param(alloc, text, after)?;
        list = build::more_params(list, next)?;
        rest = end;
    }
    Ok((list, rest))
}

fn param<'a>(alloc: Global, text: &[u8], tokens: &'a [Token]) -> Result<(Param, &'a [Token]), Fault>
    ensures ok { IfOk result (λ x. IsRead (rule TheParam) text.now tokens.now x.1.now (param_shape x.0)) }
    ensures err { IfErr result (λ e. Fails (rule TheParam) text.now tokens.now e) }
{
    let (bytes, after) = name(text, tokens)?;
    let (width, rest) = width(text, after)?;
    let name = build::name(alloc, bytes)?;
    Ok((Param { name, width }, rest))
}
