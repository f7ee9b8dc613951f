//! What is told of a refusal, and at which token.

ghost use Rattle.std.specs.Prelude.{◌≡◌, ◌≤◌, length, IfOk, OnOk};
ghost use Rattle.pr_lens_why.specs.Messages.{Tells, TellsCause, TellsFit, TellsLimit, TellsRule, TellsSyntax, TellsUnfit, TellsWidth, rule_of};
ghost use Rattle.pr_lens_why.specs.Places.{IsLimitItem, IsLimitToken};
ghost use Rattle.pr_lens_why.specs.Verdicts.{PointsRight};

use crate::fits::tell_registers;
use crate::helps::{help_of, put_help};
use crate::{limits, syntax, widths};
use pr_base::Cap;
use pr_compile::CompileFault;
use pr_lens_find::{equations_item, find_missing, find_offence, turns_item};
use pr_lens_fits::{Unfit, find_unfit, input_item, output_item, units_item};
use pr_lens_needs::{find_needs, tell_columns};
use pr_lens_source::Source;
use pr_parse_lex::first_deep;
use pr_scope_names::Rule;
use std::alloc::{AllocError, Global};

/// The item with which a quantity passes its limit; the number of items where it does with none.
fn limit_item(
    alloc: Global,
    source: &Source,
    narrowed: bool,
    columns: usize,
    cap: Cap,
) -> Result<usize, AllocError>
    requires { length source.now.text.now ≤ 1048576 }
    ensures { let source = source.now in IfOk result
        (IsLimitItem columns narrowed source.text.now source.tokens.now source.spans.now cap) }
{
    match cap {
        Cap::Turns => turns_item(alloc, source),
        Cap::Equations => equations_item(alloc, source, Cap::MOST_EQUATIONS),
        Cap::InputBytes => Ok(input_item(source, columns)),
        Cap::Outputs => Ok(output_item(source, Cap::MOST_OUTPUTS)),
        _ => units_item(alloc, source, narrowed),
    }
}

/// The token at which a quantity passes its limit.
fn limit_token(
    alloc: Global,
    source: &Source,
    narrowed: bool,
    columns: usize,
    cap: Cap,
) -> Result<usize, AllocError>
    requires { length source.now.text.now ≤ 1048576 }
    ensures { let source = source.now in IfOk result
        (IsLimitToken columns narrowed source.text.now source.tokens.now source.spans.now cap) }
{
    match cap {
        Cap::Nesting => Ok(first_deep(alloc, source.tokens)?.unwrap_or(0)),
        _ => {
            let item = limit_item(alloc, source, narrowed, columns, cap)?;
            Ok(source.first(item))
        }
    }
}

/// Tells what ran out for a group that fits in no stripe, and what to do.
fn tell_unfit<const N: usize, const P: usize>(
    alloc: Global,
    message: &mut Vec<u8>,
    source: &Source,
    narrowed: bool,
    unit: u32,
    unfit: &Unfit,
) -> Result<(), AllocError>
    requires short { length source.now.text.now ≤ 1048576 }
    requires columns { 1 ≤ N }
    requires most_columns { N ≤ 64 }
    ensures { let source = source.now in OnOk result
        (TellsUnfit N P narrowed source.text.now source.tokens.now source.spans.now unit unfit.now
        message.old.items message.new.items) }
{
    if unfit.columns <= N {
        return tell_registers(message, unfit, N, P);
    }
    let needs = find_needs(alloc, source, narrowed, N, unfit.item, unit)?;
    tell_columns(message, unfit.columns, N, needs)
}

/// Tells why a group fits in no stripe; the token to look at.
fn tell_fit<const N: usize, const P: usize>(
    alloc: Global,
    message: &mut Vec<u8>,
    source: &Source,
    narrowed: bool,
    unit: u32,
) -> Result<usize, AllocError>
    requires short { length source.now.text.now ≤ 1048576 }
    requires columns { 1 ≤ N }
    requires most_columns { N ≤ 64 }
    ensures { let source = source.now in IfOk result (λ token.
        TellsFit N P narrowed source.text.now source.tokens.now source.spans.now unit token
        message.old.items message.new.items) }
{
    let unfit = find_unfit(alloc, source, narrowed, N, unit)?;
    tell_unfit::<N, P>(alloc, message, source, narrowed, unit, &unfit)?;
    Ok(source.first(unfit.item))
}

/// Tells which limit is passed; the token to look at.
fn tell_limit(
    alloc: Global,
    message: &mut Vec<u8>,
    source: &Source,
    narrowed: bool,
    columns: usize,
    cap: Cap,
) -> Result<usize, AllocError>
    requires { length source.now.text.now ≤ 1048576 }
    ensures { let source = source.now in IfOk result (λ token.
        TellsLimit columns narrowed source.text.now source.tokens.now source.spans.now cap token
        message.old.items message.new.items) }
{
    limits::tell(message, cap)?;
    limit_token(alloc, source, narrowed, columns, cap)
}

/// Tells what could have stood in the place of a wrong token; the token to look at, which is this one.
fn tell_syntax(
    alloc: Global,
    message: &mut Vec<u8>,
    source: &Source,
    wrong: usize,
) -> Result<usize, AllocError>
    requires { length source.now.text.now ≤ 1048576 }
    ensures token { IfOk result (λ token. token ≡ wrong) }
    ensures tells { OnOk result (TellsSyntax source.now.text.now source.now.tokens.now wrong
        message.old.items message.new.items) }
{
    syntax::tell(alloc, message, source, wrong)?;
    Ok(wrong)
}

/// The rule of this number. The compiler names its rules by the numbers 1 to 10.
fn rule_of(number: u8) -> Rule
    ensures { result ≡ rule_of number }
{
    match number {
        1 => Rule::Introduced,
        2 => Rule::Assigned,
        3 => Rule::Kinds,
        4 => Rule::Calls,
        5 => Rule::Steps,
        6 => Rule::Divisors,
        7 => Rule::Entries,
        8 => Rule::Bounds,
        9 => Rule::Recurrences,
        _ => Rule::Ends,
    }
}

/// Tells which rule of scope an item breaks; the token to look at.
fn tell_scope(
    alloc: Global,
    message: &mut Vec<u8>,
    source: &Source,
    rule: Rule,
    item: usize,
) -> Result<usize, AllocError>
    requires { length source.now.text.now ≤ 1048576 }
    ensures { IfOk result (λ token.
        TellsRule source.now.text.now source.now.tokens.now source.now.spans.now rule item token
        message.old.items message.new.items) }
{
    let token = find_offence(alloc, source, rule, item)?;
    pr_lens_rules::tell(message, source, rule, token)?;
    Ok(token)
}

/// Tells why an equation has no width; the token to look at.
fn tell_width(
    alloc: Global,
    message: &mut Vec<u8>,
    source: &Source,
    equation: usize,
) -> Result<usize, AllocError>
    requires { length source.now.text.now ≤ 1048576 }
    ensures { IfOk result (λ token.
        TellsWidth source.now.text.now source.now.tokens.now source.now.spans.now equation token
        message.old.items message.new.items) }
{
    let missing = find_missing(alloc, source, equation)?;
    widths::tell(message, &missing)?;
    Ok(missing.token)
}

/// Tells the cause of a refusal, with narrowed equations or without; the token to look at.
fn tell_cause<const N: usize, const P: usize>(
    alloc: Global,
    message: &mut Vec<u8>,
    source: &Source,
    narrowed: bool,
    fault: &CompileFault,
) -> Result<usize, AllocError>
    requires short { length source.now.text.now ≤ 1048576 }
    requires columns { 1 ≤ N }
    requires most_columns { N ≤ 64 }
    ensures token { IfOk result (PointsRight fault.now) }
    ensures tells { IfOk result (λ token.
        TellsCause N P narrowed source.now.text.now source.now.tokens.now source.now.spans.now fault.now token
        message.old.items message.new.items) }
{
    match fault {
        CompileFault::Syntax { token } => { tell_syntax(alloc, message, source, *token as usize) }
        CompileFault::Scope { rule, item } => {
            tell_scope(alloc, message, source, rule_of(*rule), *item as usize)
        }
        CompileFault::NoWidth { equation } => {
            tell_width(alloc, message, source, *equation as usize)
        }
        CompileFault::NoFit { unit } => {
            tell_fit::<N, P>(alloc, message, source, narrowed, *unit)
        }
        CompileFault::Limit(cap) => tell_limit(alloc, message, source, narrowed, N, *cap),
        CompileFault::Memory(_) => Ok(0),
    }
}

/// Tells why a text is refused, with narrowed equations or without, and what helps; the token to look at.
pub fn tell<const N: usize, const P: usize>(
    alloc: Global,
    message: &mut Vec<u8>,
    source: &Source,
    narrowed: bool,
    fault: &CompileFault,
) -> Result<usize, AllocError>
    requires short { length source.now.text.now ≤ 1048576 }
    requires columns { 1 ≤ N }
    requires most_columns { N ≤ 64 }
    requires registers { 2 ≤ P }
    requires most_registers { P ≤ 16 }
    ensures token { IfOk result (PointsRight fault.now) }
    ensures tells { IfOk result (λ token.
        Tells N P narrowed source.now.text.now source.now.tokens.now source.now.spans.now fault.now token
        message.old.items message.new.items) }
{
    let token = tell_cause::<N, P>(alloc, message, source, narrowed, fault)?;
    let help = help_of::<N, P>(alloc, source.text, narrowed, fault)?;
    put_help(message, &help)?;
    Ok(token)
}
