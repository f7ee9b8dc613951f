//! Comparisons that are settled, declared widths that cut bits off, and arguments that are read by `signed`, by their
//! tokens.

ghost use Rattle.std.specs.Prelude.{◌≡◌, ◌<◌, ◌≤◌, IfOk, length, slice_index_or};
ghost use Rattle.pr_lang.specs.Tokens.{tokens_of};
ghost use Rattle.pr_lens_extents.specs.declared.verdicts.Verdict.TheVariants.{Unseen};
ghost use Rattle.pr_lens_warn.specs.Comparisons.{AreVerdicts, by_tokens, introduction_of, is_call, is_declared, is_judged, read_signed, settled};

use crate::remarks::Remark;
use pr_lang::Token;
use pr_lens_extents::{Verdict, verdicts_of};
use pr_lens_rules::is_signed;
use pr_lens_source::{
    Source, introduced_before, is_assign, is_colon, is_comparison, is_fn, is_name, is_number,
    is_open_round,
};
use pr_parse::{ParseFault, parse};
use std::alloc::{AllocError, Global};

/// The verdicts on the comparisons of a text, where it is that of a program.
pub fn verdicts_in(alloc: Global, text: &[u8], tokens: &[Token]) -> Result<Vec<Verdict>, AllocError>
    requires text { length text.now ≤ 1048576 }
    requires tokens { tokens.now ≡ tokens_of text.now }
    ensures { IfOk result (λ verdicts. AreVerdicts text.now verdicts.items) }
{
    match parse(alloc, text, tokens) {
        Ok(program) => verdicts_of(alloc, &program),
        Err(ParseFault::Syntax { token: _ }) => Ok(Vec::new(alloc)),
        Err(ParseFault::Limit(_)) => Ok(Vec::new(alloc)),
        Err(ParseFault::Memory(error)) => Err(error),
    }
}

fn verdict_at(verdicts: &[Verdict], number: usize) -> Verdict
    ensures { result ≡ slice_index_or verdicts.now number Unseen }
{
    match verdicts.get(number) {
        None => Verdict::Unseen,
        Some(verdict) => *verdict,
    }
}

/// Whether a token is a declared width behind a name that is assigned.
fn is_declared(source: &Source, at: usize) -> bool
    requires { at < length source.now.tokens.now }
    ensures { result ≡ is_declared source.now.tokens.now at }
{
    is_number(source.kind(at))
        && is_colon(source.kind(at.saturating_sub(1)))
        && is_assign(source.kind(at + 1))
}

/// Whether a token is the name of a function that is called.
fn is_call(source: &Source, at: usize) -> bool
    requires { at < length source.now.tokens.now }
    ensures { result ≡ is_call source.now.tokens.now at }
{
    is_name(source.kind(at))
        && is_open_round(source.kind(at + 1))
        && !is_fn(source.kind(at.saturating_sub(1)))
}

/// Whether a token has a verdict.
#[tactic(auto, unfolding(crate::specs::Comparisons::is_judged))]
fn is_judged(source: &Source, at: usize) -> bool
    requires { at < length source.now.tokens.now }
    ensures { result ≡ is_judged source.now.tokens.now at }
{
    is_comparison(source.kind(at)) || is_declared(source, at) || is_call(source, at)
}

/// A verdict for each token: those that are judged have theirs, one after the other.
pub fn by_tokens(
    alloc: Global,
    source: &Source,
    verdicts: &[Verdict],
) -> Result<Vec<Verdict>, AllocError>
    ensures count { IfOk result (λ all. length all.items ≡ length source.now.tokens.now) }
    ensures each { IfOk result (λ all. all.items ≡ by_tokens source.now.tokens.now verdicts.now) }
{
    let mut all = Vec::new(alloc);
    let mut next = 0;
    for at in 0..source.tokens.len() {
        if is_judged(source, at) {
            all.push(verdict_at(verdicts, next))?;
            next += 1;
        } else {
            all.push(Verdict::Unseen)?;
        }
    }
    Ok(all)
}

/// The token at which the name of a token is introduced.
fn introduction_of(source: &Source, at: usize) -> usize
    ensures { result
        ≡ introduction_of source.now.text.now source.now.tokens.now source.now.spans.now at }
{
    introduced_before(source, at).unwrap_or(at)
}

/// What is pointed out of a call with a constant that is read by `signed`: by the call itself, or by the function.
fn read_signed(
    source: &Source,
    at: usize,
    argument: u64,
    number: u64,
    width: u16,
    below: u128,
) -> Remark
    ensures { let source = source.now in result
        ≡ read_signed source.text.now source.tokens.now source.spans.now at argument number width below }
{
    if is_signed(source, at) {
        return Remark::Negative {
            value: number,
            width,
            below,
        };
    }
    Remark::Argument {
        argument,
        number,
        width,
        below,
        function: introduction_of(source, at),
    }
}

/// What is pointed out of a token with this verdict.
pub fn settled(source: &Source, at: usize, verdict: Verdict) -> Option<Remark>
    ensures { result
        ≡ settled source.now.text.now source.now.tokens.now source.now.spans.now at verdict }
{
    match verdict {
        Verdict::Unseen | Verdict::Varies => None,
        Verdict::Always {
            answer,
            left,
            right,
        } => Some(Remark::Settled {
            answer,
            left,
            right,
        }),
        Verdict::Cut { form, reach } => Some(Remark::Narrow { form, reach }),
        Verdict::Negative {
            argument,
            number,
            width,
            below,
        } => Some(read_signed(source, at, argument, number, width, below)),
    }
}
