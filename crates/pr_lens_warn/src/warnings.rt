//! What is pointed out in a program.

ghost use Rattle.std.specs.Prelude.{◌≡◌, ◌<◌, IfOk, filter_map, length};
ghost use Rattle.std.specs.List.{range_with_len};
ghost use Rattle.pr_lens_waste.specs.Lines.{lines_in};
ghost use Rattle.pr_lens_warn.specs.Warnings.{AreWarnings, amount_warning, assigned_warning, difference_warning, last_warning, line_warning, name_warning, product_warning, sign_warning, signed_warning, verdict_warning, warning_at};

use crate::comparisons::{by_tokens, settled};
use crate::constants::{is_difference, is_signed_token, negative_of, wrapping_of};
use crate::lines::token_tails;
use crate::needs::{is_assigned, needed};
use crate::remarks::{Remark, Warning};
use crate::shifts::{amount_remark, is_amount};
use pr_lens_extents::Verdict;
use pr_lens_names::constant_at;
use pr_lens_products::{cheap_product, is_product};
use pr_lens_source::Source;
use pr_lens_waste::{Lines, Tail};
use std::alloc::{AllocError, Global};

/// The warning at `signed` of a token that is one number, or of the name of a constant that is.
fn signed_warning(source: &Source, at: usize) -> Option<Warning>
    requires { at < length source.now.tokens.now }
    ensures { result ≡ signed_warning source.now.text.now source.now.tokens.now source.now.spans.now at }
{
    let remark = negative_of(constant_at(source, at + 2))?;
    Some(Warning {
        remark,
        first: at,
        last: at + 3,
    })
}

/// The warning at the minus of a difference.
fn difference_warning(source: &Source, at: usize) -> Option<Warning>
    requires { at < length source.now.tokens.now }
    ensures { result
        ≡ difference_warning source.now.text.now source.now.tokens.now source.now.spans.now at }
{
    let before = at.saturating_sub(1);
    let remark = wrapping_of(constant_at(source, before), constant_at(source, at + 1))?;
    Some(Warning {
        remark,
        first: before,
        last: at + 1,
    })
}

/// The warning at a name that is assigned, where these marks are those of needed statements.
fn name_warning(source: &Source, needed: &[bool], at: usize) -> Option<Warning>
    requires { at < length needed.now }
    ensures { result ≡ name_warning source.now.tokens.now needed.now at }
{
    if !is_assigned(source, at) || needed[at] {
        return None;
    }
    Some(Warning {
        remark: Remark::Unneeded,
        first: at,
        last: at,
    })
}

/// The warning at a name whose last instances no output needs.
fn line_warning(tails: &[Option<Tail>], at: usize) -> Option<Warning>
    requires { at < length tails.now }
    ensures { result ≡ line_warning tails.now at }
{
    let tail = tails[at]?;
    Some(Warning {
        remark: Remark::Long {
            first: tail.first,
            last: tail.last,
        },
        first: at,
        last: at,
    })
}

/// The warning at a name that is assigned: that no result needs it, or else its last instances.
fn assigned_warning(
    source: &Source,
    needed: &[bool],
    tails: &[Option<Tail>],
    at: usize,
) -> Option<Warning>
    requires mark { at < length needed.now }
    requires tail { at < length tails.now }
    ensures { result ≡ assigned_warning source.now.tokens.now needed.now tails.now at }
{
    match name_warning(source, needed, at) {
        Some(warning) => Some(warning),
        None => line_warning(tails, at),
    }
}

/// The warning at a name that a shift has for its amount.
fn amount_warning(source: &Source, at: usize) -> Option<Warning>
    requires { at < length source.now.tokens.now }
    ensures { result ≡ amount_warning source.now.text.now source.now.tokens.now source.now.spans.now at }
{
    let remark = amount_remark(source, at)?;
    Some(Warning {
        remark,
        first: at,
        last: at,
    })
}

/// The warning at the sign of a product.
fn product_warning(source: &Source, at: usize) -> Option<Warning>
    requires { at < length source.now.tokens.now }
    ensures { let source = source.now in result
        ≡ product_warning source.text.now source.tokens.now source.spans.now at }
{
    let cheap = cheap_product(source, at)?;
    Some(Warning {
        remark: Remark::Product { cheap },
        first: at,
        last: at,
    })
}

/// The warning at a token with a verdict.
fn verdict_warning(source: &Source, verdicts: &[Verdict], at: usize) -> Option<Warning>
    requires { at < length verdicts.now }
    ensures { result
        ≡ verdict_warning source.now.text.now source.now.tokens.now source.now.spans.now verdicts.now at }
{
    let remark = settled(source, at, verdicts[at])?;
    Some(Warning {
        remark,
        first: at,
        last: at,
    })
}

/// The warning at `signed` of a token: that on one number, or else that of the verdict on the call.
fn sign_warning(source: &Source, verdicts: &[Verdict], at: usize) -> Option<Warning>
    requires token { at < length source.now.tokens.now }
    requires verdict { at < length verdicts.now }
    ensures { result
        ≡ sign_warning source.now.text.now source.now.tokens.now source.now.spans.now verdicts.now at }
{
    match signed_warning(source, at) {
        Some(warning) => Some(warning),
        None => verdict_warning(source, verdicts, at),
    }
}

/// The warning at a name that is assigned, or at a token with a verdict.
fn last_warning(
    source: &Source,
    needed: &[bool],
    verdicts: &[Verdict],
    tails: &[Option<Tail>],
    at: usize,
) -> Option<Warning>
    requires mark { at < length needed.now }
    requires verdict { at < length verdicts.now }
    requires tail { at < length tails.now }
    ensures { result
        ≡ last_warning source.now.text.now source.now.tokens.now source.now.spans.now needed.now verdicts.now tails.now at }
{
    if is_assigned(source, at) {
        return assigned_warning(source, needed, tails, at);
    }
    verdict_warning(source, verdicts, at)
}

/// The warning at a token.
#[tactic(auto, unfolding(crate::specs::Warnings::warning_at))]
fn warning_at(
    source: &Source,
    needed: &[bool],
    verdicts: &[Verdict],
    tails: &[Option<Tail>],
    at: usize,
) -> Option<Warning>
    requires token { at < length source.now.tokens.now }
    requires mark { at < length needed.now }
    requires verdict { at < length verdicts.now }
    requires tail { at < length tails.now }
    ensures { let source = source.now in result
        ≡ warning_at source.text.now source.tokens.now source.spans.now needed.now verdicts.now tails.now at }
{
    if is_signed_token(source, at) {
        return sign_warning(source, verdicts, at);
    }
    if is_difference(source, at) {
        return difference_warning(source, at);
    }
    if is_amount(source, at) {
        return amount_warning(source, at);
    }
    if is_product(source, at) {
        return product_warning(source, at);
    }
    last_warning(source, needed, verdicts, tails, at)
}

/// The warnings at all tokens, where these marks are those of needed statements, and these verdicts and ends of delay
/// lines stand by tokens.
fn warnings_by(
    alloc: Global,
    source: &Source,
    needed: &[bool],
    verdicts: &[Verdict],
    tails: &[Option<Tail>],
) -> Result<Vec<Warning>, AllocError>
    requires marks { length needed.now ≡ length source.now.tokens.now }
    requires verdicts { length verdicts.now ≡ length source.now.tokens.now }
    requires tails { length tails.now ≡ length source.now.tokens.now }
    ensures { let source = source.now in IfOk result (λ found. found.items ≡ filter_map
        (warning_at source.text.now source.tokens.now source.spans.now needed.now verdicts.now tails.now)
        (range_with_len 0 (length source.tokens.now))) }
{
    let mut found = Vec::new(alloc);
    for at in 0..needed.len() {
        if let Some(warning) = warning_at(source, needed, verdicts, tails, at) {
            found.push(warning)?;
        }
    }
    Ok(found)
}

/// What is pointed out in a program, in the order of its text: `signed` of a constant whose highest bit is 1, a
/// difference of constants that wraps around, a name that no result needs, the last instances of another one, where
/// they are delays that no output needs, a shift by a stream that is one number, a product by a constant that shifts
/// make with fewer units, and by their verdicts a comparison that gives always the same, a declared width that cuts
/// bits off, and a call with such a constant for an argument that is read by `signed`, by the call itself or by the
/// function. The verdicts are those on the comparisons, declared widths and calls of the text, one after the other; the
/// lines are those of its names.
pub fn warnings_of(
    alloc: Global,
    source: &Source,
    verdicts: &[Verdict],
    lines: &Lines,
) -> Result<Vec<Warning>, AllocError>
    ensures { let source = source.now in IfOk result (λ found.
        AreWarnings source.text.now source.tokens.now source.spans.now verdicts.now (lines_in lines.now) found.items) }
{
    let needed = needed(alloc, source)?;
    let by_tokens = by_tokens(alloc, source, verdicts)?;
    let tails = token_tails(alloc, source, lines)?;
    warnings_by(alloc, source, &needed, &by_tokens, &tails)
}
