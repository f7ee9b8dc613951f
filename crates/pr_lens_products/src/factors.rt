//! Products of two names, delayed names or numbers, and the widths of streams, as they stand in a text.

ghost use Rattle.std.specs.Prelude.{◌≡◌, ◌<◌, ◌≤◌, ◌+◌, IfSome, length};
ghost use Rattle.pr_lens_products.specs.Factors.{is_all, is_between, is_first, is_operand, is_in_no_function, is_product, left_of, right_of, width_at, width_in, width_named};

use crate::kinds::{goes_further, is_bare, is_held, joins, opens, shuts};
use pr_lang::Kind;
use pr_lens_source::{
    Source, introduced_before, is_assign, is_at, is_colon, is_fn, is_semi, is_star,
};

/// The first token of the factor before the sign of a product.
pub fn left_of(source: &Source, at: usize) -> usize
    ensures is { result ≡ left_of source.now.tokens.now at }
    ensures before { result ≤ at }
{
    if is_at(source.kind(at.saturating_sub(2))) {
        at.saturating_sub(3)
    } else {
        at.saturating_sub(1)
    }
}

/// The last token of the factor behind it.
pub fn right_of(source: &Source, at: usize) -> usize
    requires { at < length source.now.tokens.now }
    ensures is { result ≡ right_of source.now.tokens.now at }
    ensures near { result ≤ at + 3 }
{
    if is_at(source.kind(at + 2)) {
        at + 3
    } else {
        at + 1
    }
}

/// Whether a product between these tokens stands behind an operator or a comma.
fn is_operand(before: Kind, behind: Kind) -> bool
    ensures { result ≡ is_operand before behind }
{
    joins(before) && (goes_further(behind) || shuts(behind))
}

/// Whether a product between these tokens begins a longer expression.
fn is_first(before: Kind, behind: Kind) -> bool
    ensures { result ≡ is_first before behind }
{
    opens(before) && goes_further(behind)
}

/// Whether a product between these tokens is all of what a name is, which has no declared width.
fn is_all(name: Kind, before: Kind, behind: Kind) -> bool
    ensures { result ≡ is_all name before behind }
{
    is_bare(name) && is_assign(before) && is_semi(behind)
}

/// Whether a product between these tokens has the width of both factors.
fn is_between(name: Kind, before: Kind, behind: Kind) -> bool
    ensures { result ≡ is_between name before behind }
{
    is_operand(before, behind) || is_first(before, behind) || is_all(name, before, behind)
}

/// Whether a token stands outside of all functions.
fn is_in_no_function(source: &Source, at: usize) -> bool
    ensures { result ≡ is_in_no_function source.now.tokens.now source.now.spans.now at }
{
    !is_fn(source.kind(source.first(source.item_at(at))))
}

/// Whether this is the sign of a product that has the width of both factors, outside of all functions.
#[tactic(auto, unfolding(crate::specs::Factors::is_product))]
pub fn is_product(source: &Source, at: usize) -> bool
    requires { at < length source.now.tokens.now }
    ensures { result ≡ is_product source.now.tokens.now source.now.spans.now at }
{
    let left = left_of(source, at);
    let name = source.kind(left.saturating_sub(2));
    let before = source.kind(left.saturating_sub(1));
    let behind = source.kind(right_of(source, at) + 1);
    is_star(source.kind(at)) && is_in_no_function(source, at) && is_between(name, before, behind)
}

/// The width that a number declares.
fn width_in(kind: Kind) -> Option<u16>
    ensures width { result ≡ width_in kind }
    ensures most { IfSome result (λ width. width ≤ 128) }
{
    match kind {
        Kind::Number(width) => {
            if width <= 128 {
                Some(width as u16)
            } else {
                None
            }
        }
        _ => None,
    }
}

/// The declared width of an input or a recurrence that is introduced here.
#[tactic(auto, unfolding(crate::specs::Factors::width_named))]
fn width_named(source: &Source, name: usize) -> Option<u16>
    requires { name < length source.now.tokens.now + 2 }
    ensures width { result ≡ width_named source.now.tokens.now name }
    ensures most { IfSome result (λ width. width ≤ 128) }
{
    if is_held(source.kind(name.saturating_sub(1))) && is_colon(source.kind(name + 1)) {
        width_in(source.kind(name + 2))
    } else {
        None
    }
}

/// The declared width of the stream of a token outside of all functions, where that is an input or a recurrence.
pub fn width_at(source: &Source, at: usize) -> Option<u16>
    requires { at ≤ length source.now.tokens.now + 2 }
    ensures width { let source = source.now in result
        ≡ width_at source.text.now source.tokens.now source.spans.now at }
    ensures most { IfSome result (λ width. width ≤ 128) }
{
    match introduced_before(source, at) {
        None => None,
        Some(name) => width_named(source, name),
    }
}
