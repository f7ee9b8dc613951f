//! Shifts by a stream that is one number.

ghost use Rattle.std.specs.Prelude.{◌≡◌, ◌<◌, length};
ghost use Rattle.pr_lens_warn.specs.Shifts.{amount_remark, is_amount};

use crate::remarks::Remark;
use pr_lens_names::{Named, number_of_name};
use pr_lens_source::{Source, goes_on, is_name, is_shift};

/// Whether this token is a name that a shift has for its amount.
#[tactic(auto, unfolding(crate::specs::Shifts::is_amount))]
pub fn is_amount(source: &Source, at: usize) -> bool
    requires { at < length source.now.tokens.now }
    ensures { result ≡ is_amount source.now.tokens.now at }
{
    is_shift(source.kind(at.saturating_sub(1)))
        && is_name(source.kind(at))
        && !goes_on(source.kind(at + 1))
}

/// That the amount of a shift is one number, though it is a stream.
pub fn amount_remark(source: &Source, at: usize) -> Option<Remark>
    requires { at < length source.now.tokens.now }
    ensures { result
        ≡ amount_remark source.now.text.now source.now.tokens.now source.now.spans.now at }
{
    match number_of_name(Named::Stream, source, at) {
        None => None,
        Some(number) => Some(Remark::Amount { number }),
    }
}
