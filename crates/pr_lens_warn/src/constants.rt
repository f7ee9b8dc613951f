//! What comes of constants that are one number.

ghost use Rattle.std.specs.Prelude.{◌≡◌, ◌+◌, ◌-◌, ◌^◌, ◌<◌, ◌≤◌, length};
ghost use Rattle.pr_flat.specs.Forms.{number_width};
ghost use Rattle.pr_lens_warn.specs.Constants.{is_difference, is_signed_token, negative, negative_of, wrapping, wrapping_of};

use crate::remarks::Remark;
use pr_base::bits_of;
use pr_lens_rules::is_signed;
use pr_lens_source::{Source, begins_sum, binds_closer, is_close_round, is_minus, is_open_round};

/// The least number of bits that hold a number.
fn width_of(value: u64) -> u8
    ensures width { result ≡ number_width value }
    ensures most { result ≤ 64 }
    ensures holds { value < 2 ^ result }
{
    bits_of(u128::from(value)).get()
}

/// How far a number is below a power of two.
fn below_power(width: u8, number: u64) -> u64
    requires most { width ≤ 64 }
    requires some { 0 < number }
    requires holds { number < 2 ^ width }
    ensures { result ≡ 2 ^ width - number }
{
    let whole: u128 = 1 << width;
    (whole - u128::from(number)) as u64
}

/// Whether `signed` of one token begins here.
#[tactic(auto, unfolding(crate::specs::Constants::is_signed_token))]
pub fn is_signed_token(source: &Source, at: usize) -> bool
    requires { at < length source.now.tokens.now }
    ensures { result ≡ is_signed_token source.now.text.now source.now.tokens.now at }
{
    is_signed(source, at)
        && is_open_round(source.kind(at + 1))
        && is_close_round(source.kind(at + 3))
}

/// That a number is negative in its own width.
#[tactic(auto, unfolding(crate::specs::Constants::negative))]
fn negative(value: u64) -> Option<Remark>
    ensures { result ≡ negative value }
{
    if value == 0 {
        return None;
    }
    let width = width_of(value);
    Some(Remark::Negative {
        value,
        width: u16::from(width),
        below: u128::from(below_power(width, value)),
    })
}

/// That a constant is negative in its own width.
pub fn negative_of(value: Option<u64>) -> Option<Remark>
    ensures { result ≡ negative_of value }
{
    match value {
        None => None,
        Some(value) => negative(value),
    }
}

/// Whether this token is the minus of a whole difference of two tokens.
#[tactic(auto, unfolding(crate::specs::Constants::is_difference))]
pub fn is_difference(source: &Source, at: usize) -> bool
    requires { at < length source.now.tokens.now }
    ensures { result ≡ is_difference source.now.tokens.now at }
{
    is_minus(source.kind(at))
        && begins_sum(source.kind(at.saturating_sub(2)))
        && !binds_closer(source.kind(at + 2))
}

/// That the difference of two numbers wraps around.
#[tactic(auto, unfolding(crate::specs::Constants::wrapping))]
fn wrapping(one: u64, other: u64) -> Option<Remark>
    ensures { result ≡ wrapping one other }
{
    if one >= other {
        return None;
    }
    let width = width_of(other);
    let by = other - one;
    Some(Remark::Wrapping {
        by,
        width,
        left: below_power(width, by),
    })
}

/// That the difference of two constants wraps around.
pub fn wrapping_of(one: Option<u64>, other: Option<u64>) -> Option<Remark>
    ensures { result ≡ wrapping_of one other }
{
    match one {
        None => None,
        Some(one) => match other {
            None => None,
            Some(other) => wrapping(one, other),
        },
    }
}
