//! Products by a constant as shifts.

ghost use Rattle.std.specs.Prelude.{◌≡◌, ◌+◌, ◌-◌, ◌^◌, ◌<◌, ◌≤◌, IfSome};
ghost use Rattle.pr_lens_products.specs.Shifts.{AreFew, difference_by, later_shifts, number_of, shifts_by, shifts_of, two_shifts};

use crate::bits::{lowest_bit, only_bit, power};

/// What a product by a constant is made of.
#[derive(Clone, Copy, PartialEq, Eq, Debug)]
pub enum Shifts {
    /// A shift by so many bits.
    One { by: u8 },
    /// The sum of two shifts.
    Sum { by: u8, and: u8 },
    /// A shift less another.
    Difference { by: u8, less: u8 },
}

/// A shift less that by `low` bits.
fn difference_by(by: Option<u8>, low: u8) -> Option<Shifts>
    ensures { result ≡ difference_by by low }
{
    match by {
        None => None,
        Some(by) => Some(Shifts::Difference { by, less: low }),
    }
}

/// Two shifts, of which one is by `low` bits.
fn two_shifts(number: u64, low: u8) -> Option<Shifts>
    requires { low < 64 }
    ensures value { result ≡ two_shifts number low }
    ensures number { IfSome result (λ s. number_of s ≡ number) }
    ensures few { IfSome result AreFew }
{
    let whole = u128::from(number);
    match only_bit(whole.saturating_sub(power(low))) {
        Some(by) => Some(Shifts::Sum { by, and: low }),
        None => difference_by(only_bit(whole + power(low)), low),
    }
}

/// The shifts of which a product by a number is made: one, the sum of two, or the difference of two, where it is made
/// of so few.
pub fn shifts_of(number: u64) -> Option<Shifts>
    ensures value { result ≡ shifts_of number }
    ensures number { IfSome result (λ s. number_of s ≡ number) }
    ensures few { IfSome result AreFew }
{
    let low = lowest_bit(number)?;
    match only_bit(u128::from(number)) {
        Some(by) => Some(Shifts::One { by }),
        None => two_shifts(number, low),
    }
}
