//! Single bits of numbers.

ghost use Rattle.std.specs.Prelude.{◌≡◌, ◌^◌, ◌<◌, ◌≤◌, ◌==◌, IfSome};
ghost use Rattle.pr_lens_products.specs.Bits.{has_bit, is_power, lowest_bit, only_bit};

/// A power of two.
pub fn power(place: u8) -> u128
    requires { place ≤ 64 }
    ensures { result ≡ 2 ^ place }
{
    1 << place
}

/// Whether a number is this power of two.
fn is_power(number: u128, place: u8) -> bool
    requires { place ≤ 64 }
    ensures { result ≡ is_power number place }
{
    power(place) == number
}

/// The place of the only bit of a number, where it has one alone.
pub fn only_bit(number: u128) -> Option<u8>
    ensures value { result ≡ only_bit number }
    ensures is { IfSome result (λ place. 2 ^ place ≡ number) }
    ensures few { IfSome result (λ place. place ≤ 64) }
{
    for place in 0..65 {
        if is_power(number, place) {
            return Some(place);
        }
    }
    None
}

/// Whether the bit at a place is 1.
fn has_bit(number: u64, place: u8) -> bool
    requires { place < 64 }
    ensures { result ≡ has_bit number place }
{
    (number >> place) % 2 == 1
}

/// The place of the lowest bit of a number that is 1.
pub fn lowest_bit(number: u64) -> Option<u8>
    ensures value { result ≡ lowest_bit number }
    ensures few { IfSome result (λ place. place < 64) }
{
    for place in 0..64 {
        if has_bit(number, place) {
            return Some(place);
        }
    }
    None
}
