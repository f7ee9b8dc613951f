// The digits at the front of some bytes, read at once.
ghost use Rattle.std.specs.Prelude.{◌≡◌, ◌≤◌, ◌^◌, ◌<◌, IsTrue, length, slice_index, take, true, false};
ghost use Rattle.std.specs.List.{list_all};
ghost use Rattle.pr_samples.specs.Fed.{is_digit, value_after};

/// The digits that are read at once at most: a `u64` holds each number of so many.
const MOST: usize = 18;

/// How many digits stand at the front, three at most, and the number that they write. All three are read whatever they are,
/// so that the processor has nothing to guess: how many digits a number has is random in most texts.
#[inline(always)]
fn few_digits(bytes: &[u8]) -> (usize, u64)
    ensures within { result.0 ≤ length bytes.now }
    ensures digits { list_all is_digit (take result.0 bytes.now) ≡ true }
    ensures number { result.1 ≡ value_after 0 (take result.0 bytes.now) }
    ensures low { result.1 < 10 ^ result.0 }
    ensures few { result.0 ≤ 3 }
    ensures whole { 3 ≤ length bytes.now → result.0 < 3 → is_digit (slice_index bytes.now result.0) ≡ false }
{
    if bytes.len() < 3 {
        return (0, 0);
    }
    let first = bytes[0].wrapping_sub(b'0');
    let second = bytes[1].wrapping_sub(b'0');
    let third = bytes[2].wrapping_sub(b'0');
    let one = u64::from(first);
    let two = 10 * one + u64::from(second);
    let three = 10 * two + u64::from(third);
    if first > 9 {
        (0, 0)
    } else if second > 9 {
        (1, one)
    } else if third > 9 {
        (2, two)
    } else {
        (3, three)
    }
}

/// How many digits stand at the front, as far as they are read at once, and the number that they write.
#[inline(always)]
pub fn front_number(bytes: &[u8]) -> (usize, u64)
    ensures within { result.0 ≤ length bytes.now }
    ensures digits { list_all is_digit (take result.0 bytes.now) ≡ true }
    ensures number { result.1 ≡ value_after 0 (take result.0 bytes.now) }
    ensures whole { result.0 < length bytes.now → result.0 < 18 → is_digit (slice_index bytes.now result.0) ≡ false }
{
    let most = bytes.len().min(MOST);
    let (begun, mut n) = few_digits(bytes);
    for i in begun..most {
        let digit = bytes[i].wrapping_sub(b'0');
        if digit > 9 {
            return (i, n);
        }
        n = 10 * n + u64::from(digit);
    }
    (most, n)
}

/// Whether a number is below 2 to the power of the width.
#[inline(always)]
pub fn is_low(n: u64, width: u8) -> bool
    ensures { IsTrue result → n < 2 ^ width }
{
    if width > 63 {
        return true;
    }
    n < 1 << width
}
