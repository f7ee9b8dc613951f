//! Between which values the numbers of a stream stand.

ghost use Rattle.std.specs.Prelude.{◌≡◌, ◌+◌, ◌*◌, ◌-◌, ◌^◌, ◌<◌, ◌≤◌};
ghost use Rattle.pr_lens_reach.specs.Reaches.{apart_of, both_times, bound_of, common_of, depth_of, difference_of, either_of, filled, fits_at, fits_in, greatest_of, higher, higher_of, is_in, is_natural, level_of, lower, lower_of, lowered, lowered_of, of_bounds, only, opposite, over, product, product_of, raised, raised_of, read_number, read_reach, read_signed, sum, sum_of, together_of, under, up_to, whole_of, within};

/// A value: how far it is above 0, or below it. One of the two is 0.
#[derive(Clone, Copy, PartialEq, Eq, Debug)]
pub struct Bound {
    pub above: u128,
    pub below: u128,
}

/// Between which values the numbers of a stream stand.
#[derive(Clone, Copy, PartialEq, Eq, Debug)]
pub struct Reach {
    pub least: Bound,
    pub greatest: Bound,
}

/// 2 to the power of the width.
fn power(width: u16) -> u128
    requires { width < 128 }
    ensures { result ≡ 2 ^ width }
{
    let power: u128 = 1 << width;
    power
}

/// The greatest number of so many bits.
fn greatest(width: u16) -> u128
    requires { width ≤ 128 }
    ensures { result ≡ 2 ^ width - 1 }
{
    if width == 128 {
        return u128::MAX;
    }
    power(width) - 1
}

/// The greatest value of a kind and width.
pub fn greatest_of(signed: bool, width: u16) -> u128
    requires width { width ≤ 128 }
    ensures { result ≡ greatest_of signed width }
{
    if signed {
        return greatest(width.saturating_sub(1));
    }
    greatest(width)
}

/// How far the least value of a kind and width is below 0.
fn depth_of(signed: bool, width: u16) -> u128
    requires width { width ≤ 128 }
    ensures { result ≡ depth_of signed width }
{
    if signed {
        return power(width.saturating_sub(1));
    }
    0
}

/// A value that is not below 0.
pub fn over(above: u128) -> Bound
    ensures { result ≡ over above }
{
    Bound { above, below: 0 }
}

/// A value that is not above 0.
pub fn under(below: u128) -> Bound
    ensures { result ≡ under below }
{
    Bound { above: 0, below }
}

/// From 0 up to a value.
pub fn up_to(above: u128) -> Reach
    ensures { result ≡ up_to above }
{
    Reach {
        least: over(0),
        greatest: over(above),
    }
}

/// One value alone.
pub fn only(bound: Bound) -> Reach
    ensures { result ≡ only bound }
{
    Reach {
        least: bound,
        greatest: bound,
    }
}

/// All values of a kind and width.
pub fn whole_of(signed: bool, width: u16) -> Option<Reach>
    ensures { result ≡ whole_of signed width }
{
    if width > 128 {
        return None;
    }
    Some(Reach {
        least: under(depth_of(signed, width)),
        greatest: over(greatest_of(signed, width)),
    })
}

/// The lower one of two values.
fn lower(one: Bound, other: Bound) -> Bound
    ensures { result ≡ lower one other }
{
    Bound {
        above: one.above.min(other.above),
        below: one.below.max(other.below),
    }
}

/// The higher one.
fn higher(one: Bound, other: Bound) -> Bound
    ensures { result ≡ higher one other }
{
    Bound {
        above: one.above.max(other.above),
        below: one.below.min(other.below),
    }
}

fn lower_of(one: Option<Bound>, other: Option<Bound>) -> Option<Bound>
    ensures { result ≡ lower_of one other }
{
    let Some(one) = one else {
        return None;
    };
    let Some(other) = other else {
        return None;
    };
    Some(lower(one, other))
}

fn higher_of(one: Option<Bound>, other: Option<Bound>) -> Option<Bound>
    ensures { result ≡ higher_of one other }
{
    let Some(one) = one else {
        return None;
    };
    let Some(other) = other else {
        return None;
    };
    Some(higher(one, other))
}

fn of_bounds(least: Option<Bound>, greatest: Option<Bound>) -> Option<Reach>
    ensures { result ≡ of_bounds least greatest }
{
    let Some(least) = least else {
        return None;
    };
    let Some(greatest) = greatest else {
        return None;
    };
    Some(Reach { least, greatest })
}

/// A value so far above 0, less so far below it.
fn level_of(above: Option<u128>, below: Option<u128>) -> Option<Bound>
    ensures { result ≡ level_of above below }
{
    let Some(above) = above else {
        return None;
    };
    let Some(below) = below else {
        return None;
    };
    Some(Bound {
        above: above.saturating_sub(below),
        below: below.saturating_sub(above),
    })
}

/// A sum of two numbers, where it has 128 bits.
fn plus(one: u128, other: u128) -> Option<u128>
    ensures { result ≡ bound_of (one + other) }
{
    one.checked_add(other)
}

/// A product of two numbers, where it has 128 bits.
fn times(one: u128, other: u128) -> Option<u128>
    ensures { result ≡ bound_of (one * other) }
{
    one.checked_mul(other)
}

/// The sum of two products, of which one is 0.
fn both_times(one: u128, other: u128, third: u128, fourth: u128) -> Option<u128>
    ensures { result ≡ both_times one other third fourth }
{
    let Some(first) = times(one, other) else {
        return None;
    };
    let Some(second) = times(third, fourth) else {
        return None;
    };
    plus(first, second)
}

fn sum(one: Bound, other: Bound) -> Option<Bound>
    ensures { result ≡ sum one other }
{
    level_of(plus(one.above, other.above), plus(one.below, other.below))
}

fn opposite(bound: Bound) -> Bound
    ensures { result ≡ opposite bound }
{
    Bound {
        above: bound.below,
        below: bound.above,
    }
}

fn product(one: Bound, other: Bound) -> Option<Bound>
    ensures { result ≡ product one other }
{
    let above = both_times(one.above, other.above, one.below, other.below);
    let below = both_times(one.above, other.below, one.below, other.above);
    level_of(above, below)
}

/// What sums can be.
pub fn sum_of(one: Reach, other: Reach) -> Option<Reach>
    ensures { result ≡ sum_of one other }
{
    of_bounds(
        sum(one.least, other.least),
        sum(one.greatest, other.greatest),
    )
}

/// What differences of values can be.
pub fn difference_of(one: Reach, other: Reach) -> Option<Reach>
    ensures { result ≡ difference_of one other }
{
    of_bounds(
        sum(one.least, opposite(other.greatest)),
        sum(one.greatest, opposite(other.least)),
    )
}

/// What products can be: the least and the greatest one are products of bounds.
pub fn product_of(one: Reach, other: Reach) -> Option<Reach>
    ensures { result ≡ product_of one other }
{
    let first = product(one.least, other.least);
    let second = product(one.least, other.greatest);
    let third = product(one.greatest, other.least);
    let fourth = product(one.greatest, other.greatest);
    of_bounds(
        lower_of(lower_of(first, second), lower_of(third, fourth)),
        higher_of(higher_of(first, second), higher_of(third, fourth)),
    )
}

/// Whether no value is below 0.
fn is_natural(reach: Reach) -> bool
    ensures { result ≡ is_natural reach }
{
    reach.least.below == 0
}

/// What the common bits of two values can be, where one is not below 0.
pub fn common_of(one: Reach, other: Reach) -> Option<Reach>
    ensures { result ≡ common_of one other }
{
    if is_natural(one) {
        if is_natural(other) {
            return Some(up_to(one.greatest.above.min(other.greatest.above)));
        }
        return Some(up_to(one.greatest.above));
    }
    if is_natural(other) {
        return Some(up_to(other.greatest.above));
    }
    None
}

/// The greatest number that has as many bits as this one.
fn filled(number: u128) -> u128
    ensures { result ≡ filled number }
{
    greatest(128 - number.leading_zeros() as u16)
}

/// What the bits of two values can be together, where neither is below 0: at least the greater one of the two.
pub fn together_of(one: Reach, other: Reach) -> Option<Reach>
    ensures { result ≡ together_of one other }
{
    if is_natural(one) && is_natural(other) {
        return Some(Reach {
            least: higher(one.least, other.least),
            greatest: over(filled(one.greatest.above.max(other.greatest.above))),
        });
    }
    None
}

/// What the bits can be in which two values differ, where neither is below 0.
pub fn apart_of(one: Reach, other: Reach) -> Option<Reach>
    ensures { result ≡ apart_of one other }
{
    if is_natural(one) && is_natural(other) {
        return Some(up_to(filled(one.greatest.above.max(other.greatest.above))));
    }
    None
}

/// What one of two streams can be.
pub fn either_of(one: Reach, other: Reach) -> Reach
    ensures { result ≡ either_of one other }
{
    Reach {
        least: lower(one.least, other.least),
        greatest: higher(one.greatest, other.greatest),
    }
}

/// A value times 2 to the power of so many.
fn raised(by: u8, bound: Bound) -> Option<Bound>
    requires { by < 128 }
    ensures { result ≡ raised by bound }
{
    let factor = power(u16::from(by));
    level_of(times(bound.above, factor), times(bound.below, factor))
}

/// What is left of values that are shifted to the left by so many bits.
pub fn raised_of(by: u8, reach: Reach) -> Option<Reach>
    ensures { result ≡ raised_of by reach }
{
    if by >= 128 {
        return None;
    }
    of_bounds(raised(by, reach.least), raised(by, reach.greatest))
}

/// A value divided by 2 to the power of so many, and rounded down.
fn lowered(by: u8, bound: Bound) -> Bound
    ensures { result ≡ lowered by bound }
{
    if by >= 128 {
        return under(bound.below.min(1));
    }
    let divisor = power(u16::from(by));
    Bound {
        above: bound.above / divisor,
        below: bound.below.div_ceil(divisor),
    }
}

/// What is left of values that are shifted to the right by so many bits.
pub fn lowered_of(by: u8, reach: Reach) -> Reach
    ensures { result ≡ lowered_of by reach }
{
    Reach {
        least: lowered(by, reach.least),
        greatest: lowered(by, reach.greatest),
    }
}

/// Whether all these values are among others.
fn is_in(reach: Reach, all: Reach) -> bool
    ensures { result ≡ is_in reach all }
{
    reach.least.below <= all.least.below && reach.greatest.above <= all.greatest.above
}

/// These values, where all of them are among those of a kind and width; else all that these have.
pub fn within(all: Option<Reach>, reach: Option<Reach>) -> Option<Reach>
    ensures { result ≡ within all reach }
{
    let Some(all) = all else {
        return None;
    };
    let Some(reach) = reach else {
        return Some(all);
    };
    if is_in(reach, all) {
        return Some(reach);
    }
    Some(all)
}

/// Whether a kind and width have all these values.
fn fits_in(signed: bool, width: u16, reach: Reach) -> bool
    requires width { width ≤ 128 }
    ensures { result ≡ fits_in signed width reach }
{
    reach.least.below <= depth_of(signed, width)
        && reach.greatest.above <= greatest_of(signed, width)
}

/// Whether a kind and width have all these values, where they are known.
pub fn fits_at(signed: bool, width: u16, reach: Option<Reach>) -> bool
    requires width { width ≤ 128 }
    ensures { result ≡ fits_at signed width reach }
{
    match reach {
        None => false,
        Some(reach) => fits_in(signed, width, reach),
    }
}

/// A number of so many bits, read as a signed one.
fn read_number(width: u16, number: u128) -> Bound
    requires width { width ≤ 128 }
    ensures { result ≡ read_number width number }
{
    if number <= greatest_of(true, width) {
        return over(number);
    }
    under(greatest(width).saturating_sub(number.saturating_sub(1)))
}

fn read_reach(width: u16, reach: Option<Reach>) -> Option<Reach>
    requires width { width ≤ 128 }
    ensures { result ≡ read_reach width reach }
{
    if fits_at(true, width, reach) {
        return reach;
    }
    whole_of(true, width)
}

/// What the values of a stream are where its bits are read as a signed number.
pub fn read_signed(width: u16, still: Option<u64>, reach: Option<Reach>) -> Option<Reach>
    ensures { result ≡ read_signed width still reach }
{
    if width > 128 {
        return None;
    }
    match still {
        None => read_reach(width, reach),
        Some(number) => Some(only(read_number(width, u128::from(number)))),
    }
}
