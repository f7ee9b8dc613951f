//! Shifts, slices and concatenations, before they are cut to their width.

ghost use Rattle.std.specs.Prelude.{◌≡◌, ℕ, ◌*◌, ◌/◌, ◌%◌, ◌^◌, List, [], ◌∷◌, pos};
ghost use Rattle.std.specs.Int.{int_div_euclid};
ghost use Rattle.pr_flat.specs.declared.equations.Op.TheVariants.{Left, Right, LeftBy, RightBy, Slice, Cat};
ghost use Rattle.pr_flat.specs.Forms.{IsPoint, residue};
ghost use Rattle.pr_flat_ops.specs.Wholes.{IsWrapped, whole_value};

use crate::wholes::{Whole, whole_of};
use pr_base::Num;
use pr_flat::Point;

/// A value moved up by `k` bits.
pub fn left(k: u8, a: Point) -> Num
    requires { IsPoint a }
    ensures { IsWrapped (Left k) (a ∷ []) result }
{
    moved_up(whole_of(a).bits, Num::from(k))
}

/// A value moved down by `k` bits.
pub fn right(k: u8, a: Point) -> Num
    requires { IsPoint a }
    ensures { IsWrapped (Right k) (a ∷ []) result }
{
    value_moved_down(whole_of(a), Num::from(k))
}

/// A value moved up by a stream's number of bits.
pub fn left_by(a: Point, by: Point) -> Num
    requires { IsPoint a }
    ensures { IsWrapped LeftBy (a ∷ by ∷ []) result }
{
    moved_up(whole_of(a).bits, by.number)
}

/// A value moved down by a stream's number of bits.
pub fn right_by(a: Point, by: Point) -> Num
    requires { IsPoint a }
    ensures { IsWrapped RightBy (a ∷ by ∷ []) result }
{
    value_moved_down(whole_of(a), by.number)
}

/// A number from the lower of two places on.
pub fn sliced(high: u64, low: u64, a: Point) -> Num
    ensures { IsWrapped (Slice high low) (a ∷ []) result }
{
    moved_down(a.number, Num::from(low))
}

/// A number above another.
pub fn joined(a: Point, b: Point) -> Num
    requires a { IsPoint a }
    requires b { IsPoint b }
    ensures { IsWrapped Cat (a ∷ b ∷ []) result }
{
    moved_up(a.number, Num::from(b.form.width)).wrapping_add(b.number)
}

fn moved_up(bits: Num, by: Num) -> Num
    ensures { result ≡ bits * 2 ^ by % 2 ^ 128 }
{
    if by >= 128 { 0 } else { bits << by }
}

fn moved_down(bits: Num, by: Num) -> Num
    ensures { result ≡ bits / 2 ^ by }
{
    if by >= 128 { 0 } else { bits >> by }
}

// the value divided by a power of two, rounded down
fn value_moved_down(x: Whole, by: Num) -> Num
    ensures { result ≡ residue 128 (int_div_euclid (whole_value x) (pos (2 ^ by))) }
{
    if x.negative {
        !moved_down(!x.bits, by)
    } else {
        moved_down(x.bits, by)
    }
}
