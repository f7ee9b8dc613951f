//! Sums, products, bits and comparisons of two operands, before they are cut to their width.

ghost use Rattle.std.specs.Prelude.{◌≡◌, ◌||◌, Bool, true, not, ◌&&◌, List, [], ◌∷◌, pos, int_lt};
ghost use Rattle.pr_flat.specs.Forms.{IsPoint};
ghost use Rattle.pr_flat.specs.Rows.{is_comparison, signed_value, bit};
ghost use Rattle.pr_flat_ops.specs.Wholes.{IsWrapped, whole_value};

use crate::wholes::{Whole, whole_of};
use pr_base::Num;
use pr_flat::{Op, Point};

/// The sum of two values.
pub fn sum(a: Point, b: Point) -> Num
    requires a { IsPoint a }
    requires b { IsPoint b }
    ensures { IsWrapped Op.Add (a ∷ b ∷ []) result }
{
    whole_of(a).bits.wrapping_add(whole_of(b).bits)
}

/// The first value less the second.
pub fn difference(a: Point, b: Point) -> Num
    requires a { IsPoint a }
    requires b { IsPoint b }
    ensures { IsWrapped Op.Sub (a ∷ b ∷ []) result }
{
    whole_of(a).bits.wrapping_sub(whole_of(b).bits)
}

/// The product of two values.
pub fn product(a: Point, b: Point) -> Num
    requires a { IsPoint a }
    requires b { IsPoint b }
    ensures { IsWrapped Op.Mul (a ∷ b ∷ []) result }
{
    whole_of(a).bits.wrapping_mul(whole_of(b).bits)
}

/// The bits that two values share.
pub fn common_bits(a: Point, b: Point) -> Num
    requires a { IsPoint a }
    requires b { IsPoint b }
    ensures { IsWrapped Op.And (a ∷ b ∷ []) result }
{
    whole_of(a).bits & whole_of(b).bits
}

/// The bits that either value has.
pub fn all_bits(a: Point, b: Point) -> Num
    requires a { IsPoint a }
    requires b { IsPoint b }
    ensures { IsWrapped Op.Or (a ∷ b ∷ []) result }
{
    whole_of(a).bits | whole_of(b).bits
}

/// The bits that one of two values has.
pub fn single_bits(a: Point, b: Point) -> Num
    requires a { IsPoint a }
    requires b { IsPoint b }
    ensures { IsWrapped Op.Xor (a ∷ b ∷ []) result }
{
    whole_of(a).bits ^ whole_of(b).bits
}

/// The bits that a value has not.
pub fn complement(a: Point) -> Num
    requires { IsPoint a }
    ensures { IsWrapped Op.Not (a ∷ []) result }
{
    !whole_of(a).bits
}

/// 1 where a comparison of two values holds, and else 0.
pub fn compared(op: Op, a: Point, b: Point) -> Num
    requires a { IsPoint a }
    requires b { IsPoint b }
    requires comparison { is_comparison op ≡ true }
    ensures { IsWrapped op (a ∷ b ∷ []) result }
{
    Num::from(does_hold(op, a, b))
}

// whether a comparison of two values holds
fn does_hold(op: Op, a: Point, b: Point) -> bool
    requires a { IsPoint a }
    requires b { IsPoint b }
    requires comparison { is_comparison op ≡ true }
    ensures { pos (bit result) ≡ signed_value op (a ∷ b ∷ []) }
{
    let x = whole_of(a);
    let y = whole_of(b);
    match op {
        Op::Equal => is_same(x, y),
        Op::NotEqual => !is_same(x, y),
        Op::Less => is_less(x, y),
        Op::LessEqual => !is_less(y, x),
        Op::Greater => is_less(y, x),
        _ => !is_less(x, y),
    }
}

// whether the first value is below the second
fn is_less(x: Whole, y: Whole) -> bool
    ensures { result ≡ int_lt (whole_value x) (whole_value y) }
{
    if x.negative == y.negative {
        x.bits < y.bits
    } else {
        x.negative
    }
}

// whether two values are one
fn is_same(x: Whole, y: Whole) -> bool
    ensures { result ≡ (not (int_lt (whole_value x) (whole_value y)) && not (int_lt (whole_value y) (whole_value x))) }
{
    x.negative == y.negative && x.bits == y.bits
}
