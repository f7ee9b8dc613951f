//! Values in two's complement of 128 bits.

ghost use Rattle.std.specs.Prelude.{◌≡◌, ◌<◌, ◌≤◌, ℕ, ◌-◌, ◌%◌, ◌^◌, min};
ghost use Rattle.pr_flat.specs.Forms.{IsPoint, value, value_at, residue};
ghost use Rattle.pr_flat_ops.specs.Wholes.{shows_sign, whole_value};

use pr_base::{Num, Width, cut};
use pr_flat::Point;

/// A sign and 128 bits: the value is the bits' number, less 2 to the power of 128 where it is negative.
#[derive(Clone, Copy, PartialEq, Eq, Debug)]
pub struct Whole {
    pub negative: bool,
    pub bits: Num,
}

/// The point's value modulo 2 to the power of `w`. Of a number of more than 128 bits the low 128 are enough.
pub fn fit(point: Point, w: Width) -> Num
    requires { 1 ≤ point.form.width }
    ensures { (n : ℕ) → n < 2 ^ point.form.width → point.number ≡ n % 2 ^ 128 → result ≡
        residue w.bits (value point.form n) }
{
    cut(whole_of(point).bits, w)
}

/// The point's value; of one of more than 128 bits the low 128 bits.
pub fn whole_of(point: Point) -> Whole
    requires { 1 ≤ point.form.width }
    ensures bits { (n : ℕ) → n < 2 ^ point.form.width → point.number ≡ n % 2 ^ 128 → result.bits ≡
        residue 128 (value point.form n) }
    ensures value { IsPoint point → whole_value result ≡ value_at point }
{
    if !is_negative(point) {
        return Whole {
            negative: false,
            bits: point.number,
        };
    }
    Whole {
        negative: true,
        bits: point.number | above(point.form.width),
    }
}

// whether the value is below 0; none of more than 128 bits is read as such
fn is_negative(point: Point) -> bool
    requires { 1 ≤ point.form.width }
    ensures { result ≡ shows_sign point.form point.number }
{
    let form = point.form;
    form.signed && form.width <= 128 && point.number >= 1 << (form.width - 1)
}

// ones from this place on
fn above(width: u16) -> Num
    requires { width ≤ 128 }
    ensures { result ≡ 2 ^ 128 - 2 ^ width }
{
    if width == 128 { 0 } else { Num::MAX << width }
}

/// `n` modulo 2 to the power of the width, where that has less than 128 bits.
pub fn narrowed(n: Num, width: u16) -> Num
    ensures { result ≡ n % 2 ^ min width 128 }
{
    if width >= 128 { n } else { n % (1 << width) }
}
