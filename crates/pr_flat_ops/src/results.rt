//! The number of an operator's result at one sample, modulo 2 to the power of 128.

ghost use Rattle.std.specs.Prelude.{◌≡◌, ◌<◌, ℕ, ◌%◌, ◌^◌, true, List, [], ◌∷◌};
ghost use Rattle.pr_flat.specs.Forms.{IsPoint};
ghost use Rattle.pr_flat.specs.Rows.{takes, forms_of, natural_number, natural_width};
ghost use Rattle.pr_flat_ops.specs.Wholes.{IsWrapped};

use crate::arithmetic::{
    all_bits, common_bits, compared, complement, difference, product, single_bits, sum,
};
use crate::shifts::{joined, left, left_by, right, right_by, sliced};
use crate::wholes::{narrowed, whole_of};
use crate::widths::{wider, width_one, width_two};
use pr_base::Num;
use pr_flat::{Op, Point};

/// The number that an operator makes of one operand of 1 to 128 bits; what is no operator on one operand makes 0.
pub fn operate_one(op: Op, a: Point) -> Num
    requires a { IsPoint a }
    requires takes { takes op (a.form ∷ []) ≡ true }
    ensures number { result ≡ natural_number op (a ∷ []) % 2 ^ 128 }
    ensures below { natural_number op (a ∷ []) < 2 ^ natural_width op (a.form ∷ []) }
{
    narrowed(wrapped_one(op, a), width_one(op, a.form))
}

/// The number that an operator makes of two operands of 1 to 128 bits; what is no operator on two operands makes 0.
pub fn operate_two(op: Op, a: Point, b: Point) -> Num
    requires a { IsPoint a }
    requires b { IsPoint b }
    ensures number { result ≡ natural_number op (a ∷ b ∷ []) % 2 ^ 128 }
    ensures below { natural_number op (a ∷ b ∷ []) < 2 ^ natural_width op (a.form ∷ b.form ∷ []) }
{
    narrowed(wrapped_two(op, a, b), width_two(op, a.form, b.form))
}

/// The number of the first branch where the condition is 1, and else of the second, at the width that holds both.
pub fn choose(c: Point, a: Point, b: Point) -> Num
    requires a { IsPoint a }
    requires b { IsPoint b }
    ensures number { result ≡ natural_number Op.Choose (c ∷ a ∷ b ∷ []) % 2 ^ 128 }
    ensures below { natural_number Op.Choose (c ∷ a ∷ b ∷ []) < 2 ^ natural_width Op.Choose
        (c.form ∷ a.form ∷ b.form ∷ []) }
{
    narrowed(branch(c, a, b), wider(a.form, b.form))
}

// the branch that the condition chooses
fn branch(c: Point, a: Point, b: Point) -> Num
    requires a { IsPoint a }
    requires b { IsPoint b }
    ensures { IsWrapped Op.Choose (c ∷ a ∷ b ∷ []) result }
{
    if c.number == 1 {
        return whole_of(a).bits;
    }
    whole_of(b).bits
}

fn wrapped_one(op: Op, a: Point) -> Num
    requires a { IsPoint a }
    requires takes { takes op (a.form ∷ []) ≡ true }
    ensures { IsWrapped op (a ∷ []) result }
{
    match op {
        Op::Not => complement(a),
        Op::Left(k) => left(k, a),
        Op::Right(k) => right(k, a),
        Op::Slice(high, low) => sliced(high, low, a),
        Op::Fit => a.number,
        _ => 0,
    }
}

fn wrapped_two(op: Op, a: Point, b: Point) -> Num
    requires a { IsPoint a }
    requires b { IsPoint b }
    ensures { IsWrapped op (a ∷ b ∷ []) result }
{
    match op {
        Op::Add => sum(a, b),
        Op::Sub => difference(a, b),
        Op::Mul => product(a, b),
        Op::And => common_bits(a, b),
        Op::Or => all_bits(a, b),
        Op::Xor => single_bits(a, b),
        Op::Equal | Op::NotEqual | Op::Less | Op::LessEqual | Op::Greater | Op::GreaterEqual => {
            compared(op, a, b)
        }
        Op::LeftBy => left_by(a, b),
        Op::RightBy => right_by(a, b),
        Op::Cat => joined(a, b),
        _ => 0,
    }
}
