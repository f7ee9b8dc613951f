//! Operators on as many operands as they have.

ghost use Rattle.std.specs.Prelude.{◌≡◌, ◌<◌, ℕ, true, false, List, [], ◌∷◌, length, All};
ghost use Rattle.pr_flat.specs.Facts.{arity, is_rec};
ghost use Rattle.pr_flat.specs.Forms.{IsForm, IsPoint};
ghost use Rattle.pr_flat.specs.Rows.{takes, forms_of};
ghost use Rattle.pr_flat.specs.Values.{operator_number};
ghost use Rattle.pr_flat_ops.specs.Naturals.{IsNatural};

use crate::results::{choose, operate_one, operate_two};
use crate::wholes::fit;
use crate::widths::{form_of_branches, form_one, natural_choice, natural_one, natural_two};
use pr_base::{Num, Width};
use pr_flat::{Form, Op, Point};

/// The kind and the width that hold the result of an operator on its operands, which are 1 to 128 bits wide; none where it does
/// not take them: a condition has to be one bit wide, and a slice's high end to lie in the operand.
pub fn natural(op: Op, operands: &[Form]) -> Option<Form>
    requires forms { All IsForm operands.now }
    requires count { length operands.now ≡ arity op }
    ensures { IsNatural op operands.now result }
{
    match operands {
        [a] => natural_one(op, *a),
        [a, b] => Some(natural_two(op, *a, *b)),
        [c, a, b] => natural_choice(*c, *a, *b),
        _ => Some(Form {
            signed: false,
            width: 0,
        }),
    }
}

/// The number that an operator makes of its operands, which are 1 to 128 bits wide, reduced to `w` bits.
pub fn operate(op: Op, operands: &[Point], w: Width) -> Num
    requires points { All IsPoint operands.now }
    requires count { length operands.now ≡ arity op }
    requires takes { takes op (forms_of operands.now) ≡ true }
    requires recurrence { is_rec op ≡ false }
    ensures { result ≡ operator_number w.bits op operands.now }
{
    match operands {
        [a] => reduced_one(op, *a, w),
        [a, b] => reduced_two(op, *a, *b, w),
        [c, a, b] => reduced_choice(*c, *a, *b, w),
        _ => 0,
    }
}

fn reduced_one(op: Op, a: Point, w: Width) -> Num
    requires a { IsPoint a }
    requires count { arity op ≡ 1 }
    requires takes { takes op (a.form ∷ []) ≡ true }
    requires recurrence { is_rec op ≡ false }
    ensures { result ≡ operator_number w.bits op (a ∷ []) }
{
    let form = form_one(op, a.form);
    let number = operate_one(op, a);
    fit(Point { form, number }, w)
}

fn reduced_two(op: Op, a: Point, b: Point, w: Width) -> Num
    requires a { IsPoint a }
    requires b { IsPoint b }
    requires count { arity op ≡ 2 }
    ensures { result ≡ operator_number w.bits op (a ∷ b ∷ []) }
{
    let form = natural_two(op, a.form, b.form);
    let number = operate_two(op, a, b);
    fit(Point { form, number }, w)
}

fn reduced_choice(c: Point, a: Point, b: Point, w: Width) -> Num
    requires a { IsPoint a }
    requires b { IsPoint b }
    ensures { result ≡ operator_number w.bits Op.Choose (c ∷ a ∷ b ∷ []) }
{
    let form = form_of_branches(c.form, a.form, b.form);
    let number = choose(c, a, b);
    fit(Point { form, number }, w)
}
