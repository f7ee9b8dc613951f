//! The table: the units of an operator.

ghost use Rattle.std.specs.Prelude.{ℕ, ◌≡◌, ◌≤◌, ◌<◌, ◌+◌, ◌^◌, [], ◌∷◌, true, length};
ghost use Rattle.pr_base.specs.Numbers.{slices_of};
ghost use Rattle.pr_flat.specs.declared.equations.Op.{Op};
ghost use Rattle.pr_cut_units.specs.Operators.{moved_right, concatenated};
ghost use Rattle.pr_cut_units.specs.Parts.{filled};
ghost use Rattle.pr_cut_units.specs.Widening.{read_as, widened};
ghost use Rattle.pr_cut_units.specs.Shifts.{moved_by, flipped_back, shifted_back, signed_moved_by};
ghost use Rattle.pr_cut_units.specs.Table.{operator_units};
ghost use Rattle.pr_cut_cells.specs.Arguments.{argument_of, pair_of, triple_of};
ghost use Rattle.pr_cut_ops.specs.Low.{is_low};
ghost use Rattle.pr_cut_ops.specs.Makes.{Makes};

use crate::compared::{
    both_added, both_bitwise, both_chosen, both_subtracted, equal, greater_equal, less, multiplied,
};
use crate::operators::{extracted, filled_slices, inverted, joined, moved_left};
use pr_cut_cells::{Argument, flipped, widened};
use pr_cutmul::{Shift, shifted_by};
use pr_flat::Op;
use pr_net::{Slice, Unit};
use std::alloc::{AllocError, Global};

/// Right by a constant.
fn moved_right(
    alloc: Global,
    units: &mut Vec<Unit>,
    e: u8,
    k: u8,
    a: &Argument,
) -> Result<Vec<Slice>, AllocError>
    requires fits { length units.old.items + 1 < 2 ^ 32 }
    ensures { Makes 1 (moved_right e k (argument_of a.now)) units.old units.new result }
{
    if a.signed {
        return extracted(
            alloc,
            units,
            e,
            a.width,
            u64::from(k.min(a.width - 1)),
            &a.slices,
        );
    }
    if k < a.width {
        return extracted(alloc, units, e, a.width, u64::from(k), &a.slices);
    }
    let mut zero = Vec::new(alloc);
    zero.push(Slice::Const(0))?;
    Ok(zero)
}

/// A shift by an operand of an unsigned one.
fn moved_by(
    alloc: Global,
    units: &mut Vec<Unit>,
    left: bool,
    e: u8,
    a: &Argument,
    by: &Argument,
) -> Result<Vec<Slice>, AllocError>
    requires fits { length units.old.items + 300 < 2 ^ 32 }
    ensures { Makes 300 (moved_by left e (argument_of a.now) (argument_of by.now)) units.old units.new result }
{
    let shift = Shift {
        left,
        w: a.width,
        by: &by.slices,
        bits: by.width,
    };
    let all = shifted_by(alloc, units, &shift, &a.slices)?;
    extracted(alloc, units, e, a.width, 0, &all)
}

/// The units of an operator on one operand.
pub fn operator_one(
    alloc: Global,
    units: &mut Vec<Unit>,
    e: u8,
    op: Op,
    a: &Argument,
) -> Result<Vec<Slice>, AllocError>
    requires low { is_low op ≡ true }
    requires fits { length units.old.items + 1 < 2 ^ 32 }
    ensures { Makes 1 (operator_units e op (argument_of a.now ∷ [])) units.old units.new result }
{
    match op {
        Op::Not => inverted(alloc, units, e, &a.slices),
        Op::Left(k) => moved_left(alloc, units, e, a.width, k, &a.slices),
        Op::Right(k) => moved_right(alloc, units, e, k, a),
        Op::Slice(_, low) => extracted(alloc, units, e, a.width, low, &a.slices),
        Op::Fit => extracted(alloc, units, e, a.width, 0, &a.slices),
        _ => Ok(Vec::new(alloc)),
    }
}

/// The last two steps of a shift to the right of a signed operand: it is inverted again, and cut.
fn flipped_back(
    alloc: Global,
    units: &mut Vec<Unit>,
    e: u8,
    a: &Argument,
    y: &[Slice],
) -> Result<Vec<Slice>, AllocError>
    requires fits { length units.old.items + 2 < 2 ^ 32 }
    ensures { Makes 2 (flipped_back e (argument_of a.now) y.now) units.old units.new result }
{
    let z = flipped(alloc, units, &a.slices, a.width, y)?;
    extracted(alloc, units, e, a.width, 0, &z)
}

/// The rows and the steps after them.
fn shifted_back(
    alloc: Global,
    units: &mut Vec<Unit>,
    e: u8,
    a: &Argument,
    by: &Argument,
    x: &[Slice],
) -> Result<Vec<Slice>, AllocError>
    requires fits { length units.old.items + 300 < 2 ^ 32 }
    ensures { Makes 300 (shifted_back e (argument_of a.now) (argument_of by.now) x.now) units.old units.new result }
{
    let shift = Shift {
        left: false,
        w: a.width,
        by: &by.slices,
        bits: by.width,
    };
    let y = shifted_by(alloc, units, &shift, x)?;
    flipped_back(alloc, units, e, a, &y)
}

/// A shift to the right of a signed operand.
fn signed_moved_by(
    alloc: Global,
    units: &mut Vec<Unit>,
    e: u8,
    a: &Argument,
    by: &Argument,
) -> Result<Vec<Slice>, AllocError>
    requires fits { length units.old.items + 302 < 2 ^ 32 }
    ensures { Makes 302 (signed_moved_by e (argument_of a.now) (argument_of by.now)) units.old units.new result }
{
    let x = flipped(alloc, units, &a.slices, a.width, &a.slices)?;
    shifted_back(alloc, units, e, a, by, &x)
}

/// RightBy.
fn moved_right_by(
    alloc: Global,
    units: &mut Vec<Unit>,
    e: u8,
    a: &Argument,
    by: &Argument,
) -> Result<Vec<Slice>, AllocError>
    requires fits { length units.old.items + 302 < 2 ^ 32 }
    ensures { Makes 302 (operator_units e Op.RightBy (pair_of a.now by.now)) units.old units.new result }
{
    if a.signed {
        return signed_moved_by(alloc, units, e, a, by);
    }
    moved_by(alloc, units, false, e, a, by)
}

/// Cat.
fn concatenated(
    alloc: Global,
    units: &mut Vec<Unit>,
    e: u8,
    a: &Argument,
    b: &Argument,
) -> Result<Vec<Slice>, AllocError>
    requires fits { length units.old.items + 1 < 2 ^ 32 }
    ensures { Makes 1 (concatenated e (argument_of a.now) (argument_of b.now)) units.old units.new result }
{
    let all = joined(alloc, units, e, (a.width, b.width), &a.slices, &b.slices)?;
    Ok(all)
}

/// The units of an operator on two operands.
pub fn operator_two(
    alloc: Global,
    units: &mut Vec<Unit>,
    e: u8,
    op: Op,
    a: &Argument,
    b: &Argument,
) -> Result<Vec<Slice>, AllocError>
    requires fits { length units.old.items + 20000 < 2 ^ 32 }
    ensures { Makes 20000 (operator_units e op (pair_of a.now b.now)) units.old units.new result }
{
    match op {
        Op::Add => both_added(alloc, units, e, a, b),
        Op::Sub => both_subtracted(alloc, units, e, a, b),
        Op::Mul => multiplied(alloc, units, e, a, b),
        Op::And => both_bitwise(alloc, units, e, 0x88, a, b),
        Op::Or => both_bitwise(alloc, units, e, 0xee, a, b),
        Op::Xor => both_bitwise(alloc, units, e, 0x66, a, b),
        Op::Equal => equal(alloc, units, 0xf0, a, b),
        Op::NotEqual => equal(alloc, units, 0x0f, a, b),
        Op::Less => less(alloc, units, a, b),
        Op::GreaterEqual => greater_equal(alloc, units, a, b),
        Op::Greater => less(alloc, units, b, a),
        Op::LessEqual => greater_equal(alloc, units, b, a),
        Op::Cat => concatenated(alloc, units, e, a, b),
        Op::LeftBy => moved_by(alloc, units, true, e, a, b),
        Op::RightBy => moved_right_by(alloc, units, e, a, b),
        _ => Ok(Vec::new(alloc)),
    }
}

/// The units of a choice.
pub fn operator_choice(
    alloc: Global,
    units: &mut Vec<Unit>,
    e: u8,
    c: &Argument,
    a: &Argument,
    b: &Argument,
) -> Result<Vec<Slice>, AllocError>
    requires fits { length units.old.items + 3 < 2 ^ 32 }
    ensures { Makes 3 (operator_units e Op.Choose (triple_of c.now a.now b.now)) units.old units.new result }
{
    both_chosen(alloc, units, e, &c.slices, a, b)
}

/// A result of `e` bits at width `w`: a signed one is widened, and above an unsigned one are zeros.
pub fn finished(
    alloc: Global,
    units: &mut Vec<Unit>,
    w: u8,
    e: u8,
    signed: bool,
    x: &[Slice],
) -> Result<Vec<Slice>, AllocError>
    requires some { 1 ≤ e }
    requires whole { length x.now ≡ slices_of e }
    requires fits { length units.old.items + 1 < 2 ^ 32 }
    ensures { Makes 1 (filled (slices_of w) (widened (read_as signed e x.now) w)) units.old units.new result }
{
    if !(signed && e < w) {
        return filled_slices(alloc, w, x);
    }
    let wide = widened(alloc, units, x, signed, e, w)?;
    let all = filled_slices(alloc, w, &wide)?;
    Ok(all)
}
