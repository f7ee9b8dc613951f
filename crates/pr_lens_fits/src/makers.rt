//! Which equation makes a unit.

ghost use Rattle.std.specs.Prelude.{◌≡◌, ◌<◌, ◌↔◌, ◌&&◌, IsTrue, nat_lt, slice_index, vec_len};
ghost use Rattle.pr_flat.specs.Flats.{equations_of};
ghost use Rattle.pr_flat.specs.Shape.{equation_shape};
ghost use Rattle.pr_flat.specs.Widths.{operand_width, forms_in};
ghost use Rattle.pr_cut_units.specs.Counts.{body_count, one_where};
ghost use Rattle.pr_cut_units.specs.Equations.{first_unit};
ghost use Rattle.pr_cut_units.specs.Flats.{flat_plan};
ghost use Rattle.pr_cut_plan.specs.Plans.{IsPlanOf};
ghost use Rattle.pr_lens_fits.specs.Makers.{HasBegun, IsMaker};

use pr_cut_plan::CutPlan;
use pr_flat::{Equation, Flat, Operand};
use pr_width::{Widths, operand_width};

/// The width of an equation; 0 where there is none.
pub fn width_at(widths: &Widths, number: usize) -> u8
    ensures { result ≡ slice_index widths.now number }
{
    widths.of.get(number).copied().unwrap_or(0)
}

/// The width of an operand.
fn width_of(widths: &Widths, operand: Operand) -> u8
    ensures { result ≡ operand_width widths.now operand }
{
    match operand {
        Operand::Const(_) => operand_width(operand, &widths.of),
        Operand::Eq(equation) => width_at(widths, equation as usize),
        Operand::Past { rec, k: _ } => width_at(widths, rec as usize),
    }
}

/// How many units widen an operand that is read so: 1 or none.
fn widened(signed: bool, width: u8, to: u8) -> u32
    ensures { result ≡ one_where (signed && nat_lt width to) }
{
    if signed && width < to { 1 } else { 0 }
}

/// How many units widen the body of a recurrence to a width.
fn widening(widths: &Widths, equation: &Equation, to: u8) -> u32
    ensures { result ≡ body_count to (forms_in widths.now (equation_shape equation.now)) }
{
    if equation.args.len().min(equation.kinds.len()) != 1 {
        return 0;
    }
    let signed = equation.kinds[0];
    let operand = equation.args[0];
    widened(signed, width_of(widths, operand), to)
}

/// The first unit of an equation.
pub fn first_unit(flat: &Flat, widths: &Widths, plan: &CutPlan, number: usize) -> u32
    requires plan { IsPlanOf plan.now (equations_of flat.now) widths.now flat.now.outputs.items }
    requires there { number < vec_len flat.now.equations }
    ensures { result ≡ first_unit (flat_plan flat.now widths.now) number }
{
    // The unit that widens the body of a recurrence stands before its hold units.
    let before = widening(widths, &flat.equations[number], width_at(widths, number));
    plan.hold_units[number].saturating_sub(before)
}

/// Whether an equation has units, the first of which is not behind this one.
fn has_begun(flat: &Flat, widths: &Widths, plan: &CutPlan, number: usize, unit: u32) -> bool
    requires plan { IsPlanOf plan.now (equations_of flat.now) widths.now flat.now.outputs.items }
    requires there { number < vec_len flat.now.equations }
    ensures { IsTrue result ↔ HasBegun (flat_plan flat.now widths.now) unit number }
{
    plan.reached[number] && first_unit(flat, widths, plan, number) <= unit
}

/// The equation that makes the unit of this number: the last one with units whose first unit is not behind it.
pub fn unit_equation(flat: &Flat, widths: &Widths, plan: &CutPlan, unit: u32) -> usize
    requires { IsPlanOf plan.now (equations_of flat.now) widths.now flat.now.outputs.items }
    ensures { IsMaker (flat_plan flat.now widths.now) unit result }
{
    let mut found = 0;
    for number in 0..flat.equations.len() {
        if has_begun(flat, widths, plan, number, unit) {
            found = number;
        }
    }
    found
}
