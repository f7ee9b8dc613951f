//! The units that are made for each stream.

ghost use Rattle.std.specs.Prelude.{◌≡◌, ◌≤◌, Err, Some, IfOk, max};
ghost use Rattle.pr_base.specs.declared.caps.Cap.{Cap};
ghost use Rattle.pr_flat.specs.Flats.{equations_of};
ghost use Rattle.pr_flat.specs.Widths.{AreWidths};
ghost use Rattle.pr_cut_units.specs.Equations.{all_units, first_unit};
ghost use Rattle.pr_cut_units.specs.Flats.{flat_net, flat_plan};
ghost use Rattle.pr_cut_units.specs.Nets.{limit_passed};
ghost use Rattle.pr_cut_plan.specs.declared.faults.CutFault.{CutFault};
ghost use Rattle.pr_cut_plan.specs.Plans.{IsPlanOf};
ghost use Rattle.pr_lens_shares.specs.Counts.{equations_to, unit_counts};

use pr_cut::cut;
use pr_cut_plan::{CutFault, CutPlan, plan_of};
use pr_flat::{Flat, Operand};
use pr_lens_fits::first_unit;
use pr_width::Widths;
use std::alloc::{AllocError, Global};

/// How many equations there are up to that of an operand, which is a recurrence's where its past is read.
fn equations_to(operand: Operand) -> usize
    ensures { result ≡ equations_to operand }
{
    match operand {
        Operand::Const(_) => 0,
        Operand::Eq(equation) => equation as usize + 1,
        Operand::Past { rec, k: _ } => rec as usize + 1,
    }
}

/// How many equations there are up to that of an operand, and at least so many.
fn at_least(from: usize, operand: Operand) -> usize
    ensures { result ≡ max from (equations_to operand) }
{
    from.max(equations_to(operand))
}

/// How many units there are before those of an equation, and of all equations where it is behind them.
fn units_before(
    flat: &Flat,
    widths: &Widths,
    plan: &CutPlan,
    units: usize,
    equation: usize,
) -> usize
    requires plan { IsPlanOf plan.now (equations_of flat.now) widths.now flat.now.outputs.items }
    requires units { units ≡ all_units (flat_plan flat.now widths.now) }
    ensures { result ≡ first_unit (flat_plan flat.now widths.now) equation }
{
    if equation < flat.equations.len() {
        return first_unit(flat, widths, plan, equation) as usize;
    }
    units
}

/// How many units are made for each of some streams, of so many units in all.
fn counts_with(
    alloc: Global,
    flat: &Flat,
    widths: &Widths,
    plan: &CutPlan,
    units: usize,
    operands: &[Operand],
) -> Result<Vec<usize>, AllocError>
    requires plan { IsPlanOf plan.now (equations_of flat.now) widths.now flat.now.outputs.items }
    requires units { units ≡ all_units (flat_plan flat.now widths.now) }
    ensures { IfOk result (λ counts. counts.items ≡ unit_counts (flat_plan flat.now widths.now) 0 operands.now) }
{
    let mut counts = Vec::new(alloc);
    let mut from = 0;
    for operand in operands {
        let to = at_least(from, *operand);
        let before = units_before(flat, widths, plan, units, from);
        let with = units_before(flat, widths, plan, units, to);
        counts.push(with.saturating_sub(before))?;
        from = to;
    }
    Ok(counts)
}

/// How many units are made for each of the streams that these operands give, in the net of equations on so many columns.
pub fn unit_counts(
    alloc: Global,
    flat: &Flat,
    widths: &Widths,
    operands: &[Operand],
    columns: usize,
) -> Result<Vec<usize>, CutFault>
    requires widths { AreWidths (equations_of flat.now) widths.now }
    requires columns { (1 ≤ columns) × (columns ≤ 64) }
    ensures counts { IfOk result (λ counts. counts.items ≡ unit_counts (flat_plan flat.now widths.now) 0 operands.now) }
    ensures limit { (cap : Cap) → result ≡ Err (CutFault.Limit cap) →
        limit_passed columns (flat_net flat.now widths.now) ≡ Some cap }
{
    let plan = plan_of(alloc, flat, widths, columns)?;
    let net = cut(alloc, flat, widths, columns)?;
    let counts = counts_with(alloc, flat, widths, &plan, net.units.len(), operands)?;
    Ok(counts)
}
