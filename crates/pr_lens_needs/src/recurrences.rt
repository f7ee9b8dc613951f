//! The recurrences of a net, and their last units.

ghost use Rattle.std.specs.Prelude.{◌≡◌, ◌<◌, ◌↔◌, ℕ, true, IfNone, IfSome, IsTrue, vec_len};
ghost use Rattle.pr_flat.specs.Flats.{equations_of};
ghost use Rattle.pr_cut_units.specs.Flats.{flat_plan};
ghost use Rattle.pr_cut_plan.specs.Plans.{IsPlanOf};
ghost use Rattle.pr_lens_needs.specs.Recurrences.{IsLastOf, is_held, is_recurrence, last_unit};

use pr_cut_plan::CutPlan;
use pr_flat::{Flat, Op};
use pr_width::Widths;

/// Whether the equation of this number is a recurrence.
fn is_recurrence(flat: &Flat, rec: usize) -> bool
    ensures { result ≡ is_recurrence (equations_of flat.now) rec }
{
    match flat.equations.get(rec) {
        None => false,
        Some(equation) => matches!(equation.op, Op::Rec { .. }),
    }
}

/// Whether the equation of this number is a recurrence that an output can be reached from.
pub fn is_held(flat: &Flat, widths: &Widths, plan: &CutPlan, rec: usize) -> bool
    requires { IsPlanOf plan.now (equations_of flat.now) widths.now flat.now.outputs.items }
    ensures { result ≡ is_held (flat_plan flat.now widths.now) rec }
{
    plan.reached.get(rec).copied().unwrap_or(false) && is_recurrence(flat, rec)
}

/// The last unit of a recurrence.
pub fn last_unit(flat: &Flat, widths: &Widths, plan: &CutPlan, rec: usize) -> u64
    requires plan { IsPlanOf plan.now (equations_of flat.now) widths.now flat.now.outputs.items }
    requires held { is_held (flat_plan flat.now widths.now) rec ≡ true }
    ensures { result ≡ last_unit (flat_plan flat.now widths.now) rec }
{
    let end = u64::from(plan.hold_units[rec]) + u64::from(plan.hold_counts[rec]);
    end.saturating_sub(1)
}

/// Whether this is the last unit of this recurrence.
fn is_last_of(flat: &Flat, widths: &Widths, plan: &CutPlan, unit: u32, rec: usize) -> bool
    requires { IsPlanOf plan.now (equations_of flat.now) widths.now flat.now.outputs.items }
    ensures { IsTrue result ↔ IsLastOf (flat_plan flat.now widths.now) unit rec }
{
    is_held(flat, widths, plan, rec) && last_unit(flat, widths, plan, rec) == u64::from(unit)
}

/// The recurrence whose last unit this is, where it is that of one.
pub fn recurrence_of(flat: &Flat, widths: &Widths, plan: &CutPlan, unit: u32) -> Option<usize>
    requires { IsPlanOf plan.now (equations_of flat.now) widths.now flat.now.outputs.items }
    ensures some { IfSome result (IsLastOf (flat_plan flat.now widths.now) unit) }
    ensures within { IfSome result (λ rec. rec < vec_len flat.now.equations) }
    ensures none { IfNone result ((rec : ℕ) → rec < vec_len flat.now.equations →
        IsLastOf (flat_plan flat.now widths.now) unit rec → ⊥) }
{
    for rec in 0..flat.equations.len() {
        if is_last_of(flat, widths, plan, unit, rec) {
            return Some(rec);
        }
    }
    None
}
