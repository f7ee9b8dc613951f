//! The nets of equations.

ghost use Rattle.std.specs.Prelude.{◌≡◌, ◌≤◌, Err, Some, IfOk};
ghost use Rattle.pr_base.specs.declared.caps.Cap.{Cap};
ghost use Rattle.pr_flat.specs.Flats.{equations_of};
ghost use Rattle.pr_flat.specs.Widths.{AreWidths};
ghost use Rattle.pr_net.specs.Whole.{shape_of};
ghost use Rattle.pr_cut_units.specs.Flats.{flat_net};
ghost use Rattle.pr_cut_units.specs.Nets.{limit_passed};
ghost use Rattle.pr_cut_plan.specs.declared.faults.CutFault.{CutFault};
ghost use Rattle.pr_cut_plan.specs.Plans.{IsPlanOf};

use pr_cut::cut;
use pr_cut_plan::{CutFault, CutPlan, plan_of};
use pr_flat::Flat;
use pr_net::Net;
use pr_width::Widths;
use std::alloc::Global;

/// The plan of equations on so many columns, and their net.
pub fn plan_and_net(
    alloc: Global,
    flat: &Flat,
    widths: &Widths,
    columns: usize,
) -> Result<(CutPlan, Net), CutFault>
    requires widths { AreWidths (equations_of flat.now) widths.now }
    requires columns { (1 ≤ columns) × (columns ≤ 64) }
    ensures plan { IfOk result (λ r. IsPlanOf r.0 (equations_of flat.now) widths.now flat.now.outputs.items) }
    ensures net { IfOk result (λ r. shape_of r.1 ≡ flat_net flat.now widths.now) }
    ensures limit { (cap : Cap) → result ≡ Err (CutFault.Limit cap) →
        limit_passed columns (flat_net flat.now widths.now) ≡ Some cap }
{
    let plan = plan_of(alloc, flat, widths, columns)?;
    let net = cut(alloc, flat, widths, columns)?;
    Ok((plan, net))
}
