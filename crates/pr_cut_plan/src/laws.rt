//! Laws of the units of flat equations.

ghost use Rattle.pr_flat.specs.Laws.{EachFlat};
ghost use Rattle.pr_cut_units.specs.Reached.{reached};
ghost use Rattle.pr_cut_units.specs.Equations.{plan_of, cut_whole};
ghost use Rattle.pr_cut_units.specs.Nets.{holds_from};
ghost use Rattle.pr_cut_plan.specs.Parts.{AreParts};

/// The units of flat equations stand in parts, each of which ends with the hold units of a recurrence.
pub fn parts_law()
    ensures { EachFlat (λ equations outputs widths. AreParts
        (cut_whole (plan_of equations widths outputs)).units
        0
        (holds_from (plan_of equations widths outputs) 0 equations (reached equations outputs))) }
{}
