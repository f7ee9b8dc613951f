//! Laws of the net of flat equations.

ghost use Rattle.std.specs.Prelude.{◌≡◌, ℕ, None, length};
ghost use Rattle.pr_flat.specs.Laws.{EachFlat};
ghost use Rattle.pr_net.specs.Nets.{IsNet};
ghost use Rattle.pr_cut_units.specs.Equations.{all_units, plan_of};
ghost use Rattle.pr_cut_units.specs.Nets.{net_of, limit_passed};

/// The net of flat equations is lawful on every fabric whose limits it does not pass.
pub fn lawful_law()
    ensures { (columns : ℕ) → EachFlat (λ equations outputs widths.
        limit_passed columns (net_of equations widths outputs) ≡ None →
        IsNet columns (net_of equations widths outputs)) }
{}

/// It has as many units as its inputs are and its equations count.
pub fn count_law()
    ensures { EachFlat (λ equations outputs widths.
        length (net_of equations widths outputs).units ≡ all_units (plan_of equations widths outputs)) }
{}
