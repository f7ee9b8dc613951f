//! What narrowing keeps.

ghost use Rattle.std.specs.Prelude.{◌≡◌, ◌≤◌, ℕ, List, length, All};
ghost use Rattle.pr_base.specs.Rows.{IsRow};
ghost use Rattle.pr_flat.specs.declared.equations.Operand.{Operand};
ghost use Rattle.pr_flat.specs.Shape.{EquationShape};
ghost use Rattle.pr_flat.specs.Facts.{IsFlat};
ghost use Rattle.pr_flat.specs.Values.{input_widths};
ghost use Rattle.pr_flat.specs.Widths.{AreWidths};
ghost use Rattle.pr_cut_units.specs.Nets.{net_of};
ghost use Rattle.pr_narrow.specs.Laws.{EachNarrowed, HaveOneNarrowing, KeepLists, KeepWidths};

/// Narrowed equations are flat, with the widths that come with them, and take samples of the same numbers. Each output is as
/// wide as before, and its list is the same for every list of lawful samples. Equations are narrowed in one way.
pub fn narrowing_law()
    ensures flat { EachNarrowed (λ equations outputs widths narrowed news. IsFlat narrowed outputs) }
    ensures settled { EachNarrowed (λ equations outputs widths narrowed news. AreWidths narrowed news) }
    ensures inputs { EachNarrowed (λ equations outputs widths narrowed news.
        input_widths narrowed ≡ input_widths equations) }
    ensures widths { EachNarrowed (λ equations outputs widths narrowed news. KeepWidths outputs widths news) }
    ensures lists { EachNarrowed (λ equations outputs widths narrowed news. (samples : List (List ℕ)) →
        All (IsRow (input_widths equations)) samples → KeepLists equations outputs widths narrowed news samples) }
    ensures one { (equations : List EquationShape) (outputs : List Operand) (widths : List ℕ) →
        HaveOneNarrowing equations outputs widths }
{}

/// The net of narrowed equations has no more units.
pub fn units_law()
    ensures { EachNarrowed (λ equations outputs widths narrowed news.
        length (net_of narrowed news outputs).units ≤ length (net_of equations widths outputs).units) }
{}
