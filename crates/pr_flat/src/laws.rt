//! Laws of operators and of rows.

ghost use Rattle.std.specs.Prelude.{◌≡◌, ◌<◌, ◌^◌, ℕ, List, length};
ghost use Rattle.pr_flat.specs.declared.equations.Op.{Op};
ghost use Rattle.pr_flat.specs.declared.equations.Operand.{Operand};
ghost use Rattle.pr_flat.specs.declared.forms.Point.{Point};
ghost use Rattle.pr_flat.specs.Rows.{AreLawful, forms_of, natural_number, natural_width};
ghost use Rattle.pr_flat.specs.Shape.{EquationShape};
ghost use Rattle.pr_flat.specs.Facts.{IsFlat};
ghost use Rattle.pr_flat.specs.Values.{rows_of};
ghost use Rattle.pr_flat.specs.Laws.{AreSamples, EachFlat, HasNumbers, AllHaveWidths, HaveRows};

/// What an operator makes of numbers that have the bits of their widths has those of its natural width.
pub fn natural_law()
    ensures { (op : Op) (points : List Point) → AreLawful points →
        natural_number op points < 2 ^ natural_width op (forms_of points) }
{}

/// Each number of a row is what its equation makes of the other numbers of the row and of the rows before.
pub fn row_law()
    ensures { (equations : List EquationShape) (outputs : List Operand) → IsFlat equations outputs →
        (widths : List ℕ) (before : List (List ℕ)) (sample : List ℕ) → HasNumbers equations widths before sample }
{}

/// The row of a sample is made from it and from the rows before it, of which the latest stands first.
pub fn rows_law()
    ensures rows { (equations : List EquationShape) (widths : List ℕ) (samples : List (List ℕ)) →
        HaveRows equations widths samples }
    ensures count { (equations : List EquationShape) (widths : List ℕ) (samples : List (List ℕ)) →
        length (rows_of equations widths samples) ≡ length samples }
{}

/// Every number that an equation has on lawful samples has the bits of its width.
pub fn numbers_law()
    ensures { EachFlat (λ equations outputs widths. (samples : List (List ℕ)) → AreSamples equations samples →
        AllHaveWidths widths (rows_of equations widths samples)) }
{}
