//! Laws of names and of places.

ghost use Rattle.std.specs.Prelude.{◌≡◌, ◌≤◌, ℕ, List, length, take};
ghost use Rattle.pr_lang.specs.declared.trees.Program.{Program};
ghost use Rattle.pr_probe.specs.Instances.{instances_of};
ghost use Rattle.pr_lens_text.specs.declared.places.Place.{Place};
ghost use Rattle.pr_lens_text.specs.Places.{IsPlace};
ghost use Rattle.pr_lens_origins.specs.Numbers.{numbers_of};
ghost use Rattle.pr_lens_origins.specs.Spots.{column_behind, line_behind};

/// Each stream instance has a number.
pub fn numbers_law()
    ensures { (program : Program) → length (numbers_of program) ≡ length (instances_of program) }
{}

/// Lines and columns are those that are told of other places in a text.
pub fn places_law()
    ensures line { (text : List ℕ) (offset : ℕ) (place : Place) → IsPlace text offset place →
        line_behind (take offset text) ≡ place.line }
    ensures column { (text : List ℕ) (offset : ℕ) (place : Place) → offset ≤ length text → IsPlace text offset place →
        column_behind (take offset text) ≡ place.column }
{}
