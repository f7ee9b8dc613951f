//! A text fixes its program only up to where the program's parts lie in memory, and nothing that is said of a program
//! depends on that. Nothing here runs.
//!
//! Two programs with one tree may differ in the places of their boxes and in the places and capacities of their lists. The
//! lemmas of this crate say what parts with one tree have in common, and that a fold whose layers read no more than that
//! makes the same of both. So it is with the walk over names, the meaning and the equations.
#![tactic(auto)]

ghost use Rattle.std.specs.Prelude.{◌≡◌, ℕ, List};
ghost use Rattle.pr_lang.specs.declared.trees.Program.{Program};
ghost use Rattle.pr_lang.specs.Shape.{program_shape};
ghost use Rattle.pr_scope.specs.Walk.{offence, program_walk, inputs_after};
ghost use Rattle.pr_lang_meaning.specs.Programs.{has_widths, out};
ghost use Rattle.pr_expand_spec.specs.Programs.{equations_of};

/// Programs with one tree have the same first offence, if there is one, and the walk finds the same inputs.
pub fn walk_law()
    ensures offence { (p q : Program) → program_shape p ≡ program_shape q → offence p ≡ offence q }
    ensures inputs { (p q : Program) → program_shape p ≡ program_shape q →
        inputs_after (program_walk p) ≡ inputs_after (program_walk q) }
{}

/// Programs with one tree mean the same: both have widths or neither, and their result rows are the same for all samples.
pub fn meaning_law()
    ensures widths { (p q : Program) → program_shape p ≡ program_shape q → has_widths p ≡ has_widths q }
    ensures rows { (p q : Program) → program_shape p ≡ program_shape q → (rows : List (List ℕ)) →
        out p rows ≡ out q rows }
{}

/// Programs with one tree have the same equations, and their outputs give the same.
pub fn equations_law()
    ensures { (p q : Program) → program_shape p ≡ program_shape q → equations_of p ≡ equations_of q }
{}
