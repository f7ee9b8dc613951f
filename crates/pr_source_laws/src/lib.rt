//! What evaluated equations say of their program. Nothing here runs.
#![tactic(auto)]

ghost use Rattle.std.specs.Prelude.{◌≡◌, ℕ, List};
ghost use Rattle.pr_lang.specs.declared.trees.Program.{Program};
ghost use Rattle.pr_lang_meaning.specs.Programs.{out};
ghost use Rattle.pr_flat.specs.declared.flat.Flat.{Flat};
ghost use Rattle.pr_flat.specs.Shape.{shapes_of};
ghost use Rattle.pr_source.specs.Outputs.{given_all};
ghost use Rattle.pr_source_laws.specs.Accepted.{IsAccepted};

/// The rows that the equations of an accepted program give of samples are those that the program means.
pub fn meaning_law()
    ensures { (program : Program) (flat : Flat) (widths : List ℕ) (samples : List (List ℕ)) →
        IsAccepted program flat widths samples →
        given_all (shapes_of flat.equations.items) flat.outputs.items widths samples ≡ out program samples }
{}
