//! What the walk over the names of a program says of its meaning and of its equations. Nothing here runs.
//!
//! A program without an offence keeps ten rules. The lemmas of this crate say what the rules give at each form of
//! expression, statement and item, that the names that the meaning and the equations see are those that the walk sees,
//! how a fact of all three is carried from the first item to the last, and what the equations keep that are made so
//! far.
#![tactic(auto)]

ghost use Rattle.std.specs.Prelude.{◌≡◌, ◌≤◌, length, None};
ghost use Rattle.pr_lang.specs.declared.trees.Program.{Program};
ghost use Rattle.pr_scope.specs.declared.checking.Scoped.{Scoped};
ghost use Rattle.pr_scope.specs.Walk.{offence};
ghost use Rattle.pr_flat.specs.Values.{input_widths};
ghost use Rattle.pr_expand_spec.specs.Programs.{equations_of};
ghost use Rattle.pr_scope_facts.specs.Items.{widths_of_inputs};
ghost use Rattle.pr_scope_facts.specs.Numbers.{HasNumbers, IsFlatProgram};

/// The inputs of a program without an offence, and those of its equations, are the ones that its items declare, in
/// their order.
pub fn inputs_law()
    ensures scoped { (s : Scoped) → s.inputs.items ≡ widths_of_inputs s.program.items.items }
    ensures equations { (program : Program) → offence program ≡ None →
        input_widths (equations_of program).equations ≡ widths_of_inputs program.items.items }
{}

/// The equations of a program without an offence are flat, if they are at most 16,384 and their constants have 64 bits.
pub fn flat_law()
    ensures { (program : Program) → offence program ≡ None → length (equations_of program).equations ≤ 16384 →
        HasNumbers (equations_of program) → IsFlatProgram (equations_of program) }
{}
