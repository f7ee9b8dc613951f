//! What a program means: equations between whole streams, and their laws. Nothing here runs.
//!
//! An expression, a statement and a program are given their meaning on complete lists, for as many samples as there are.
//! That an earlier number never depends on a later one is a consequence, and no part of the definitions: the functions
//! below state it with the other laws, and have no body.
#![tactic(auto)]

ghost use Rattle.std.specs.Prelude.{◌≡◌, ℕ, List, ◌++◌, length, map, take, is_some, option_map};
ghost use Rattle.std.specs.Global.{Box};
ghost use Rattle.pr_lang.specs.declared.trees.Expr.{Expr};
ghost use Rattle.pr_lang.specs.declared.trees.Expr.TheVariants.{Paren};
ghost use Rattle.pr_lang.specs.declared.trees.Program.{Program};
ghost use Rattle.pr_lang_meaning.specs.Streams.{form_of};
ghost use Rattle.pr_lang_meaning.specs.Expressions.{meaning};
ghost use Rattle.pr_lang_meaning.specs.Programs.{streams_of, out, has_widths};

/// Parentheses change nothing.
pub fn paren_law()
    ensures { (inner : Box Expr) → meaning (Paren inner) ≡ meaning inner.value }
{}

/// The kinds and widths of a program's outputs are the same for all samples, and so is whether it has any.
pub fn widths_law()
    ensures widths { (program : Program) (xs : List (List ℕ)) → is_some (streams_of program xs) ≡ has_widths program }
    ensures forms { (program : Program) (xs ys : List (List ℕ)) →
        option_map (map form_of) (streams_of program xs) ≡ option_map (map form_of) (streams_of program ys) }
{}

/// There is one result row for each sample, and the rows of the first samples are the first rows: what comes later
/// changes nothing.
pub fn prefix_law()
    ensures count { (program : Program) (xs : List (List ℕ)) → length (out program xs) ≡ length xs }
    ensures first { (program : Program) (xs ys : List (List ℕ)) →
        take (length xs) (out program (xs ++ ys)) ≡ out program xs }
{}
