//! The equations of a program have the widths and the numbers that the program means. Nothing here runs.
//!
//! A program without an offence is walked once on three sides: what it means, stream by stream; the equations that it makes;
//! and the rules that it keeps. The laws below say what the equations have of what is meant.
#![tactic(auto)]

ghost use Rattle.std.specs.Prelude.{◌≡◌, ℕ, true, List, None};
ghost use Rattle.pr_lang.specs.declared.trees.Program.{Program};
ghost use Rattle.pr_scope.specs.Walk.{offence};
ghost use Rattle.pr_flat.specs.Facts.{IsFlat};
ghost use Rattle.pr_flat.specs.Widths.{AreWidths};
ghost use Rattle.pr_lang_meaning.specs.Programs.{has_widths, out};
ghost use Rattle.pr_expand_spec.specs.Programs.{equations_of};
ghost use Rattle.pr_expand_correct.specs.Outputs.{HasStreams, HaveWidths};
ghost use Rattle.pr_expand_correct.specs.Results.{AreSamples, HasLists, output_rows};

/// The equations of a program have widths exactly where the program has them, whatever the samples; and each output's
/// operand is then as wide as the stream that is meant.
pub fn widths_law()
    ensures exist { (program : Program) → offence program ≡ None → has_widths program ≡ true → HaveWidths program }
    ensures needed { (program : Program) (widths : List ℕ) → offence program ≡ None →
        AreWidths (equations_of program).equations widths → has_widths program ≡ true }
    ensures outputs { (program : Program) (widths : List ℕ) (xs : List (List ℕ)) → offence program ≡ None →
        AreWidths (equations_of program).equations widths → HasStreams program widths xs }
{}

/// On lawful samples the list of each output of the equations is that of the stream which the program means, and the rows
/// of the outputs are the program's result rows.
pub fn streams_law()
    ensures lists { (program : Program) (widths : List ℕ) (xs : List (List ℕ)) → offence program ≡ None →
        IsFlat (equations_of program).equations (equations_of program).outputs →
        AreWidths (equations_of program).equations widths → AreSamples program xs → HasLists program widths xs }
    ensures rows { (program : Program) (widths : List ℕ) (xs : List (List ℕ)) → offence program ≡ None →
        IsFlat (equations_of program).equations (equations_of program).outputs →
        AreWidths (equations_of program).equations widths → AreSamples program xs →
        out program xs ≡ output_rows (equations_of program).equations (equations_of program).outputs widths xs }
{}
