//! Laws of refusals.

ghost use Rattle.std.specs.Prelude.{◌≡◌, ℕ, List};
ghost use Rattle.pr_lang.specs.declared.trees.Program.{Program};
ghost use Rattle.pr_lang.specs.Shape.{program_shape};
ghost use Rattle.pr_compile_front.specs.declared.faults.FrontFault.{FrontFault};
ghost use Rattle.pr_compile_front.specs.Refusals.{HasWidths, IsRefusal};

/// A text has one refusal at most. Where its equations have widths it has none, and its programs have one tree and one list
/// of widths.
pub fn front_law()
    ensures one { (text : List ℕ) (e f : FrontFault) → IsRefusal text e → IsRefusal text f → e ≡ f }
    ensures none { (text : List ℕ) (e : FrontFault) (program : Program) (widths : List ℕ) → IsRefusal text e →
        HasWidths text program widths → ⊥ }
    ensures tree { (text : List ℕ) (p q : Program) (v w : List ℕ) → HasWidths text p v → HasWidths text q w →
        program_shape p ≡ program_shape q }
    ensures widths { (text : List ℕ) (p q : Program) (v w : List ℕ) → HasWidths text p v → HasWidths text q w → v ≡ w }
{}
