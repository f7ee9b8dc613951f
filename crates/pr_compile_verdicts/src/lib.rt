//! Whatever a pass is asked has an answer: laws that stand beside those by which there is no second one. Nothing here runs.
//!
//! The passes answer unless memory wants, so a call of one shows an answer to what it was asked. The laws of this crate need no
//! call: for each text, equations or net the lemmas make the answer, step by step.
#![tactic(auto)]

ghost use Rattle.std.specs.Prelude.{◌≡◌, ◌⊎◌, ◌≤◌, ℕ, Bool, List, Some, length};
ghost use Rattle.pr_base.specs.Limits.{most_program_bytes};
ghost use Rattle.pr_lang.specs.declared.trees.Program.{Program};
ghost use Rattle.pr_lang.specs.Syntax.{Refusal, refusal_of};
ghost use Rattle.pr_flat.specs.declared.equations.Operand.{Operand};
ghost use Rattle.pr_flat.specs.Shape.{EquationShape};
ghost use Rattle.pr_flat.specs.Facts.{IsFlat};
ghost use Rattle.pr_flat.specs.Widths.{AreWidths, IsFirstWithout};
ghost use Rattle.pr_narrow.specs.Demand.{IsDemand};
ghost use Rattle.pr_narrow.specs.Narrowed.{AreNarrowed};
ghost use Rattle.pr_net.specs.Shape.{NetShape};
ghost use Rattle.pr_cut_units.specs.Nets.{net_of};
ghost use Rattle.pr_place.specs.Greedy.{IsGreedy, IsNoFit};
ghost use Rattle.pr_compile_front.specs.declared.faults.FrontFault.{FrontFault};
ghost use Rattle.pr_compile_front.specs.Refusals.{IsRead, HasWidths, IsRefusal};
ghost use Rattle.pr_compile.specs.Configured.{IsConfigured, HasUnits};
ghost use Rattle.pr_compile.specs.Refusals.{IsNetRefusal};
ghost use Rattle.pr_compile_verdicts.specs.Verdicts.{SomeOf, ExactlyOne, IsOutcome};

/// The greedy rule places every net, or fits one of its groups in no stripe.
pub fn placement_verdict_law()
    ensures { (N P : ℕ) (net : NetShape) → SomeOf (IsGreedy N P net) (IsNoFit N P net) }
{}

/// Flat equations have widths, or one of them is the first without.
pub fn widths_verdict_law()
    ensures { (equations : List EquationShape) (outputs : List Operand) → IsFlat equations outputs →
        SomeOf (AreWidths equations) (IsFirstWithout equations) }
{}

/// There is a least demand for equations with as many widths, and so equations with their widths are narrowed.
pub fn narrowing_verdict_law()
    ensures demand { (equations : List EquationShape) (outputs : List Operand) (widths : List ℕ) →
        length widths ≡ length equations → (demand : List ℕ) × IsDemand equations outputs widths demand }
    ensures narrowed { (equations : List EquationShape) (outputs : List Operand) (widths : List ℕ) →
        AreWidths equations widths →
        (narrowed : List EquationShape) × (news : List ℕ) × AreNarrowed equations outputs widths narrowed news }
{}

/// Flat equations with their widths have a configuration, or their net is refused.
pub fn net_verdict_law()
    ensures { (N P : ℕ) (equations : List EquationShape) (widths : List ℕ) (outputs : List Operand) →
        IsFlat equations outputs → AreWidths equations widths →
        SomeOf (IsConfigured N P equations widths outputs) (IsNetRefusal N P (net_of equations widths outputs)) }
{}

/// A text of no more bytes than a program may have is that of a program, or one of its tokens is refused. It has a program
/// with equations and widths, or a point up to the widths refuses it; and so a net of so many units, or that refusal. And it
/// has exactly one outcome: its configuration, or its refusal. The last two are said of its equations as they are, and of
/// them narrowed.
pub fn text_verdict_law()
    ensures read { (text : List ℕ) → length text ≤ most_program_bytes →
        SomeOf (IsRead text) (λ (r : Refusal). refusal_of text ≡ Some r) }
    ensures front { (text : List ℕ) → length text ≤ most_program_bytes →
        ((program : Program) × (widths : List ℕ) × HasWidths text program widths)
        ⊎ ((e : FrontFault) × IsRefusal text e) }
    ensures units { (narrowed : Bool) (text : List ℕ) → length text ≤ most_program_bytes →
        SomeOf (HasUnits narrowed text) (IsRefusal text) }
    ensures outcome { (N P : ℕ) (narrowed : Bool) (text : List ℕ) → length text ≤ most_program_bytes →
        ExactlyOne (IsOutcome N P narrowed text) }
{}
