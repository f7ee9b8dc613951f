//! What holds of compilation.

ghost use Rattle.std.specs.Prelude.{◌≡◌, ◌≤◌, ℕ, Bool, true, false, List, None};
ghost use Rattle.pr_lang.specs.declared.trees.Program.{Program};
ghost use Rattle.pr_scope.specs.Walk.{offence};
ghost use Rattle.pr_flat.specs.declared.equations.Operand.{Operand};
ghost use Rattle.pr_flat.specs.Shape.{EquationShape};
ghost use Rattle.pr_expand_spec.specs.Programs.{equations_of};
ghost use Rattle.pr_net.specs.Shape.{NetShape};
ghost use Rattle.pr_cut_units.specs.Nets.{net_of};
ghost use Rattle.pr_conf.specs.Rules.{IsLawful};
ghost use Rattle.pr_conf.specs.Shape.{Shape};
ghost use Rattle.pr_compile_front.specs.Refusals.{HasWidths};
ghost use Rattle.pr_compile.specs.Configured.{AreReady, IsConfigured, IsConfiguredBy, HasUnitsBy, IsCompiled, HasUnits};
ghost use Rattle.pr_base.specs.Laws.{AtMostOne, NeverBoth};
ghost use Rattle.pr_compile.specs.Meant.{IsMeant};
ghost use Rattle.pr_compile.specs.Refusals.{IsNetRefusal, IsRefused};

/// The configuration of equations keeps every rule of the fabric. The configuration of a program, or of a text, does
/// what the program means, narrowed or not. Its inputs are the program's, its outputs are as wide as the program's
/// streams, and for every list of lawful samples its results are the program's rows, as numbers and as bytes. Narrowed
/// equations take no more units.
pub fn meaning_law()
    ensures lawful { (N P : ℕ) (equations : List EquationShape) (widths : List ℕ) (outputs : List Operand)
        (conf : Shape) → 1 ≤ N → N ≤ 64 → 2 ≤ P → P ≤ 16 → IsConfigured N P equations widths outputs conf
        → IsLawful N P conf }
    ensures program { (N P : ℕ) (narrowed : Bool) (program : Program) (widths : List ℕ) (conf : Shape) → 2 ≤ P
        → offence program ≡ None → IsConfiguredBy N P narrowed program widths conf → IsMeant N P program conf }
    ensures text { (N P : ℕ) (narrowed : Bool) (text : List ℕ) (program : Program) (widths : List ℕ) (conf : Shape)
        → 2 ≤ P → HasWidths text program widths → IsCompiled N P narrowed text conf → IsMeant N P program conf }
    ensures units { (program : Program) (widths : List ℕ) (whole few : ℕ) → HasUnitsBy false program widths whole
        → HasUnitsBy true program widths few → few ≤ whole }
    ensures fewer { (text : List ℕ) (whole few : ℕ) → HasUnits false text whole → HasUnits true text few → few ≤ whole }
{}

/// Equations have one configuration at most. A net has one refusal at most, and none where its equations have a
/// configuration. All programs of a text have the same equations and widths, and narrowing has one result. So a text
/// has one configuration at most, or one refusal at most, and never both, narrowed or not.
pub fn answer_law()
    ensures conf { (N P : ℕ) (equations : List EquationShape) (widths : List ℕ) (outputs : List Operand)
        → AtMostOne (IsConfigured N P equations widths outputs) }
    ensures net { (N P : ℕ) (net : NetShape) → AtMostOne (IsNetRefusal N P net) }
    ensures apart { (N P : ℕ) (equations : List EquationShape) (widths : List ℕ) (outputs : List Operand)
        → NeverBoth (IsNetRefusal N P (net_of equations widths outputs)) (IsConfigured N P equations widths outputs) }
    ensures same { (text : List ℕ) (p q : Program) (v w : List ℕ) → HasWidths text p v → HasWidths text q w
        → (equations_of p ≡ equations_of q) × (v ≡ w) }
    ensures ready { (narrowed : Bool) (equations : List EquationShape) (outputs : List Operand) (widths : List ℕ)
        (es : List EquationShape) (v : List ℕ) (fs : List EquationShape) (w : List ℕ)
        → AreReady narrowed equations outputs widths es v → AreReady narrowed equations outputs widths fs w
        → (es ≡ fs) × (v ≡ w) }
    ensures one { (N P : ℕ) (narrowed : Bool) (text : List ℕ) → AtMostOne (IsRefused N P narrowed text) }
    ensures none { (N P : ℕ) (narrowed : Bool) (text : List ℕ)
        → NeverBoth (IsRefused N P narrowed text) (IsCompiled N P narrowed text) }
    ensures compiled { (N P : ℕ) (narrowed : Bool) (text : List ℕ) → AtMostOne (IsCompiled N P narrowed text) }
{}
