//! What is known of the text of a module. Nothing here runs.

ghost use Rattle.std.specs.Prelude.{ℕ, ◌≡◌, ◌≢◌, ◌≤◌, ◌^◌, ◌∷◌, ◌++◌, true, false, List, codes, length, map};
ghost use Rattle.std.specs.List.{All, AllPairs};
ghost use Rattle.pr_lang.specs.declared.trees.Program.{Program};
ghost use Rattle.pr_conf.specs.Shape.{Shape};
ghost use Rattle.pr_conf.specs.Through.{results_of};
ghost use Rattle.pr_lens_rtl.specs.declared.vectors.Net.{Net};
ghost use Rattle.pr_lens_rtl.specs.Verilog.{Values, Fit, IsSettled, IsClock};
ghost use Rattle.pr_lens_rtl.specs.Kept.{kept_module};
ghost use Rattle.pr_lens_rtl.specs.Driven.{driven, IsBelow};
ghost use Rattle.pr_lens_rtl.specs.Traces.{samples_in, results_in, IsRunFromReset, end_of, offers_none, ready_clocks, AgreeAtInputs, AgreeAtRegisters, IsReadyForMore};
ghost use Rattle.pr_lens_rtl_names.specs.Names.{IsName, is_reserved, port_name};
ghost use Rattle.pr_lens_rtl_text.specs.Notes.{Comments};
ghost use Rattle.pr_lens_rtl_text.specs.Printed.{net_text};
ghost use Rattle.pr_lens_rtl_text.specs.Modules.{IsRtlText, rtl_text};
ghost use Rattle.pr_lens_rtl_text.specs.Uncommented.{uncommented};

use pr_lens_rtl::{driven_law, kept_law};

/// The clock, the ports of distinct names and distinct vectors have distinct names, and none of these is a word of
/// Verilog or of SystemVerilog. No module has the name of a test bench.
pub fn names_law()
    ensures apart { (names : List (List ℕ)) (nets : List Net) → All IsName names → AllPairs (λ a b. a ≢ b) names
        → All (IsBelow (2 ^ 32)) nets → AllPairs (λ m n. m ≢ n) nets
        → AllPairs (λ a b. a ≢ b) (codes "clock" ∷ (map port_name names ++ map net_text nets)) }
    ensures plain { (names : List (List ℕ)) (nets : List Net)
        → All (λ name. is_reserved name ≡ false) (codes "clock" ∷ (map port_name names ++ map net_text nets)) }
    ensures bench { (name : List ℕ) → port_name name ≢ codes "bench" }
{}

/// What is known of a text that was written for a program and its configuration: in every run of its module from a
/// reset, the results that leave are the first ones of what the configuration makes of the samples that entered, and
/// all of them after as many clocks in which the module is ready as there are stages. It is ready unless a result
/// stands at its end and is not taken. There is such a run, whatever its registers and inputs hold. Each of its vectors
/// is driven once, and no two of them have one name. Whatever else is noted of its vectors, it is the same text but for
/// the comments.
pub fn written_law()
    ensures trace { (N P : ℕ) (note : Comments) (name : List ℕ) (program : Program) (c : Shape)
        → (text : List ℕ) → IsRtlText N P note name program c text
        → (first now : Values) (rest : List Values) → IsRunFromReset (kept_module N P c) first now rest
        → (more : List (List ℕ)) × (results_of N P c (samples_in c now rest) ≡ results_in c now rest ++ more) }
    ensures all { (N P : ℕ) (note : Comments) (name : List ℕ) (program : Program) (c : Shape)
        → (text : List ℕ) → IsRtlText N P note name program c text
        → (first now : Values) (rest more : List Values)
        → IsRunFromReset (kept_module N P c) first now (rest ++ more)
        → offers_none (end_of now rest) more ≡ true → length c.stages ≤ ready_clocks (end_of now rest) more
        → results_in c now (rest ++ more) ≡ results_of N P c (samples_in c now rest) }
    ensures ready { (N P : ℕ) (note : Comments) (name : List ℕ) (program : Program) (c : Shape)
        → (text : List ℕ) → IsRtlText N P note name program c text
        → (now : Values) → IsSettled (kept_module N P c) now → IsReadyForMore now }
    ensures settles { (N P : ℕ) (note : Comments) (name : List ℕ) (program : Program) (c : Shape)
        → (text : List ℕ) → IsRtlText N P note name program c text → (first : Values) → Fit first
        → (now : Values) × IsSettled (kept_module N P c) now × AgreeAtInputs first now × AgreeAtRegisters first now }
    ensures next { (N P : ℕ) (note : Comments) (name : List ℕ) (program : Program) (c : Shape)
        → (text : List ℕ) → IsRtlText N P note name program c text → (now ports : Values)
        → IsSettled (kept_module N P c) now → Fit ports
        → (after : Values) × IsClock (kept_module N P c) now after × AgreeAtInputs ports after }
    ensures once { (N P : ℕ) (note : Comments) (name : List ℕ) (program : Program) (c : Shape)
        → (text : List ℕ) → IsRtlText N P note name program c text
        → AllPairs (λ m n. m ≢ n) (driven (kept_module N P c)) }
    ensures named { (N P : ℕ) (note : Comments) (name : List ℕ) (program : Program) (c : Shape)
        → (text : List ℕ) → IsRtlText N P note name program c text
        → AllPairs (λ a b. a ≢ b) (map net_text (driven (kept_module N P c))) }
    ensures comments { (N P : ℕ) (note other : Comments) (name : List ℕ) (program : Program) (c : Shape)
        → (text : List ℕ) → IsRtlText N P note name program c text
        → uncommented text ≡ uncommented (rtl_text N P other name program c) }
{
    kept_law();
    driven_law();
}
