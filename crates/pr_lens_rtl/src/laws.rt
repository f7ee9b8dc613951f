//! What the module of a configuration makes of samples. Nothing here runs.

ghost use Rattle.std.specs.Prelude.{ℕ, ◌≡◌, ◌≢◌, ◌<◌, ◌≤◌, ◌*◌, ◌^◌, Bool, true, false, List, ◌++◌, length};
ghost use Rattle.pr_base.specs.Pe.{looked_up};
ghost use Rattle.pr_code.specs.Spelling.{has_bytes};
ghost use Rattle.pr_conf.specs.Shape.{Shape};
ghost use Rattle.pr_conf.specs.Rules.{IsLawful};
ghost use Rattle.pr_conf.specs.Through.{results_of, steps_of};
ghost use Rattle.pr_lens_rtl.specs.Clocked.{clock};
ghost use Rattle.pr_lens_rtl.specs.declared.vectors.Net.{Net};
ghost use Rattle.pr_lens_rtl.specs.Verilog.{Values, Expr, value, Fit, IsSettled, IsClock};
ghost use Rattle.pr_lens_rtl.specs.Module.{four_of, module_of};
ghost use Rattle.std.specs.List.{All, AllPairs};
ghost use Rattle.pr_lens_rtl.specs.Driven.{driven, is_given, IsBelow};
ghost use Rattle.pr_lens_rtl.specs.Kept.{kept, is_kept, marks_of, IsClosed};
ghost use Rattle.pr_lens_rtl.specs.Traces.{all_held, pins, samples_in, results_in, IsRunFromReset, end_of, offers_none, ready_clocks, AgreeAtInputs, AgreeAtRegisters, IsReadyForMore};

/// The expression of half a table is the look-up, for every table, every two bytes and each C.
pub fn table_law()
    ensures { (now : Values) (a b : Expr) → value now a 8 < 256 → value now b 8 < 256 → (table c : ℕ)
        → value now (four_of table (4 * c) a b) 8 ≡ looked_up table (value now a 8) (value now b 8) c }
{}

/// A clock of the module of a configuration is a clock of its stages. In every run from a reset, the results that leave
/// are the first ones of what the configuration makes of the samples that entered.
pub fn module_law()
    ensures clock { (N P : ℕ) (c : Shape) → IsLawful N P c → has_bytes c ≡ true → (now after : Values)
        → IsClock (module_of N P c) now after → now Net.Reset ≡ 0
        → all_held N P after 0 (length c.stages)
        ≡ clock (steps_of N P c) (all_held N P now 0 (length c.stages)) (pins c now) }
    ensures trace { (N P : ℕ) (c : Shape) → IsLawful N P c → has_bytes c ≡ true
        → (first now : Values) (rest : List Values)
        → IsRunFromReset (module_of N P c) first now rest
        → (more : List (List ℕ)) × (results_of N P c (samples_in c now rest) ≡ results_in c now rest ++ more) }
{}

/// The same of any part of the module that has its ports and, with a vector, all that is read for it: what is left out
/// changes no result. The part is ready for a sample unless a result stands at its end and is not taken. Once no sample
/// is offered, all results have left after as many clocks in which the module is ready as there are stages. Whatever
/// such a part's registers and inputs hold, there are settled wires and a next clock.
///
/// The marks of a configuration are such a part.
pub fn kept_law()
    ensures closed { (N P : ℕ) (c : Shape) → IsLawful N P c → has_bytes c ≡ true
        → IsClosed (is_kept (marks_of N P c)) (module_of N P c) }
    ensures trace { (N P : ℕ) (c : Shape) → IsLawful N P c → has_bytes c ≡ true → (K : Net → Bool)
        → IsClosed K (module_of N P c)
        → (first now : Values) (rest : List Values) → IsRunFromReset (kept K (module_of N P c)) first now rest
        → (more : List (List ℕ)) × (results_of N P c (samples_in c now rest) ≡ results_in c now rest ++ more) }
    ensures all { (N P : ℕ) (c : Shape) → IsLawful N P c → has_bytes c ≡ true → (K : Net → Bool)
        → IsClosed K (module_of N P c)
        → (first now : Values) (rest more : List Values)
        → IsRunFromReset (kept K (module_of N P c)) first now (rest ++ more)
        → offers_none (end_of now rest) more ≡ true → length c.stages ≤ ready_clocks (end_of now rest) more
        → results_in c now (rest ++ more) ≡ results_of N P c (samples_in c now rest) }
    ensures ready { (N P : ℕ) (c : Shape) → IsLawful N P c → has_bytes c ≡ true → (K : Net → Bool)
        → IsClosed K (module_of N P c)
        → (now : Values) → IsSettled (kept K (module_of N P c)) now → IsReadyForMore now }
    ensures settles { (N P : ℕ) (c : Shape) → IsLawful N P c → has_bytes c ≡ true → (K : Net → Bool)
        → (first : Values) → Fit first
        → (now : Values) × IsSettled (kept K (module_of N P c)) now × AgreeAtInputs first now
        × AgreeAtRegisters first now }
    ensures next { (N P : ℕ) (c : Shape) → IsLawful N P c → has_bytes c ≡ true → (K : Net → Bool)
        → (now ports : Values)
        → IsSettled (kept K (module_of N P c)) now → Fit ports
        → (after : Values) × IsClock (kept K (module_of N P c)) now after × AgreeAtInputs ports after }
{}

/// Each vector of the module, and of any part of it, is driven once. What is driven from outside is not driven inside.
/// The numbers of a vector have 32 bits.
pub fn driven_law()
    ensures once { (N P : ℕ) (c : Shape) → IsLawful N P c → has_bytes c ≡ true → (K : Net → Bool)
        → AllPairs (λ m n. m ≢ n) (driven (kept K (module_of N P c))) }
    ensures inside { (N P : ℕ) (c : Shape) → IsLawful N P c → has_bytes c ≡ true → (K : Net → Bool)
        → All (λ n. is_given n ≡ false) (driven (kept K (module_of N P c))) }
    ensures numbers { (N P : ℕ) (c : Shape) → IsLawful N P c → has_bytes c ≡ true → (K : Net → Bool)
        → All (IsBelow (2 ^ 32)) (driven (kept K (module_of N P c))) }
{}
