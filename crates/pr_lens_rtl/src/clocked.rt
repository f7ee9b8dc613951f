//! A pipeline of stages driven by a clock, with a handshake at each end. Nothing here runs.

ghost use Rattle.std.specs.Prelude.{ℕ, ◌≡◌, ◌<◌, ◌≤◌, true, false, List, ◌++◌, [], ◌∷◌};
ghost use Rattle.std.specs.List.{list_all};
ghost use Rattle.pr_conf_pipeline.specs.Rows.{BytePipeline, through};
ghost use Rattle.pr_lens_rtl.specs.Clocked.{Held, Pins, IsReset, accepted, delivered, after_clocks, clock, is_enabled, enabled_clocks, is_quiet};

/// What leaves is what the stages make of all that entered, in its order, as far as it has left. Once nothing enters, all
/// of it has left after as many enabled clocks as there are stages. While a result is not taken, it stays.
pub fn clocked_law()
    ensures order { (M : BytePipeline) (v : ℕ) (tap : List ℕ → List ℕ)
        (hs : List (Held (List ℕ) (List ℕ))) (ps : List (Pins (List ℕ)))
        → 0 < v → IsReset M v hs
        → (rest : List (List ℕ)) × (through M v tap (accepted M hs ps) ≡ delivered M tap hs ps ++ rest) }
    ensures all { (M : BytePipeline) (v : ℕ) (tap : List ℕ → List ℕ)
        (hs : List (Held (List ℕ) (List ℕ))) (ps qs : List (Pins (List ℕ)))
        → 0 < v → IsReset M v hs → list_all is_quiet qs ≡ true → v ≤ enabled_clocks M (after_clocks M hs ps) qs
        → delivered M tap hs (ps ++ qs) ≡ through M v tap (accepted M hs ps) }
    ensures stalled { (M : BytePipeline) (hs : List (Held (List ℕ) (List ℕ))) (p : Pins (List ℕ))
        → is_enabled hs p.ready ≡ false → clock M hs p ≡ hs }
{}
