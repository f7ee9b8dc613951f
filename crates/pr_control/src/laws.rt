//! Laws of the arithmetic of the cycles, for v stages on p stripes. The functions do nothing.

ghost use Rattle.std.specs.Prelude.{ℕ, ◌≡◌, ◌+◌, ◌-◌, ◌%◌, ◌<◌, ◌≤◌, ◌↔◌, suc, Some, true};
ghost use Rattle.pr_control.specs.Time.{before, event, occupant, turn};
ghost use Rattle.pr_control.specs.Residents.{Resides, Computes, Active};
ghost use Rattle.pr_control.specs.Counts.{turns_in};

/// A stripe holds the stage that its last event brought. Stage s computes in cycle t where a stripe holds it and no
/// event falls on that stripe in this cycle.
pub fn residence_law()
    ensures held { (v p t s i : ℕ) → (occupant v p i t ≡ Some s) ↔ Resides v p t s i }
    ensures computes { (v p t s : ℕ) → 0 < p → s < v → (turn v p (t - s) ≡ true) ↔ Active v p t s }
    ensures first { (v p t : ℕ) → 0 < p → 0 < v → (turn v p t ≡ true) ↔ Active v p t 0 }
{}

/// A stripe holds one stage at most, and a stage stands in one stripe at most.
pub fn stripes_law()
    ensures one_stage { (v p t s r i : ℕ) → Resides v p t s i → Resides v p t r i → s ≡ r }
    ensures one_stripe { (v p t s i j : ℕ) → 0 < p → Resides v p t s i → Resides v p t s j → i ≡ j }
{}

/// Where stage s + 1 computes in cycle t, stage s computed in cycle t - 1 in the stripe before, and is there still: the
/// row that it made is the one that is read, also where the stripe is configured anew in cycle t.
pub fn feeding_law()
    ensures { (v p t s i : ℕ) → 0 < p → Computes v p t (suc s) i →
        Computes v p (t - 1) s (before p i) × Resides v p t s (before p i) }
{}

/// With more stages than stripes, a stage that an event brings computes in the p - 1 cycles that follow, and in the cycle
/// after these another stage takes its stripe. With no more stages than stripes it computes in every later cycle.
pub fn lasting_law()
    ensures resides { (v p t s i u : ℕ) → p < v → 0 < p → event v p t ≡ Some (s, i) → t < u →
        u ≤ t + p → Resides v p u s i }
    ensures computes { (v p t s i u : ℕ) → p < v → 0 < p → event v p t ≡ Some (s, i) → t < u →
        u < t + p → Computes v p u s i }
    ensures ends { (v p t s i : ℕ) → p < v → 0 < p → event v p t ≡ Some (s, i) → Active v p (t + p) s → ⊥ }
    ensures stays { (v p t s i u : ℕ) → v ≤ p → 0 < p → event v p t ≡ Some (s, i) → t < u → Computes v p u s i }
{}

/// With more stages than stripes, an event finds in its stripe the stage that came p cycles before, and none in the
/// first p cycles. With no more stages than stripes it finds none.
pub fn finding_law()
    ensures found { (v p t : ℕ) → p < v → 0 < p → p ≤ t → Resides v p t ((t - p) % v) (t % p) }
    ensures none_yet { (v p t s : ℕ) → p < v → 0 < p → t < p → Resides v p t s (t % p) → ⊥ }
    ensures never { (v p t s : ℕ) → v ≤ p → Resides v p t s t → ⊥ }
{}

/// With more stages than stripes, stage 0 computes p - 1 times in any v cycles; else in every cycle but cycle 0.
pub fn turns_law()
    ensures round { (v p t : ℕ) → p < v → 0 < p → turns_in v p t v ≡ p - 1 }
    ensures line { (v p t k : ℕ) → v ≤ p → turns_in v p (t + 1) k ≡ k }
    ensures none { (v p : ℕ) → turn v p 0 ≡ true → ⊥ }
{}
