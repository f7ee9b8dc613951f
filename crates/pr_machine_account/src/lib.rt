//! The account of a history: what a machine of v stages on p stripes has been asked, counted without any machine.
//!
//! A history is a list of events: a piece is offered, a result is asked for, a cycle is asked for. Its account has the
//! time, the pieces that were accepted, the cycles in which samples entered, and the count of results taken; the results
//! are those that the stages make of the whole list (`pr_conf_pipeline`). The laws are about every history and every pipeline;
//! the functions below state them at rows that are lists of bytes, and do nothing.
#![tactic(auto)]

ghost use Rattle.std.specs.Prelude.{ℕ, ◌≡◌, ◌+◌, ◌-◌, ◌<◌, ◌≤◌, List, [], ◌∷◌, ◌++◌, length, take, slice_get, Some};
ghost use Rattle.pr_control.specs.Counts.{cycles_of};
ghost use Rattle.pr_control.specs.Drain.{drain};
ghost use Rattle.pr_conf_pipeline.specs.Rows.{BytePipeline, through};
ghost use Rattle.pr_machine_account.specs.Account.{Event, Take, account, start, left, done, below, IsLawful};
ghost use Rattle.pr_machine_account.specs.Cycles.{IsCycle};
ghost use Rattle.pr_machine_account.specs.Replies.{Given, OutEmpty, reply, replies_from, results_in};
ghost use Rattle.pr_machine_account.specs.Drain.{Feeding, free_turns, turns_events, remaining, IsDrained};

/// What holds of every account: entries are cycles of the past in which stage 0 computed, at most 16 samples and at most
/// 16 results wait, and no result is taken that has not left. What stage s has done by t is what entered before t - s.
pub fn lawful_law()
    ensures lawful { (v p : ℕ) (h : List (Event (List ℕ))) → 0 < v → IsLawful v p (account v p h) }
    ensures behind { (s t : ℕ) (es : List ℕ) → done s t es ≡ below (t - s) es }
{}

/// A cycle does to an account what the plain words on activity say.
pub fn cycle_law()
    ensures { (v p : ℕ) (h : List (Event (List ℕ))) → 0 < v → 0 < p → IsCycle v p (account v p h) }
{}

/// The results taken are the first ones over the pieces offered, and a Take is refused just where all that left are taken.
pub fn prefix_law()
    ensures results { (M : BytePipeline) (v p : ℕ) (tap : List ℕ → List ℕ) (h : List (Event (List ℕ))) → 0 < v
        → results_in (replies_from M v p tap start h) ≡ take (account v p h).taken (through M v tap (account v p h).offered) }
    ensures given { (M : BytePipeline) (v p : ℕ) (tap : List ℕ → List ℕ) (h : List (Event (List ℕ))) → 0 < v
        → (account v p h).taken < left v (account v p h)
        → (result : List ℕ)
        × (slice_get (through M v tap (account v p h).offered) (account v p h).taken ≡ Some result)
        × (reply M v p tap (account v p h) Take ≡ Given result) }
    ensures empty { (M : BytePipeline) (v p : ℕ) (tap : List ℕ → List ℕ) (h : List (Event (List ℕ)))
        → left v (account v p h) ≤ (account v p h).taken → reply M v p tap (account v p h) Take ≡ OutEmpty }
{}

/// From every account, with n samples that have not entered, `drain v p n` free turns, or more, and one further take
/// bring out every result: all samples were offered, all have left, and what the whole history was given is all results.
pub fn drain_law()
    ensures drained { (v p : ℕ) (h : List (Event (List ℕ))) (xs : List (List ℕ)) (k : ℕ) → 0 < v → 2 ≤ p
        → let s : Feeding (List ℕ) = record { account = account v p h; rest = xs } in
        drain v p (remaining s) ≤ k → IsDrained v p s (free_turns v p k s) }
    ensures results { (M : BytePipeline) (v p : ℕ) (tap : List ℕ → List ℕ) (h : List (Event (List ℕ)))
        (xs : List (List ℕ)) (k : ℕ) → 0 < v → 2 ≤ p
        → let s : Feeding (List ℕ) = record { account = account v p h; rest = xs } in
        drain v p (remaining s) ≤ k
        → results_in (replies_from M v p tap start (h ++ (turns_events v p k s ++ Take ∷ [])))
        ≡ through M v tap ((account v p h).offered ++ xs) }
{}

/// Where n samples are always ready and results always taken, no cycle is stalled, and the last result has left after
/// exactly `cycles_of v p n` cycles: then all n have left, and after fewer cycles they have not.
pub fn cycles_law()
    ensures time { (v p k : ℕ) (xs : List (List ℕ)) → 0 < v →
        (free_turns v p k (record { account = start; rest = xs })).account.time ≡ k }
    ensures last { (v p : ℕ) (xs : List (List ℕ)) → 0 < v → 2 ≤ p
        → left v (free_turns v p (cycles_of v p (length xs)) (record { account = start; rest = xs })).account ≡ length xs }
    ensures before { (v p k : ℕ) (xs : List (List ℕ)) → 0 < v → 2 ≤ p → k < cycles_of v p (length xs)
        → left v (free_turns v p k (record { account = start; rest = xs })).account < length xs }
{}
