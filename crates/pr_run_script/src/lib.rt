//! The turns of a run, by the account alone: which samples are offered, which results are taken, when it is over, and
//! which lines it writes. The functions state laws of these definitions and do nothing.
#![tactic(auto)]

ghost use Rattle.std.specs.Prelude.{ℕ, ◌≡◌, ◌+◌, ◌<◌, ◌≤◌, Bool, List, [], length, false};
ghost use Rattle.pr_control.specs.Counts.{cycles_of};
ghost use Rattle.pr_machine_account.specs.Account.{account};
ghost use Rattle.pr_base.specs.Rows.{written};
ghost use Rattle.pr_conf.specs.Shape.{Shape};
ghost use Rattle.pr_conf.specs.Through.{result_numbers};
ghost use Rattle.pr_machine_refines.specs.Cycle.{evicted_stage};
ghost use Rattle.pr_run_script.specs.Script.{Held, begun, turns, most_cycles, whole_run, script};
ghost use Rattle.pr_run_script.specs.Counts.{IsWhole, cycles_in, stalls_in};
ghost use Rattle.pr_run_script.specs.Text.{run_text, found_stage};

/// Every run ends: within a cycle for each turn of the stall text and those that drain its samples it is over, all
/// samples were offered and all results taken, and further turns change nothing. Without a stall text it takes exactly
/// the cycles after which the last result has left, and none is stalled.
pub fn script_law()
    ensures whole { (v p : ℕ) (xs : List (List ℕ)) (stall : List Held) → 0 < v → 2 ≤ p → IsWhole v p xs stall }
    ensures further { (v p k : ℕ) (xs : List (List ℕ)) (stall : List Held) → 0 < v → 2 ≤ p
        → most_cycles v p stall (length xs) < k → turns v p stall k (begun xs) ≡ whole_run v p xs stall }
    ensures cycles { (v p : ℕ) (xs : List (List ℕ)) → 0 < v → 2 ≤ p →
        (account v p (script v p xs [])).time ≡ cycles_of v p (length xs) }
    ensures stalls { (v p : ℕ) (xs : List (List ℕ)) → 0 < v → 2 ≤ p → stalls_in v p (script v p xs []) ≡ 0 }
{}

/// What a whole run writes without its log is the lines of its results. In the log the stage that a cycle saves is the
/// one of p cycles before, where there are more stages than stripes.
pub fn text_law()
    ensures results { (N P : ℕ) (c : Shape) (p : ℕ) (xs : List (List ℕ)) (stall : List Held) (good : Bool) →
        0 < length c.stages → 2 ≤ p
        → run_text N P false c p xs stall good ≡ written (result_numbers N P c xs) }
    ensures saved { (v p t : ℕ) → 0 < p → found_stage v p t ≡ evicted_stage v p t }
{}
