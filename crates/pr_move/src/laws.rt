//! Laws of runs that go on from a checkpoint. The functions do nothing.
ghost use Rattle.std.specs.Prelude.{ℕ, ◌≡◌, ◌+◌, ◌≤◌, ◌<◌, ◌++◌, Bool, false, List, length};
ghost use Rattle.pr_base.specs.Rows.{written};
ghost use Rattle.pr_conf.specs.Shape.{Shape};
ghost use Rattle.pr_conf.specs.After.{conf_after};
ghost use Rattle.pr_conf.specs.Through.{result_numbers};
ghost use Rattle.pr_code.specs.Marks.{mark_of};
ghost use Rattle.pr_run_script.specs.Script.{Held};
ghost use Rattle.pr_run_script.specs.Text.{run_text};

/// A run that goes on from a checkpoint writes the rest of the lines of the whole run, whatever the stripes and the stall
/// texts of the one, of the other, and of a run that was never cut.
pub fn moving_law()
    ensures lines { (N P : ℕ) (c : Shape) (xs ys : List (List ℕ))
        → written (result_numbers N P c (xs ++ ys))
        ≡ written (result_numbers N P c xs) ++ written (result_numbers N P (conf_after N P c xs) ys) }
    ensures runs { (N P : ℕ) (c : Shape) (xs ys : List (List ℕ)) (p q r : ℕ)
        (whole first last : List Held) (good : Bool)
        → 0 < length c.stages → 2 ≤ p → 2 ≤ q → 2 ≤ r
        → run_text N P false c p (xs ++ ys) whole good
        ≡ run_text N P false c q xs first good ++ run_text N P false (conf_after N P c xs) r ys last good }
{}

/// A chain of checkpoints is one: going on from the checkpoint after the first samples, the checkpoint after further ones is
/// the one after all of them.
pub fn chain_law()
    ensures { (N P count : ℕ) (c : Shape) (xs ys : List (List ℕ))
        → mark_of N P (count + length xs + length ys) (conf_after N P (conf_after N P c xs) ys)
        ≡ mark_of N P (count + length (xs ++ ys)) (conf_after N P c (xs ++ ys)) }
{}
