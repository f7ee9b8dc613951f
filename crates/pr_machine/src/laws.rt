//! Laws of every machine and every history. The functions do nothing.

ghost use Rattle.std.specs.Prelude.{ℕ, ◌≡◌, ◌<◌, ◌+◌, suc, List, Some, length, slice_get};
ghost use Rattle.pr_control.specs.Time.{before};
ghost use Rattle.pr_control.specs.Residents.{Computes};
ghost use Rattle.pr_conf_pipeline.specs.Rows.{rows};
ghost use Rattle.pr_conf.specs.Shape.{Shape};
ghost use Rattle.pr_conf.specs.Through.{steps_of};
ghost use Rattle.pr_machine_refines.specs.Spots.{shows};
ghost use Rattle.pr_machine_refines.specs.Stands.{IsRowOf};
ghost use Rattle.pr_machine.specs.Places.{spots_of};
ghost use Rattle.pr_machine.specs.Stands.{Stands, History, account_of};

use crate::machine::{Machine, Running};

/// Every row that a stripe shows is its stage's row of some sample. And where stage s + 1 computes, the stripe before it
/// shows stage s's row of the sample that entered s + 1 cycles before, also in the cycle in which that stripe is
/// configured anew.
pub fn rows_law<const N: usize, const P: usize>(_machine: &Machine<N, P, Running>)
    ensures shown { (c : Shape) (p : ℕ) (h : History) → Stands _machine.now c p h
        → (i : ℕ) (row : List ℕ) → i < p → shows (spots_of _machine.now.parts.places.items i) ≡ Some row
        → IsRowOf (steps_of N P c) (length c.stages) p (account_of c p h) i row }
    ensures read { (c : Shape) (p : ℕ) (h : History) → Stands _machine.now c p h
        → (s i j e : ℕ) → Computes (length c.stages) p (account_of c p h).time (suc s) i
        → slice_get (account_of c p h).entries j ≡ Some e → e + s + 1 ≡ (account_of c p h).time
        → shows (spots_of _machine.now.parts.places.items (before p i))
        ≡ slice_get (rows (steps_of N P c) (suc s) (account_of c p h).offered) j }
{}
