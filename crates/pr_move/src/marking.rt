//! The checkpoint of a machine.
ghost use Rattle.std.specs.Prelude.{ℕ, ◌≡◌, ◌+◌, ◌≤◌, ◌^◌, None, IfOk};
ghost use Rattle.pr_conf.specs.Shape.{Shape};
ghost use Rattle.pr_conf.specs.After.{conf_after};
ghost use Rattle.pr_code.specs.Marks.{IsMark, bad_mark};
ghost use Rattle.pr_machine.specs.Stands.{Stands, History, account_of};
ghost use Rattle.pr_move.specs.Still.{IsStill};

use pr_code::write_mark;
use pr_machine::{Machine, Running};
use std::alloc::{AllocError, Global};

/// The checkpoint of a machine in which nothing is under way: the count of the samples that came before it and of its own, and
/// its configuration with each stage beginning in the state in which they left it. The machine is parked for it, and is given up.
///
/// The checkpoint is a lawful one, from which a run can go on.
#[tactic(auto, using(crate::proofs::MarkLemmas::marked))]
pub fn mark_of<const N: usize, const P: usize>(
    alloc: Global,
    machine: Machine<N, P, Running>,
    count: u64,
) -> Result<Vec<u8>, AllocError>
    requires still { IsStill machine }
    requires few { count + machine.parts.left ≤ 2 ^ 40 }
    ensures mark { IfOk result (λ v. (c : Shape) (p : ℕ) (h : History) → Stands machine.entry c p h
        → IsMark N P (count + machine.entry.parts.left) (conf_after N P c (account_of c p h).offered) v.items) }
    ensures lawful { IfOk result (λ v. bad_mark N P v.items ≡ None) }
{
    let left = machine.left();
    let (_bare, parked) = machine.park();
    write_mark(alloc, count + left, parked.conf())
}
