//! Files that are read whole.
ghost use Rattle.std.specs.Prelude.{◌≡◌, ◌≢◌, ◌≤◌, ◌+◌, ℕ, List, length, IfOk, OnOk, IfErr};
ghost use Rattle.pr_edge.specs.Files.{IsReadOnce};
ghost use Rattle.pr_tool_modes.specs.Files.{IsText, ShowsFault, IsUnread};

use pr_base::Cap;
use pr_edge::{ReadAll, Shelf, read_all};
use pr_tool_answers::Answer;
use std::alloc::Global;

/// Reads a file whole, if it has at most so many bytes; `cap` names this limit.
pub fn read_file<S: Shelf>(
    alloc: Global,
    shelf: &mut S,
    name: &str,
    limit: usize,
    cap: Cap,
) -> Result<Vec<u8>, Answer>
    ensures text { IfOk result (λ v. IsText (S.view shelf.old).told name.now v.items) }
    ensures short { IfOk result (λ v. length v.items ≤ limit) }
    ensures refused { IfErr result
        (IsUnread limit cap (S.view shelf.old).told name.now (S.view shelf.old).faults (S.view shelf.new).faults) }
    ensures later { (S.view shelf.old).faults ≤ (S.view shelf.new).faults }

    // A read that fails is not tried again: it ends with ReadFault.
    ensures steady { OnOk result ((S.view shelf.new).faults ≡ (S.view shelf.old).faults) }
    ensures shown { IfErr result (ShowsFault (S.view shelf.old).faults (S.view shelf.new).faults) }

    ensures same { (S.view shelf.new).told ≡ (S.view shelf.old).told }

    // It is read in order and each byte of it once, at most 4,096 past the limit.
    ensures once { IsReadOnce (limit + 4096) ((S.view shelf.old).reach name.now) ((S.view shelf.new).reach name.now) }
    ensures others { (q : List ℕ) → q ≢ name.now → (S.view shelf.new).reach q ≡ (S.view shelf.old).reach q }
{
    match read_all(alloc, shelf, name, limit) {
        Ok(bytes) => Ok(bytes),
        Err(ReadAll::ReadFault) => Err(Answer::ReadFault),
        Err(ReadAll::TooLong) => Err(Answer::Limit { which: cap }),
        Err(ReadAll::Memory(_)) => Err(Answer::Memory),
    }
}
