//! Stall texts that are read from files.
ghost use Rattle.std.specs.Prelude.{◌≡◌, ◌≢◌, ◌≤◌, ◌+◌, ℕ, List, length, Some, IfOk, OnOk, IfErr, IsSomeAnd, option_map};
ghost use Rattle.pr_base.specs.declared.caps.Cap.{Cap};
ghost use Rattle.pr_base.specs.Limits.{most_stall_bytes};
ghost use Rattle.pr_edge.specs.Files.{IsReadOnce};
ghost use Rattle.pr_samples.specs.Stall.{turns_left};
ghost use Rattle.pr_run.specs.Setting.{stall_turns};
ghost use Rattle.pr_tool_modes.specs.Files.{ShowsFault, IsUnread};
ghost use Rattle.pr_tool_modes.specs.Stalls.{IsStallText, HasStall, IsStallRefusal};

use crate::files::read_file;
use pr_base::Cap;
use pr_edge::Shelf;
use pr_samples::Stall;
use pr_tool_answers::Answer;
use std::alloc::Global;

/// The text of a stall file; without one it is empty.
fn read_text<S: Shelf>(alloc: Global, shelf: &mut S, name: Option<&str>) -> Result<Vec<u8>, Answer>
    ensures text { IfOk result (λ v. IsStallText (S.view shelf.old).told (option_map (λ s. s.now) name.entry) v.items) }
    ensures short { IfOk result (λ v. length v.items ≤ 1048576) }
    ensures refused { IfErr result
        (λ a. IsSomeAnd (option_map (λ s. s.now) name.entry)
        (λ n. IsUnread 1048576 Cap.StallBytes (S.view shelf.old).told n (S.view shelf.old).faults
        (S.view shelf.new).faults a)) }
    ensures later { (S.view shelf.old).faults ≤ (S.view shelf.new).faults }
    ensures steady { OnOk result ((S.view shelf.new).faults ≡ (S.view shelf.old).faults) }
    ensures shown { IfErr result (ShowsFault (S.view shelf.old).faults (S.view shelf.new).faults) }
    ensures same { (S.view shelf.new).told ≡ (S.view shelf.old).told }
    ensures once { (q : List ℕ) → option_map (λ s. s.now) name.entry ≡ Some q
        → IsReadOnce (most_stall_bytes + 4096) ((S.view shelf.old).reach q) ((S.view shelf.new).reach q) }
    ensures others { (q : List ℕ) → option_map (λ s. s.now) name.entry ≢ Some q
        → (S.view shelf.new).reach q ≡ (S.view shelf.old).reach q }
{
    match name {
        None => Ok(Vec::new(alloc)),
        Some(name) => read_file(alloc, shelf, name, Cap::MOST_STALL_BYTES, Cap::StallBytes),
    }
}

/// The stall text of a run: that of a file, or one without turns.
pub fn read_stall<S: Shelf>(
    alloc: Global,
    shelf: &mut S,
    name: Option<&str>,
) -> Result<Stall, Answer>
    ensures stall { IfOk result
        (λ s. HasStall (S.view shelf.old).told (option_map (λ s. s.now) name.entry) (stall_turns s)) }
    ensures few { IfOk result (λ s. length (turns_left s) ≤ 1048576) }
    ensures refused { IfErr result
        (λ a. IsStallRefusal (S.view shelf.old).told (option_map (λ s. s.now) name.entry) (S.view shelf.old).faults
        (S.view shelf.new).faults a) }
    ensures later { (S.view shelf.old).faults ≤ (S.view shelf.new).faults }
    ensures steady { OnOk result ((S.view shelf.new).faults ≡ (S.view shelf.old).faults) }
    ensures shown { IfErr result (ShowsFault (S.view shelf.old).faults (S.view shelf.new).faults) }
    ensures same { (S.view shelf.new).told ≡ (S.view shelf.old).told }
    ensures once { (q : List ℕ) → option_map (λ s. s.now) name.entry ≡ Some q
        → IsReadOnce (most_stall_bytes + 4096) ((S.view shelf.old).reach q) ((S.view shelf.new).reach q) }
    ensures others { (q : List ℕ) → option_map (λ s. s.now) name.entry ≢ Some q
        → (S.view shelf.new).reach q ≡ (S.view shelf.old).reach q }
{
    let text = read_text(alloc, shelf, name)?;
    match Stall::make(text) {
        Ok(stall) => Ok(stall),
        Err(bad) => Err(Answer::BadStall { place: bad.place }),
    }
}
