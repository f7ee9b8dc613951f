//! The programs of a list, made ready for their turns.
ghost use Rattle.std.specs.Prelude.{◌≡◌, ◌≢◌, ◌≤◌, ◌+◌, ◌⊎◌, ℕ, List, IfOk, OnOk, IfErr, length, map};
ghost use Rattle.pr_base.specs.Limits.{most_program_bytes};
ghost use Rattle.pr_edge.specs.Files.{IsReadOnce};
ghost use Rattle.pr_conf.specs.Configuration.{shape_of};
ghost use Rattle.pr_tool_modes.specs.Files.{IsInOrder, ShowsFault};
ghost use Rattle.pr_tool_modes.specs.Sources.{Gives, IsSourceRefusal};
ghost use Rattle.pr_tool_share.specs.Entries.{entry_in};
ghost use Rattle.pr_tool_share.specs.Lists.{source_in, IsProgramRefusal, IsNoProgram, IsOneProgram};
ghost use Rattle.pr_tool_share.specs.Items.{IsParkedFor, IsItemOf, AreItemsOf};

use crate::entries::Entry;
use crate::parts::part_answer;
use pr_conf::Configuration;
use pr_edge::Shelf;
use pr_machine::{ParkRefused, Parked};
use pr_samples::Feed;
use pr_share::ShareItem;
use pr_tool_answers::Answer;
use pr_tool_modes::compile_on;
use std::alloc::Global;

/// Reads and compiles the program of an entry, for the base fabric and not narrowed.
fn compile<S: Shelf>(
    alloc: Global,
    shelf: &mut S,
    entry: &Entry,
) -> Result<Configuration<16, 8>, Answer>
    ensures compiled { IfOk result
        (λ c. Gives (S.view shelf.old).told (source_in (entry_in entry.now)) 16 8 (shape_of c)) }
    ensures refused { IfErr result
        (IsSourceRefusal (S.view shelf.old).told (source_in (entry_in entry.now)) (S.view shelf.old).faults
        (S.view shelf.new).faults) }
    ensures later { (S.view shelf.old).faults ≤ (S.view shelf.new).faults }
    ensures steady { OnOk result ((S.view shelf.new).faults ≡ (S.view shelf.old).faults) }
    ensures shown { IfErr result (ShowsFault (S.view shelf.old).faults (S.view shelf.new).faults) }
    ensures same { (S.view shelf.new).told ≡ (S.view shelf.old).told }
    ensures once { IsReadOnce (most_program_bytes + 4096) ((S.view shelf.old).reach (entry_in entry.now).program)
        ((S.view shelf.new).reach (entry_in entry.now).program) }
    ensures others { (q : List ℕ) → q ≢ (entry_in entry.now).program → (S.view shelf.new).reach q
        ≡ (S.view shelf.old).reach q }
{
    let compiled = compile_on::<16, 8, S>(alloc, shelf, &entry.program, false)?;
    Ok(compiled.conf)
}

/// A configuration that is parked, with the samples and the quota of an entry.
fn park(alloc: Global, said: &Entry, conf: Configuration<16, 8>) -> Result<ShareItem<16, 8>, Answer>
    ensures parked { IfOk result (λ i. IsParkedFor (entry_in said.now) (shape_of conf) i) }
    ensures refused { IfErr result (λ a. a ≡ Answer.Memory) }
{
    let feed = Feed::make(alloc, &said.samples, &conf.inputs)?;
    match Parked::make(alloc, conf) {
        Err(ParkRefused { .. }) => Err(Answer::Memory),
        Ok(parked) => Ok(ShareItem {
            parked: Some(parked),
            feed,
            quota: said.quota,
            ended: None,
        }),
    }
}

/// Makes the program of an entry ready for its turns.
fn make_item<S: Shelf>(
    alloc: Global,
    shelf: &mut S,
    entry: &Entry,
) -> Result<ShareItem<16, 8>, Answer>
    ensures ready { IfOk result (λ i. IsItemOf (S.view shelf.old).told (entry_in entry.now) i) }
    ensures refused { IfErr result
        (IsSourceRefusal (S.view shelf.old).told (source_in (entry_in entry.now)) (S.view shelf.old).faults
        (S.view shelf.new).faults) }
    ensures later { (S.view shelf.old).faults ≤ (S.view shelf.new).faults }
    ensures steady { OnOk result ((S.view shelf.new).faults ≡ (S.view shelf.old).faults) }
    ensures shown { IfErr result (ShowsFault (S.view shelf.old).faults (S.view shelf.new).faults) }
    ensures same { (S.view shelf.new).told ≡ (S.view shelf.old).told }
    ensures once { IsReadOnce (most_program_bytes + 4096) ((S.view shelf.old).reach (entry_in entry.now).program)
        ((S.view shelf.new).reach (entry_in entry.now).program) }
    ensures others { (q : List ℕ) → q ≢ (entry_in entry.now).program → (S.view shelf.new).reach q
        ≡ (S.view shelf.old).reach q }
{
    let conf = compile(alloc, shelf, entry)?;
    let item = park(alloc, entry, conf)?;
    Ok(item)
}

/// Makes the programs of a list ready for their turns. They are read and compiled in order, and the first that is refused ends it.
pub(crate) fn make_items<S: Shelf>(
    alloc: Global,
    shelf: &mut S,
    entries: &[Entry],
) -> Result<Vec<ShareItem<16, 8>>, Answer>
    requires { length entries.now ≤ 8 }
    ensures ready { IfOk result (λ items. AreItemsOf (S.view shelf.old).told (map entry_in entries.now) items.items) }
    ensures refused { IfErr result
        (λ a. IsProgramRefusal (S.view shelf.old).told (S.view shelf.old).faults (S.view shelf.new).faults 0
        (map entry_in entries.now) a ⊎ (a ≡ Answer.Memory)) }
    ensures later { (S.view shelf.old).faults ≤ (S.view shelf.new).faults }
    ensures steady { OnOk result ((S.view shelf.new).faults ≡ (S.view shelf.old).faults) }
    ensures shown { IfErr result (ShowsFault (S.view shelf.old).faults (S.view shelf.new).faults) }
    ensures same { (S.view shelf.new).told ≡ (S.view shelf.old).told }
    ensures once { (q : List ℕ) → IsOneProgram (map entry_in entries.now) q
        → IsInOrder ((S.view shelf.old).reach q) ((S.view shelf.new).reach q) }
    ensures others { (q : List ℕ) → IsNoProgram (map entry_in entries.now) q
        → (S.view shelf.new).reach q ≡ (S.view shelf.old).reach q }
{
    let mut items = Vec::new(alloc);
    for number in 0..entries.len() {
        let item = match make_item(alloc, shelf, &entries[number]) {
            Ok(item) => item,
            Err(answer) => return Err(part_answer(number as u8, answer)),
        };
        if items.push(item).is_err() {
            return Err(Answer::Memory);
        }
    }
    Ok(items)
}
