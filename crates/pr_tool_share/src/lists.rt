//! Lists of programs, and how they are read from files.
ghost use Rattle.std.specs.Prelude.{◌≡◌, ◌≢◌, ◌≤◌, ◌+◌, ℕ, List, IfOk, OnOk, IfErr, IsErrOf, map};
ghost use Rattle.pr_base.specs.Limits.{most_list_bytes};
ghost use Rattle.pr_edge.specs.Files.{IsReadOnce};
ghost use Rattle.pr_tool_modes.specs.Files.{ShowsFault};
ghost use Rattle.pr_tool_share.specs.Entries.{IsListed, IsBadAt, entry_in};
ghost use Rattle.pr_tool_share.specs.Lists.{HasList, IsListRefusal};

use crate::entries::{Entry, Line, line_of, split_line};
use crate::faults::ListFault;
use pr_base::Cap;
use pr_edge::Shelf;
use pr_tool_answers::Answer;
use pr_tool_modes::read_file;
use std::alloc::Global;

/// The greatest number of programs.
const MOST_PROGRAMS: usize = 8;

/// The programs of a list, from one to eight.
///
/// # Errors
///
/// `BadList` where a line is not as it should be, where there are more than eight programs, and where there is none;
/// `Memory`.
pub fn read_list(alloc: Global, text: &[u8]) -> Result<Vec<Entry>, ListFault>
    ensures listed { IfOk result (λ entries. IsListed text.now (map entry_in entries.items)) }
    ensures bad { (line : ℕ) → IsErrOf result (ListFault.BadList line) → IsBadAt text.now line }
{
    let mut entries = Vec::new(alloc);
    let mut rest = text;
    let mut number = 0;
    while !rest.is_empty() {
        let (line, after) = split_line(rest);
        number += 1;
        match line_of(alloc, line)? {
            Line::Blank => {}
            Line::Program(entry) if entries.len() < MOST_PROGRAMS => {
                entries.push(entry)?;
            }
            _ => return Err(ListFault::BadList { line: number }),
        }
        rest = after;
    }
    if entries.is_empty() {
        return Err(ListFault::BadList { line: number + 1 });
    }
    Ok(entries)
}

/// Reads the programs of a list.
pub(crate) fn load_list<S: Shelf>(
    alloc: Global,
    shelf: &mut S,
    list: &str,
) -> Result<Vec<Entry>, Answer>
    ensures list { IfOk result (λ entries. HasList (S.view shelf.old).told list.now (map entry_in entries.items)) }
    ensures refused { IfErr result
        (IsListRefusal (S.view shelf.old).told list.now (S.view shelf.old).faults (S.view shelf.new).faults) }
    ensures later { (S.view shelf.old).faults ≤ (S.view shelf.new).faults }
    ensures steady { OnOk result ((S.view shelf.new).faults ≡ (S.view shelf.old).faults) }
    ensures shown { IfErr result (ShowsFault (S.view shelf.old).faults (S.view shelf.new).faults) }
    ensures same { (S.view shelf.new).told ≡ (S.view shelf.old).told }
    ensures once { IsReadOnce (most_list_bytes + 4096) ((S.view shelf.old).reach list.now)
        ((S.view shelf.new).reach list.now) }
    ensures others { (q : List ℕ) → q ≢ list.now → (S.view shelf.new).reach q ≡ (S.view shelf.old).reach q }
{
    let text = read_file(alloc, shelf, list, Cap::MOST_LIST_BYTES, Cap::ListBytes)?;
    match read_list(alloc, &text) {
        Ok(entries) => Ok(entries),
        Err(ListFault::BadList { line }) => Err(Answer::BadList { line }),
        Err(ListFault::Memory(_)) => Err(Answer::Memory),
    }
}
