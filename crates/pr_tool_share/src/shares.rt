//! A list of programs that take turns.
ghost use Rattle.std.specs.Prelude.{◌≡◌, ◌≤◌, ◌^◌, ◌⊎◌, ℕ, List, IfOk, IfErr, OnErr, length};
ghost use Rattle.pr_edge.specs.Files.{Told};
ghost use Rattle.pr_machine.specs.Stands.{bare_stripes};
ghost use Rattle.pr_share.specs.Items.{World, world, AreReady, names_of, IsNoneOf};
ghost use Rattle.pr_tool_modes.specs.Calls.{call};
ghost use Rattle.pr_tool_modes.specs.Files.{IsInOrder};
ghost use Rattle.pr_tool_share.specs.Items.{Item};
ghost use Rattle.pr_tool_share.specs.Lists.{IsListedOnce, IsUnlisted};
ghost use Rattle.pr_tool_share.specs.Shares.{HaveTurned, IsSharedBy};

use crate::ends::answer_of_all;
use crate::items::make_items;
use crate::lists::load_list;
use pr_edge::{Shelf, Sink};
use pr_machine::{Bare, Machine};
use pr_run::Room;
use pr_share::{ShareEnd, ShareItem, share};
use pr_tool_answers::Answer;
use std::alloc::{AllocError, Global};

/// A list of programs that are to take turns.
#[derive(Clone, Copy, PartialEq, Eq, Debug)]
pub struct Sharing<'a> {
    /// The name of the list's file.
    pub list: &'a str,
    /// The number of stripes.
    pub stripes: usize,
    ghost least: { 2 ≤ stripes },
    ghost greatest: { stripes ≤ 256 },
}

/// What programs take turns on.
#[derive(Drop)]
struct SharedMachine {
    /// The machine.
    machine: Machine<16, 8, Bare>,
    /// The buffers.
    room: Room,
}

/// A bare machine of so many stripes, and the buffers of a run.
fn make_shared(alloc: Global, stripes: usize) -> Result<SharedMachine, AllocError>
    requires two { 2 ≤ stripes }
    requires most { stripes ≤ 256 }
    ensures { IfOk result (λ p. bare_stripes p.machine ≡ stripes) }
{
    let machine = Machine::<16, 8, Bare>::make(alloc, stripes)?;
    let room = Room::make(alloc)?;
    Ok(SharedMachine { machine, room })
}

/// Runs programs in turns on this machine until the samples of all have ended. It can take no memory, so there is no other machine.
fn take_turns<S: Shelf, K: Sink>(
    machine: Machine<16, 8, Bare>,
    room: &mut Room,
    items: &mut [ShareItem<16, 8>],
    shelf: &mut S,
    out: &mut K,
) -> Answer
    requires few { length items.old ≤ 8 }
    requires ready { AreReady items.old }
    ensures turned { HaveTurned (bare_stripes machine) items.old items.new
        (world (S.view shelf.old).told (S.view shelf.old).faults (K.view out.old).told)
        (world (S.view shelf.new).told (S.view shelf.new).faults (K.view out.new).told)
        (K.view out.old).faults (K.view out.new).faults result }
    ensures told { (S.view shelf.new).told ≡ (S.view shelf.old).told }
    ensures others { (q : List ℕ) → IsNoneOf (names_of items.old) q → (S.view shelf.new).reach q
        ≡ (S.view shelf.old).reach q }
    ensures shelf_later { (S.view shelf.old).faults ≤ (S.view shelf.new).faults }
    ensures out_later { (K.view out.old).faults ≤ (K.view out.new).faults }
{
    match share(machine, items, shelf, out, room) {
        ShareEnd::WriteFault => Answer::WriteFault,
        ShareEnd::Done => answer_of_all(items),
    }
}

/// Runs the programs of a list in turns on the same stripes. Each line of their results goes to `out` after its program's number.
///
/// The list is read first, and then its programs are read and compiled in order, for the base fabric and not narrowed. Where the
/// list or a program is refused, or there is no memory, nothing is written. After the first turn has begun no memory is taken. Where
/// the samples of a program end otherwise than with the end of their file, its results before are written, and the others go on.
pub fn share_list<S: Shelf, K: Sink>(
    alloc: Global,
    sharing: &Sharing<'_>,
    shelf: &mut S,
    out: &mut K,
) -> Answer
    // What it came to: a refusal before the turns, or the turns.
    ensures shared { IsSharedBy sharing.now.list.now sharing.now.stripes
        (call (S.view shelf.old) (S.view shelf.new) (K.view out.old) (K.view out.new)) result }

    ensures told { (S.view shelf.new).told ≡ (S.view shelf.old).told }

    // The list, and each program of it, is read in order, and no byte of it twice. Its name is named once, and no samples
    // have it.
    ensures once { (q : List ℕ) → IsListedOnce (S.view shelf.old).told sharing.now.list.now q
        → IsInOrder ((S.view shelf.old).reach q) ((S.view shelf.new).reach q) }

    // Only the list is read, and the files that it names.
    ensures others { (q : List ℕ) → IsUnlisted (S.view shelf.old).told sharing.now.list.now q
        → (S.view shelf.new).reach q ≡ (S.view shelf.old).reach q }
    ensures shelf_later { (S.view shelf.old).faults ≤ (S.view shelf.new).faults }
    ensures out_later { (K.view out.old).faults ≤ (K.view out.new).faults }
{
    let entries = match load_list(alloc, shelf, sharing.list) {
        Ok(entries) => entries,
        Err(answer) => return answer,
    };
    let mut items = match make_items(alloc, shelf, &entries) {
        Ok(items) => items,
        Err(answer) => return answer,
    };
    match make_shared(alloc, sharing.stripes) {
        Ok(shared) => {
            let SharedMachine { machine, mut room } = shared;
            take_turns(machine, &mut room, &mut items, shelf, out)
        }
        Err(_) => Answer::Memory,
    }
}
