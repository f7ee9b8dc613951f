//! Rounds of programs.
ghost use Rattle.std.specs.Prelude.{ℕ, ◌≡◌, ◌≢◌, ◌≤◌, ◌<◌, ◌+◌, true, false, List, OnOk, OnErr, length, None, Some};
ghost use Rattle.pr_edge.specs.Count.{Rose};
ghost use Rattle.pr_samples.specs.Feed.{name_of};
ghost use Rattle.pr_share.specs.declared.items.ShareItem.{ShareItem};
ghost use Rattle.pr_share.specs.Items.{World, world, ended_after, HasTaken, IsTurn, IsHalf, IsSharing};
ghost use Rattle.pr_share.specs.Items.{AreReady, AreShared, AreStopped, IsGoing, AreEnded, NoneFailed, names_of, IsNoneOf};
ghost use Rattle.pr_samples.specs.declared.feed.Got.{Got};

use crate::items::ShareItem;
use crate::turns::Walk;
use pr_edge::{Shelf, Sink, WriteFault};
use pr_machine::{Bare, Machine};
use pr_run::{Room, goes_on, put_widths};
use pr_samples::Got;

/// How the rounds ended.
#[derive(Clone, Copy, PartialEq, Eq, Debug)]
pub enum ShareEnd {
    /// All samples have ended, and all results were written.
    Done,
    /// A line could not be written.
    WriteFault,
}

/// How samples have ended, by the last answer of their feed; none where more may follow.
fn ended_by(last: Got) -> Option<Got>
    ensures { result ≡ ended_after last }
{
    if goes_on(last) { None } else { Some(last) }
}

/// A turn of a program: it takes up the machine, is fed up to its quota, and is parked again when nothing is in flight.
fn take_turn<const N: usize, const P: usize, S: Shelf, K: Sink>(
    machine: Machine<N, P, Bare>,
    item: &mut ShareItem<N, P>,
    number: u8,
    shelf: &mut S,
    out: &mut K,
    room: &mut Room,
) -> Result<Machine<N, P, Bare>, WriteFault>
    requires number { number < 10 }
    requires going { item.old.ended ≡ None }
    requires taken { (first : ShareItem N P) × (rows : List (List ℕ))
        × HasTaken (S.view shelf.old).told first item.old rows }
    ensures turn { let old = world (S.view shelf.old).told (S.view shelf.old).faults (K.view out.old).told in
        let new = world (S.view shelf.new).told (S.view shelf.new).faults (K.view out.new).told in
        (first : ShareItem N P) (rows : List (List ℕ)) → HasTaken old.told first item.old rows
        → OnOk result (IsTurn first item.new rows number old new) }
    ensures half { let old = world (S.view shelf.old).told (S.view shelf.old).faults (K.view out.old).told in
        let new = world (S.view shelf.new).told (S.view shelf.new).faults (K.view out.new).told in
        (first : ShareItem N P) (rows : List (List ℕ)) → HasTaken old.told first item.old rows
        → OnErr result (IsHalf first item.new rows number old new) }
    ensures steady { OnOk result
        (item.new.ended ≢ Some Got.ReadFault → (S.view shelf.new).faults ≡ (S.view shelf.old).faults) }
    ensures cause { OnErr result (Rose (K.view out.old).faults (K.view out.new).faults) }
    ensures told { (S.view shelf.new).told ≡ (S.view shelf.old).told }
    ensures others { (q : List ℕ) → q ≢ name_of item.old.feed → (S.view shelf.new).reach q
        ≡ (S.view shelf.old).reach q }
    ensures name { name_of item.new.feed ≡ name_of item.old.feed }
    ensures shelf_later { (S.view shelf.old).faults ≤ (S.view shelf.new).faults }
    ensures out_later { (K.view out.old).faults ≤ (K.view out.new).faults }
{
    let parked = match item.parked.take() {
        None => unreachable!(),
        Some(parked) => parked,
    };
    let mut running = machine.resume(parked);
    let mut widths = [0; 64];
    let count = put_widths(&mut widths, running.conf());
    let mut walk = Walk {
        room,
        widths: &widths[..count],
        number,
        quota: item.quota,
    };
    let last = match walk.run_turn(&mut running, &mut item.feed, shelf, out) {
        Err(fault) => return Err(fault),
        Ok(last) => last,
    };
    let (bare, parked) = running.park();
    item.parked = Some(parked);
    item.ended = ended_by(last);
    Ok(bare)
}

/// The turn of the program of this number, if its samples have not ended.
fn take_place<const N: usize, const P: usize, S: Shelf, K: Sink>(
    machine: Machine<N, P, Bare>,
    items: &mut [ShareItem<N, P>],
    number: usize,
    shelf: &mut S,
    out: &mut K,
    room: &mut Room,
) -> Result<Machine<N, P, Bare>, WriteFault>
    requires at { number < length items.old }
    requires few { length items.old ≤ 8 }
    requires sharing { let old = world (S.view shelf.old).told (S.view shelf.old).faults (K.view out.old).told in
        (firsts : List (ShareItem N P)) × (start : World) × (r : ℕ) × IsSharing firsts items.old start old r number }
    ensures next { let old = world (S.view shelf.old).told (S.view shelf.old).faults (K.view out.old).told in
        let new = world (S.view shelf.new).told (S.view shelf.new).faults (K.view out.new).told in
        (firsts : List (ShareItem N P)) (start : World) (r : ℕ) → IsSharing firsts items.old start old r number
        → OnOk result (IsSharing firsts items.new start new r (number + 1)) }
    ensures stopped { let old = world (S.view shelf.old).told (S.view shelf.old).faults (K.view out.old).told in
        let new = world (S.view shelf.new).told (S.view shelf.new).faults (K.view out.new).told in
        (firsts : List (ShareItem N P)) (start : World) (r : ℕ) → IsSharing firsts items.old start old r number
        → OnErr result (AreStopped firsts items.new start new) }
    ensures steady { OnOk result
        (NoneFailed items.new → NoneFailed items.old × ((S.view shelf.new).faults ≡ (S.view shelf.old).faults)) }
    ensures count { length items.new ≡ length items.old }
    ensures cause { OnErr result (Rose (K.view out.old).faults (K.view out.new).faults) }
    ensures told { (S.view shelf.new).told ≡ (S.view shelf.old).told }
    ensures others { (q : List ℕ) → IsNoneOf (names_of items.old) q → (S.view shelf.new).reach q
        ≡ (S.view shelf.old).reach q }
    ensures names { names_of items.new ≡ names_of items.old }
    ensures shelf_later { (S.view shelf.old).faults ≤ (S.view shelf.new).faults }
    ensures out_later { (K.view out.old).faults ≤ (K.view out.new).faults }
{
    if items[number].ended.is_some() {
        return Ok(machine);
    }
    take_turn(machine, &mut items[number], number as u8, shelf, out, room)
}

/// A round: each program whose samples have not ended takes a turn.
fn make_round<const N: usize, const P: usize, S: Shelf, K: Sink>(
    machine: Machine<N, P, Bare>,
    items: &mut [ShareItem<N, P>],
    shelf: &mut S,
    out: &mut K,
    room: &mut Room,
) -> Result<Machine<N, P, Bare>, WriteFault>
    requires few { length items.old ≤ 8 }
    requires sharing { let old = world (S.view shelf.old).told (S.view shelf.old).faults (K.view out.old).told in
        (firsts : List (ShareItem N P)) × (start : World) × (r : ℕ) × IsSharing firsts items.old start old r 0 }
    ensures round { let old = world (S.view shelf.old).told (S.view shelf.old).faults (K.view out.old).told in
        let new = world (S.view shelf.new).told (S.view shelf.new).faults (K.view out.new).told in
        (firsts : List (ShareItem N P)) (start : World) (r : ℕ) → IsSharing firsts items.old start old r 0
        → OnOk result (IsSharing firsts items.new start new (r + 1) 0) }
    ensures stopped { let old = world (S.view shelf.old).told (S.view shelf.old).faults (K.view out.old).told in
        let new = world (S.view shelf.new).told (S.view shelf.new).faults (K.view out.new).told in
        (firsts : List (ShareItem N P)) (start : World) (r : ℕ) → IsSharing firsts items.old start old r 0
        → OnErr result (AreStopped firsts items.new start new) }
    ensures steady { OnOk result
        (NoneFailed items.new → NoneFailed items.old × ((S.view shelf.new).faults ≡ (S.view shelf.old).faults)) }
    ensures count { length items.new ≡ length items.old }
    ensures cause { OnErr result (Rose (K.view out.old).faults (K.view out.new).faults) }
    ensures told { (S.view shelf.new).told ≡ (S.view shelf.old).told }
    ensures others { (q : List ℕ) → IsNoneOf (names_of items.old) q → (S.view shelf.new).reach q
        ≡ (S.view shelf.old).reach q }
    ensures names { names_of items.new ≡ names_of items.old }
    ensures shelf_later { (S.view shelf.old).faults ≤ (S.view shelf.new).faults }
    ensures out_later { (K.view out.old).faults ≤ (K.view out.new).faults }
{
    let mut machine = machine;
    for number in 0..items.len() {
        match take_place(machine, items, number, shelf, out, room) {
            Err(fault) => return Err(fault),
            Ok(bare) => machine = bare,
        }
    }
    Ok(machine)
}

/// Whether the samples of some program have not ended.
fn is_going<const N: usize, const P: usize>(items: &[ShareItem<N, P>]) -> bool
    ensures going { result ≡ true → IsGoing items.now }
    ensures over { result ≡ false → AreEnded items.now }
{
    for item in items {
        if item.ended.is_none() {
            return true;
        }
    }
    false
}

/// Runs up to eight programs in rounds on the same stripes until the samples of all have ended. No memory is taken.
///
/// In each round each program whose samples have not ended takes up the machine, is fed up to its quota, and is parked
/// again when nothing is in flight; each line of its results is written after its number. Where a read fails, the
/// samples of that program alone have ended. After a write fault the program whose turn it was is given up, and the
/// others are parked.
pub fn share<const N: usize, const P: usize, S: Shelf, K: Sink>(
    machine: Machine<N, P, Bare>,
    parts: &mut [ShareItem<N, P>],
    shelf: &mut S,
    out: &mut K,
    room: &mut Room,
) -> ShareEnd
    requires few { length parts.old ≤ 8 }
    requires ready { AreReady parts.old }
    ensures shared { let old = world (S.view shelf.old).told (S.view shelf.old).faults (K.view out.old).told in
        let new = world (S.view shelf.new).told (S.view shelf.new).faults (K.view out.new).told in
        result ≡ ShareEnd.Done → AreShared parts.old parts.new old new }
    ensures stopped { let old = world (S.view shelf.old).told (S.view shelf.old).faults (K.view out.old).told in
        let new = world (S.view shelf.new).told (S.view shelf.new).faults (K.view out.new).told in
        result ≡ ShareEnd.WriteFault → AreStopped parts.old parts.new old new }
    ensures write_fault { result ≡ ShareEnd.WriteFault → Rose (K.view out.old).faults (K.view out.new).faults }
    ensures told { (S.view shelf.new).told ≡ (S.view shelf.old).told }
    ensures others { (q : List ℕ) → IsNoneOf (names_of parts.old) q → (S.view shelf.new).reach q
        ≡ (S.view shelf.old).reach q }
    ensures names { names_of parts.new ≡ names_of parts.old }
    ensures shelf_later { (S.view shelf.old).faults ≤ (S.view shelf.new).faults }
    ensures out_later { (K.view out.old).faults ≤ (K.view out.new).faults }
{
    let mut machine = machine;
    for _ in 0..u64::MAX {
        if !is_going(parts) {
            return ShareEnd::Done;
        }
        match make_round(machine, parts, shelf, out, room) {
            Err(_) => return ShareEnd::WriteFault,
            Ok(bare) => machine = bare,
        }
    }
    unreachable!()
}
