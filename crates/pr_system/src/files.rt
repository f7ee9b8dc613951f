//! Real files as a shelf.
ghost use Rattle.std.specs.Prelude.{◌≡◌, ◌≢◌, ℕ, ◌^◌, ◌<◌, ◌≤◌, ◌+◌, ◌-◌, List, length, take, min, vec_len, IfOk, IsErr, OnErr, OnOk};
ghost use Rattle.pr_edge.specs.Count.{Rose};
ghost use Rattle.pr_edge.specs.Files.{OfFile, IsMissing, IsPart, HasReadCause, reach_after};
ghost use Rattle.pr_system.specs.Files.{untold, unreached};
ghost use Rattle.pr_system.specs.Slots.{IsReadOn, IsSlotFor, IsInTurn, IsTurn};

use crate::gathering::Gathering;
use crate::slots::{Slot, find, put_back, take_out};
use pr_edge::{Failed, Shelf};
use std::alloc::{AllocError, Global};
use std::cell::RefCell;
use std::io::{self, Read, Write};
use std::rt::Files;

/// The files that are kept open at most: a list, and eight programs with their samples.
const FILES: usize = 17;

/// The files of the system. Each file stays open after a read, so that a pipe is read on where the last read ended, also
/// where other files are read in between. Before a read that may wait, what is gathered of the results is handed on.
///
/// All memory is taken when it is made.
#[derive(Drop)]
pub struct FileShelf<'a, R: Files, W: Write + Drop> {
    alloc: Global,
    rt: &'a R,
    results: &'a RefCell<Gathering<W>>,
    slots: Vec<Slot<R::File>>,
    /// The slot that the next file takes which has none.
    next: usize,
    faults: u64,
    ghost in_range: { faults < 2 ^ 64 },
    ghost within: { next < vec_len slots },
}

/// Slots without files.
fn make_slots<F: Read + Drop>(alloc: Global) -> Result<Vec<Slot<F>>, AllocError>
    ensures { IfOk result (λ slots. 17 ≤ vec_len slots) }
{
    let mut slots = Vec::with_capacity(alloc, FILES)?;
    while slots.len() < FILES {
        slots.push(Slot::make(alloc)?)?;
    }
    Ok(slots)
}

impl<'a, R: Files, W: Write + Drop> FileShelf<'a, R, W> {
    /// A shelf of which no call failed yet.
    pub fn make(
        alloc: Global,
        rt: &'a R,
        results: &'a RefCell<Gathering<W>>,
    ) -> Result<Self, AllocError>
        ensures { IfOk result (λ s. s.faults ≡ 0) }
    {
        Ok(FileShelf {
            alloc,
            rt,
            results,
            slots: make_slots(alloc)?,
            next: 0,
            faults: 0,
        })
    }

    /// The slot for the file of this name.
    fn slot_of(&mut self, name: &str) -> usize
        ensures slot { IsSlotFor self.new.slots.items name.now result }
        ensures turn { IsInTurn self.old.slots.items self.old.next self.new.next name.now result }
        ensures within { result < vec_len self.new.slots }
        ensures slots { self.new.slots ≡ self.old.slots }
        ensures faults { self.new.faults ≡ self.old.faults }
    {
        match find(&self.slots, name) {
            Some(at) => at,
            None => {
                let at = self.next;
                self.next = (at + 1) % self.slots.len();
                at
            }
        }
    }

    /// Reads the file from this place on, where it is open already if that is where it stands.
    fn read(&mut self, name: &str, place: u64, buf: &mut [u8]) -> io::Result<usize>
        ensures bound { IfOk result (λ k. k ≤ length buf.new) }
        ensures faults { self.new.faults ≡ self.old.faults }
        ensures read { IfOk result (λ k.
            IsReadOn R.File.remaining self.old.slots.items self.new.slots.items name.now place k (take k buf.new)) }

        // All slots but that of the name stay. A name without a slot takes the next one in turn.
        ensures turn { IsTurn self.old.slots.items self.new.slots.items self.old.next self.new.next name.now }
    {
        let at = self.slot_of(name);
        let slot = take_out(self.alloc, &mut self.slots, at);
        let (slot, result) = slot.read(self.rt, self.results, name, place, buf);
        put_back(&mut self.slots, at, slot);
        result
    }
}

impl<'a, R: Files, W: Write + Drop> Shelf for FileShelf<'a, R, W> {
    ghost view = { λ s. record { told = untold; reach = unreached; faults = s.faults } };

    ghost counted = { λ s. s.in_range };

    fn read_at(&mut self, name: &str, place: u64, buf: &mut [u8]) -> Result<usize, Failed>
        ensures bound { IfOk result (λ k. k ≤ length buf.new) }
        ensures part { IfOk result (λ k. OfFile untold name.now (λ file. IsPart file place k buf.new)) }
        ensures missing { IsMissing untold name.now → IsErr result × (self.new.faults ≡ self.old.faults) }
        ensures cause { OnErr result (HasReadCause untold name.now self.old.faults self.new.faults) }
        ensures later { self.old.faults ≤ self.new.faults }
        ensures steady { OnOk result (self.new.faults ≡ self.old.faults) }
        ensures same { untold ≡ untold }
        ensures reached { unreached name.now ≡ reach_after result (unreached name.now) place }
        ensures others { (q : List ℕ) → q ≢ name.now → unreached q ≡ unreached q }

        // What the file gave, where that is known, and which slots changed.
        ensures read { IfOk result (λ k.
            IsReadOn R.File.remaining self.old.slots.items self.new.slots.items name.now place k (take k buf.new)) }
        ensures turn { IsTurn self.old.slots.items self.new.slots.items self.old.next self.new.next name.now }
    {
        match self.read(name, place, buf) {
            Ok(count) => Ok(count),
            Err(_) => {
                self.faults = self.faults.saturating_add(1);
                Err(Failed)
            }
        }
    }
}
