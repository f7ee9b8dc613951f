//! The files that a shelf keeps open, each under its name.
ghost use Rattle.std.specs.Prelude.{slice_set, vec_len, ◌<◌, ◌≡◌, ◌↔◌, ℕ, ◌+◌, ◌-◌, ◌^◌, ◌≤◌, [], length, take, None, IfOk, OnOk, IfSome, IfNone, IsTrue, string_bytes, min, option_map};
ghost use Rattle.pr_system.specs.Gathering.{IsHandedOn};
ghost use Rattle.pr_system.specs.Slots.{IsFirst, NoneBefore, IsOpenAt, MayWait, IsAt, GaveFrom, IsRead, IsTakenOut};

use crate::gathering::Gathering;
use crate::opened::{Opened, open_at};
use std::alloc::{AllocError, Global};
use std::cell::RefCell;
use std::io::{self, ErrorKind, Read, Write};
use std::mem;
use std::rt::Files;

/// The bytes of a name at most: the system takes no path that is longer.
const NAME: usize = 4096;

/// A place on the shelf: a name, and its file where that is open. There is room for every name.
#[derive(Drop)]
pub struct Slot<F> {
    name: String,
    opened: Option<Opened<F>>,
}

impl<F: Read + Drop> Slot<F> {
    /// A slot without a file.
    pub fn make(alloc: Global) -> Result<Self, AllocError>
        ensures { IfOk result (λ s. (string_bytes s.name ≡ []) × (s.opened ≡ None)) }
    {
        Ok(Slot {
            name: String::with_capacity(alloc, NAME)?,
            opened: None,
        })
    }

    /// Whether the file of this name is open here, and was read up to this place.
    fn is_at(&self, name: &str, place: u64) -> bool
        ensures { IsTrue result ↔ IsAt self.now name.now place }
    {
        match &self.opened {
            Some(opened) => opened.place == place && self.name.as_str() == name,
            None => false,
        }
    }

    /// What stands in the place of a slot that was taken out.
    pub fn absent(alloc: Global) -> Self
        ensures { (string_bytes result.name ≡ []) × (result.opened ≡ None) }
    {
        Slot {
            name: String::new(alloc),
            opened: None,
        }
    }

    /// Whether a read may wait: of all that is no regular file, since nothing tells whether it will.
    fn may_wait(&self) -> bool
        ensures { IsTrue result ↔ MayWait self.now }
    {
        match &self.opened {
            Some(opened) => !opened.kind.is_file(),
            None => false,
        }
    }

    /// Takes the name, and gives up the file that it had.
    fn rename(&mut self, name: &str) -> io::Result<()>
        ensures { OnOk result (string_bytes self.new.name ≡ name.now) }
    {
        self.opened = None;
        self.name.clear();
        self.name.push_str(name)?;
        Ok(())
    }

    /// Sees that the file of this name is open at this place. A file that stands there stays open.
    fn open<R: Files<File = F>>(&mut self, rt: &R, name: &str, place: u64) -> io::Result<()>
        ensures open { OnOk result (IsAt self.new name.now place) }
        ensures kept { IsAt self.old name.now place → self.new ≡ self.old }
    {
        if self.is_at(name, place) {
            return Ok(());
        }
        let opened = open_at(rt, name, place)?;
        self.rename(name)?;
        self.opened = Some(opened);
        Ok(())
    }

    /// Reads on where its file stands. Before a read that may wait, the results were handed on.
    fn read_on<W: Write + Drop>(
        &mut self,
        _results: &Gathering<W>,
        buf: &mut [u8],
    ) -> io::Result<usize>
        requires { MayWait self.old → IsHandedOn _results.now }
        ensures bound { IfOk result (λ k. k ≤ length buf.new) }
        ensures name { self.new.name ≡ self.old.name }
        ensures kind { option_map (λ o. o.kind) self.new.opened ≡ option_map (λ o. o.kind) self.old.opened }
        ensures bytes { IfOk result (λ k. (place : ℕ) →
            GaveFrom F.remaining self.old.opened self.new.opened place (take k buf.new)) }
        ensures place { IfOk result (λ k. (place : ℕ) → IsOpenAt self.old place →
            IsOpenAt self.new (min (place + k) (2 ^ 64 - 1))) }
    {
        match &mut self.opened {
            Some(opened) => opened.read(buf),
            None => Err(io::Error::from(ErrorKind::NotFound)),
        }
    }

    /// Reads the file of this name from this place on. Before a read that may wait, the results are handed on.
    fn read_at<R: Files<File = F>, W: Write + Drop>(
        &mut self,
        rt: &R,
        results: &RefCell<Gathering<W>>,
        name: &str,
        place: u64,
        buf: &mut [u8],
    ) -> io::Result<usize>
        ensures bound { IfOk result (λ k. k ≤ length buf.new) }
        ensures read { IfOk result (λ k. IsRead F.remaining self.old self.new name.now place k (take k buf.new)) }
    {
        self.open(rt, name, place)?;
        match results.try_borrow_mut() {
            Ok(mut gathering) => {
                if self.may_wait() {
                    gathering.hand_on();
                }
                self.read_on(&gathering, buf)
            }
            Err(_) => Err(io::Error::from(ErrorKind::ResourceBusy)),
        }
    }

    /// Reads the file of this name from this place on, and gives the slot back.
    pub fn read<R: Files<File = F>, W: Write + Drop>(
        mut self,
        rt: &R,
        results: &RefCell<Gathering<W>>,
        name: &str,
        place: u64,
        buf: &mut [u8],
    ) -> (Self, io::Result<usize>)
        ensures bound { IfOk result.1 (λ k. k ≤ length buf.new) }
        ensures read { IfOk result.1 (λ k. IsRead F.remaining self result.0 name.now place k (take k buf.new)) }
    {
        let result = self.read_at(rt, results, name, place, buf);
        (self, result)
    }
}

/// The first slot of the file of this name.
pub fn find<F>(slots: &[Slot<F>], name: &str) -> Option<usize>
    ensures some { IfSome result (λ i. IsFirst slots.now name.now i) }
    ensures none { IfNone result (NoneBefore slots.now name.now (length slots.now)) }
{
    for (i, slot) in slots.iter().enumerate() {
        if slot.name.as_str() == name {
            return Some(i);
        }
    }
    None
}

/// Takes a slot out of its place.
pub fn take_out<F: Read + Drop>(alloc: Global, slots: &mut Vec<Slot<F>>, at: usize) -> Slot<F>
    requires { at < vec_len slots.old }
    ensures { IsTakenOut slots.old.items slots.new.items at result }
{
    mem::replace(&mut slots[at], Slot::absent(alloc))
}

/// Puts a slot into a place.
pub fn put_back<F: Drop>(slots: &mut Vec<Slot<F>>, at: usize, slot: Slot<F>)
    requires { at < vec_len slots.old }
    ensures { slots.new.items ≡ slice_set slots.old.items at slot }
{
    slots[at] = slot;
}
