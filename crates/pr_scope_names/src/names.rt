//! The names that are known without any sample: constants, tables, indices and functions.
ghost use Rattle.std.specs.Prelude.{◌≡◌, IfOk, None, OnErr, OnOk, Some, bytes_eq, option_map, slice_get};
ghost use Rattle.std.specs.Map.{update};
ghost use Rattle.pr_scope_names.specs.Names.{IsOutside, before, bind, bind_by, built_in, entries_in, horizon_in, horizon_of, indices_in, indices_of, is_seen, known_in, unbind, what_before, whole};

use pr_lang::Name;
use std::alloc::{AllocError, Global};
use std::collections::BTreeMap;
use std::marker::Model;
use std::mem;

/// The entries of a table, seen as a list of numbers.
#[derive(Debug, Drop)]
pub struct Table {
    entries: Vec<u64>,
}

impl Model for Table {
    ghost use Rattle.std.specs.Prelude.{List, ℕ};

    ghost Value = { List ℕ };

    ghost view = { λ t. t.entries.items };
}

impl Table {
    /// The table of these entries.
    pub fn new(entries: Vec<u64>) -> Table
        ensures { result ≡ entries.items }
    {
        Table { entries }
    }

    /// The entry at this place, where the table is that long.
    pub fn get(&self, place: u64) -> Option<u64>
        ensures { result ≡ slice_get self.now place }
    {
        self.entries.as_slice().get(place as usize).copied()
    }
}

/// A function, as its callers see it.
#[derive(Clone, Copy, Debug, PartialEq, Eq)]
pub struct Callee {
    /// The number of the item that defines it; none for `signed`, which is built in.
    pub item: Option<u32>,
    /// The number of its parameters.
    pub params: usize,
    /// The turns of its body.
    pub turns: u32,
    /// 1 more than the greatest depth of the functions that it calls, 1 where it calls none; `signed` has 0.
    pub depth: u32,
    /// Whether its text has `@` or `rec`, or the text of a function that it calls, itself or through others.
    pub past: bool,
}

/// What a name stands for that is no stream.
#[derive(Debug, Drop)]
pub enum Static {
    Constant(u64),
    Index(u64),
    Table(Table),
    Function(Callee),
}

/// What a name stands for, and the number of the item that introduces it; none where it is built in.
#[derive(Drop)]
pub struct Entry {
    item: Option<u32>,
    what: Static,
}

/// The names that stand for no stream, where they are visible: those that items introduce, and the indices of the loops
/// around. In a function's body only the items before the function are seen.
#[derive(Drop)]
pub struct Statics {
    entries: BTreeMap<Vec<u8>, Entry>,
    indices: BTreeMap<Vec<u8>, Static>,
    horizon: Option<u32>,
}

/// What was visible where a function is called, beside what items introduce.
#[derive(Drop)]
pub struct Frame {
    indices: BTreeMap<Vec<u8>, Static>,
    horizon: Option<u32>,
}

fn is_before(item: Option<u32>, horizon: Option<u32>) -> bool
    ensures { result ≡ is_seen item horizon }
{
    match item {
        None => true,
        Some(item) => match horizon {
            None => true,
            Some(horizon) => item < horizon,
        },
    }
}

/// What the entry stands for, where its item is seen.
fn seen(entry: &Entry, horizon: Option<u32>) -> Option<&Static>
    ensures { option_map (λ s. s.now) result ≡ what_before horizon (Some entry.now) }
{
    if is_before(entry.item, horizon) {
        return Some(&entry.what);
    }
    None
}

impl Statics {
    /// The names that are visible before the first item.
    pub fn new(alloc: Global) -> Result<Statics, AllocError>
        ensures known { IfOk result (λ s. known_in s ≡ built_in) }
        ensures first { IfOk result (λ s. before 0 (entries_in s) ≡ built_in) }
        ensures whole { IfOk result (λ s. whole (entries_in s) ≡ built_in) }
        ensures indices { IfOk result (λ s. indices_in s ≡ (λ _. None)) }
        ensures outside { IfOk result IsOutside }
    {
        let mut statics = Statics {
            entries: BTreeMap::new(alloc),
            indices: BTreeMap::new(alloc),
            horizon: None,
        };
        let signed = Callee {
            item: None,
            params: 1,
            turns: 0,
            depth: 0,
            past: false,
        };
        let name = Vec::from_slice(alloc, b"signed")?;
        let entry = Entry {
            item: None,
            what: Static::Function(signed),
        };
        statics.put(name, entry)?;
        Ok(statics)
    }

    /// What the name stands for, where it is visible and no stream.
    pub fn get(&self, name: &Name) -> Option<&Static>
        ensures { option_map (λ s. s.now) result ≡ known_in self.now name.now }
    {
        let index = self.indices.get(name.as_bytes());
        if index.is_some() {
            return index;
        }
        seen(self.entries.get(name.as_bytes())?, self.horizon)
    }

    /// The name stands for this from the item of this number on.
    pub fn set(
        &mut self,
        alloc: Global,
        name: &Name,
        item: u32,
        what: Static,
    ) -> Result<(), AllocError>
        requires outside { IsOutside self.old }
        requires free { known_in self.old name.now ≡ None }
        ensures known { OnOk result (known_in self.new ≡ bind name.now what (known_in self.old)) }
        ensures entries { OnOk result (entries_in self.new ≡ bind_by item name.now what (entries_in self.old)) }
        ensures same { OnErr result (entries_in self.new ≡ entries_in self.old) }
        ensures indices { indices_in self.new ≡ indices_in self.old }
        ensures horizon { horizon_in self.new ≡ horizon_in self.old }
    {
        let name = Vec::from_slice(alloc, name.as_bytes())?;
        let entry = Entry {
            item: Some(item),
            what,
        };
        self.put(name, entry)
    }

    fn put(&mut self, name: Vec<u8>, entry: Entry) -> Result<(), AllocError>
        ensures entries { OnOk result (entries_in self.new ≡ bind name.items entry (entries_in self.old)) }
        ensures same { OnErr result (entries_in self.new ≡ entries_in self.old) }
        ensures indices { indices_in self.new ≡ indices_in self.old }
        ensures horizon { horizon_in self.new ≡ horizon_in self.old }
    {
        self.entries.insert(name, entry)?;
        Ok(())
    }

    /// The name stands for this index from now on.
    pub fn set_index(&mut self, alloc: Global, name: &Name, index: u64) -> Result<(), AllocError>
        ensures known { OnOk result (known_in self.new ≡ bind name.now (Static.Index index) (known_in self.old)) }
        ensures indices { OnOk result (indices_in self.new ≡ bind name.now (Static.Index index) (indices_in self.old)) }
        ensures same { OnErr result (indices_in self.new ≡ indices_in self.old) }
        ensures entries { entries_in self.new ≡ entries_in self.old }
        ensures horizon { horizon_in self.new ≡ horizon_in self.old }
    {
        let name = Vec::from_slice(alloc, name.as_bytes())?;
        self.indices.insert(name, Static::Index(index))?;
        Ok(())
    }

    /// The name stands for no index from now on.
    pub fn unset_index(&mut self, name: &Name)
        ensures indices { indices_in self.new ≡ unbind name.now (indices_in self.old) }
        ensures entries { entries_in self.new ≡ entries_in self.old }
        ensures horizon { horizon_in self.new ≡ horizon_in self.old }
    {
        let _was = self.indices.remove(name.as_bytes());
    }

    /// The name stands for this index from now on, or for none; the result is what it stood for before.
    pub fn swap_index(
        &mut self,
        alloc: Global,
        name: &Name,
        index: Option<Static>,
    ) -> Result<Option<Static>, AllocError>
        ensures was { IfOk result (λ was. was ≡ indices_in self.old name.now) }
        ensures indices { OnOk result (indices_in self.new
            ≡ (λ q. update bytes_eq (indices_in self.old) name.now index q)) }
        ensures same { OnErr result (indices_in self.new ≡ indices_in self.old) }
        ensures entries { entries_in self.new ≡ entries_in self.old }
        ensures horizon { horizon_in self.new ≡ horizon_in self.old }
    {
        match index {
            None => Ok(self.indices.remove(name.as_bytes())),
            Some(index) => {
                let name = Vec::from_slice(alloc, name.as_bytes())?;
                let was = self.indices.insert(name, index)?;
                Ok(was)
            }
        }
    }

    /// Into the body of the function that the item of this number defines: what it sees is what was visible there.
    pub fn enter(&mut self, alloc: Global, item: u32) -> Frame
        ensures known { known_in self.new ≡ before item (entries_in self.old) }
        ensures inside { horizon_in self.new ≡ Some item }
        ensures entries { entries_in self.new ≡ entries_in self.old }
        ensures indices { indices_of result ≡ indices_in self.old }
        ensures horizon { horizon_of result ≡ horizon_in self.old }
    {
        let indices = mem::replace(&mut self.indices, BTreeMap::new(alloc));
        let frame = Frame {
            indices,
            horizon: self.horizon,
        };
        self.horizon = Some(item);
        frame
    }

    /// Back to where the function was called.
    pub fn leave(&mut self, frame: Frame)
        ensures entries { entries_in self.new ≡ entries_in self.old }
        ensures indices { indices_in self.new ≡ indices_of frame }
        ensures horizon { horizon_in self.new ≡ horizon_of frame }
    {
        self.indices = frame.indices;
        self.horizon = frame.horizon;
    }
}
