//! What the instances of names stand for: a name alone, or with an index.
ghost use Rattle.std.specs.Prelude.{◌≡◌, ℕ, Option, None, OnErr, OnOk, is_some, option_map};
ghost use Rattle.pr_scope_names.specs.Names.{instances_in, placed, placed_in, put_at, with_instance};

use pr_lang::Name;
use std::alloc::{AllocError, Global};
use std::collections::HashMap;

/// The instances of one name: alone, and by index.
#[derive(Drop)]
pub struct Places<T> {
    alone: Option<T>,
    indexed: HashMap<u64, T>,
}

impl<T: Drop> Places<T> {
    fn new(alloc: Global) -> Places<T>
        ensures { (q : Option ℕ) → placed_in result q ≡ None }
    {
        Places {
            alone: None,
            indexed: HashMap::new(alloc),
        }
    }

    fn get(&self, place: Option<u64>) -> Option<&T>
        ensures { option_map (λ x. x.now) result ≡ placed_in self.now place }
    {
        match place {
            None => self.alone.as_ref(),
            Some(index) => self.indexed.get(&index),
        }
    }

    fn set(&mut self, place: Option<u64>, what: T) -> Result<(), AllocError>
        ensures set { OnOk result ((q : Option ℕ) → placed_in self.new q ≡ put_at place what (placed_in self.old) q) }
        ensures same { OnErr result ((q : Option ℕ) → placed_in self.new q ≡ placed_in self.old q) }
    {
        match place {
            None => self.alone = Some(what),
            Some(index) => {
                self.indexed.insert(index, what)?;
            }
        }
        Ok(())
    }
}

/// What each name stands for, alone and with each index.
#[derive(Drop)]
pub struct Instances<T> {
    map: HashMap<Vec<u8>, Places<T>>,
}

impl<T: Drop> Instances<T> {
    /// No instance of any name.
    pub fn new(alloc: Global) -> Instances<T>
        ensures { instances_in result ≡ (λ _. None) }
    {
        Instances {
            map: HashMap::new(alloc),
        }
    }

    /// Whether an instance of the name stands for something.
    pub fn has_name(&self, name: &Name) -> bool
        ensures { result ≡ is_some (instances_in self.now name.now) }
    {
        self.map.get(name.as_bytes()).is_some()
    }

    /// What an instance stands for.
    pub fn get(&self, name: &Name, place: Option<u64>) -> Option<&T>
        ensures { option_map (λ x. x.now) result ≡ placed (instances_in self.now name.now) place }
    {
        match self.map.get(name.as_bytes()) {
            None => None,
            Some(places) => places.get(place),
        }
    }

    /// The instance stands for this from now on. Where memory is wanting, each stands for what it did.
    pub fn set(
        &mut self,
        alloc: Global,
        name: &Name,
        place: Option<u64>,
        what: T,
    ) -> Result<(), AllocError>
        ensures set { OnOk result (instances_in self.new ≡ with_instance name.now place what (instances_in self.old)) }
        ensures same { OnErr result (instances_in self.new ≡ instances_in self.old) }
    {
        match self.map.get_mut(name.as_bytes()) {
            None => self.begin(alloc, name, place, what),
            Some(places) => places.set(place, what),
        }
    }

    /// The first instance of a name.
    fn begin(
        &mut self,
        alloc: Global,
        name: &Name,
        place: Option<u64>,
        what: T,
    ) -> Result<(), AllocError>
        requires { instances_in self.old name.now ≡ None }
        ensures set { OnOk result (instances_in self.new ≡ with_instance name.now place what (instances_in self.old)) }
        ensures same { OnErr result (instances_in self.new ≡ instances_in self.old) }
    {
        let key = Vec::from_slice(alloc, name.as_bytes())?;
        let mut places = Places::new(alloc);
        places.set(place, what)?;
        self.map.insert(key, places)?;
        Ok(())
    }
}
