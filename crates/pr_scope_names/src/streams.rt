//! The streams that are assigned.
ghost use Rattle.std.specs.Prelude.{◌≡◌, None, OnErr, OnOk, is_some};
ghost use Rattle.pr_scope_names.specs.Names.{held, streams_in, with_place};

use crate::instances::Instances;
use pr_lang::Name;
use std::alloc::{AllocError, Global};

/// A name, alone or with an index.
#[derive(Drop)]
pub struct Instance {
    pub name: Name,
    pub index: Option<u64>,
}

/// The streams that are assigned, by their names.
#[derive(Drop)]
pub struct Streams {
    instances: Instances<()>,
}

impl Streams {
    /// No streams.
    pub fn new(alloc: Global) -> Streams
        ensures { streams_in result ≡ (λ _. None) }
    {
        Streams {
            instances: Instances::new(alloc),
        }
    }

    /// Whether an instance of the name is assigned.
    pub fn has_name(&self, name: &Name) -> bool
        ensures { result ≡ is_some (streams_in self.now name.now) }
    {
        self.instances.has_name(name)
    }

    /// Whether this instance is assigned.
    pub fn has(&self, name: &Name, place: Option<u64>) -> bool
        ensures { result ≡ held (streams_in self.now name.now) place }
    {
        self.instances.get(name, place).is_some()
    }

    /// This instance is assigned from now on. Where memory is wanting, the same ones are as before.
    pub fn add(&mut self, alloc: Global, name: &Name, place: Option<u64>) -> Result<(), AllocError>
        ensures added { OnOk result (streams_in self.new ≡ with_place name.now place (streams_in self.old)) }
        ensures same { OnErr result (streams_in self.new ≡ streams_in self.old) }
    {
        self.instances.set(alloc, name, place, ())
    }
}
