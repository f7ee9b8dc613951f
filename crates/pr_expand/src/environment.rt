//! What the names of streams stand for.
ghost use Rattle.std.specs.Prelude.{◌≡◌, OnErr, OnOk};
ghost use Rattle.pr_expand_spec.specs.Statements.{with_standing};
ghost use Rattle.pr_expand_spec.specs.Programs.{no_streams};
ghost use Rattle.pr_expand.specs.Code.{streams_in};

use pr_expand_spec::Standing;
use pr_lang::Name;
use pr_scope_names::Instances;
use std::alloc::{AllocError, Global};

/// What each name stands for, alone and with each index.
#[derive(Drop)]
pub struct Environment {
    instances: Instances<Standing>,
}

impl Environment {
    /// No streams.
    pub fn new(alloc: Global) -> Environment
        ensures { streams_in result ≡ no_streams }
    {
        Environment {
            instances: Instances::new(alloc),
        }
    }

    /// What an instance stands for.
    pub fn get(&self, name: &Name, place: Option<u64>) -> Option<Standing>
        ensures { result ≡ streams_in self.now name.now place }
    {
        self.instances.get(name, place).copied()
    }

    /// The instance stands for this from now on. Where memory is wanting, each stands for what it did.
    pub fn set(
        &mut self,
        alloc: Global,
        name: &Name,
        place: Option<u64>,
        standing: Standing,
    ) -> Result<(), AllocError>
        ensures stands { OnOk result (streams_in self.new
            ≡ with_standing name.now place standing (streams_in self.old)) }
        ensures same { OnErr result (streams_in self.new ≡ streams_in self.old) }
    {
        self.instances.set(alloc, name, place, standing)
    }
}
