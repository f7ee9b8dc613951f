//! Configurations that wait beside a machine, with the states that their samples left.

ghost use Rattle.std.specs.Prelude.{ℕ, ◌≡◌, ◌<◌, ◌≤◌, ◌-◌, [], List, IfOk, IfErr, length, vec_len, vec_capacity};
ghost use Rattle.pr_machine_account.specs.Account.{left as left_of};
ghost use Rattle.pr_conf.specs.Shape.{Shape};
ghost use Rattle.pr_conf.specs.Configuration.{shape_of};
ghost use Rattle.pr_conf.specs.Rules.{bytes_in};
ghost use Rattle.pr_conf.specs.Through.{output_widths, steps_of};
ghost use Rattle.pr_conf.specs.After.{conf_after};
ghost use Rattle.pr_machine.specs.Places.{rows_of};
ghost use Rattle.pr_machine.specs.Ready.{AreReady};

use crate::buffers::{Buffers, buffers_for};
use crate::emptying::{begin_from, empty_all};
use crate::loaded::Loaded;
use crate::machine::{Bare, Idle, Machine, Running};
use pr_conf::Configuration;
use std::alloc::Global;

/// A configuration and the memory that its machine needs: a bare machine resumes it without taking any.
#[derive(Drop)]
pub struct Parked<const N: usize, const P: usize> {
    conf: Configuration<N, P>,
    buffers: Buffers<N>,
    ghost states: { (s : ℕ) → s < vec_len conf.stages → rows_of buffers.store s ≡ (steps_of N P (shape_of conf) s).init },
    ghost rows: { length buffers.store ≡ vec_len conf.stages },
    ghost ready: { AreReady (P - 1) (shape_of conf).stages buffers.prepared.items },
    ghost count: { vec_len buffers.prepared ≡ vec_len conf.stages },
    ghost input: { buffers.input ≡ record { size = bytes_in (shape_of conf).inputs; waiting = [] } },
    ghost output: { buffers.output ≡ record { size = bytes_in (output_widths (shape_of conf)); waiting = [] } },
    ghost sample: { vec_len buffers.sample ≡ bytes_in (shape_of conf).inputs },
    ghost buffer: { bytes_in (output_widths (shape_of conf)) ≤ vec_capacity buffers.result },
}

/// There was no memory to park a configuration. This hands back the configuration as it was.
#[derive(Drop)]
pub struct ParkRefused<const N: usize, const P: usize> {
    /// The configuration.
    pub conf: Configuration<N, P>,
}

impl<const N: usize, const P: usize> Parked<N, P> {
    /// A parked configuration, with all the memory that `resume` and `park` fill.
    ///
    /// # Errors
    ///
    /// `ParkRefused` where there is no memory: the configuration as it was.
    pub fn make(alloc: Global, conf: Configuration<N, P>) -> Result<Parked<N, P>, ParkRefused<N, P>>
        ensures conf { IfOk result (λ p. p.conf ≡ conf.entry) }
        ensures refused { IfErr result (λ r. r.conf ≡ conf.entry) }
    {
        match buffers_for(alloc, &conf) {
            Err(_) => Err(ParkRefused { conf }),
            Ok(buffers) => Ok(Parked { conf, buffers }),
        }
    }

    /// The configuration.
    pub fn conf(&self) -> &Configuration<N, P>
        ensures { result.now ≡ self.now.conf }
    {
        &self.conf
    }
}

impl<const N: usize, const P: usize> Machine<N, P, Bare> {
    ghost use Rattle.pr_machine.specs.Stands.{Stands, bare_stripes};
    ghost use Rattle.pr_machine.specs.Parking.{parked_conf};
    ghost use Rattle.pr_machine.specs.Rooms.{rooms_apart, rooms_of};

    /// Takes up a parked configuration: the machine begins at cycle 0 with empty queues, and each stage in the state in
    /// which the configuration has it begin. No memory is taken.
    pub fn resume(self, parked: Parked<N, P>) -> Machine<N, P, Running>
        ensures stands { Stands result (parked_conf parked.entry) (bare_stripes self.entry) [] }
        ensures conf { result.parts.conf ≡ parked.entry.conf }
        ensures rooms { rooms_of result ≡ rooms_apart self.entry parked.entry }
    {
        let Machine { parts } = self;
        let Idle { places } = parts;
        let Parked { conf, buffers } = parked;
        Machine {
            parts: Loaded::at_start(conf, places, buffers),
        }
    }
}

impl<const N: usize, const P: usize> Machine<N, P, Running> {
    ghost use Rattle.pr_machine.specs.Stands.{Stands, History, account_of, bare_stripes, stripes_of, conf_of, waiting_samples, waiting_results};
    ghost use Rattle.pr_machine.specs.Parking.{parked_conf};
    ghost use Rattle.pr_machine.specs.Rooms.{rooms_apart, rooms_of};

    /// Parks the configuration of a machine in which nothing is in flight: each of its stages then begins in the state in
    /// which the samples left it. The machine is bare again. No memory is taken.
    pub fn park(self) -> (Machine<N, P, Bare>, Parked<N, P>)
        requires gone { self.parts.entered ≡ self.parts.left }
        requires input { length (waiting_samples self) ≡ 0 }
        requires output { length (waiting_results self) ≡ 0 }
        ensures parked { (c : Shape) (p : ℕ) (h : History) → Stands self.entry c p h
            → parked_conf result.1 ≡ conf_after N P c (account_of c p h).offered }
        ensures all { (c : Shape) (p : ℕ) (h : History) → Stands self.entry c p h
            → left_of (length c.stages) (account_of c p h) ≡ length (account_of c p h).offered }
        ensures stripes { bare_stripes result.0 ≡ stripes_of self.entry }
        ensures inputs { (parked_conf result.1).inputs ≡ (conf_of self.entry).inputs }
        ensures outputs { (parked_conf result.1).outputs ≡ (conf_of self.entry).outputs }
        ensures rooms { rooms_apart result.0 result.1 ≡ rooms_of self.entry }
    {
        let Machine { parts } = self;
        let Loaded {
            mut conf,
            mut places,
            mut buffers,
            ..
        } = parts;
        empty_all(&mut places, &mut buffers.store);
        begin_from(&mut conf, &buffers.store);
        let machine = Machine {
            parts: Idle { places },
        };
        (machine, Parked { conf, buffers })
    }
}
