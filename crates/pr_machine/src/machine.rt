//! Machines, bare and running.

ghost use Rattle.std.specs.Prelude.{ℕ, ◌≡◌, ◌++◌, ◌∷◌, [], ◌<◌, ◌≤◌, ◌-◌, ◌+◌, ◌^◌, ◌↔◌, Option, Some, None, List, IsOk, IsErr, IfOk, IfErr, IfSome, OnOk, OnErr, is_ok, length, vec_len, vec_capacity, true};
ghost use Rattle.std.specs.Option.{option_copied};
ghost use Rattle.std.specs.Bool.{OnFalse};
ghost use Rattle.pr_machine_account.specs.Account.{Offer, Take, Cycle, left as left_of};
ghost use Rattle.pr_conf.specs.Shape.{Shape};
ghost use Rattle.pr_conf.specs.Configuration.{shape_of};
ghost use Rattle.pr_machine.specs.Places.{AreBare};

use crate::buffers::buffers_for;
use crate::loaded::Loaded;
use crate::places::StripePlace;
use pr_conf::{Configuration, Turn};
use pr_stripe::{Blank, Stripe};
use std::alloc::{AllocError, Global};
use thiserror::Error;

/// What a machine without a configuration is made of: blank stripes.
#[derive(Drop)]
pub struct Idle<const N: usize, const P: usize> {
    pub(crate) places: Vec<StripePlace<N, P>>,
    ghost two: { 2 ≤ vec_len places },
    ghost small: { vec_len places ≤ 256 },
    ghost bare: { AreBare places.items },
}

/// The condition of a machine without a configuration.
#[derive(Drop)]
pub struct Bare;

/// The condition of a machine with a configuration.
#[derive(Drop)]
pub struct Running;

/// What a machine is made of in a condition.
pub trait Condition<const N: usize, const P: usize> {
    /// The parts.
    type Parts: Drop;
}

impl<const N: usize, const P: usize> Condition<N, P> for Bare {
    type Parts = Idle<N, P>;
}

impl<const N: usize, const P: usize> Condition<N, P> for Running {
    type Parts = Loaded<N, P>;
}

/// A machine of stripes with N columns and P registers, in a condition.
#[derive(Drop)]
pub struct Machine<const N: usize, const P: usize, S: Condition<N, P>> {
    pub(crate) parts: S::Parts,
}

/// There was no memory to load a configuration. This hands back the machine and the configuration as they were.
#[derive(Drop)]
pub struct LoadRefused<const N: usize, const P: usize> {
    /// The machine.
    pub machine: Machine<N, P, Bare>,
    /// The configuration.
    pub conf: Configuration<N, P>,
}

/// As many samples wait as the input queue holds.
#[derive(Debug, Drop, Error)]
#[error("the input queue is full")]
pub struct InFull;

/// No result waits.
#[derive(Debug, Drop, Error)]
#[error("the output queue is empty")]
pub struct OutEmpty;

/// So many blank stripes.
fn blank_places<const N: usize, const P: usize>(
    alloc: Global,
    count: usize,
) -> Result<Vec<StripePlace<N, P>>, AllocError>
    requires columns { 1 ≤ N }
    requires most_columns { N ≤ 64 }
    requires registers { 2 ≤ P }
    requires most_registers { P ≤ 16 }
    ensures count { IfOk result (λ v. vec_len v ≡ count) }
    ensures bare { IfOk result (λ v. AreBare v.items) }
{
    let mut places = Vec::new(alloc);
    for _ in 0..count {
        places.push(StripePlace::Blank(Stripe::<N, P, Blank>::make(alloc)?))?;
    }
    Ok(places)
}

impl<const N: usize, const P: usize> Machine<N, P, Bare> {
    ghost use Rattle.pr_machine.specs.Stands.{Stands, bare_stripes, waiting_samples, waiting_results, time_of};

    /// A machine of so many blank stripes, from 2 to 256.
    pub fn make(alloc: Global, stripes: usize) -> Result<Self, AllocError>
        requires columns { 1 ≤ N }
        requires most_columns { N ≤ 64 }
        requires registers { 2 ≤ P }
        requires most_registers { P ≤ 16 }
        requires two { 2 ≤ stripes }
        requires small { stripes ≤ 256 }
        ensures { IfOk result (λ m. bare_stripes m ≡ stripes) }
    {
        let places = blank_places(alloc, stripes)?;
        Ok(Machine {
            parts: Idle { places },
        })
    }

    /// Loads a configuration, the last call that takes memory. The machine then begins at cycle 0 with empty queues.
    ///
    /// # Errors
    ///
    /// `LoadRefused` where there is no memory: the machine and the configuration as they were.
    pub fn load(
        self,
        alloc: Global,
        conf: Configuration<N, P>,
    ) -> Result<Machine<N, P, Running>, LoadRefused<N, P>>
        ensures stands { IfOk result (λ m. Stands m (shape_of conf.entry) (bare_stripes self.entry) []) }
        ensures conf { IfOk result (λ m. m.parts.conf ≡ conf.entry) }
        ensures refused { IfErr result (λ r. (r.machine ≡ self.entry) × (r.conf ≡ conf.entry)) }
    {
        match buffers_for(alloc, &conf) {
            Err(_) => Err(LoadRefused {
                machine: self,
                conf,
            }),
            Ok(buffers) => {
                let Machine { parts } = self;
                let Idle { places } = parts;
                Ok(Machine {
                    parts: Loaded::at_start(conf, places, buffers),
                })
            }
        }
    }
}

impl<const N: usize, const P: usize> Machine<N, P, Running> {
    ghost use Rattle.pr_machine.specs.Stands.{Stands, History, account_of, conf_of, stripes_of, time_of, sample_bytes_of, result_bytes_of, waiting_samples, waiting_results, reply_of, offer_reply, take_reply, cycle_reply, turn_of, IsStored, IsKept};
    ghost use Rattle.pr_machine.specs.Rooms.{rooms_of};

    /// Puts a sample at the end of the input queue. The piece has the sample's bytes.
    ///
    /// # Errors
    ///
    /// `InFull` exactly where 16 samples wait; the machine is then as it was.
    #[inline(always)]
    pub fn offer(&mut self, piece: &[u8]) -> Result<(), InFull>
        requires { length piece.now ≡ sample_bytes_of self.old }
        ensures stands { (c : Shape) (p : ℕ) (h : History) → Stands self.old c p h →
            Stands self.new c p (h ++ Offer piece.now ∷ []) }
        ensures reply { (c : Shape) (p : ℕ) (h : History) → Stands self.old c p h →
            offer_reply (is_ok result) ≡ reply_of N P c p h (Offer piece.now) }
        ensures full { IsErr result ↔ (length (waiting_samples self.old) ≡ 16) }
        ensures put { OnOk result (waiting_samples self.new ≡ waiting_samples self.old ++ piece.now ∷ []) }
        ensures same { OnErr result (waiting_samples self.new ≡ waiting_samples self.old) }
        ensures kept { IsKept self.old self.new }
        ensures results { waiting_results self.new ≡ waiting_results self.old }
        ensures rooms { rooms_of self.new ≡ rooms_of self.old }
    {
        match self.parts.buffers.input.put(piece) {
            Ok(()) => Ok(()),
            Err(_) => Err(InFull),
        }
    }

    /// Takes the front result into a buffer of the result's bytes.
    ///
    /// # Errors
    ///
    /// `OutEmpty` exactly where no result waits; the machine and the buffer are then as they were.
    #[inline(always)]
    pub fn take(&mut self, into: &mut [u8]) -> Result<(), OutEmpty>
        requires { length into.old ≡ result_bytes_of self.old }
        ensures stands { (c : Shape) (p : ℕ) (h : History) → Stands self.old c p h →
            Stands self.new c p (h ++ Take ∷ []) }
        ensures reply { (c : Shape) (p : ℕ) (h : History) → Stands self.old c p h →
            take_reply (is_ok result) into.new ≡ reply_of N P c p h Take }
        ensures empty { IsErr result ↔ (waiting_results self.old ≡ []) }
        ensures got { OnOk result (waiting_results self.old ≡ into.new ∷ waiting_results self.new) }
        ensures same { OnErr result ((waiting_results self.new ≡ waiting_results self.old) × (into.new ≡ into.old)) }
        ensures kept { IsKept self.old self.new }
        ensures samples { waiting_samples self.new ≡ waiting_samples self.old }
        ensures rooms { rooms_of self.new ≡ rooms_of self.old }
    {
        match self.parts.buffers.output.get(into) {
            Ok(()) => Ok(()),
            Err(_) => Err(OutEmpty),
        }
    }

    /// One cycle. Where the last stage would compute a valid row while 16 results wait, the cycle is stalled: it answers
    /// `advanced` false and changes nothing.
    #[inline(always)]
    pub fn cycle(&mut self) -> Turn
        requires { time_of self.old < 2 ^ 63 }
        ensures stands { (c : Shape) (p : ℕ) (h : History) → Stands self.old c p h →
            Stands self.new c p (h ++ Cycle ∷ []) }
        ensures turn { (c : Shape) (p : ℕ) (h : History) → Stands self.old c p h →
            result ≡ turn_of (length c.stages) p (account_of c p h) }
        ensures reply { (c : Shape) (p : ℕ) (h : History) → Stands self.old c p h →
            cycle_reply result.advanced ≡ reply_of N P c p h Cycle }
        ensures stalled { OnFalse result.advanced (self.new ≡ self.old) }
        ensures conf { self.new.parts.conf ≡ self.old.parts.conf }
        ensures stripes { stripes_of self.new ≡ stripes_of self.old }
        ensures time { time_of self.new ≤ time_of self.old + 1 }
        ensures rooms { rooms_of self.new ≡ rooms_of self.old }
    {
        let schedule = self.parts.schedule();
        if self.parts.is_held(&schedule) {
            return Turn {
                advanced: false,
                configured: None,
                saved: None,
                entered: None,
                left: None,
            };
        }
        self.parts.advance(&schedule)
    }

    /// The state row of a stage in the store; none exactly where a stripe holds the stage or there is no such stage.
    pub fn stored(&self, stage: u32) -> Option<&[u8]>
        ensures size { IfSome result (λ row. length row.now ≡ N) }
        ensures stored { (c : Shape) (p : ℕ) (h : History) → Stands self.now c p h →
            IsStored N P c p (account_of c p h) stage (option_copied result) }
    {
        if stage as usize >= self.parts.conf.stages() {
            return None;
        }
        if self.parts.plan.resident(stage) {
            return None;
        }
        Some(self.parts.buffers.store.row(stage))
    }

    /// How many cycles have advanced.
    pub fn time(&self) -> u64
        ensures is { result ≡ time_of self.now }
        ensures told { (c : Shape) (p : ℕ) (h : History) → Stands self.now c p h
            → result ≡ (account_of c p h).time }
    {
        self.parts.plan.time()
    }

    /// How many samples have entered.
    pub fn entered(&self) -> u64
        ensures is { result ≡ self.now.parts.entered }
        ensures told { (c : Shape) (p : ℕ) (h : History) → Stands self.now c p h
            → result ≡ length (account_of c p h).entries }
    {
        self.parts.entered
    }

    /// How many results have left.
    pub fn left(&self) -> u64
        ensures is { result ≡ self.now.parts.left }
        ensures told { (c : Shape) (p : ℕ) (h : History) → Stands self.now c p h
            → result ≡ left_of (length c.stages) (account_of c p h) }
    {
        self.parts.left
    }

    /// How many samples wait, 16 at most.
    pub fn waiting_in(&self) -> usize
        ensures is { result ≡ length (waiting_samples self.now) }
        ensures told { (c : Shape) (p : ℕ) (h : History) → Stands self.now c p h
            → result ≡ length (account_of c p h).offered - length (account_of c p h).entries }
        ensures few { result ≤ 16 }
    {
        self.parts.buffers.input.len()
    }

    /// How many results wait, 16 at most.
    pub fn waiting_out(&self) -> usize
        ensures is { result ≡ length (waiting_results self.now) }
        ensures told { (c : Shape) (p : ℕ) (h : History) → Stands self.now c p h
            → result ≡ left_of (length c.stages) (account_of c p h) - (account_of c p h).taken }
        ensures few { result ≤ 16 }
    {
        self.parts.buffers.output.len()
    }

    /// The bytes of a result: 1,024 at most.
    pub fn result_bytes(&self) -> usize
        ensures is { result ≡ result_bytes_of self.now }
        ensures most { result ≤ 1024 }
    {
        self.parts.buffers.output.piece_bytes()
    }

    /// The configuration.
    pub fn conf(&self) -> &Configuration<N, P>
        ensures is { result.now ≡ self.now.parts.conf }
        ensures told { (c : Shape) (p : ℕ) (h : History) → Stands self.now c p h → shape_of result.now ≡ c }
    {
        &self.parts.conf
    }
}
