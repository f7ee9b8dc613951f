//! What a running machine is made of, and one cycle of it.

ghost use Rattle.std.specs.Prelude.{ℕ, ◌≡◌, ◌≢◌, ◌++◌, ◌∷◌, [], ◌<◌, ◌≤◌, ◌-◌, ◌+◌, ◌^◌, Option, Some, None, IfSome, List, is_some, length, vec_len, vec_capacity, true, false, if◌then◌else◌};
ghost use Rattle.pr_machine_account.specs.Account.{Cycle, stalled};
ghost use Rattle.pr_control.specs.Time.{turned};
ghost use Rattle.pr_conf.specs.Shape.{Shape};
ghost use Rattle.pr_conf.specs.Configuration.{shape_of};
ghost use Rattle.pr_conf.specs.Rules.{bytes_in};
ghost use Rattle.pr_conf.specs.Through.{output_widths, steps_of};
ghost use Rattle.pr_machine_refines.specs.Cycle.{will_enter, bus_of, rest_of, pushed, HasRoom};
ghost use Rattle.pr_stripe.specs.Rows.{entering as row_if};
ghost use Rattle.pr_machine.specs.Places.{AreHere, AreBare, AreIdle, rows_of, spots_of};
ghost use Rattle.pr_machine.specs.Ready.{AreReady};
ghost use Rattle.pr_machine.specs.Schedules.{IsScheduled};

use crate::buffers::Buffers;
use crate::places::{Schedule, StripePlace, is_stalled, pass};
use pr_conf::{Configuration, Turn};
use pr_control::Plan;

/// What a running machine is made of.
#[derive(Drop)]
pub struct Loaded<const N: usize, const P: usize> {
    pub(crate) conf: Configuration<N, P>,
    pub(crate) places: Vec<StripePlace<N, P>>,
    pub(crate) buffers: Buffers<N>,
    pub(crate) plan: Plan,
    pub(crate) live: usize,
    pub(crate) entered: u64,
    pub(crate) left: u64,
    ghost two: { 2 ≤ vec_len places },
    ghost small: { vec_len places ≤ 256 },
    ghost plan_stages: { plan.stages ≡ vec_len conf.stages },
    ghost plan_stripes: { plan.stripes ≡ vec_len places },
    ghost here: { AreHere (vec_len conf.stages) places.items },
    ghost live_in: { live ≤ vec_len places },
    ghost idle: { AreIdle live (spots_of places.items) },
    ghost rows: { length buffers.store ≡ vec_len conf.stages },
    ghost ready: { AreReady (P - 1) (shape_of conf).stages buffers.prepared.items },
    ghost count: { vec_len buffers.prepared ≡ vec_len conf.stages },
    ghost input: { buffers.input.size ≡ bytes_in (shape_of conf).inputs },
    ghost output: { buffers.output.size ≡ bytes_in (output_widths (shape_of conf)) },
    ghost sample: { vec_len buffers.sample ≡ bytes_in (shape_of conf).inputs },
    ghost buffer: { bytes_in (output_widths (shape_of conf)) ≤ vec_capacity buffers.result },
    ghost entered_in: { entered ≤ plan.time },
    ghost left_in: { left ≤ plan.time },
}

/// Takes the sample that enters into its buffer, and says whether one does. On a bubble the buffer is as it was.
#[inline(always)]
fn enter<const N: usize>(buffers: &mut Buffers<N>, first: Option<usize>) -> bool
    requires { vec_len buffers.old.sample ≡ buffers.old.input.size }
    ensures bus { row_if result buffers.new.sample.items ≡ bus_of buffers.old.input.waiting first }
    ensures rest { buffers.new.input.waiting ≡ rest_of buffers.old.input.waiting first }
    ensures size { buffers.new.input.size ≡ buffers.old.input.size }
    ensures length { vec_len buffers.new.sample ≡ vec_len buffers.old.sample }
    ensures room { vec_capacity buffers.new.sample ≡ vec_capacity buffers.old.sample }
    ensures others { (buffers.new.store ≡ buffers.old.store) × (buffers.new.output ≡ buffers.old.output)
        × (buffers.new.result ≡ buffers.old.result) × (buffers.new.prepared ≡ buffers.old.prepared) }
{
    match first {
        None => false,
        Some(_) => buffers.input.get(&mut buffers.sample).is_ok(),
    }
}

/// Puts the result that left into its queue.
#[inline(always)]
fn put_result<const N: usize>(buffers: &mut Buffers<N>, left: bool)
    requires { left ≡ true → length buffers.old.result.items ≡ buffers.old.output.size }
    ensures put { HasRoom buffers.old.output.waiting (row_if left buffers.old.result.items)
        → buffers.new.output.waiting ≡ pushed buffers.old.output.waiting (row_if left buffers.old.result.items) }
    ensures size { buffers.new.output.size ≡ buffers.old.output.size }
    ensures others { (buffers.new.store ≡ buffers.old.store) × (buffers.new.input ≡ buffers.old.input)
        × (buffers.new.result ≡ buffers.old.result) × (buffers.new.sample ≡ buffers.old.sample) × (buffers.new.prepared ≡ buffers.old.prepared) }
{
    if left {
        let _told = buffers.output.put(&buffers.result);
    }
}

/// A number, where something has it.
#[inline(always)]
fn numbered(holds: bool, number: u64) -> Option<u64>
    ensures { result ≡ (if holds then Some number else None) }
{
    if holds { Some(number) } else { None }
}

/// One, where it holds.
#[inline(always)]
fn counted(holds: bool) -> u64
    ensures is { result ≡ (if holds then 1 else 0) }
    ensures few { result ≤ 1 }
{
    if holds { 1 } else { 0 }
}

/// The place from which on no stripe has a stage, after an event.
#[inline(always)]
fn live_after(live: usize, event: Option<(u32, u32)>) -> usize
    ensures more { live ≤ result }
    ensures event { IfSome event (λ e. e.0 < result) }
    ensures most { (p : ℕ) → live ≤ p → IfSome event (λ e. e.0 < p) → result ≤ p }
{
    match event {
        None => live,
        Some((stripe, _)) => {
            let next = stripe as usize + 1;
            if live < next { next } else { live }
        }
    }
}

/// An event as (stage, stripe).
#[inline(always)]
fn configured(event: Option<(u32, u32)>) -> Option<(u32, u32)>
    ensures { result ≡ turned event }
{
    match event {
        None => None,
        Some((stripe, stage)) => Some((stage, stripe)),
    }
}

impl<const N: usize, const P: usize> Loaded<N, P> {
    ghost use Rattle.pr_machine.specs.Stands.{PartsStand, History, account_of, next_turn};
    ghost use Rattle.pr_machine.specs.Rooms.{rooms_in, rooms_with};

    /// The parts of a machine at cycle 0.
    pub(crate) fn at_start(
        conf: Configuration<N, P>,
        places: Vec<StripePlace<N, P>>,
        buffers: Buffers<N>,
    ) -> Self
        requires two { 2 ≤ vec_len places }
        requires small { vec_len places ≤ 256 }
        requires bare { AreBare places.items }
        requires states { (s : ℕ) → s < vec_len conf.stages →
            rows_of buffers.store s ≡ (steps_of N P (shape_of conf) s).init }
        requires rows { length buffers.store ≡ vec_len conf.stages }
        requires ready { AreReady (P - 1) (shape_of conf).stages buffers.prepared.items }
        requires count { vec_len buffers.prepared ≡ vec_len conf.stages }
        requires input { buffers.input ≡ record { size = bytes_in (shape_of conf).inputs; waiting = [] } }
        requires output { buffers.output ≡ record { size = bytes_in (output_widths (shape_of conf)); waiting = [] } }
        requires sample { vec_len buffers.sample ≡ bytes_in (shape_of conf).inputs }
        requires buffer { bytes_in (output_widths (shape_of conf)) ≤ vec_capacity buffers.result }
        ensures stands { PartsStand result (shape_of conf.entry) (length places.entry.items) [] }
        ensures conf { result.conf ≡ conf.entry }
        ensures rooms { rooms_in result ≡ rooms_with (vec_capacity places.entry) buffers.entry }
    {
        let plan = Plan::make(conf.stages() as u32, places.len() as u32);
        Loaded {
            conf,
            places,
            buffers,
            plan,
            live: 0,
            entered: 0,
            left: 0,
        }
    }

    /// What the next cycle is to do.
    #[inline(always)]
    pub(crate) fn schedule(&self) -> Schedule
        ensures scheduled { IsScheduled (vec_len self.now.conf.stages) (vec_len self.now.places)
            self.now.plan.time result }
        ensures live { result.live ≡ self.now.live }
    {
        Schedule {
            ring: self.plan.ring(),
            first: self.plan.active(0),
            last: self.plan.active(self.conf.stages() as u32 - 1),
            live: self.live,
        }
    }

    /// Whether the next cycle is stalled.
    #[inline(always)]
    pub(crate) fn is_held(&self, schedule: &Schedule) -> bool
        requires { IsScheduled (vec_len self.now.conf.stages) (vec_len self.now.places)
            self.now.plan.time schedule.now }
        ensures { (c : Shape) (p : ℕ) (h : History) → PartsStand self.now c p h
            → result ≡ stalled (length c.stages) p (account_of c p h) }
    {
        let entering = may_enter(schedule.first, self.buffers.input.len());
        is_stalled(
            &self.places,
            self.conf.stages(),
            entering,
            schedule.last,
            self.buffers.output.len(),
        )
    }

    /// A cycle that is not stalled.
    #[inline(always)]
    pub(crate) fn advance(&mut self, schedule: &Schedule) -> Turn
        requires schedule { IsScheduled (vec_len self.old.conf.stages) (vec_len self.old.places)
            self.old.plan.time schedule.now }
        requires live { schedule.now.live ≡ self.old.live }
        requires time { self.old.plan.time < 2 ^ 63 }
        ensures stands { (c : Shape) (p : ℕ) (h : History) → PartsStand self.old c p h
            → stalled (length c.stages) p (account_of c p h) ≡ false → PartsStand self.new c p (h ++ Cycle ∷ []) }
        ensures turn { (c : Shape) (p : ℕ) (h : History) → PartsStand self.old c p h
            → result ≡ next_turn (length c.stages) p (account_of c p h) }
        ensures advanced { result.advanced ≡ true }
        ensures conf { self.new.conf ≡ self.old.conf }
        ensures stripes { vec_len self.new.places ≡ vec_len self.old.places }
        ensures time { self.new.plan.time ≡ self.old.plan.time + 1 }
        ensures rooms { rooms_in self.new ≡ rooms_in self.old }
    {
        let event = self.plan.next();
        let entering = enter(&mut self.buffers, schedule.first);
        let passed = pass(
            &mut self.places,
            &self.conf,
            &mut self.buffers,
            schedule,
            event,
            entering,
        );
        put_result(&mut self.buffers, passed.left);
        let turn = Turn {
            advanced: true,
            configured: configured(event),
            saved: passed.saved,
            entered: numbered(entering, self.entered),
            left: numbered(passed.left, self.left),
        };
        self.live = live_after(self.live, event);
        self.entered += counted(entering);
        self.left += counted(passed.left);
        turn
    }
}

/// Whether a sample would enter.
#[inline(always)]
fn may_enter(first: Option<usize>, waiting: usize) -> bool
    ensures { result ≡ will_enter waiting first }
{
    match first {
        None => false,
        Some(_) => 0 < waiting,
    }
}
