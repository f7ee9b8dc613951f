//! One cycle of a list of stripes, in place.

ghost use Rattle.std.specs.Prelude.{ℕ, ◌≡◌, ◌≢◌, ◌+◌, ◌-◌, ◌<◌, ◌≤◌, ◌^◌, ◌&&◌, ◌==◌, Option, Some, None, IfSome, List, [], length, slice_index_or, vec_len, vec_capacity, true, is_some};
ghost use Rattle.std.specs.Option.{option_map};
ghost use Rattle.pr_control.specs.Time.{before, turned, IsInside};
ghost use Rattle.pr_conf.specs.Configuration.{shape_of};
ghost use Rattle.pr_conf.specs.Rules.{are_lawful_pes, site_of, bytes_in};
ghost use Rattle.pr_conf.specs.Through.{steps_of, tapped, output_widths};
ghost use Rattle.pr_machine_refines.specs.Spots.{Spot, Held, shows, stage_in, stepped, saved};
ghost use Rattle.pr_machine_refines.specs.Cycle.{will_leave as leaving_by, leaves, AreStepped, IsRingStep, IsLineStep, IsTurned, IsPass, saved_by};
ghost use Rattle.pr_stripe.specs.Rows.{shown};
ghost use Rattle.pr_stripe.specs.Rows.{entering as row_if};
ghost use Rattle.pr_machine.specs.Places.{seen, place_at, spots_of, rows_of, is_there, IsHere, AreHere, AreIdle};
ghost use Rattle.pr_machine.specs.Fits.{Fits};
ghost use Rattle.pr_machine.specs.Schedules.{IsFor};

use crate::buffers::Buffers;
use crate::results::read_result;
use pr_conf::{Configuration, Stage};
use pr_control::{Store, place_before};
use pr_stripe::{Blank, Live, Row, Stripe};
use std::mem;

/// A place of a machine's list of stripes.
#[derive(Drop)]
pub enum StripePlace<const N: usize, const P: usize> {
    /// A stripe without a stage.
    Blank(Stripe<N, P, Blank>),
    /// A stripe with a stage.
    Live(Stripe<N, P, Live>),
    /// The stripe was taken out, within a call.
    Away,
}

/// A stage of a configuration, which is lawful at its number.
#[inline(always)]
fn stage_at<const N: usize, const P: usize>(conf: &Configuration<N, P>, number: u32) -> &Stage<N>
    requires { number < vec_len conf.now.stages }
    ensures pes { slice_index_or (shape_of conf.now).stages number [] ≡ result.now.pes.items }
    ensures lawful { are_lawful_pes (site_of N P (bytes_in (shape_of conf.now).inputs) number)
        result.now.pes.items ≡ true }
{
    &conf.stages[number as usize]
}

/// The row that a place shows.
#[inline(always)]
fn row_at<const N: usize, const P: usize>(place: &StripePlace<N, P>) -> &Row<N, P>
    requires { is_there place.now ≡ true }
    ensures { shown result.now ≡ shows (seen place.now) }
{
    match place {
        StripePlace::Blank(stripe) => stripe.row(),
        StripePlace::Live(stripe) => stripe.row(),
        StripePlace::Away => unreachable!(),
    }
}

/// A cycle of a place in which its stage computes, if it has one.
#[inline(always)]
fn compute_at<const N: usize, const P: usize>(
    place: &mut StripePlace<N, P>,
    prev: &StripePlace<N, P>,
    conf: &Configuration<N, P>,
    buffers: &Buffers<N>,
    valid: bool,
)
    requires here { IsHere (vec_len conf.now.stages) place.old }
    requires prev { is_there prev.now ≡ true }
    requires fits { Fits conf.now buffers.now }
    ensures step { seen place.new ≡ stepped (steps_of N P (shape_of conf.now)) (row_if valid buffers.now.sample.items)
        (seen place.old) (shows (seen prev.now)) }
    ensures here { IsHere (vec_len conf.now.stages) place.new }
{
    match place {
        StripePlace::Live(stripe) => {
            let number = stripe.stage_number();
            let row = row_at(prev);
            let valid = if number == 0 { valid } else { row.valid() };
            let stage = stage_at(conf, number);
            match &buffers.prepared[number as usize] {
                Some(prepared) => {
                    stripe.compute_prepared(row, &buffers.sample, valid, stage, prepared);
                }
                None => stripe.compute(row, &buffers.sample, valid, stage),
            }
        }
        StripePlace::Blank(_) | StripePlace::Away => {}
    }
}

/// What a stripe without a stage becomes when an event falls on it.
fn armed<const N: usize, const P: usize>(
    was: StripePlace<N, P>,
    store: &Store<N>,
    stage: u32,
) -> StripePlace<N, P>
    requires blank { stage_in (seen was) ≡ None }
    requires there { is_there was ≡ true }
    requires stage { stage < length store.now }
    ensures armed { seen result ≡ Held stage (rows_of store.now stage) None }
    ensures here { IsHere (length store.now) result }
{
    match was {
        StripePlace::Blank(stripe) => StripePlace::Live(stripe.arm(stage, store)),
        StripePlace::Live(_) | StripePlace::Away => unreachable!(),
    }
}

/// The event of a place: its stage is saved, and another takes the stripe.
fn renew<const N: usize, const P: usize>(
    place: &mut StripePlace<N, P>,
    store: &mut Store<N>,
    stage: u32,
)
    requires here { IsHere (length store.old) place.old }
    requires stage { stage < length store.old }
    ensures save { (s : ℕ) → s < length store.old
        → rows_of store.new s ≡ saved (rows_of store.old) (seen place.old) s }
    ensures armed { seen place.new ≡ Held stage (rows_of store.new stage) None }
    ensures size { length store.new ≡ length store.old }
    ensures here { IsHere (length store.old) place.new }
{
    match place {
        StripePlace::Live(stripe) => stripe.rearm(stage, store),
        StripePlace::Blank(_) | StripePlace::Away => {
            let was = mem::replace(place, StripePlace::Away);
            *place = armed(was, store, stage);
        }
    }
}

/// One place computes, and reads what a later place shows.
#[inline(always)]
#[tactic(auto, using(crate::proofs::Here::there))]
fn step_below<const N: usize, const P: usize>(
    places: &mut [StripePlace<N, P>],
    conf: &Configuration<N, P>,
    at: usize,
    from: usize,
    buffers: &Buffers<N>,
    valid: bool,
)
    requires from { from < length places.old }
    requires below { at < from }
    requires here { AreHere (vec_len conf.now.stages) places.old }
    requires fits { Fits conf.now buffers.now }
    ensures others { (j : ℕ) → j ≢ at → place_at places.new j ≡ place_at places.old j }
    ensures step { spots_of places.new at ≡
        stepped (steps_of N P (shape_of conf.now)) (row_if valid buffers.now.sample.items)
        (spots_of places.old at) (shows (spots_of places.old from)) }
    ensures here { IsHere (vec_len conf.now.stages) (place_at places.new at) }
{
    let (low, high) = places.split_at_mut(from);
    compute_at(&mut low[at], &high[0], conf, buffers, valid);
}

/// One place computes, and reads what the place `from` shows.
#[inline(always)]
#[tactic(auto, using(crate::proofs::Here::there))]
fn step_at<const N: usize, const P: usize>(
    places: &mut [StripePlace<N, P>],
    conf: &Configuration<N, P>,
    at: usize,
    from: usize,
    buffers: &Buffers<N>,
    valid: bool,
)
    requires at { at < length places.old }
    requires from { from < length places.old }
    requires apart { at ≢ from }
    requires here { AreHere (vec_len conf.now.stages) places.old }
    requires fits { Fits conf.now buffers.now }
    ensures others { (j : ℕ) → j ≢ at → place_at places.new j ≡ place_at places.old j }
    ensures step { spots_of places.new at ≡
        stepped (steps_of N P (shape_of conf.now)) (row_if valid buffers.now.sample.items)
        (spots_of places.old at) (shows (spots_of places.old from)) }
    ensures here { IsHere (vec_len conf.now.stages) (place_at places.new at) }
{
    if at < from {
        step_below(places, conf, at, from, buffers, valid);
    } else {
        let (low, high) = places.split_at_mut(at);
        compute_at(&mut high[0], &low[from], conf, buffers, valid);
    }
}

/// The event of a cycle: the stripe of a place is emptied into the store, and armed.
fn turn_over<const N: usize, const P: usize>(
    places: &mut [StripePlace<N, P>],
    store: &mut Store<N>,
    at: usize,
    stage: u32,
)
    requires at { at < length places.old }
    requires stage { stage < length store.old }
    requires here { IsHere (length store.old) (place_at places.old at) }
    ensures others { (j : ℕ) → j ≢ at → place_at places.new j ≡ place_at places.old j }
    ensures save { (s : ℕ) → s < length store.old
        → rows_of store.new s ≡ saved (rows_of store.old) (spots_of places.old at) s }
    ensures armed { spots_of places.new at ≡ Held stage (rows_of store.new stage) None }
    ensures size { length store.new ≡ length store.old }
    ensures here { IsHere (length store.old) (place_at places.new at) }
{
    renew(&mut places[at], store, stage);
}

/// Each place but `q` computes in place, from the one before `q` back to the one after it, so that each reads what the
/// place before it showed at the start.
#[inline(always)]
fn step_ring<const N: usize, const P: usize>(
    places: &mut [StripePlace<N, P>],
    conf: &Configuration<N, P>,
    q: usize,
    buffers: &Buffers<N>,
    valid: bool,
)
    requires at { q < length places.old }
    requires small { length places.old ≤ 256 }
    requires here { AreHere (vec_len conf.now.stages) places.old }
    requires fits { Fits conf.now buffers.now }
    ensures ring { IsRingStep (steps_of N P (shape_of conf.now)) (row_if valid buffers.now.sample.items)
        (length places.old) q (spots_of places.old) (spots_of places.new) }
    ensures here { AreHere (vec_len conf.now.stages) places.new }
{
    let n = places.len();
    let mut at = place_before(n, q);
    for _d in 0..n - 1 {
        let from = place_before(n, at);
        step_at(places, conf, at, from, buffers, valid);
        at = from;
    }
}

/// Each place computes, and the first one last: it holds stage 0, which reads no other place, or no stage. From place
/// `live` on there is no stage, so that nothing is to be done.
#[inline(always)]
fn step_line<const N: usize, const P: usize>(
    places: &mut [StripePlace<N, P>],
    conf: &Configuration<N, P>,
    live: usize,
    buffers: &Buffers<N>,
    valid: bool,
)
    requires two { 2 ≤ length places.old }
    requires small { length places.old ≤ 256 }
    requires live { live ≤ length places.old }
    requires idle { AreIdle live (spots_of places.old) }
    requires here { AreHere (vec_len conf.now.stages) places.old }
    requires fits { Fits conf.now buffers.now }
    ensures line { IsLineStep (steps_of N P (shape_of conf.now)) (row_if valid buffers.now.sample.items)
        (length places.old) (spots_of places.old) (spots_of places.new) }
    ensures here { AreHere (vec_len conf.now.stages) places.new }
{
    if live == 0 {
        return;
    }
    step_ring(&mut places[..live], conf, 0, buffers, valid);
    step_below(places, conf, 0, places.len() - 1, buffers, valid);
}

/// Each place computes, but that of the cycle's event where every cycle has one.
#[inline(always)]
fn compute<const N: usize, const P: usize>(
    places: &mut [StripePlace<N, P>],
    conf: &Configuration<N, P>,
    schedule: &Schedule,
    buffers: &Buffers<N>,
    valid: bool,
)
    requires schedule { IsFor places.old schedule.now }
    requires here { AreHere (vec_len conf.now.stages) places.old }
    requires fits { Fits conf.now buffers.now }
    ensures stepped { AreStepped (steps_of N P (shape_of conf.now)) (row_if valid buffers.now.sample.items)
        (length places.old) schedule.now.ring (spots_of places.old) (spots_of places.new) }
    ensures here { AreHere (vec_len conf.now.stages) places.new }
{
    match schedule.ring {
        None => step_line(places, conf, schedule.live, buffers, valid),
        Some(q) => step_ring(places, conf, q, buffers, valid),
    }
}

/// The stage in a place.
fn stage_in_place<const N: usize, const P: usize>(place: &StripePlace<N, P>) -> Option<u32>
    ensures { result ≡ stage_in (seen place.now) }
{
    match place {
        StripePlace::Live(stripe) => Some(stripe.stage_number()),
        StripePlace::Blank(_) | StripePlace::Away => None,
    }
}

/// The event of a cycle, if there is one: the stage that was saved for it.
#[inline(always)]
fn replace_stage<const N: usize, const P: usize>(
    places: &mut [StripePlace<N, P>],
    store: &mut Store<N>,
    event: Option<(u32, u32)>,
) -> Option<u32>
    requires here { AreHere (length store.old) places.old }
    requires inside { IsInside (length store.old) (length places.old) event }
    ensures saved { result ≡ saved_by (spots_of places.old) (turned event) }
    ensures turned { IsTurned (length store.old) (turned event) (spots_of places.old) (spots_of places.new)
        (rows_of store.old) (rows_of store.new) }
    ensures size { length store.new ≡ length store.old }
    ensures here { AreHere (length store.old) places.new }
{
    match event {
        None => None,
        Some((at, stage)) => {
            let saved = stage_in_place(&places[at as usize]);
            turn_over(places, store, at as usize, stage);
            saved
        }
    }
}

/// What one cycle is to do: the stripe of the event, where every cycle has one, the stripes in which the first and the
/// last stage compute, and the place from which on no stripe has a stage.
#[derive(Clone, Copy)]
pub struct Schedule {
    pub(crate) ring: Option<usize>,
    pub(crate) first: Option<usize>,
    pub(crate) last: Option<usize>,
    pub(crate) live: usize,
}

/// What a cycle of the stripes did: whether a result left, and the stage that was saved.
#[derive(Clone, Copy)]
pub struct Passed {
    pub(crate) left: bool,
    pub(crate) saved: Option<u32>,
}

/// Whether the last stage would compute a valid row. A single stage reads what enters.
#[tactic(auto, using(crate::proofs::Here::there))]
fn will_leave<const N: usize, const P: usize>(
    places: &[StripePlace<N, P>],
    stages: usize,
    entering: bool,
    last: Option<usize>,
) -> bool
    requires here { AreHere stages places.now }
    requires last { IfSome last (λ i. i < length places.now) }
    ensures { result ≡ leaving_by (length places.now) (spots_of places.now) (stages == 1) entering last }
{
    match last {
        None => false,
        Some(at) => {
            if stages == 1 {
                entering
            } else {
                row_at(&places[place_before(places.len(), at)]).valid()
            }
        }
    }
}

/// Whether the last stage would compute a valid row while 16 results wait.
#[inline(always)]
pub(crate) fn is_stalled<const N: usize, const P: usize>(
    places: &[StripePlace<N, P>],
    stages: usize,
    entering: bool,
    last: Option<usize>,
    ready: usize,
) -> bool
    requires here { AreHere stages places.now }
    requires last { IfSome last (λ i. i < length places.now) }
    ensures { result
        ≡ (leaving_by (length places.now) (spots_of places.now) (stages == 1) entering last && ready == 16) }
{
    ready == 16 && will_leave(places, stages, entering, last)
}

/// Reads the result that leaves, if one does.
#[inline(always)]
#[tactic(auto, using(crate::proofs::Here::there))]
fn leaving<const N: usize, const P: usize>(
    places: &[StripePlace<N, P>],
    conf: &Configuration<N, P>,
    last: Option<usize>,
    into: &mut Vec<u8>,
) -> bool
    requires here { AreHere (vec_len conf.now.stages) places.now }
    requires last { IfSome last (λ i. i < length places.now) }
    requires room { bytes_in (output_widths (shape_of conf.now)) ≤ vec_capacity into.old }
    ensures result { row_if result into.new.items
        ≡ option_map (tapped N (shape_of conf.now)) (leaves (spots_of places.now) last) }
    ensures length { result ≡ true → length into.new.items ≡ bytes_in (output_widths (shape_of conf.now)) }
    ensures room { vec_capacity into.new ≡ vec_capacity into.old }
{
    match last {
        None => false,
        Some(at) => {
            let row = row_at(&places[at]);
            if !row.valid() {
                return false;
            }
            read_result(conf, row, into);
            true
        }
    }
}

/// A whole cycle of the stripes and the store, with the sample in its buffer where it enters. A result that
/// leaves is in the buffer for it.
#[inline(always)]
pub(crate) fn pass<const N: usize, const P: usize>(
    places: &mut [StripePlace<N, P>],
    conf: &Configuration<N, P>,
    buffers: &mut Buffers<N>,
    schedule: &Schedule,
    event: Option<(u32, u32)>,
    entering: bool,
) -> Passed
    requires schedule { IsFor places.old schedule.now }
    requires here { AreHere (vec_len conf.now.stages) places.old }
    requires fits { Fits conf.now buffers.old }
    requires rows { length buffers.old.store ≡ vec_len conf.now.stages }
    requires buffer { bytes_in (output_widths (shape_of conf.now)) ≤ vec_capacity buffers.old.result }
    requires inside { IsInside (vec_len conf.now.stages) (length places.old) event }
    ensures pass { IsPass (steps_of N P (shape_of conf.now)) (tapped N (shape_of conf.now))
        (vec_len conf.now.stages) (length places.old) schedule.now.ring schedule.now.last event
        (row_if entering buffers.old.sample.items) (spots_of places.old) (spots_of places.new)
        (rows_of buffers.old.store) (rows_of buffers.new.store)
        (row_if result.left buffers.new.result.items) result.saved }
    ensures length { result.left ≡ true →
        length buffers.new.result.items ≡ bytes_in (output_widths (shape_of conf.now)) }
    ensures rows { length buffers.new.store ≡ length buffers.old.store }
    ensures buffer { vec_capacity buffers.new.result ≡ vec_capacity buffers.old.result }
    ensures others { (buffers.new.input ≡ buffers.old.input) × (buffers.new.output ≡ buffers.old.output)
        × (buffers.new.sample ≡ buffers.old.sample) × (buffers.new.prepared ≡ buffers.old.prepared) }
    ensures here { AreHere (vec_len conf.now.stages) places.new }
{
    compute(places, conf, schedule, buffers, entering);
    let left = leaving(places, conf, schedule.last, &mut buffers.result);
    let saved = replace_stage(places, &mut buffers.store, event);
    Passed { left, saved }
}
