//! Stripes that are emptied into the store, and a configuration that goes on from the store's states.

ghost use Rattle.std.specs.Prelude.{ℕ, ◌≡◌, ◌≢◌, ◌<◌, List, length, vec_len, true};
ghost use Rattle.pr_conf.specs.Configuration.{shape_of};
ghost use Rattle.pr_conf.specs.Through.{steps_of};
ghost use Rattle.pr_conf.specs.After.{with_states};
ghost use Rattle.pr_machine_refines.specs.Spots.{saved};
ghost use Rattle.pr_machine.specs.Places.{seen, place_at, spots_of, rows_of, is_bare, IsHere, AreHere, AreBare};
ghost use Rattle.pr_machine.specs.Emptying.{IsEmptied};

use crate::places::StripePlace;
use pr_conf::Configuration;
use pr_control::Store;
use pr_stripe::{Blank, Stripe};
use std::mem;

/// Arms a stripe with a stage and saves that again, so that the stripe shows a bubble and the store is as it was.
fn blanked<const N: usize, const P: usize>(
    stripe: Stripe<N, P, Blank>,
    store: &mut Store<N>,
    stage: u32,
) -> StripePlace<N, P>
    requires { stage < length store.old }
    ensures same { store.new ≡ store.old }
    ensures bare { is_bare result ≡ true }
{
    StripePlace::Blank(stripe.arm(stage, store).retire().save(store))
}

/// What a place becomes when its stripe is emptied: its stage is saved, and then the stripe is armed once more with the
/// same stage and saved again, so that it is blank and shows a bubble. A stripe without a stage goes the same way with
/// the first stage.
fn emptied<const N: usize, const P: usize>(
    was: StripePlace<N, P>,
    store: &mut Store<N>,
) -> StripePlace<N, P>
    requires here { IsHere (length store.old) was }
    requires some { 0 < length store.old }
    ensures save { (s : ℕ) → s < length store.old → rows_of store.new s ≡ saved (rows_of store.old) (seen was.entry) s }
    ensures bare { is_bare result ≡ true }
    ensures size { length store.new ≡ length store.old }
{
    match was {
        StripePlace::Blank(stripe) => blanked(stripe, store, 0),
        StripePlace::Live(stripe) => {
            let stage = stripe.stage_number();
            let blank = stripe.retire().save(store);
            blanked(blank, store, stage)
        }
        StripePlace::Away => unreachable!(),
    }
}

/// The stripe of one place is emptied.
fn empty_at<const N: usize, const P: usize>(
    places: &mut [StripePlace<N, P>],
    store: &mut Store<N>,
    at: usize,
)
    requires at { at < length places.old }
    requires here { IsHere (length store.old) (place_at places.old at) }
    requires some { 0 < length store.old }
    ensures others { (j : ℕ) → j ≢ at → place_at places.new j ≡ place_at places.old j }
    ensures save { (s : ℕ) → s < length store.old →
        rows_of store.new s ≡ saved (rows_of store.old) (spots_of places.old at) s }
    ensures bare { is_bare (place_at places.new at) ≡ true }
    ensures size { length store.new ≡ length store.old }
{
    let was = mem::replace(&mut places[at], StripePlace::Away);
    let now = emptied(was, store);
    places[at] = now;
}

/// Every stripe is emptied into the store.
pub(crate) fn empty_all<const N: usize, const P: usize>(
    places: &mut [StripePlace<N, P>],
    store: &mut Store<N>,
)
    requires here { AreHere (length store.old) places.old }
    requires some { 0 < length store.old }
    ensures rows { (s : ℕ) → s < length store.old →
        IsEmptied (length places.old) (spots_of places.old) s (rows_of store.old s) (rows_of store.new s) }
    ensures bare { AreBare places.new }
    ensures size { length store.new ≡ length store.old }
{
    for at in 0..places.len() {
        empty_at(places, store, at);
    }
}

/// Each stage of a configuration begins in its state in the store.
pub(crate) fn begin_from<const N: usize, const P: usize>(
    conf: &mut Configuration<N, P>,
    store: &Store<N>,
)
    requires { length store.now ≡ vec_len conf.old.stages }
    ensures shape { shape_of conf.new ≡ with_states (shape_of conf.old) (rows_of store.now) }
    ensures states { (s : ℕ) → s < vec_len conf.new.stages →
        rows_of store.now s ≡ (steps_of N P (shape_of conf.new) s).init }
    ensures stages { vec_len conf.new.stages ≡ vec_len conf.old.stages }
{
    for stage in 0..conf.stages() {
        conf.begin(stage, store.row(stage as u32));
    }
}
