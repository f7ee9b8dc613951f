//! Bytes that are gathered from a row and a state.

ghost use Rattle.std.specs.Prelude.{true, ◌≡◌, replicate, ◌+◌, ◌≤◌, ℕ, All, length, slice_index, bit_or};
ghost use Rattle.pr_lanes.specs.Lanes.{HasLanes};
ghost use Rattle.pr_stripe_prepared.specs.Gather.{begun_byte, gathered_byte, looked};

use crate::stages::{Gather, Term};
use pr_lanes::lanes::{either, look_up};
use std::simd::prelude::*;

/// The bytes of a block of a row.
#[inline(always)]
fn block_of(row: &[u8], term: &Term) -> u8x32
    requires { term.now.from + 16 ≤ length row.now }
    ensures { HasLanes 32 result (λ k. looked (slice_index term.now.picks k) term.now.from row.now) }
{
    look_up(
        u8x16::from_slice(&row[term.from..]),
        u8x32::from_array(term.picks),
    )
}

/// What is gathered of bytes that are known, and of a state where a lane reads it.
#[inline(always)]
fn known(g: &Gather, state: u8x16) -> u8x32
    requires { length state ≡ 16 }
    ensures { HasLanes 32 result
        (λ k. bit_or (slice_index g.now.known k) (looked (slice_index g.now.states k) 0 state)) }
{
    let known = u8x32::from_array(g.known);
    if !g.reads_state {
        return known;
    }
    either(known, look_up(state, u8x32::from_array(g.states)))
}

/// What is gathered of bytes that are known, of a state, and of the outputs of the columns. In the first round these are
/// 0, and nothing is looked up in them.
#[inline(always)]
fn begun<const FIRST: bool>(g: &Gather, state: u8x16, made: u8x16) -> u8x32
    requires state { length state ≡ 16 }
    requires made { length made ≡ 16 }
    requires first { FIRST ≡ true → made ≡ replicate 16 0 }
    ensures { HasLanes 32 result (begun_byte g.now state made) }
{
    let known = known(g, state);
    if FIRST {
        return known;
    }
    if !g.has_here {
        return known;
    }
    either(known, look_up(made, u8x32::from_array(g.heres)))
}

/// Both rows of columns, gathered from a row, a state, and the outputs of the columns.
#[inline(always)]
pub(crate) fn gathered<const FIRST: bool>(
    g: &Gather,
    row: &[u8],
    state: u8x16,
    made: u8x16,
    reach: usize,
) -> u8x32
    requires first { FIRST ≡ true → made ≡ replicate 16 0 }
    requires terms { All (λ t. t.from + 16 ≤ reach) g.now.terms.items }
    requires row { reach ≤ length row.now }
    requires state { length state ≡ 16 }
    requires made { length made ≡ 16 }
    ensures { HasLanes 32 result (gathered_byte g.now row.now state made) }
{
    let mut all = begun::<FIRST>(g, state, made);
    for term in &g.terms {
        all = either(all, block_of(row, term));
    }
    all
}
