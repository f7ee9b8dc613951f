//! The operands of all columns.

ghost use Rattle.std.specs.Prelude.{ℕ, true, false, ◌≡◌, replicate, ◌+◌, ◌<◌, ◌^◌, ◌≤◌, length, slice_index};
ghost use Rattle.pr_lanes.specs.Lanes.{HasLanes};
ghost use Rattle.pr_stripe_prepared.specs.Gather.{gathered_byte};
ghost use Rattle.pr_stripe_prepared.specs.Operands.{with_carry, mark_of};
ghost use Rattle.pr_base.specs.Pe.{shifted};

use crate::gathers::gathered;
use crate::stages::Prepared;
use pr_lanes::lanes::{high_half, joined, low_half, ones_in, row_of, shifted_row, words_of};
use std::simd::prelude::*;

/// C of all columns, all ones or 0: a bit of a byte, or the carry-in that the round before made, which is 0 in the first
/// round.
#[inline(always)]
fn mark<const FIRST: bool>(q: &Prepared, bits: u8x16, carries: u8x16) -> u8x16
    requires first { FIRST ≡ true → carries ≡ replicate 16 0 }
    requires bits { length bits ≡ 16 }
    requires carries { length carries ≡ 16 }
    ensures { HasLanes 16 result (λ k. with_carry q.now (slice_index bits k) carries k) }
{
    if FIRST {
        return bits;
    }
    if !q.has_carry {
        return bits;
    }
    joined(bits, ones_in(carries, row_of(&q.c_carry)))
}

/// A, B and C of all columns: C is all ones, or 0.
#[inline(always)]
pub(crate) fn operands<const FIRST: bool>(
    q: &Prepared,
    row: &[u8],
    state: u8x16,
    made: u8x16,
    carries: u8x16,
) -> (u8x16, u8x16, u8x16)
    requires row { q.now.reach ≤ length row.now }
    requires state { length state ≡ 16 }
    requires made { length made ≡ 16 }
    requires carries { length carries ≡ 16 }
    requires first { FIRST ≡ true → (made ≡ replicate 16 0) × (carries ≡ replicate 16 0) }
    ensures a { HasLanes 16 result.0 (gathered_byte q.now.both row.now state made) }
    ensures long { length result.1 ≡ 16 }
    ensures b { (k s : ℕ) → k < 16 → slice_index q.now.shifts k ≡ 2 ^ s → s < 8 → (q.now.has_rest ≡ false → s ≡ 0)
        → slice_index result.1 k
        ≡ shifted (gathered_byte q.now.both row.now state made (16 + k)) (gathered_byte q.now.rest row.now state made k) s }
    ensures c { HasLanes 16 result.2 (mark_of q.now row.now state made carries) }
{
    let both = gathered::<FIRST>(&q.both, row, state, made, q.reach);
    let a = low_half(both);
    let hi = high_half(both);
    if q.has_rest {
        let rest = gathered::<FIRST>(&q.rest, row, state, made, q.reach);
        let b = shifted_row(hi, low_half(rest), words_of(&q.shifts));
        let bits = ones_in(high_half(rest), row_of(&q.c_bits));
        (a, b, mark::<FIRST>(q, bits, carries))
    } else {
        (a, hi, mark::<FIRST>(q, u8x16::splat(0), carries))
    }
}
