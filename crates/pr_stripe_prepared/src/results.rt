//! What all columns make of their operands.

ghost use Rattle.std.specs.Prelude.{ℕ, true, ◌≡◌, ◌<◌, length, slice_index};
ghost use Rattle.pr_lanes.specs.Lanes.{HasLanes};
ghost use Rattle.pr_stripe_prepared.specs.Operands.{carry_k, found, found_by, summed, result_k};
ghost use Rattle.pr_lanes.specs.Rows.{row_by};

use crate::stages::{Prepared, Table};
use pr_lanes::lanes::{added, carries_of, choose, joined, masked, none_in, row_of, turned};
use std::simd::prelude::*;

/// X of all columns, for one value of C, where each table has an even number of ones.
#[inline(always)]
fn look_up_even(table: &Table, a: u8x16, b: u8x16) -> u8x16
    requires even { table.now.is_even ≡ true }
    requires a { length a ≡ 16 }
    requires b { length b ≡ 16 }
    ensures { HasLanes 16 result (found_by table.now a b) }
{
    let constant = row_of(&table.t1);
    let by_a = row_of(&table.by_a);
    let by_b = row_of(&table.by_b);
    turned(turned(constant, a, by_a), b, by_b)
}

/// X of all columns, for one value of C.
#[inline(always)]
fn look_up_half(table: &Table, a: u8x16, b: u8x16) -> u8x16
    requires a { length a ≡ 16 }
    requires b { length b ≡ 16 }
    ensures { HasLanes 16 result (found_by table.now a b) }
{
    if table.is_even {
        return look_up_even(table, a, b);
    }
    let without_b = choose(row_of(&table.t1), row_of(&table.t2), a);
    let with_b = choose(row_of(&table.t4), row_of(&table.t8), a);
    choose(without_b, with_b, b)
}

/// X of all columns.
#[inline(always)]
fn look_up_all(q: &Prepared, a: u8x16, b: u8x16, c: u8x16) -> u8x16
    requires a { length a ≡ 16 }
    requires b { length b ≡ 16 }
    requires c { length c ≡ 16 }
    ensures lanes { HasLanes 16 result (found q.now a b c) }
    ensures bytes { q.now.has_c ≡ true → (k : ℕ) → k < 16 →
        (found_by q.now.off a b k < 256) × (found_by q.now.on a b k < 256) }
{
    let off = look_up_half(&q.off, a, b);
    if q.has_c {
        choose(off, look_up_half(&q.on, a, b), c)
    } else {
        off
    }
}

/// The carry-ins of all columns, in one addition of 128 bits: a test for 0 gives 255 where it lets a carry through.
#[inline(always)]
fn carries(q: &Prepared, a: u8x16, x: u8x16, c: u8x16) -> u8x16
    requires a { length a ≡ 16 }
    requires x { length x ≡ 16 }
    requires c { length c ≡ 16 }
    ensures { HasLanes 16 result (carry_k q.now a x c) }
{
    let low = row_of(&q.low);
    let nothing = masked(none_in(x), row_of(&q.zeros));
    let given = added(row_of(&q.cin), masked(c, row_of(&q.from_c)));
    carries_of(joined(masked(a, low), nothing), masked(x, low), given)
}

/// The results of all columns before the mask, and the carry-ins.
#[inline(always)]
fn sum_all(q: &Prepared, a: u8x16, x: u8x16, c: u8x16) -> (u8x16, u8x16)
    requires a { length a ≡ 16 }
    requires x { length x ≡ 16 }
    requires c { length c ≡ 16 }
    ensures sums { HasLanes 16 result.0 (summed q.now a x c) }
    ensures carries { q.now.has_sums ≡ true → HasLanes 16 result.1 (carry_k q.now a x c) }
    ensures long { length result.1 ≡ 16 }
    ensures small { (k : ℕ) → k < 16 → slice_index x k < 256 }
{
    if q.has_sums {
        let into = carries(q, a, x, c);
        let sums = added(added(a, x), into);
        (choose(x, sums, row_of(&q.sums)), into)
    } else {
        (x, u8x16::splat(0))
    }
}

/// What all columns make of their operands.
#[derive(Clone, Copy)]
pub(crate) struct Outputs {
    pub(crate) output: u8x16,
    pub(crate) carries: u8x16,
}

/// The outputs of all columns, and their carry-ins.
#[inline(always)]
pub(crate) fn results(q: &Prepared, a: u8x16, b: u8x16, c: u8x16) -> Outputs
    requires a { length a ≡ 16 }
    requires b { length b ≡ 16 }
    requires c { length c ≡ 16 }
    ensures outputs { HasLanes 16 result.output (result_k q.now a (row_by 16 (found q.now a b c)) c) }
    ensures carries { q.now.has_sums ≡ true →
        HasLanes 16 result.carries (carry_k q.now a (row_by 16 (found q.now a b c)) c) }
    ensures long { length result.carries ≡ 16 }
    ensures operands { (k : ℕ) → k < 16 → (slice_index a k < 256) × (slice_index b k < 256) }
    ensures found { (k : ℕ) → k < 16 → found q.now a b c k < 256 }
    ensures halves { q.now.has_c ≡ true → (k : ℕ) → k < 16 →
        (found_by q.now.off a b k < 256) × (found_by q.now.on a b k < 256) }
{
    let x = look_up_all(q, a, b, c);
    let (sums, carries) = sum_all(q, a, x, c);
    Outputs {
        output: masked(sums, row_of(&q.mask)),
        carries,
    }
}
