//! The columns of a stage, round by round.

ghost use Rattle.std.specs.Prelude.{ℕ, List, true, ◌≡◌, replicate, ◌+◌, ◌<◌, ◌≤◌, length, slice_index, slice_index_or};
ghost use Rattle.pr_conf.specs.declared.pes.Pe.{Pe};
ghost use Rattle.pr_stripe_columns.specs.Elements.{IsColumn};
ghost use Rattle.pr_stripe_prepared.specs.Prepared.{IsPrepared};
ghost use Rattle.pr_stripe_prepared.specs.Rounds.{IsRight};

use crate::operands::operands;
use crate::results::results;
use crate::stages::Prepared;
use std::simd::prelude::*;

/// What a round made: A, the outputs and the carry-ins of all columns.
#[derive(Clone, Copy)]
pub(crate) struct Known {
    pub(crate) a: u8x16,
    pub(crate) output: u8x16,
    carries: u8x16,
}

/// All columns once more, where those of one level more become right. Before the first round nothing is known.
#[inline(always)]
fn round<const FIRST: bool>(q: &Prepared, row: &[u8], state: u8x16, before: Known) -> Known
    requires first { FIRST ≡ true
        → (before.output ≡ replicate 16 0) × (before.carries ≡ replicate 16 0) }
    requires row { q.now.reach ≤ length row.now }
    requires state { length state ≡ 16 }
    requires output { length before.output ≡ 16 }
    requires carries { length before.carries ≡ 16 }
    ensures a { length result.a ≡ 16 }
    ensures output { length result.output ≡ 16 }
    ensures carries { length result.carries ≡ 16 }
    ensures right { (pes : List Pe) (count r : ℕ) → IsPrepared q.now pes count
        → IsRight q.now pes row.now state before.a before.output before.carries r
        → IsRight q.now pes row.now state result.a result.output result.carries (r + 1) }
{
    let (a, b, c) = operands::<FIRST>(q, row, state, before.output, before.carries);
    let made = results(q, a, b, c);
    Known {
        a,
        output: made.output,
        carries: made.carries,
    }
}

/// What is known before the first round.
#[inline(always)]
fn nothing() -> Known
    ensures a { length result.a ≡ 16 }
    ensures output { length result.output ≡ 16 }
    ensures carries { length result.carries ≡ 16 }
    ensures nothing { (result.output ≡ replicate 16 0) × (result.carries ≡ replicate 16 0) }
{
    let none = u8x16::splat(0);
    Known {
        a: none,
        output: none,
        carries: none,
    }
}

/// A and the outputs of all columns, after as many rounds as there are.
#[inline(never)]
fn columns_in_rounds(q: &Prepared, row: &[u8], state: u8x16) -> Known
    requires row { q.now.reach ≤ length row.now }
    requires state { length state ≡ 16 }
    ensures a { length result.a ≡ 16 }
    ensures output { length result.output ≡ 16 }
    ensures columns { (pes : List Pe) (count k : ℕ) (d : Pe) → IsPrepared q.now pes count → k < 16
        → IsColumn row.now state pes k (slice_index_or pes k d) (slice_index result.output k) (slice_index result.a k) }
{
    let mut made = nothing();
    for _round in 0..q.rounds {
        made = round::<false>(q, row, state, made);
    }
    made
}

/// A and the outputs of all columns. Most stages have one round: written out, it keeps no count and no rows for the next
/// round.
#[inline(always)]
pub(crate) fn columns<const ONCE: bool>(q: &Prepared, row: &[u8], state: u8x16) -> Known
    requires once { ONCE ≡ true → q.now.rounds ≡ 1 }
    requires row { q.now.reach ≤ length row.now }
    requires state { length state ≡ 16 }
    ensures a { length result.a ≡ 16 }
    ensures output { length result.output ≡ 16 }
    ensures columns { (pes : List Pe) (count k : ℕ) (d : Pe) → IsPrepared q.now pes count → k < 16
        → IsColumn row.now state pes k (slice_index_or pes k d) (slice_index result.output k) (slice_index result.a k) }
{
    if ONCE {
        return round::<true>(q, row, state, nothing());
    }
    columns_in_rounds(q, row, state)
}
