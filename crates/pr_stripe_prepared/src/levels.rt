//! In which round each column is right.

ghost use Rattle.std.specs.Prelude.{true, ◌≡◌, ◌<◌, ℕ, length, slice_index_or};
ghost use Rattle.pr_conf.specs.declared.pes.Pe.{Pe};
ghost use Rattle.pr_stripe_prepared.specs.Rounds.{is_seen, is_seen_bit, IsOrdered};

use crate::elements::chains;
use pr_conf::{Bit, Carry, Pe, Source};

/// The level after that of a source's column, and 0 where it is none of the same stripe.
fn after(levels: &[u8; 16], source: Source) -> u8 {
    match source {
        Source::Here(col) if col < 16 => levels[usize::from(col)].saturating_add(1),
        _ => 0,
    }
}

/// The level of an element after columns of these levels.
fn level_after(levels: &[u8; 16], pe: &Pe, k: usize) -> u8
    requires { k < 16 }
{
    let below = levels[k.saturating_sub(1)];
    let read = match pe.c {
        Bit::Of(source, _) => after(levels, source),
        Bit::CarryIn => below.saturating_add(1),
        Bit::None => 0,
    };
    let sources = after(levels, pe.a)
        .max(after(levels, pe.hi))
        .max(after(levels, pe.lo))
        .max(read);
    if chains(pe.cin) {
        sources.max(below)
    } else {
        sources
    }
}

/// A level for each column; whether it serves is a test of its own.
pub(crate) fn levels_of(pes: &[Pe]) -> [u8; 16]
    requires pes { length pes.now ≡ 16 }
{
    let mut levels = [0; 16];
    for k in 0..16 {
        levels[k] = level_after(&levels, &pes[k], k);
    }
    levels
}

/// So many rounds make the columns of all these levels right.
pub(crate) fn rounds_of(levels: &[u8; 16]) -> usize {
    let mut most = 0;
    for k in 0..16 {
        most = levels[k].max(most);
    }
    usize::from(most.saturating_add(1))
}

/// Whether the column of a source is right a round before column k.
fn sees(levels: &[u8; 16], k: usize, source: Source) -> bool
    requires { k < 16 }
    ensures { result ≡ is_seen levels.now k source }
{
    match source {
        Source::Here(col) => usize::from(col) < k && levels[usize::from(col)] < levels[k],
        Source::Const(_) | Source::Prev { .. } | Source::State(_) | Source::Bus(_) => true,
    }
}

fn sees_bit(levels: &[u8; 16], k: usize, cin: Carry, c: Bit) -> bool
    requires { k < 16 }
    ensures { result ≡ is_seen_bit levels.now k cin c }
{
    match c {
        Bit::None => true,
        Bit::Of(source, _) => sees(levels, k, source),
        Bit::CarryIn => chains(cin) && levels[k.saturating_sub(1)] < levels[k],
    }
}

/// Whether column k comes after those that it needs.
fn is_ordered(levels: &[u8; 16], rounds: usize, k: usize, pe: &Pe) -> bool
    requires { k < 16 }
    ensures { result ≡ true → IsOrdered levels.now rounds k pe.now }
{
    usize::from(levels[k]) < rounds
        && sees(levels, k, pe.a)
        && sees(levels, k, pe.hi)
        && sees(levels, k, pe.lo)
        && sees_bit(levels, k, pe.cin, pe.c)
        && (!chains(pe.cin) || levels[k.saturating_sub(1)] <= levels[k])
}

/// Whether each column comes after those that it needs.
pub(crate) fn are_ordered(levels: &[u8; 16], rounds: usize, pes: &[Pe]) -> bool
    requires pes { length pes.now ≡ 16 }
    ensures { result ≡ true → (k : ℕ) (d : Pe) → k < 16 → IsOrdered levels.now rounds k (slice_index_or pes.now k d) }
{
    for k in 0..16 {
        if !is_ordered(levels, rounds, k, &pes[k]) {
            return false;
        }
    }
    true
}
