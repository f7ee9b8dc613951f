//! The terms that gather a row of places.

ghost use Rattle.std.specs.Prelude.{true, false, ◌≡◌, ◌+◌, ◌*◌, ◌/◌, ◌%◌, ◌<◌, ◌≤◌, ◌==◌, ℕ, List, All, IfOk, length, slice_index, bit_or, nat_lt, if◌then◌else◌};
ghost use Rattle.pr_lanes.specs.Lanes.{is_place};
ghost use Rattle.pr_stripe_prepared.specs.Gather.{with_terms};

use crate::stages::Term;
use std::alloc::{AllocError, Global};

/// The places that are in a block of a row, as places of the block.
fn picks_in(places: &[u16; 32], block: usize) -> [u8; 32]
    requires { block < 1024 }
    ensures picks { (k : ℕ) → k < 32
        → slice_index result k ≡ (if slice_index places.now k / 16 == block then slice_index places.now k % 16 else 128) }
{
    let mut picks = [128; 32];
    for k in 0..32 {
        if usize::from(places[k]) / 16 == block {
            picks[k] = (places[k] % 16) as u8;
        }
    }
    picks
}

/// Whether one of these is a place.
pub(crate) fn is_any(picks: &[u8; 32]) -> bool
    ensures { result ≡ false → (k : ℕ) → k < 32 → 128 ≤ slice_index picks.now k }
{
    let mut any = false;
    for k in 0..32 {
        if picks[k] < 128 {
            any = true;
        }
    }
    any
}

/// The terms that gather these places of a row of so many blocks. A place past the row is none.
pub(crate) fn terms_of(
    alloc: Global,
    places: &[u16; 32],
    blocks: usize,
) -> Result<Vec<Term>, AllocError>
    requires { blocks ≤ 1024 }
    ensures gives { IfOk result (λ v. (k x : ℕ) (row : List ℕ) → k < 32
        → with_terms k row x v.items
        ≡ (if nat_lt (slice_index places.now k) (blocks * 16)
        then bit_or x (slice_index row (slice_index places.now k))
        else x)) }
    ensures inside { IfOk result (λ v. All (λ t. t.from + 16 ≤ blocks * 16) v.items) }
{
    let mut terms = Vec::new(alloc);
    for block in 0..blocks {
        let picks = picks_in(places, block);
        if is_any(&picks) {
            terms.push(Term {
                from: block * 16,
                picks,
            })?;
        }
    }
    Ok(terms)
}
