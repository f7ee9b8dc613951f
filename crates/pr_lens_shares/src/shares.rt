//! The streams for which most units are made.

ghost use Rattle.std.specs.Prelude.{◌≡◌, ◌≤◌, ◌++◌, IfOk, OnOk, get_or};
ghost use Rattle.std.specs.List.{flat_map};
ghost use Rattle.pr_flat.specs.Widths.{AreWidths};
ghost use Rattle.pr_expand_spec.specs.Programs.{equations_of};
ghost use Rattle.pr_compile_front.specs.Passed.{HasEquations};
ghost use Rattle.pr_lens_shares.specs.Shares.{AreSharesOrNone, AreSharesWith, share_at};

use crate::ranks::greatest;
use crate::tallies::{tally_of, untold};
use pr_compile_front::Front;
use pr_lang::Name;
use pr_scope_names::Instance;
use std::alloc::{AllocError, Global};

/// A named stream, and how many units are made for it.
#[derive(Drop)]
pub struct Share {
    pub name: Name,
    pub index: Option<u64>,
    /// Its place among all streams of the program, in text order and with loops unrolled.
    pub place: usize,
    pub units: usize,
}

/// The count at a place; 0 where there is none.
fn count_at(counts: &[usize], place: usize) -> usize
    ensures { result ≡ get_or counts.now place 0 }
{
    counts.get(place).copied().unwrap_or(0)
}

/// Adds the instance at a place, with its count.
fn put_share(
    alloc: Global,
    shares: &mut Vec<Share>,
    instances: &[Instance],
    counts: &[usize],
    place: usize,
) -> Result<(), AllocError>
    ensures { OnOk result (shares.new.items ≡ shares.old.items ++ share_at instances.now counts.now place) }
{
    match instances.get(place) {
        None => Ok(()),
        Some(instance) => {
            let name = instance.name.copy(alloc)?;
            shares.push(Share {
                name,
                index: instance.index,
                place,
                units: count_at(counts, place),
            })?;
            Ok(())
        }
    }
}

/// The instances at these places, with their counts.
fn shares_at(
    alloc: Global,
    instances: &[Instance],
    counts: &[usize],
    places: &[usize],
) -> Result<Vec<Share>, AllocError>
    ensures { IfOk result (λ shares. shares.items ≡ flat_map (share_at instances.now counts.now) places.now) }
{
    let mut shares = Vec::new(alloc);
    for place in places {
        put_share(alloc, &mut shares, instances, counts, *place)?;
    }
    Ok(shares)
}

/// The instances with the greatest counts: at most so many, the greatest count first, and of equal ones the first.
fn greatest_shares(
    alloc: Global,
    instances: &[Instance],
    counts: &[usize],
    most: usize,
) -> Result<Vec<Share>, AllocError>
    ensures { IfOk result (λ shares. AreSharesWith instances.now counts.now most shares.items) }
{
    let places = greatest(alloc, counts, most)?;
    let shares = shares_at(alloc, instances, counts, &places)?;
    Ok(shares)
}

/// The streams of a program for which most units are made in its net on so many columns: at most so many, the greatest
/// count first, and of equal ones the first in the text. The equations are narrowed where that is asked for. None where the
/// program leaves no turn of the walk, or its net passes a limit.
pub fn most_shares(
    alloc: Global,
    front: Front,
    narrowed: bool,
    columns: usize,
    most: usize,
) -> Result<Vec<Share>, AllocError>
    requires equations { HasEquations front.scoped.program front.flat }
    requires widths { AreWidths (equations_of front.scoped.program).equations front.widths }
    requires columns { (1 ≤ columns) × (columns ≤ 64) }
    ensures { IfOk result (λ shares.
        AreSharesOrNone columns narrowed front.scoped.program front.widths most shares.items) }
{
    match tally_of(alloc, front, narrowed, columns) {
        Ok(tally) => {
            return greatest_shares(alloc, &tally.instances, &tally.counts, most);
        }
        Err(fault) => {
            untold(fault)?;
            let none = Vec::new(alloc);
            return Ok(none);
        }
    }
}
