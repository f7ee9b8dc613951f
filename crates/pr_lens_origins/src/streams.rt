//! The streams of a program with the places of their names, and the units that are made for each.

ghost use Rattle.std.specs.Prelude.{◌≡◌, ◌≤◌, ◌++◌, ◌∷◌, [], IfOk, OnOk, get_or, length, option_map};
ghost use Rattle.pr_flat.specs.Widths.{AreWidths};
ghost use Rattle.pr_expand_spec.specs.Programs.{equations_of};
ghost use Rattle.pr_compile_front.specs.Passed.{HasEquations};
ghost use Rattle.pr_lens_origins.specs.Origins.{AreOriginsOrNone, first_spot, stream_with, streams_from};

use crate::spots::{Spot, spots_of};
use pr_compile_front::Front;
use pr_lang::Name;
use pr_lens_shares::{tally_of, untold};
use pr_scope_names::Instance;
use std::alloc::{AllocError, Global};

/// A stream, and where its name stands in the text.
#[derive(Drop)]
pub struct Stream {
    pub name: Name,
    pub index: Option<u64>,
    pub spot: Spot,
}

/// Where the units of a net come from.
#[derive(Drop)]
pub struct Origins {
    /// The streams of the program in text order, with loops unrolled.
    pub streams: Vec<Stream>,
    /// For each unit the place of the stream that it is made for. The units behind the last are made for none.
    pub owners: Vec<Option<usize>>,
}

impl Origins {
    ghost use Rattle.pr_lens_origins.specs.Origins.{stream_of};

    /// The stream that a unit is made for, where it is told.
    pub fn stream_of(&self, unit: usize) -> Option<&Stream>
        ensures { option_map (λ s. s.now) result ≡ stream_of self.now unit }
    {
        match self.owners.get(unit) {
            None => None,
            Some(owner) => match owner {
                None => None,
                Some(place) => self.streams.get(*place),
            },
        }
    }
}

/// The spot of this place; the beginning of the text where there is none.
pub fn spot_at(spots: &[Spot], place: usize) -> Spot
    ensures { result ≡ get_or spots.now place first_spot }
{
    let first = Spot {
        line: 1,
        column: 1,
        end_column: 1,
    };
    spots.get(place).copied().unwrap_or(first)
}

/// Adds a stream with its spot.
fn put_stream(
    alloc: Global,
    streams: &mut Vec<Stream>,
    instance: &Instance,
    spot: Spot,
) -> Result<(), AllocError>
    ensures { OnOk result (streams.new.items ≡ streams.old.items ++ stream_with instance.now spot ∷ []) }
{
    let name = instance.name.copy(alloc)?;
    streams.push(Stream {
        name,
        index: instance.index,
        spot,
    })?;
    Ok(())
}

/// The streams that instances stand for, with their spots.
fn streams_of(
    alloc: Global,
    instances: &[Instance],
    spots: &[Spot],
) -> Result<Vec<Stream>, AllocError>
    ensures { IfOk result (λ streams. streams.items ≡ streams_from 0 instances.now spots.now) }
{
    let mut streams = Vec::new(alloc);
    for (place, instance) in instances.iter().enumerate() {
        put_stream(alloc, &mut streams, instance, spot_at(spots, place))?;
    }
    Ok(streams)
}

/// The streams of a program with the places of their names in a text, and the units that are made for each in its net on
/// so many columns. The equations are narrowed where that is asked for. None where the program leaves no turn of the walk,
/// or its net passes a limit.
pub fn origins_of(
    alloc: Global,
    front: Front,
    text: &[u8],
    narrowed: bool,
    columns: usize,
) -> Result<Option<Origins>, AllocError>
    requires equations { HasEquations front.scoped.program front.flat }
    requires widths { AreWidths (equations_of front.scoped.program).equations front.widths }
    requires columns { (1 ≤ columns) × (columns ≤ 64) }
    requires short { length text.now ≤ 1048576 }
    ensures { IfOk result (AreOriginsOrNone columns narrowed text.now front.scoped.program front.widths) }
{
    let spots = spots_of(alloc, text, &front.scoped.program)?;
    match tally_of(alloc, front, narrowed, columns) {
        Ok(tally) => {
            let streams = streams_of(alloc, &tally.instances, &spots)?;
            return Ok(Some(Origins {
                streams,
                owners: tally.owners,
            }));
        }
        Err(fault) => {
            untold(fault)?;
            return Ok(None);
        }
    }
}
