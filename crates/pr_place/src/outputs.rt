//! The cells that outputs have.

ghost use Rattle.std.specs.Prelude.{◌≡◌, ◌<◌, ◌^◌, ℕ, length, slice_index_or};
ghost use Rattle.pr_net.specs.declared.cells.Slice.{Slice};
ghost use Rattle.pr_net.specs.Shape.{OutputShape};
ghost use Rattle.pr_place.specs.Numbering.{IsSliceBelow, marked, marked_all, marked_outputs};

use pr_net::{NetOutput, Slice};

/// Marks the cell of a slice.
fn mark(first: &[usize], kept: &mut [bool], slice: Slice)
    requires there { IsSliceBelow first.now (length kept.old) slice }
    ensures { kept.new ≡ marked first.now kept.old slice }
{
    if let Slice::Of(unit, place) = slice {
        kept[first[unit as usize] + usize::from(place)] = true;
    }
}

/// Marks the cells of these slices.
fn mark_all(first: &[usize], kept: &mut [bool], slices: &[Slice])
    requires there { (i : ℕ) (d : Slice) → i < length slices.now
        → IsSliceBelow first.now (length kept.old) (slice_index_or slices.now i d) }
    ensures { kept.new ≡ marked_all first.now kept.old slices.now }
{
    for &slice in slices {
        mark(first, kept, slice);
    }
}

/// Marks the cells of the outputs.
pub fn mark_outputs(first: &[usize], kept: &mut [bool], outputs: &[NetOutput])
    requires there { (o i : ℕ) (e : OutputShape) (d : Slice) → o < length outputs.now
        → i < length (slice_index_or outputs.now o e).slices
        → IsSliceBelow first.now (length kept.old) (slice_index_or (slice_index_or outputs.now o e).slices i d) }
    ensures { kept.new ≡ marked_outputs first.now kept.old outputs.now }
{
    for output in outputs {
        mark_all(first, kept, &output.slices);
    }
}
