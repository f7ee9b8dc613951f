//! Bytes that have to be kept.

ghost use Rattle.std.specs.Prelude.{◌≡◌, ◌==◌, ◌&&◌, IfOk, drop};
ghost use Rattle.std.specs.List.{list_any, count_by};
ghost use Rattle.pr_net.specs.Nets.{is_wire_of, is_bit_of, is_slice_of, cell_reads};
ghost use Rattle.pr_net.specs.Whole.{shape_of};
ghost use Rattle.pr_lens_fits.specs.Needed.{MarksCells, is_needed, kept_before};

use pr_net::{Cell, Net, NetOutput, Slice, Unit, Wire, WireBit};
use std::alloc::{AllocError, Global};

/// Marks a cell of a unit, where it has a mark.
fn note(marks: &mut [bool], unit: u32, cell: u8)
    ensures { MarksCells marks.old marks.new (λ v j. (unit == v) && (cell == j)) }
{
    if cell >= 64 {
        return;
    }
    let place = unit as usize * 64 + cell as usize;
    if place < marks.len() {
        marks[place] = true;
    }
}

fn note_wire(marks: &mut [bool], wire: Wire)
    ensures { MarksCells marks.old marks.new (λ v j. is_wire_of v j wire) }
{
    match wire {
        Wire::Of(unit, cell) => note(marks, unit, cell),
        Wire::Const(_) | Wire::State(_, _) | Wire::Bus(_) => {}
    }
}

fn note_bit(marks: &mut [bool], bit: WireBit)
    ensures { MarksCells marks.old marks.new (λ v j. is_bit_of v j bit) }
{
    match bit {
        WireBit::Of(wire, _) => note_wire(marks, wire),
        WireBit::None | WireBit::CarryIn => {}
    }
}

fn note_slice(marks: &mut [bool], slice: Slice)
    ensures { MarksCells marks.old marks.new (λ v j. is_slice_of v j slice) }
{
    match slice {
        Slice::Of(unit, cell) => note(marks, unit, cell),
        Slice::Const(_) | Slice::State(_, _) => {}
    }
}

/// Marks what a cell reads.
fn note_cell(marks: &mut [bool], cell: &Cell)
    ensures { MarksCells marks.old marks.new (λ v j. cell_reads v j cell.now) }
{
    note_bit(marks, cell.c);
    note_wire(marks, cell.lo);
    note_wire(marks, cell.hi);
    note_wire(marks, cell.a);
}

/// Marks what the cells of a unit read.
fn note_unit(marks: &mut [bool], unit: &[Cell])
    ensures { MarksCells marks.old marks.new (λ v j. list_any (cell_reads v j) unit.now) }
{
    for cell in unit {
        note_cell(marks, cell);
    }
}

#[tactic(auto, using(crate::proofs::NeededLemmas::any_left))]
fn note_units(marks: &mut [bool], units: &[Unit])
    ensures { MarksCells marks.old marks.new (λ v j. list_any (list_any (cell_reads v j)) units.now) }
{
    for unit in units {
        note_unit(marks, &unit.cells);
    }
}

/// Marks what an output has.
fn note_slices(marks: &mut [bool], slices: &[Slice])
    ensures { MarksCells marks.old marks.new (λ v j. list_any (is_slice_of v j) slices.now) }
{
    for slice in slices {
        note_slice(marks, *slice);
    }
}

#[tactic(auto, using(crate::proofs::NeededLemmas::any_left))]
fn note_outputs(marks: &mut [bool], outputs: &[NetOutput])
    ensures { MarksCells marks.old marks.new (λ v j. list_any (λ o. list_any (is_slice_of v j) o.slices) outputs.now) }
{
    for output in outputs {
        note_slices(marks, &output.slices);
    }
}

/// The units from this one on.
fn from_unit(net: &Net, unit: u32) -> &[Unit]
    ensures { result.now ≡ drop unit net.now.units.items }
{
    let first = (unit as usize).min(net.units.len());
    &net.units[first..]
}

/// Marks what is needed from a unit on.
fn note_needed(marks: &mut [bool], net: &Net, unit: u32)
    ensures { MarksCells marks.old marks.new (is_needed (shape_of net.now) unit) }
{
    note_outputs(marks, &net.outputs);
    note_units(marks, from_unit(net, unit));
}

/// How many marks are set.
fn count(marks: &[bool]) -> usize
    ensures { result ≡ count_by (λ mark. mark) marks.now }
{
    marks.iter().filter(|mark| **mark).count()
}

/// How many bytes that are made before this unit are needed by it, by later ones or by outputs.
pub fn kept_before(alloc: Global, net: &Net, unit: u32) -> Result<usize, AllocError>
    ensures { IfOk result (λ kept. kept ≡ kept_before (shape_of net.now) unit) }
{
    let mut marks = vec![in alloc; false; 64 * unit as usize]?;
    note_needed(&mut marks, net, unit);
    Ok(count(&marks))
}
