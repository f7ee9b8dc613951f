//! What groups read of other groups.

ghost use Rattle.std.specs.Prelude.{◌≡◌, ◌<◌, ◌≤◌, ◌^◌, ℕ, [], ◌++◌, IfOk, OnOk, length, slice_index, slice_index_or};
ghost use Rattle.pr_net.specs.declared.cells.Cell.{Cell};
ghost use Rattle.pr_net.specs.Nets.{IsNet};
ghost use Rattle.pr_net.specs.Whole.{shape_of};
ghost use Rattle.pr_place.specs.Lists.{Holds, joined};
ghost use Rattle.pr_place.specs.Numbering.{IsNumbered, IsWireBelow, IsCellBelow, CanRead, wire_numbers, cell_numbers, unit_reads_of, group_reads_of, reads_from};
ghost use Rattle.pr_place.specs.Tables.{reads_by};

use crate::lists::Lists;
use pr_net::{Cell, Net, Unit, Wire, WireBit};
use std::alloc::{AllocError, Global};

/// Appends the cell that a wire reads, if it is of another group.
fn push_wire(
    reads: &mut Vec<usize>,
    first: &[usize],
    owner: &[u32],
    group: u32,
    wire: Wire,
) -> Result<(), AllocError>
    requires there { IsWireBelow first.now (length owner.now) wire }
    ensures { OnOk result (reads.new.items ≡ reads.old.items ++ wire_numbers first.now owner.now group wire) }
{
    if let Wire::Of(unit, place) = wire {
        let cell = first[unit as usize] + usize::from(place);
        if owner[cell] != group {
            reads.push(cell)?;
        }
    }
    Ok(())
}

/// Appends the cells of other groups that a cell reads.
fn push_cell(
    reads: &mut Vec<usize>,
    first: &[usize],
    owner: &[u32],
    group: u32,
    cell: &Cell,
) -> Result<(), AllocError>
    requires there { IsCellBelow first.now (length owner.now) cell.now }
    ensures { OnOk result (reads.new.items ≡ reads.old.items ++ cell_numbers first.now owner.now group cell.now) }
{
    push_wire(reads, first, owner, group, cell.a)?;
    push_wire(reads, first, owner, group, cell.hi)?;
    push_wire(reads, first, owner, group, cell.lo)?;
    match cell.c {
        WireBit::Of(wire, _) => push_wire(reads, first, owner, group, wire),
        WireBit::None | WireBit::CarryIn => Ok(()),
    }
}

/// Appends the cells of other groups that a unit reads.
fn push_unit(
    reads: &mut Vec<usize>,
    first: &[usize],
    owner: &[u32],
    group: u32,
    cells: &[Cell],
) -> Result<(), AllocError>
    requires there { (i : ℕ) (d : Cell) → i < length cells.now →
        IsCellBelow first.now (length owner.now) (slice_index_or cells.now i d) }
    ensures { OnOk result (reads.new.items ≡ reads.old.items ++ unit_reads_of first.now owner.now group cells.now) }
{
    for cell in cells {
        push_cell(reads, first, owner, group, cell)?;
    }
    Ok(())
}

/// Appends the cells of other groups that these units read, each as often as they do.
fn list_reads(
    reads: &mut Vec<usize>,
    units: &[Unit],
    first: &[usize],
    owner: &[u32],
    group: u32,
    members: &[u32],
) -> Result<(), AllocError>
    requires { CanRead units.now first.now (length owner.now) members.now }
    ensures { OnOk result (reads.new.items
        ≡ reads.old.items ++ group_reads_of units.now first.now owner.now group members.now) }
{
    for &member in members {
        let unit = &units[member as usize];
        push_unit(reads, first, owner, group, &unit.cells)?;
    }
    Ok(())
}

/// What each group reads of other groups.
pub fn read_lists<const N: usize>(
    alloc: Global,
    net: &Net,
    first: &[usize],
    owner: &[u32],
) -> Result<Lists, AllocError>
    requires net { IsNet N (shape_of net.now) }
    requires numbered { IsNumbered net.now.units.items first.now (length owner.now) }
    ensures reads { IfOk result (λ made. Holds (reads_by (shape_of net.now) first.now owner.now)
        (length net.now.groups.items) made.starts.items made.items.items) }
    ensures all { IfOk result (λ made. made.items.items
        ≡ joined (reads_from net.now.units.items first.now owner.now 0 net.now.groups.items)) }
{
    let mut starts = Vec::with_capacity(alloc, net.groups.len() + 1)?;
    let mut items = Vec::with_capacity(alloc, owner.len())?;
    starts.push(0)?;
    for group in 0..net.groups.len() {
        let members = &net.groups[group];
        list_reads(
            &mut items,
            &net.units,
            first,
            owner,
            group as u32,
            &members.units,
        )?;
        starts.push(items.len())?;
    }
    Ok(Lists { starts, items })
}
