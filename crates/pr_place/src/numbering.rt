//! Numbers of cells, unit by unit.

ghost use Rattle.std.specs.Prelude.{◌≡◌, ◌≤◌, ◌<◌, ◌+◌, ◌-◌, ◌^◌, ℕ, [], ◌++◌, min, IfOk, OnOk, length, slice_index, slice_index_or};
ghost use Rattle.std.specs.List.{range_with_len};
ghost use Rattle.std.specs.List.{All};
ghost use Rattle.pr_net.specs.Nets.{IsNet};
ghost use Rattle.pr_net.specs.Whole.{shape_of};
ghost use Rattle.pr_place.specs.Lists.{Holds};
ghost use Rattle.pr_place.specs.Numbering.{IsNumbered, CanNumber, cells_in, group_numbers};
ghost use Rattle.pr_place.specs.Tables.{cells_by};

use crate::lists::Lists;
use pr_net::{Net, Unit};
use std::alloc::{AllocError, Global};

/// Where the cells of each unit begin among the cells of all units, one unit after the other.
#[derive(Drop)]
pub struct Numbering {
    /// The number of the first cell of each unit.
    pub first: Vec<usize>,
    /// How many cells there are.
    pub cells: usize,
}

/// How many cells units have, or the greatest number if they have more.
pub fn count_cells(units: &[Unit]) -> usize
    ensures { result ≡ min (cells_in units.now) (2 ^ 64 - 1) }
{
    let mut cells: usize = 0;
    for unit in units {
        cells = cells.saturating_add(unit.cells.len());
    }
    cells
}

/// Numbers the cells of units.
pub fn number_cells(alloc: Global, units: &[Unit]) -> Result<Numbering, AllocError>
    requires { cells_in units.now < 2 ^ 63 }
    ensures { IfOk result (λ made. IsNumbered units.now made.first.items made.cells) }
{
    let mut first = Vec::with_capacity(alloc, units.len())?;
    let mut cells = 0;
    for unit in units {
        first.push(cells)?;
        cells += unit.cells.len();
    }
    Ok(Numbering { first, cells })
}

/// Appends so many numbers from one on.
fn push_numbers(numbers: &mut Vec<usize>, from: usize, count: usize) -> Result<(), AllocError>
    requires { from + count < 2 ^ 64 }
    ensures { OnOk result (numbers.new.items ≡ numbers.old.items ++ range_with_len from count) }
{
    for i in 0..count {
        numbers.push(from + i)?;
    }
    Ok(())
}

/// Appends the numbers of the cells of these units.
fn list_cells(
    numbers: &mut Vec<usize>,
    units: &[Unit],
    first: &[usize],
    group: &[u32],
) -> Result<(), AllocError>
    requires { CanNumber units.now first.now group.now }
    ensures { OnOk result (numbers.new.items ≡ numbers.old.items ++ group_numbers units.now first.now group.now) }
{
    for &unit in group {
        let members = &units[unit as usize];
        push_numbers(numbers, first[unit as usize], members.cells.len())?;
    }
    Ok(())
}

/// The numbers of the cells of each group.
pub fn cell_lists<const N: usize>(
    alloc: Global,
    net: &Net,
    numbering: &Numbering,
) -> Result<Lists, AllocError>
    requires net { IsNet N (shape_of net.now) }
    requires numbered { IsNumbered net.now.units.items numbering.now.first.items numbering.now.cells }
    ensures cells { IfOk result (λ made. Holds (cells_by (shape_of net.now) numbering.now.first.items)
        (length net.now.groups.items) made.starts.items made.items.items) }
    ensures below { IfOk result (λ made. All (λ x. x < numbering.now.cells) made.items.items) }
{
    let mut starts = Vec::with_capacity(alloc, net.groups.len() + 1)?;
    let mut items = Vec::with_capacity(alloc, numbering.cells)?;
    starts.push(0)?;
    for group in 0..net.groups.len() {
        let members = &net.groups[group];
        list_cells(&mut items, &net.units, &numbering.first, &members.units)?;
        starts.push(items.len())?;
    }
    Ok(Lists { starts, items })
}
