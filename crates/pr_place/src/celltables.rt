//! Tables with an entry for each cell.

ghost use Rattle.std.specs.Prelude.{◌≡◌, ◌<◌, ◌+◌, ◌^◌, ℕ, false, [], IfOk, All, length, replicate, slice_index};
ghost use Rattle.pr_net.specs.Nets.{IsNet};
ghost use Rattle.pr_net.specs.Whole.{shape_of};
ghost use Rattle.pr_place.specs.Lists.{Holds};
ghost use Rattle.pr_place.specs.Numbering.{IsNumbered, needs_in, owned_by, marked_outputs};
ghost use Rattle.pr_place.specs.Registers.{count_of};
ghost use Rattle.pr_place.specs.Tables.{AreCells, ArePlans, cells_by};
ghost use Rattle.pr_place.specs.Tracking.{IsCellOf};

use crate::lists::Lists;
use crate::numbering::{Numbering, cell_lists, count_cells, number_cells};
use crate::outputs::mark_outputs;
use crate::plans::Plans;
use crate::readings::read_lists;
use pr_net::Net;
use std::alloc::{AllocError, Global};

/// Tables by the numbers of the cells, and the number of the first cell of each unit.
#[derive(Drop)]
pub struct CellTables {
    /// The number of the first cell of each unit.
    pub first: Vec<usize>,
    /// The group of each cell.
    pub owner: Vec<u32>,
    /// Whether an output has the cell.
    pub kept: Vec<bool>,
    /// How often each cell is read by other groups.
    pub uses: Vec<usize>,
}

/// Notes the group of these cells.
fn own(owner: &mut [u32], cells: &[usize], group: u32)
    requires { All (λ x. x < length owner.old) cells.now }
    ensures { owner.new ≡ owned_by group owner.old cells.now }
{
    for &cell in cells {
        owner[cell] = group;
    }
}

/// The group of each cell.
fn owners<const N: usize>(
    alloc: Global,
    net: &Net,
    numbering: &Numbering,
    cells: &Lists,
) -> Result<Vec<u32>, AllocError>
    requires net { IsNet N (shape_of net.now) }
    requires numbered { IsNumbered net.now.units.items numbering.now.first.items numbering.now.cells }
    requires cells { Holds (cells_by (shape_of net.now) numbering.now.first.items)
        (length net.now.groups.items) cells.now.starts.items cells.now.items.items }
    ensures long { IfOk result (λ owner. length owner.items ≡ numbering.now.cells) }
    ensures owner { IfOk result (λ owner. (g u i : ℕ) → IsCellOf (shape_of net.now) g u i
        → slice_index owner.items (slice_index numbering.now.first.items u + i) ≡ g) }
{
    let mut owner = vec![in alloc; 0; numbering.cells]?;
    for group in 0..net.groups.len() {
        own(&mut owner, cells.of(group), group as u32);
    }
    Ok(owner)
}

/// Counts what is read.
fn count(uses: &mut [usize], reads: &[usize])
    requires there { All (λ x. x < length uses.old) reads.now }
    requires room { (x : ℕ) → slice_index uses.old x + length reads.now < 2 ^ 64 }
    ensures long { length uses.new ≡ length uses.old }
    ensures counted { (x : ℕ) → slice_index uses.new x ≡ slice_index uses.old x + count_of x reads.now }
{
    for &cell in reads {
        uses[cell] += 1;
    }
}

/// How often each of so many cells is read.
fn uses(alloc: Global, cells: usize, reads: &[usize]) -> Result<Vec<usize>, AllocError>
    requires { All (λ x. x < cells) reads.now }
    ensures long { IfOk result (λ uses. length uses.items ≡ cells) }
    ensures uses { IfOk result (λ uses. (x : ℕ) → slice_index uses.items x ≡ count_of x reads.now) }
{
    let mut uses = vec![in alloc; 0; cells]?;
    count(&mut uses, reads);
    Ok(uses)
}

/// Whether an output has each cell, by marks of which none is set.
fn kept<const N: usize>(net: &Net, numbering: &Numbering, unmarked: Vec<bool>) -> Vec<bool>
    requires net { IsNet N (shape_of net.now) }
    requires numbered { IsNumbered net.now.units.items numbering.now.first.items numbering.now.cells }
    requires none { unmarked.items ≡ replicate numbering.now.cells false }
    ensures { result.items
        ≡ marked_outputs numbering.now.first.items (replicate numbering.now.cells false) net.now.outputs.items }
{
    let mut kept = unmarked;
    mark_outputs(&numbering.first, &mut kept, &net.outputs);
    kept
}

/// Whether each of these cells needs a register.
fn needs_of(
    alloc: Global,
    kept: &[bool],
    uses: &[usize],
    cells: &[usize],
) -> Result<Vec<bool>, AllocError>
    requires kept { All (λ x. x < length kept.now) cells.now }
    requires uses { All (λ x. x < length uses.now) cells.now }
    ensures { IfOk result (λ needs. needs.items ≡ needs_in kept.now uses.now cells.now) }
{
    let mut needs = Vec::with_capacity(alloc, cells.len())?;
    for &cell in cells {
        needs.push(kept[cell] || uses[cell] > 0)?;
    }
    Ok(needs)
}

/// The tables of a net's cells, and the plans of its groups.
pub fn cells_and_plans<const N: usize>(
    alloc: Global,
    net: &Net,
) -> Result<(CellTables, Plans), AllocError>
    requires { IsNet N (shape_of net.now) }
    ensures cells { IfOk result (λ made. AreCells (shape_of net.now) made.0) }
    ensures plans { IfOk result (λ made. ArePlans (shape_of net.now) made.0 made.1) }
{
    let unmarked = vec![in alloc; false; count_cells(&net.units)]?;
    let numbering = number_cells(alloc, &net.units)?;
    let kept = kept::<N>(net, &numbering, unmarked);
    let cells = cell_lists::<N>(alloc, net, &numbering)?;
    let owner = owners::<N>(alloc, net, &numbering, &cells)?;
    let reads = read_lists::<N>(alloc, net, &numbering.first, &owner)?;
    let uses = uses(alloc, numbering.cells, &reads.items)?;
    let needs = needs_of(alloc, &kept, &uses, &cells.items)?;
    let tables = CellTables {
        first: numbering.first,
        owner,
        kept,
        uses,
    };
    let plans = Plans {
        cells,
        needs,
        reads,
    };
    Ok((tables, plans))
}
