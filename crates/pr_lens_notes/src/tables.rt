//! The owners of units, by the columns in which the units stand.

ghost use Rattle.std.specs.Prelude.{◌≡◌, ◌<◌, ◌≤◌, ◌+◌, ◌*◌, ℕ, None, IfOk, if◌then◌else◌, length, min, slice_index_or};
ghost use Rattle.pr_place.specs.Placements.{home_shape, shape_of};
ghost use Rattle.pr_lens_notes.specs.Tables.{owner_of, stands_at};

use pr_lens_rtl_text::owner_at;
use pr_place::{Home, Placement};
use std::alloc::{AllocError, Global};

/// Puts an owner at the places from one on up to another.
fn fill(owners: &mut Vec<Option<usize>>, from: usize, to: usize, owner: Option<usize>)
    requires order { from ≤ to }
    requires inside { to ≤ length owners.old.items }
    ensures long { length owners.new.items ≡ length owners.old.items }
    ensures before { (at : ℕ) → at < from →
        slice_index_or owners.new.items at None ≡ slice_index_or owners.old.items at None }
    ensures inside { (at : ℕ) → from ≤ at → at < to → slice_index_or owners.new.items at None ≡ owner }
    ensures behind { (at : ℕ) → to ≤ at →
        slice_index_or owners.new.items at None ≡ slice_index_or owners.old.items at None }
{
    for at in from..to {
        owners[at] = owner;
    }
}

/// The place of a column of a stage, or the end of the stage or of the table where it is behind that.
fn place_of(stage: u32, columns: usize, col: usize, len: usize) -> usize
    requires { columns ≤ 64 }
    ensures { result ≡ min (stage * columns + min col columns) len }
{
    (stage as usize * columns + col.min(columns)).min(len)
}

/// The column behind so many cells from one on; where it is no column, any number that is none.
fn end_of(columns: usize, col: u8, cells: usize) -> usize
    requires { columns ≤ 64 }
    ensures { min result columns ≡ min (col + cells) columns }
{
    usize::from(col) + cells.min(columns)
}

/// Puts the owner of a unit at the places of the columns in which it stands.
fn put_unit(owners: &mut Vec<Option<usize>>, columns: usize, home: &Home, owner: Option<usize>)
    requires { columns ≤ 64 }
    ensures long { length owners.new.items ≡ length owners.old.items }
    ensures put { (stage col : ℕ) → col < columns → stage * columns + col < length owners.old.items →
        slice_index_or owners.new.items (stage * columns + col) None
        ≡ (if stands_at (home_shape home.now) stage col then owner
        else slice_index_or owners.old.items (stage * columns + col) None) }
{
    let len = owners.len();
    let from = place_of(home.stage, columns, usize::from(home.col), len);
    let end = end_of(columns, home.col, home.regs.len());
    let to = place_of(home.stage, columns, end, len);
    fill(owners, from, to, owner);
}

/// For each column of each stage, those of stage 0 first, the owner of the unit that stands there.
pub fn owners_in(
    alloc: Global,
    columns: usize,
    placement: &Placement,
    owners: &[Option<usize>],
) -> Result<Vec<Option<usize>>, AllocError>
    requires { columns ≤ 64 }
    ensures long { IfOk result (λ table. length table.items ≡ placement.now.stages * columns) }
    ensures owned { IfOk result (λ table. (stage col : ℕ) → stage < placement.now.stages → col < columns →
        slice_index_or table.items (stage * columns + col) None
        ≡ owner_of (shape_of placement.now) owners.now (length placement.now.homes.items) stage col) }
{
    let mut table = vec![in alloc; None; placement.stages as usize * columns]?;
    for unit in 0..placement.homes.len() {
        put_unit(
            &mut table,
            columns,
            &placement.homes[unit],
            owner_at(owners, unit),
        );
    }
    Ok(table)
}
