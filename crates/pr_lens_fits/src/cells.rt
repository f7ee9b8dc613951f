//! The cells of units, and the groups that end with them.

ghost use Rattle.std.specs.Prelude.{◌≡◌, length};
ghost use Rattle.pr_net.specs.Shape.{cells_of};
ghost use Rattle.pr_net.specs.Whole.{shape_of};
ghost use Rattle.pr_lens_fits.specs.Unfits.{cell_count, ends_with, group_ending};

use pr_net::Net;

/// How many cells a unit has.
pub fn cells_of(net: &Net, unit: u32) -> usize
    ensures { result ≡ length (cells_of (shape_of net.now) unit) }
{
    match net.units.get(unit as usize) {
        None => 0,
        Some(found) => found.cells.len(),
    }
}

/// How many cells these units have: each takes a column.
pub fn cells_in(net: &Net, units: &[u32]) -> usize
    ensures { result ≡ cell_count (shape_of net.now) units.now }
{
    let mut cells: usize = 0;
    for unit in units {
        cells = cells.saturating_add(cells_of(net, *unit));
    }
    cells
}

/// Whether this is the last of some units.
fn ends_with(units: &[u32], unit: u64) -> bool
    ensures { result ≡ ends_with unit units.now }
{
    match units.get(units.len().saturating_sub(1)) {
        None => false,
        Some(last) => u64::from(*last) == unit,
    }
}

/// The units of the first group whose last unit this is; none where there is no such group.
pub fn group_ending(net: &Net, unit: u64) -> &[u32]
    ensures { result.now ≡ group_ending (shape_of net.now) unit }
{
    for group in &net.groups {
        if ends_with(&group.units, unit) {
            return &group.units;
        }
    }
    &[]
}
