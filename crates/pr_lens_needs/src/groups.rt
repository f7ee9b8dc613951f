//! The columns of units.

ghost use Rattle.std.specs.Prelude.{◌≡◌};
ghost use Rattle.pr_net.specs.Whole.{shape_of};
ghost use Rattle.pr_lens_needs.specs.Takes.{cells_between, columns_between};

use pr_lens_fits::cells_of;
use pr_net::Net;

/// How many cells a unit has that has a number from one up to another; none where it has another one.
fn cells_between(net: &Net, unit: u32, from: u64, to: u64) -> usize
    ensures { result ≡ cells_between (shape_of net.now) from to unit }
{
    if from <= u64::from(unit) && u64::from(unit) < to {
        cells_of(net, unit)
    } else {
        0
    }
}

/// The columns of those of some units that have a number from one up to another.
pub fn columns_between(net: &Net, units: &[u32], from: u64, to: u64) -> usize
    ensures { result ≡ columns_between (shape_of net.now) units.now from to }
{
    let mut cells: usize = 0;
    for unit in units {
        cells = cells.saturating_add(cells_between(net, *unit, from, to));
    }
    cells
}
