//! Where the units of a net stand.

ghost use Rattle.std.specs.Prelude.{◌≡◌, ◌≤◌, ◌<◌, ◌+◌, ◌^◌, ℕ, Some, None, IfOk, length, map};
ghost use Rattle.std.specs.List.{range_with_len};
ghost use Rattle.pr_net.specs.Nets.{IsNet};
ghost use Rattle.pr_net.specs.Whole.{shape_of};
ghost use Rattle.pr_place.specs.Courses.{Opens, first_open, home_at};
ghost use Rattle.pr_place.specs.Greedy.{placed_after, homes_in, number_of_group};
ghost use Rattle.pr_place.specs.Placements.{home_shape};
ghost use Rattle.pr_place.specs.Registers.{spotted};
ghost use Rattle.pr_place.specs.Tables.{AreTables};

use crate::course::Course;
use crate::lookups::Tables;
use crate::placements::Home;
use crate::progress::Progress;
use pr_net::Net;
use std::alloc::{AllocError, Global};

/// The registers of so many cells from one on.
fn registers(
    alloc: Global,
    progress: &Progress,
    from: usize,
    count: usize,
) -> Result<Vec<u8>, AllocError>
    requires inside { from + count ≤ length progress.now.spots }
    requires small { from + count < 2 ^ 64 }
    ensures { IfOk result (λ regs.
        regs.items ≡ map (λ i. (spotted progress.now.spots (from + i)).1) (range_with_len 0 count)) }
{
    let mut regs = Vec::with_capacity(alloc, count)?;
    for i in 0..count {
        let (_, reg) = progress.spot(from + i);
        regs.push(reg)?;
    }
    Ok(regs)
}

/// The home of a unit.
fn home<const N: usize, const P: usize>(
    alloc: Global,
    net: &Net,
    tables: &Tables,
    course: &Course,
    unit: usize,
) -> Result<Home, AllocError>
    requires tables { AreTables N P (shape_of net.now) tables.now }
    requires opens { Opens N P (shape_of net.now) tables.now course.now }
    requires unit { unit < length net.now.units.items }
    ensures { IfOk result (λ home. home_shape home ≡ home_at (shape_of net.now) tables.now course.now unit) }
{
    let first = tables.cells.first[unit];
    let group = tables.cells.owner[first] as usize;
    let stage = course.stages[group].unwrap_or(0);
    let (col, _) = course.progress.spot(first);
    let regs = registers(alloc, &course.progress, first, net.units[unit].cells.len())?;
    Ok(Home { stage, col, regs })
}

/// The homes of the units once all groups are placed.
pub fn homes<const N: usize, const P: usize>(
    alloc: Global,
    net: &Net,
    tables: &Tables,
    course: &Course,
) -> Result<Vec<Home>, AllocError>
    requires tables { AreTables N P (shape_of net.now) tables.now }
    requires opens { Opens N P (shape_of net.now) tables.now course.now }
    requires registers { 2 ≤ P }
    requires none { course.now.left ≡ 0 }
    ensures { IfOk result (λ homes.
        map home_shape homes.items
        ≡ homes_in (shape_of net.now) (placed_after N P (shape_of net.now) course.now.stage)) }
{
    let mut homes = Vec::with_capacity(alloc, net.units.len())?;
    for unit in 0..net.units.len() {
        homes.push(home::<N, P>(alloc, net, tables, course, unit)?)?;
    }
    Ok(homes)
}

/// The first group that has no stage.
fn first_left(stages: &[Option<u32>]) -> Option<usize>
    ensures { result ≡ first_open stages.now }
{
    for group in 0..stages.len() {
        if stages[group].is_none() {
            return Some(group);
        }
    }
    None
}

/// The number of the first group that has no stage.
pub fn number_left<const N: usize>(net: &Net, stages: &[Option<u32>]) -> u32
    requires net { IsNet N (shape_of net.now) }
    requires long { length stages.now ≡ length net.now.groups.items }
    ensures { (g : ℕ) → first_open stages.now ≡ Some g → result ≡ number_of_group (shape_of net.now) g }
{
    match first_left(stages) {
        Some(group) => {
            let units = &net.groups[group].units;
            units[units.len() - 1]
        }
        None => 0,
    }
}
