//! Placing by the greedy rule.

ghost use Rattle.std.specs.Prelude.{◌≡◌, ◌≤◌, IfOk, IfErr};
ghost use Rattle.pr_net.specs.Nets.{IsNet};
ghost use Rattle.pr_net.specs.Whole.{shape_of as net_shape};
ghost use Rattle.pr_place.specs.Courses.{Opens};
ghost use Rattle.pr_place.specs.Faults.{IsPlaceFault};
ghost use Rattle.pr_place.specs.Greedy.{IsGreedy};
ghost use Rattle.pr_place.specs.Placements.{shape_of};
ghost use Rattle.pr_place.specs.Tables.{AreTables};

use crate::course::{Course, begin, place_groups};
use crate::faults::PlaceFault;
use crate::homes::{homes, number_left};
use crate::lookups::Tables;
use crate::placements::Placement;
use pr_net::Net;
use std::alloc::{AllocError, Global};

/// The placement once all groups are placed.
fn placement<const N: usize, const P: usize>(
    alloc: Global,
    net: &Net,
    tables: &Tables,
    course: &Course,
) -> Result<Placement, AllocError>
    requires tables { AreTables N P (net_shape net.now) tables.now }
    requires opens { Opens N P (net_shape net.now) tables.now course.now }
    requires registers { 2 ≤ P }
    requires none { course.now.left ≡ 0 }
    ensures { IfOk result (λ p. IsGreedy N P (net_shape net.now) (shape_of p)) }
{
    let homes = homes::<N, P>(alloc, net, tables, course)?;
    Ok(Placement {
        stages: course.stage,
        homes,
    })
}

/// The placement of a net that has these tables; else the number of the least group that fits in no stripe.
fn place_by<const N: usize, const P: usize>(
    alloc: Global,
    net: &Net,
    tables: &Tables,
) -> Result<Placement, PlaceFault>
    requires tables { AreTables N P (net_shape net.now) tables.now }
    requires registers { 2 ≤ P }
    ensures greedy { IfOk result (λ p. IsGreedy N P (net_shape net.now) (shape_of p)) }
    ensures no_fit { IfErr result (IsPlaceFault N P (net_shape net.now)) }
{
    let mut course = begin::<N, P>(alloc, net, tables)?;
    let all = place_groups::<N, P>(alloc, net, tables, &mut course)?;
    if !all {
        let unit = number_left::<N>(net, &course.stages);
        return Err(PlaceFault::NoFit { unit });
    }
    Ok(placement::<N, P>(alloc, net, tables, &course)?)
}

/// The placement of a net by the greedy rule, on N columns and P registers; else the number of the least group that
/// fits in no stripe.
pub fn place<const N: usize, const P: usize>(
    alloc: Global,
    net: &Net,
) -> Result<Placement, PlaceFault>
    requires net { IsNet N (net_shape net.now) }
    requires columns { 1 ≤ N }
    requires most_columns { N ≤ 64 }
    requires registers { 2 ≤ P }
    requires most_registers { P ≤ 16 }
    ensures greedy { IfOk result (λ p. IsGreedy N P (net_shape net.now) (shape_of p)) }
    ensures no_fit { IfErr result (IsPlaceFault N P (net_shape net.now)) }
{
    let tables = Tables::of::<N, P>(alloc, net)?;
    place_by::<N, P>(alloc, net, &tables)
}
