//! How many columns of a group the operators of a recurrence take.

ghost use Rattle.std.specs.Prelude.{◌≡◌, ◌<◌, ◌+◌, IfOk, OnOk, position, vec_len};
ghost use Rattle.pr_flat.specs.Flats.{equations_of};
ghost use Rattle.pr_net.specs.Whole.{shape_of};
ghost use Rattle.pr_cut_units.specs.Flats.{flat_plan};
ghost use Rattle.pr_cut_plan.specs.Plans.{IsPlanOf};
ghost use Rattle.pr_lens_needs.specs.Takes.{most_takes, place_for, take_of, takes_fewer, with_take};

use crate::groups::columns_between;
use pr_cut_plan::CutPlan;
use pr_flat::{Flat, Op};
use pr_lens_fits::{first_unit, width_at};
use pr_net::Net;
use pr_width::Widths;
use std::alloc::{AllocError, Global};

/// So many operators are told.
const MOST_TAKES: usize = 10;

/// An operator, and how many columns it takes.
#[derive(Clone, Copy)]
pub struct Take {
    pub op: Op,
    /// The bits of what it gives.
    pub width: u8,
    pub columns: usize,
}

/// The units of a group, and the equations that they are made of.
#[derive(Clone, Copy)]
pub struct Group<'a> {
    pub flat: &'a Flat,
    pub widths: &'a Widths,
    pub plan: &'a CutPlan,
    pub net: &'a Net,
    pub units: &'a [u32],
}

/// An equation, with the columns that its units take in a group.
fn take_of(group: &Group, number: usize) -> Take
    requires plan { let g = group.now in
        IsPlanOf g.plan.now (equations_of g.flat.now) g.widths.now g.flat.now.outputs.items }
    requires there { number + 1 < vec_len group.now.flat.now.equations }
    ensures { let g = group.now in
        result ≡ take_of (flat_plan g.flat.now g.widths.now) (shape_of g.net.now) g.units.now number }
{
    let flat = group.flat;
    let widths = group.widths;
    let from = u64::from(first_unit(flat, widths, group.plan, number));
    let to = u64::from(first_unit(flat, widths, group.plan, number + 1));
    Take {
        op: flat.equations[number].op,
        width: width_at(widths, number),
        columns: columns_between(group.net, group.units, from, to),
    }
}

/// The first operator that takes fewer columns.
fn first_fewer(takes: &[Take], columns: usize) -> Option<usize>
    ensures { result ≡ position (takes_fewer columns) takes.now }
{
    takes.iter().position(|take| take.columns < columns)
}

/// The place behind those operators that take as many columns or more.
fn place_for(takes: &[Take], columns: usize) -> usize
    ensures { result ≡ place_for takes.now columns }
{
    first_fewer(takes, columns).unwrap_or(takes.len())
}

/// Puts an operator behind those that take as many columns or more, where it takes any.
fn put_take(takes: &mut Vec<Take>, one: Take) -> Result<(), AllocError>
    ensures { OnOk result (takes.new.items ≡ with_take takes.old.items one) }
{
    if one.columns == 0 {
        return Ok(());
    }
    let place = place_for(takes, one.columns);
    takes.insert(place, one)?;
    Ok(())
}

/// The operators before a recurrence that take most columns of a group, the greatest number first.
pub fn most_takes(alloc: Global, group: &Group, rec: usize) -> Result<Vec<Take>, AllocError>
    requires plan { let g = group.now in
        IsPlanOf g.plan.now (equations_of g.flat.now) g.widths.now g.flat.now.outputs.items }
    requires there { rec < vec_len group.now.flat.now.equations }
    ensures { let g = group.now in IfOk result (λ takes. takes.items ≡
        most_takes (flat_plan g.flat.now g.widths.now) (shape_of g.net.now) g.units.now rec) }
{
    let mut takes = Vec::new(alloc);
    for number in 0..rec {
        put_take(&mut takes, take_of(group, number))?;
    }
    takes.truncate(MOST_TAKES);
    Ok(takes)
}
