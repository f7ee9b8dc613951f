//! What is told of a recurrence that fits in no stage.

ghost use Rattle.std.specs.Prelude.{◌≡◌, ◌≤◌, Err, IfNone, IfOk, IfSome, length};
ghost use Rattle.pr_base.specs.declared.caps.Cap.{Cap};
ghost use Rattle.pr_flat.specs.Flats.{equations_of};
ghost use Rattle.pr_flat.specs.Widths.{AreWidths};
ghost use Rattle.pr_net.specs.Whole.{shape_of};
ghost use Rattle.pr_cut_units.specs.Flats.{flat_net, flat_plan};
ghost use Rattle.pr_cut_units.specs.Nets.{limit_passed};
ghost use Rattle.pr_cut_plan.specs.declared.faults.CutFault.{CutFault};
ghost use Rattle.pr_cut_plan.specs.Plans.{IsPlanOf};
ghost use Rattle.pr_lens_needs.specs.Needs.{AreParts, HasNeeds, HasNoParts, IsLastOfNone, IsNarrow, OfText};

use crate::columns::columns_of;
use crate::groups::columns_between;
use crate::recurrences::recurrence_of;
use crate::smaller::{Asked, Narrower, smaller_widths};
use crate::takes::{Group, Take, most_takes};
use pr_cut_plan::{CutFault, CutPlan};
use pr_flat::Flat;
use pr_lens_fits::{first_unit, group_ending, plan_and_net, ready_in, width_at};
use pr_lens_source::Source;
use pr_net::Net;
use pr_width::Widths;
use std::alloc::{AllocError, Global};

/// A recurrence, and which columns its group takes.
#[derive(Drop)]
pub struct Parts {
    /// The number of its equation.
    pub rec: usize,
    pub width: u8,
    /// The operators that take most, the greatest number first.
    pub takes: Vec<Take>,
    /// The columns of the units that hold it for later samples.
    pub keeps: usize,
}

/// What a recurrence needs.
#[derive(Drop)]
pub struct Needs {
    pub parts: Parts,
    /// How many columns it needs with smaller widths.
    pub narrower: Vec<Narrower>,
    /// How many columns it needs with narrowed equations, where these are not.
    pub narrow: Option<usize>,
}

/// The recurrence whose last unit this is, where it is that of one, with the columns of its group.
fn parts_with<'a>(
    alloc: Global,
    flat: &'a Flat,
    widths: &'a Widths,
    plan: &'a CutPlan,
    net: &'a Net,
    unit: u32,
) -> Result<Option<Parts>, AllocError>
    requires { IsPlanOf plan.now (equations_of flat.now) widths.now flat.now.outputs.items }
    ensures some { IfOk result (λ found.
        IfSome found (AreParts (flat_plan flat.now widths.now) (shape_of net.now) unit)) }
    ensures none { IfOk result (λ found. IfNone found (IsLastOfNone (flat_plan flat.now widths.now) unit)) }
{
    let Some(rec) = recurrence_of(flat, widths, plan, unit) else {
        return Ok(None);
    };
    let units = group_ending(net, u64::from(unit));
    let group = Group {
        flat,
        widths,
        plan,
        net,
        units,
    };
    let takes = most_takes(alloc, &group, rec)?;
    let from = u64::from(first_unit(flat, widths, plan, rec));
    Ok(Some(Parts {
        rec,
        width: width_at(widths, rec),
        takes,
        keeps: columns_between(net, units, from, u64::from(unit) + 1),
    }))
}

/// The same, in the net of equations on so many columns.
fn parts_on(
    alloc: Global,
    flat: &Flat,
    widths: &Widths,
    columns: usize,
    unit: u32,
) -> Result<Option<Parts>, CutFault>
    requires widths { AreWidths (equations_of flat.now) widths.now }
    requires columns { (1 ≤ columns) × (columns ≤ 64) }
    ensures some { IfOk result (λ found.
        IfSome found (AreParts (flat_plan flat.now widths.now) (flat_net flat.now widths.now) unit)) }
    ensures none { IfOk result (λ found. IfNone found (IsLastOfNone (flat_plan flat.now widths.now) unit)) }
    ensures limit { (cap : Cap) → result ≡ Err (CutFault.Limit cap) →
        limit_passed columns (flat_net flat.now widths.now) ≡ Some cap }
{
    let (plan, net) = plan_and_net(alloc, flat, widths, columns)?;
    let parts = parts_with(alloc, flat, widths, &plan, &net, unit)?;
    Ok(parts)
}

/// The same, in the net of the program of a text, narrowed or as it is; none where it has no net.
fn parts_of(
    alloc: Global,
    text: &[u8],
    narrowed: bool,
    columns: usize,
    unit: u32,
) -> Result<Option<Parts>, AllocError>
    requires short { length text.now ≤ 1048576 }
    requires columns { (1 ≤ columns) × (columns ≤ 64) }
    ensures some { IfOk result (λ found. IfSome found (λ parts.
        OfText narrowed text.now (λ plan net. AreParts plan net unit parts))) }
    ensures none { IfOk result (λ found. IfNone found (HasNoParts columns narrowed text.now unit)) }
{
    let Some((ready, news)) = ready_in(alloc, text, narrowed)? else {
        return Ok(None);
    };
    match parts_on(alloc, &ready, &news, columns, unit) {
        Ok(found) => Ok(found),
        Err(CutFault::Limit(_which)) => Ok(None),
        Err(CutFault::Memory(error)) => Err(error),
    }
}

/// How many columns a recurrence needs with narrowed equations, where these are not.
fn narrow_columns(alloc: Global, asked: &Asked) -> Result<Option<usize>, AllocError>
    requires { (1 ≤ asked.now.columns) × (asked.now.columns ≤ 64) }
    ensures { let a = asked.now in IfOk result (IsNarrow a.columns a.narrowed a.source.text.now a.rec) }
{
    if asked.narrowed {
        return Ok(None);
    }
    columns_of(
        alloc,
        asked.source.text,
        true,
        asked.columns,
        asked.rec,
        None,
    )
}

/// What the recurrence needs whose last unit this is, on so many columns, and which this item makes; none where the
/// text has no net, or the unit is that of no recurrence.
pub fn find_needs(
    alloc: Global,
    source: &Source,
    narrowed: bool,
    columns: usize,
    item: usize,
    unit: u32,
) -> Result<Option<Needs>, AllocError>
    requires short { length source.now.text.now ≤ 1048576 }
    requires columns { (1 ≤ columns) × (columns ≤ 64) }
    ensures some { let source = source.now in IfOk result (λ found. IfSome found
        (HasNeeds columns narrowed source.text.now source.tokens.now source.spans.now item unit)) }
    ensures none { IfOk result (λ found. IfNone found (HasNoParts columns narrowed source.now.text.now unit)) }
{
    let Some(parts) = parts_of(alloc, source.text, narrowed, columns, unit)? else {
        return Ok(None);
    };
    let asked = Asked {
        source: *source,
        narrowed,
        columns,
        rec: parts.rec,
        width: parts.width,
    };
    let narrower = smaller_widths(alloc, &asked, item)?;
    let narrow = narrow_columns(alloc, &asked)?;
    Ok(Some(Needs {
        parts,
        narrower,
        narrow,
    }))
}
