//! Groups of units that fit in no stripe.

ghost use Rattle.std.specs.Prelude.{◌≡◌, ◌≤◌, ◌⊎◌, Err, Some, length, IfOk};
ghost use Rattle.pr_base.specs.declared.caps.Cap.{Cap};
ghost use Rattle.pr_flat.specs.Flats.{equations_of};
ghost use Rattle.pr_flat.specs.Widths.{AreWidths};
ghost use Rattle.pr_net.specs.Whole.{shape_of};
ghost use Rattle.pr_cut_units.specs.Flats.{flat_net, flat_plan};
ghost use Rattle.pr_cut_units.specs.Nets.{limit_passed};
ghost use Rattle.pr_cut_plan.specs.declared.faults.CutFault.{CutFault};
ghost use Rattle.pr_lens_fits.specs.Makers.{HasMaker, IsMaker};
ghost use Rattle.pr_lens_fits.specs.Unfits.{cell_count, group_ending, IsUnfit, IsFound, IsNothing};

use crate::cells::{cells_in, group_ending};
use crate::kept::kept_before;
use crate::makers::unit_equation;
use crate::nets::plan_and_net;
use crate::ready::ready_in;
use pr_cut_plan::CutFault;
use pr_flat::Flat;
use pr_lens_find::equations_item;
use pr_lens_source::Source;
use pr_net::Net;
use pr_width::Widths;
use std::alloc::{AllocError, Global};

/// How many columns the group has whose last unit this is; 0 where there is none.
fn group_columns(net: &Net, unit: u32) -> usize
    ensures { result ≡ cell_count (shape_of net.now) (group_ending (shape_of net.now) unit) }
{
    cells_in(net, group_ending(net, u64::from(unit)))
}

/// A group of units that fits in no stripe.
#[derive(Clone, Copy)]
pub struct Unfit {
    /// The item that makes its last unit.
    pub item: usize,
    /// How many columns it has.
    pub columns: usize,
    /// How many bytes that are made before its last unit are needed by that, by later ones or by outputs.
    pub kept: usize,
}

/// The equation of a unit, and what is known of its group, in the net of equations on so many columns.
fn group_of(
    alloc: Global,
    flat: &Flat,
    widths: &Widths,
    columns: usize,
    unit: u32,
) -> Result<(usize, Unfit), CutFault>
    requires widths { AreWidths (equations_of flat.now) widths.now }
    requires columns { (1 ≤ columns) × (columns ≤ 64) }
    ensures maker { IfOk result (λ r. IsMaker (flat_plan flat.now widths.now) unit r.0) }
    ensures found { IfOk result (λ r. IsUnfit (flat_net flat.now widths.now) unit r.1) }
    ensures limit { (cap : Cap) → result ≡ Err (CutFault.Limit cap) →
        limit_passed columns (flat_net flat.now widths.now) ≡ Some cap }
{
    let (plan, net) = plan_and_net(alloc, flat, widths, columns)?;
    let kept = kept_before(alloc, &net, unit)?;
    let found = Unfit {
        item: 0,
        columns: group_columns(&net, unit),
        kept,
    };
    Ok((unit_equation(flat, widths, &plan, unit), found))
}

/// What is known of the group that fits in no stripe of so many columns, and whose last unit this is; nothing where the
/// text has no net.
pub fn find_unfit(
    alloc: Global,
    source: &Source,
    narrowed: bool,
    columns: usize,
    unit: u32,
) -> Result<Unfit, AllocError>
    requires short { length source.now.text.now ≤ 1048576 }
    requires columns { (1 ≤ columns) × (columns ≤ 64) }
    ensures item { IfOk result (λ found. IsNothing columns narrowed source.now.text.now found ⊎
        HasMaker narrowed source.now.text.now source.now.tokens.now source.now.spans.now unit found.item) }
    ensures found { IfOk result (IsFound columns narrowed source.now.text.now unit) }
{
    let nothing = Unfit {
        item: 0,
        columns: 0,
        kept: 0,
    };
    let Some((flat, widths)) = ready_in(alloc, source.text, narrowed)? else {
        return Ok(nothing);
    };
    match group_of(alloc, &flat, &widths, columns, unit) {
        Err(CutFault::Memory(error)) => {
            return Err(error);
        }
        Err(CutFault::Limit(_cap)) => {
            return Ok(nothing);
        }
        Ok((equation, found)) => {
            let item = equations_item(alloc, source, equation)?;
            return Ok(Unfit {
                item,
                columns: found.columns,
                kept: found.kept,
            });
        }
    }
}
