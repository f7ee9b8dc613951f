//! How many columns a recurrence needs in the net of a text.

ghost use Rattle.std.specs.Prelude.{◌≡◌, ◌≤◌, Err, Some, IfOk, IsFalse, IsTrue};
ghost use Rattle.pr_base.specs.declared.caps.Cap.{Cap};
ghost use Rattle.pr_flat.specs.Flats.{equations_of};
ghost use Rattle.pr_flat.specs.Widths.{AreWidths};
ghost use Rattle.pr_net.specs.Whole.{shape_of};
ghost use Rattle.pr_cut_units.specs.Flats.{flat_net, flat_plan};
ghost use Rattle.pr_cut_units.specs.Nets.{limit_passed};
ghost use Rattle.pr_cut_plan.specs.declared.faults.CutFault.{CutFault};
ghost use Rattle.pr_cut_plan.specs.Plans.{IsPlanOf};
ghost use Rattle.pr_lens_needs.specs.Columns.{HasDeclared, HasNotDeclared, NeedsColumns, declares, held_columns, is_declared};

use crate::recurrences::{is_held, last_unit};
use pr_base::Cap;
use pr_compile_front::Front;
use pr_cut_plan::{CutFault, CutPlan};
use pr_flat::Flat;
use pr_lens_fits::{cells_in, group_ending, plan_and_net, read_front, ready_of};
use pr_net::Net;
use pr_width::Widths;
use std::alloc::{AllocError, Global};

/// How many columns the group of a recurrence has, where an output can be reached from it.
fn held_columns(
    flat: &Flat,
    widths: &Widths,
    plan: &CutPlan,
    net: &Net,
    rec: usize,
) -> Option<usize>
    requires { IsPlanOf plan.now (equations_of flat.now) widths.now flat.now.outputs.items }
    ensures { result ≡ held_columns (flat_plan flat.now widths.now) (shape_of net.now) rec }
{
    if !is_held(flat, widths, plan, rec) {
        return None;
    }
    let last = last_unit(flat, widths, plan, rec);
    Some(cells_in(net, group_ending(net, last)))
}

/// The same, in the net of equations on so many columns.
fn columns_on(
    alloc: Global,
    flat: &Flat,
    widths: &Widths,
    columns: usize,
    rec: usize,
) -> Result<Option<usize>, CutFault>
    requires widths { AreWidths (equations_of flat.now) widths.now }
    requires columns { (1 ≤ columns) × (columns ≤ 64) }
    ensures found { IfOk result (λ found.
        found ≡ held_columns (flat_plan flat.now widths.now) (flat_net flat.now widths.now) rec) }
    ensures limit { (cap : Cap) → result ≡ Err (CutFault.Limit cap) →
        limit_passed columns (flat_net flat.now widths.now) ≡ Some cap }
{
    let (plan, net) = plan_and_net(alloc, flat, widths, columns)?;
    Ok(held_columns(flat, widths, &plan, &net, rec))
}

/// Whether this is the width that is declared.
fn is_declared(width: u8, declared: Option<u8>) -> bool
    ensures { result ≡ is_declared width declared }
{
    match declared {
        None => false,
        Some(other) => width == other,
    }
}

/// Whether an equation declares this width, where one is asked for.
fn declares(flat: &Flat, rec: usize, width: Option<u8>) -> bool
    ensures { result ≡ declares (equations_of flat.now) rec width }
{
    let Some(width) = width else {
        return true;
    };
    match flat.equations.get(rec) {
        None => false,
        Some(equation) => is_declared(width, equation.declared),
    }
}

/// Whether the equation of this number declares this width, in the program of a text.
pub fn declares_in(alloc: Global, text: &[u8], rec: usize, width: u8) -> Result<bool, AllocError>
    ensures yes { IfOk result (λ answer. IsTrue answer → HasDeclared text.now rec width) }
    ensures no { IfOk result (λ answer. IsFalse answer → HasNotDeclared text.now rec width) }
{
    if text.len() > Cap::MOST_PROGRAM_BYTES {
        return Ok(false);
    }
    let Some(front) = read_front(alloc, text)? else {
        return Ok(false);
    };
    Ok(declares(&front.flat, rec, Some(width)))
}

/// How many columns a recurrence needs in the net of the program of a text, narrowed or as it is, where it declares the
/// width that is asked for; none where the text is too long or has no net.
pub fn columns_of(
    alloc: Global,
    text: &[u8],
    narrowed: bool,
    columns: usize,
    rec: usize,
    width: Option<u8>,
) -> Result<Option<usize>, AllocError>
    requires { (1 ≤ columns) × (columns ≤ 64) }
    ensures { IfOk result (NeedsColumns columns narrowed text.now rec width) }
{
    if text.len() > Cap::MOST_PROGRAM_BYTES {
        return Ok(None);
    }
    let Some(front) = read_front(alloc, text)? else {
        return Ok(None);
    };
    let Front {
        scoped: _scoped,
        flat,
        widths,
    } = front;
    if !declares(&flat, rec, width) {
        return Ok(None);
    }
    let (ready, news) = ready_of(alloc, flat, widths, narrowed)?;
    match columns_on(alloc, &ready, &news, columns, rec) {
        Ok(found) => Ok(found),
        Err(CutFault::Limit(_which)) => Ok(None),
        Err(CutFault::Memory(error)) => Err(error),
    }
}
