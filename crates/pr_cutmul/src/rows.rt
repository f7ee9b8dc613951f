//! The rows of a product, and of a shift by an operand, at the end of a net.

ghost use Rattle.std.specs.Prelude.{◌≡◌, ◌≤◌, ℕ, Err, List, length, OnOk, OnErr, IfOk};
ghost use Rattle.pr_base.specs.declared.caps.Cap.{Cap};
ghost use Rattle.pr_net.specs.declared.cells.Slice.{Slice};
ghost use Rattle.pr_cut_units.specs.Parts.{units_after, slices_after};
ghost use Rattle.pr_cut_units.specs.Products.{product};
ghost use Rattle.pr_cut_units.specs.Shifts.{shifted_by};
ghost use Rattle.pr_cut_cells.specs.Prefixes.{IsPrefix};
ghost use Rattle.pr_cutmul.specs.Makings.{AreTooMany};
ghost use Rattle.pr_cutmul.specs.Rows.{HasSame, ShowsProduct, ShowsShift};

use crate::counts::product_count;
use crate::products::{Factors, product};
use crate::shifts::{Shift, shifted_by};
use pr_base::Cap;
use pr_net::{Net, Slice};
use std::alloc::{AllocError, Global};
use thiserror::Error;

/// Why rows are not appended.
#[derive(Debug, Drop, Error)]
pub enum RowFault {
    /// The net would pass this limit.
    #[error("limit: {0:?}")]
    Limit(Cap),
    #[error("out of memory")]
    Memory(AllocError),
}

impl From<AllocError> for RowFault {
    ghost use Rattle.std.specs.Prelude.{◌≡◌};
    ghost use Rattle.pr_cutmul.specs.declared.rows.RowFault.TheVariants.{Memory};

    ghost from_gives = { λ a e. e ≡ Memory a };

    fn from(error: AllocError) -> RowFault {
        RowFault::Memory(error)
    }
}

/// The number of units of a product.
fn rows_of(bits: u8, wa: u8, wb: u8) -> usize
    requires wa { wa ≤ 128 }
    requires wb { wb ≤ 128 }
    ensures is { (a b : List Slice) (u : ℕ) → length (product bits a wa b wb u).units ≡ result }
    ensures few { result ≤ 12800 }
{
    product_count(u16::from(bits), u16::from(wa), u16::from(wb)) as usize
}

/// Appends the units of the first `bits` bits of the product of `a`, of `wa` bits, and `b`, of `wb` bits, and gives its slices.
///
/// # Errors
///
/// `Limit` where the net would have too many units, which leaves it as it was; `Memory` where memory is wanting, which leaves the
/// units that were there, and behind them the first of the new ones.
#[tactic(auto, using(pr_cut_cells::proofs::PrefixLemmas::prefix_of))]
pub fn mul_rows(
    alloc: Global,
    net: &mut Net,
    a: &[Slice],
    wa: u8,
    b: &[Slice],
    wb: u8,
    bits: u8,
) -> Result<Vec<Slice>, RowFault>
    requires wa { wa ≤ 128 }
    requires wb { wb ≤ 128 }
    ensures units { OnOk result (net.new.units.items ≡
        units_after net.old.units.items (product bits a.now wa b.now wb)) }
    ensures slices { IfOk result (λ s. s.items ≡ slices_after net.old.units.items (product bits a.now wa b.now wb)) }
    ensures value { 1 ≤ bits → 1 ≤ wb →
        IfOk result (λ s. ShowsProduct net.new.units.items
        (length net.old.units.items) bits wa wb a.now b.now s.items) }
    ensures within { OnOk result (length net.new.units.items ≤ 32768) }
    ensures passed { AreTooMany net.old.units.items (product bits a.now wa b.now wb) →
        result ≡ Err (RowFault.Limit Cap.Units) }
    ensures limit { (cap : Cap) → result ≡ Err (RowFault.Limit cap) → (cap ≡ Cap.Units) ×
        AreTooMany net.old.units.items (product bits a.now wa b.now wb) × (net.new.units.items ≡ net.old.units.items) }
    ensures kept { length net.old.units.items ≤ length net.new.units.items }
    ensures part { OnErr result (IsPrefix net.new.units.items
        (units_after net.old.units.items (product bits a.now wa b.now wb))) }
    ensures same { HasSame net.old net.new }
{
    let count = rows_of(bits, wa, wb);
    if net.units.len() + count > Cap::MOST_UNITS {
        return Err(RowFault::Limit(Cap::Units));
    }
    let slices = product(alloc, &mut net.units, &Factors { a, wa, b, wb }, bits)?;
    Ok(slices)
}

/// Appends the units of a shift of `a`, of `wa` bits, to one side by `by`, of `wby` bits, and gives its slices.
///
/// # Errors
///
/// `Limit` where the net would have too many units, which leaves it as it was; `Memory` where memory is wanting, which leaves the
/// units that were there, and behind them the first of the new ones.
#[tactic(auto, using(pr_cut_cells::proofs::PrefixLemmas::prefix_of))]
pub fn shift_rows(
    alloc: Global,
    net: &mut Net,
    left: bool,
    a: &[Slice],
    wa: u8,
    by: &[Slice],
    wby: u8,
) -> Result<Vec<Slice>, RowFault>
    ensures units { OnOk result (net.new.units.items ≡
        units_after net.old.units.items (shifted_by left wa by.now wby a.now)) }
    ensures slices { IfOk result (λ s. s.items ≡
        slices_after net.old.units.items (shifted_by left wa by.now wby a.now)) }
    ensures value { 1 ≤ wa → wa ≤ 128 →
        IfOk result (λ s. ShowsShift net.new.units.items
        (length net.old.units.items) left wa wby a.now by.now s.items) }
    ensures within { OnOk result (length net.new.units.items ≤ 32768) }
    ensures passed { AreTooMany net.old.units.items (shifted_by left wa by.now wby a.now) →
        result ≡ Err (RowFault.Limit Cap.Units) }
    ensures limit { (cap : Cap) → result ≡ Err (RowFault.Limit cap) → (cap ≡ Cap.Units) ×
        AreTooMany net.old.units.items (shifted_by left wa by.now wby a.now) × (net.new.units.items ≡
        net.old.units.items) }
    ensures kept { length net.old.units.items ≤ length net.new.units.items }
    ensures part { OnErr result (IsPrefix net.new.units.items
        (units_after net.old.units.items (shifted_by left wa by.now wby a.now))) }
    ensures same { HasSame net.old net.new }
{
    if net.units.len() + usize::from(wby) > Cap::MOST_UNITS {
        return Err(RowFault::Limit(Cap::Units));
    }
    let shift = Shift {
        left,
        w: wa,
        by,
        bits: wby,
    };
    let slices = shifted_by(alloc, &mut net.units, &shift, a)?;
    Ok(slices)
}
