//! Shifts by an operand.

ghost use Rattle.std.specs.Prelude.{ℕ, ◌≡◌, ◌≤◌, ◌<◌, ◌+◌, ◌-◌, ◌*◌, ◌/◌, ◌%◌, ◌^◌, ◌++◌, length, vec_len, OnOk, OnErr, IfOk, min, nat_lt, List};
ghost use Rattle.pr_base.specs.Numbers.{slices_of, byte_at, top_mask_of};
ghost use Rattle.pr_base.specs.declared.choices.Mode.{Mode};
ghost use Rattle.pr_base.specs.declared.choices.Next.{Next};
ghost use Rattle.pr_net.specs.declared.cells.Cell.{Cell};
ghost use Rattle.pr_net.specs.declared.cells.Slice.{Slice};
ghost use Rattle.pr_net.specs.declared.cells.Wire.{Wire};
ghost use Rattle.pr_cut_units.specs.Cells.{plain, byte, top, bit_of, slice_at, slice_below, with_left, with_right, table_a, table_b, table_not_a};
ghost use Rattle.pr_cut_units.specs.Parts.{each, units_after, slices_after};
ghost use Rattle.pr_cut_cells.specs.Prefixes.{IsPrefix};
ghost use Rattle.pr_cutmul.specs.Makings.{shift_cell_of, shift_row_of, shift_of};

use pr_base::slices;
use pr_cut_cells::{bit_of, byte, plain, push_unit, same, top, with_left, with_right};
use pr_net::{Cell, Slice, Unit, Wire, WireBit};
use std::alloc::{AllocError, Global};

/// A shift of a number of `w` bits to the left, or to the right, by an amount of `bits` bits.
#[derive(Clone, Copy)]
pub struct Shift<'a> {
    pub left: bool,
    pub w: u8,
    pub by: &'a [Slice],
    pub bits: u8,
}

/// Cell `i` of row `j`.
fn shift_cell(shift: &Shift, j: u8, before: &[Slice], i: usize) -> Cell
    requires { i < 64 }
    ensures { result ≡ shift_cell_of shift.now j before.now i }
{
    let cell = Cell {
        a: byte(before, i),
        c: bit_of(shift.by, usize::from(j)),
        table: 0xca,
        mask: top(shift.w, i),
        ..plain()
    };
    if j >= 7 || 1 << j >= shift.w {
        return cell;
    }
    let k = 1 << usize::from(j);
    if shift.left {
        return with_left(before, k, i, cell);
    }
    with_right(before, k, i, cell)
}

/// The cells of row `j`.
#[tactic(auto, using(pr_cut_units::proofs::EachLemmas::each_more))]
fn shift_cells(
    alloc: Global,
    shift: &Shift,
    j: u8,
    before: &[Slice],
) -> Result<Vec<Cell>, AllocError>
    ensures count { IfOk result (λ all. vec_len all ≡ slices_of shift.now.w) }
    ensures few { IfOk result (λ all. vec_len all ≤ 255) }
    ensures all { IfOk result (λ all. all.items ≡
        each (slices_of shift.now.w) (λ i. shift_cell_of shift.now j before.now i)) }
{
    let mut all = Vec::new(alloc);
    for i in 0..slices(shift.w) {
        all.push(shift_cell(shift, j, before, i))?;
    }
    Ok(all)
}

/// Row `j`: the value before, moved by two to the power of `j` where bit `j` of the amount is 1.
#[tactic(auto, using(pr_cut_cells::proofs::PrefixLemmas::prefix_of))]
fn shift_row(
    alloc: Global,
    units: &mut Vec<Unit>,
    shift: &Shift,
    j: u8,
    before: &[Slice],
) -> Result<Vec<Slice>, AllocError>
    requires fits { length units.old.items < 2 ^ 32 }
    ensures kept { length units.old.items ≤ length units.new.items }
    ensures grows { OnOk result (length units.new.items ≤ length units.old.items + 1) }
    ensures units { OnOk result (units.new.items ≡ units_after units.old.items (shift_row_of shift.now j before.now)) }
    ensures part { OnErr result
        (IsPrefix units.new.items (units_after units.old.items (shift_row_of shift.now j before.now))) }
    ensures slices { IfOk result (λ s. s.items ≡ slices_after units.old.items (shift_row_of shift.now j before.now)) }
{
    let cells = shift_cells(alloc, shift, j, before)?;
    push_unit(alloc, units, cells)
}

/// All rows, one for each bit of the amount.
pub fn shifted_by(
    alloc: Global,
    units: &mut Vec<Unit>,
    shift: &Shift,
    x: &[Slice],
) -> Result<Vec<Slice>, AllocError>
    requires fits { length units.old.items + shift.now.bits < 2 ^ 32 }
    ensures kept { length units.old.items ≤ length units.new.items }
    ensures grows { OnOk result (length units.new.items ≤ length units.old.items + shift.now.bits) }
    ensures units { OnOk result (units.new.items ≡ units_after units.old.items (shift_of shift.now x.now)) }
    ensures part { OnErr result (IsPrefix units.new.items (units_after units.old.items (shift_of shift.now x.now))) }
    ensures slices { IfOk result (λ s. s.items ≡ slices_after units.old.items (shift_of shift.now x.now)) }
{
    let mut before = same(alloc, x)?;
    for j in 0..shift.bits {
        before = shift_row(alloc, units, shift, j, &before)?;
    }
    Ok(before)
}
