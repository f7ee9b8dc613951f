//! Signed operands made wider.

ghost use Rattle.std.specs.Prelude.{ℕ, true, ◌&&◌, take, ◌≡◌, ◌≤◌, ◌<◌, ◌+◌, ◌-◌, ◌*◌, ◌/◌, ◌%◌, ◌^◌, ◌++◌, length, vec_len, OnOk, OnErr, IfOk, min, nat_lt, List};
ghost use Rattle.pr_base.specs.Numbers.{slices_of, byte_at, top_mask_of};
ghost use Rattle.pr_base.specs.declared.choices.Mode.{Mode};
ghost use Rattle.pr_base.specs.declared.choices.Next.{Next};
ghost use Rattle.pr_net.specs.declared.cells.Cell.{Cell};
ghost use Rattle.pr_net.specs.declared.cells.Slice.{Slice};
ghost use Rattle.pr_net.specs.declared.cells.Wire.{Wire};
ghost use Rattle.pr_cut_units.specs.Cells.{plain, byte, top, bit_of, slice_at, slice_below, with_left, with_right, table_a, table_b, table_not_a};
ghost use Rattle.pr_cut_units.specs.Parts.{each, units_after, slices_after};
ghost use Rattle.pr_cut_units.specs.Widening.{read_as, widening_cell, widened, flipped_cell, flipped};

use crate::cells::{bit_of, byte, plain, top};
use crate::parts::{joined, push_unit, same};
use pr_base::{slices, top_mask};
use pr_net::{Cell, Slice, Unit, Wire, WireBit};
use std::alloc::{AllocError, Global};

/// Cell `i` of an operand of `w` bits that is widened to `t` bits.
fn widening_cell(a: &[Slice], w: u8, t: u8, i: usize) -> Cell
    requires some { 1 ≤ w }
    requires near { i < 64 }
    ensures { result ≡ widening_cell (read_as true w a.now) t i }
{
    let sign = bit_of(a, usize::from(w) - 1);
    if i == usize::from(w) / 8 && 0 < w % 8 {
        return Cell {
            a: byte(a, i),
            hi: Wire::Const(255 - top_mask(w)),
            c: sign,
            table: 0xea,
            mask: top(t, i),
            ..plain()
        };
    }
    Cell {
        c: sign,
        table: 0xf0,
        mask: top(t, i),
        ..plain()
    }
}

/// The cells of a widened operand, from that of its top byte on.
#[tactic(auto, using(pr_cut_units::proofs::EachLemmas::each_more))]
fn widening_cells(alloc: Global, a: &[Slice], w: u8, t: u8) -> Result<Vec<Cell>, AllocError>
    requires some { 1 ≤ w }
    requires wider { w ≤ t }
    ensures count { IfOk result (λ all. vec_len all ≡ slices_of t - w / 8) }
    ensures all { IfOk result (λ all. all.items ≡
        each (slices_of t - w / 8) (λ i. widening_cell (read_as true w a.now) t (w / 8 + i))) }
{
    let count = slices(t) - usize::from(w) / 8;
    let mut all = Vec::with_capacity(alloc, count)?;
    for i in 0..count {
        all.push(widening_cell(a, w, t, usize::from(w) / 8 + i))?;
    }
    Ok(all)
}

/// An operand of `w` bits at `t` bits; an unsigned one, and one that is so wide, stays.
pub fn widened(
    alloc: Global,
    units: &mut Vec<Unit>,
    a: &[Slice],
    signed: bool,
    w: u8,
    t: u8,
) -> Result<Vec<Slice>, AllocError>
    requires some { 1 ≤ w }
    requires whole { length a.now ≡ slices_of w }
    requires fits { length units.old.items < 2 ^ 32 }
    ensures grows { OnOk result (length units.new.items ≤ length units.old.items + 1) }
    ensures units { OnOk result (units.new.items ≡ units_after units.old.items (widened (read_as signed w a.now) t)) }
    ensures slices { IfOk result (λ s. s.items ≡ slices_after units.old.items (widened (read_as signed w a.now) t)) }
{
    if !(signed && w < t) {
        return same(alloc, a);
    }
    let cells = widening_cells(alloc, a, w, t)?;
    let high = push_unit(alloc, units, cells)?;
    joined(alloc, &a[..usize::from(w) / 8], &high)
}

/// The cells that invert `x` where an operand of `w` bits is negative.
#[tactic(auto, using(pr_cut_units::proofs::EachLemmas::each_more))]
fn flipped_cells(alloc: Global, a: &[Slice], w: u8, x: &[Slice]) -> Result<Vec<Cell>, AllocError>
    requires { 1 ≤ w }
    ensures count { IfOk result (λ all. vec_len all ≡ slices_of w) }
    ensures all { IfOk result (λ all. all.items ≡
        each (slices_of w) (λ i. flipped_cell (read_as true w a.now) x.now i)) }
{
    let mut all = Vec::with_capacity(alloc, slices(w))?;
    for i in 0..slices(w) {
        all.push(Cell {
            a: byte(x, i),
            c: bit_of(a, usize::from(w) - 1),
            table: 0x5a,
            mask: top(w, i),
            ..plain()
        })?;
    }
    Ok(all)
}

/// Every bit of `x` inverted where an operand of `w` bits is negative.
pub fn flipped(
    alloc: Global,
    units: &mut Vec<Unit>,
    a: &[Slice],
    w: u8,
    x: &[Slice],
) -> Result<Vec<Slice>, AllocError>
    requires some { 1 ≤ w }
    requires fits { length units.old.items < 2 ^ 32 }
    ensures grows { OnOk result (length units.new.items ≤ length units.old.items + 1) }
    ensures units { OnOk result (units.new.items ≡ units_after units.old.items (flipped (read_as true w a.now) x.now)) }
    ensures slices { IfOk result (λ s. s.items ≡ slices_after units.old.items (flipped (read_as true w a.now) x.now)) }
{
    let cells = flipped_cells(alloc, a, w, x)?;
    push_unit(alloc, units, cells)
}
