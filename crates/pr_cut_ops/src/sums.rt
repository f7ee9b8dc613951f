//! Sums, differences and comparisons of slices.

ghost use Rattle.std.specs.Prelude.{ℕ, ◌≡◌, ◌≤◌, ◌<◌, ◌+◌, ◌^◌, length, vec_len, IfOk};
ghost use Rattle.pr_base.specs.Numbers.{slices_of};
ghost use Rattle.pr_cut_units.specs.Cells.{plain, bit_of};
ghost use Rattle.pr_cut_units.specs.Parts.{each};
ghost use Rattle.pr_cut_units.specs.Operators.{sum_cell, masked_cell, added, subtracted, difference_carry, equal_cell, equal_at, sign_unit};
ghost use Rattle.pr_cut_ops.specs.Makes.{Makes};

use pr_base::{Carry, Mode, slices};
use pr_cut_cells::{bit_of, byte, chain, closed_chain, plain, push_unit, top};
use pr_cut_units::Style;
use pr_net::{Cell, Slice, Unit};
use std::alloc::{AllocError, Global};

/// The cells of a sum.
#[tactic(auto, using(pr_cut_units::proofs::EachLemmas::each_more))]
fn sum_cells(
    alloc: Global,
    e: u8,
    table: u8,
    x: &[Slice],
    y: &[Slice],
) -> Result<Vec<Cell>, AllocError>
    ensures count { IfOk result (λ all. vec_len all ≡ slices_of e) }
    ensures all { IfOk result (λ all. all.items ≡ each (slices_of e) (λ i. masked_cell e table x.now y.now i)) }
{
    let mut all = Vec::with_capacity(alloc, slices(e))?;
    for i in 0..slices(e) {
        all.push(Cell {
            a: byte(x, i),
            hi: byte(y, i),
            mode: Mode::Sum,
            table,
            mask: top(e, i),
            ..plain()
        })?;
    }
    Ok(all)
}

/// The cells of a difference of which the carry alone is looked at.
#[tactic(auto, using(pr_cut_units::proofs::EachLemmas::each_more))]
fn difference_cells(alloc: Global, w: u8, x: &[Slice], y: &[Slice]) -> Result<Vec<Cell>, AllocError>
    ensures count { IfOk result (λ all. vec_len all ≡ slices_of w) }
    ensures all { IfOk result (λ all. all.items ≡ each (slices_of w) (λ i. sum_cell 51 x.now y.now i)) }
{
    let mut all = Vec::with_capacity(alloc, slices(w))?;
    for i in 0..slices(w) {
        all.push(Cell {
            a: byte(x, i),
            hi: byte(y, i),
            mode: Mode::Sum,
            table: 0x33,
            ..plain()
        })?;
    }
    Ok(all)
}

/// The cells that let a carry through where no bits differ.
#[tactic(auto, using(pr_cut_units::proofs::EachLemmas::each_more))]
fn equal_cells(alloc: Global, w: u8, x: &[Slice], y: &[Slice]) -> Result<Vec<Cell>, AllocError>
    ensures count { IfOk result (λ all. vec_len all ≡ slices_of w) }
    ensures all { IfOk result (λ all. all.items ≡ each (slices_of w) (λ i. equal_cell x.now y.now i)) }
{
    let mut all = Vec::with_capacity(alloc, slices(w))?;
    for i in 0..slices(w) {
        all.push(Cell {
            a: byte(x, i),
            hi: byte(y, i),
            mode: Mode::Zero,
            table: 0x66,
            ..plain()
        })?;
    }
    Ok(all)
}

/// A sum.
pub fn added(
    alloc: Global,
    units: &mut Vec<Unit>,
    e: u8,
    x: &[Slice],
    y: &[Slice],
) -> Result<Vec<Slice>, AllocError>
    requires fits { length units.old.items + 40 < 2 ^ 32 }
    ensures { Makes 40 (added e x.now y.now) units.old units.new result }
{
    let cells = sum_cells(alloc, e, 0xcc, x, y)?;
    chain(alloc, units, Style::ByBit, Carry::Zero, &cells)
}

/// A difference.
pub fn subtracted(
    alloc: Global,
    units: &mut Vec<Unit>,
    e: u8,
    x: &[Slice],
    y: &[Slice],
) -> Result<Vec<Slice>, AllocError>
    requires fits { length units.old.items + 40 < 2 ^ 32 }
    ensures { Makes 40 (subtracted e x.now y.now) units.old units.new result }
{
    let cells = sum_cells(alloc, e, 0x33, x, y)?;
    chain(alloc, units, Style::ByBit, Carry::One, &cells)
}

/// A comparison by the carry of the difference.
pub fn carried_less(
    alloc: Global,
    units: &mut Vec<Unit>,
    w: u8,
    closing: u8,
    x: &[Slice],
    y: &[Slice],
) -> Result<Vec<Slice>, AllocError>
    requires fits { length units.old.items + 40 < 2 ^ 32 }
    ensures { Makes 40 (difference_carry w closing x.now y.now) units.old units.new result }
{
    let cells = difference_cells(alloc, w, x, y)?;
    closed_chain(alloc, units, Carry::One, closing, &cells)
}

/// A comparison by the carry that goes through equal bytes.
pub fn carried_equal(
    alloc: Global,
    units: &mut Vec<Unit>,
    w: u8,
    closing: u8,
    x: &[Slice],
    y: &[Slice],
) -> Result<Vec<Slice>, AllocError>
    requires fits { length units.old.items + 40 < 2 ^ 32 }
    ensures { Makes 40 (equal_at w closing x.now y.now) units.old units.new result }
{
    let cells = equal_cells(alloc, w, x, y)?;
    closed_chain(alloc, units, Carry::One, closing, &cells)
}

/// The cell that shows bit `m` of a difference.
fn sign_cell(alloc: Global, m: u8, table: u8, d: &[Slice]) -> Result<Vec<Cell>, AllocError>
    ensures count { IfOk result (λ all. vec_len all ≡ 1) }
    ensures all { IfOk result (λ all. all.items ≡
        each 1 (λ i. record plain { c = bit_of d.now m; table = table; mask = 1 })) }
{
    let mut all = Vec::new(alloc);
    all.push(Cell {
        c: bit_of(d, usize::from(m)),
        table,
        mask: 1,
        ..plain()
    })?;
    Ok(all)
}

/// Bit `m` of a difference, or its inverse.
pub fn sign_unit(
    alloc: Global,
    units: &mut Vec<Unit>,
    m: u8,
    table: u8,
    d: &[Slice],
) -> Result<Vec<Slice>, AllocError>
    requires fits { length units.old.items < 2 ^ 32 }
    ensures { Makes 1 (sign_unit m table d.now) units.old units.new result }
{
    let cells = sign_cell(alloc, m, table, d)?;
    push_unit(alloc, units, cells)
}
