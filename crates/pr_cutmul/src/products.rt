//! Products, row by row.

ghost use Rattle.std.specs.Prelude.{ℕ, take, ◌≡◌, ◌≤◌, ◌<◌, ◌+◌, ◌-◌, ◌*◌, ◌/◌, ◌%◌, ◌^◌, ◌++◌, length, vec_len, OnOk, OnErr, IfOk, min, nat_lt, List};
ghost use Rattle.pr_base.specs.Numbers.{slices_of, byte_at, top_mask_of};
ghost use Rattle.pr_base.specs.declared.choices.Mode.{Mode};
ghost use Rattle.pr_base.specs.declared.choices.Next.{Next};
ghost use Rattle.pr_net.specs.declared.cells.Cell.{Cell};
ghost use Rattle.pr_net.specs.declared.cells.Slice.{Slice};
ghost use Rattle.pr_net.specs.declared.cells.Wire.{Wire};
ghost use Rattle.pr_cut_units.specs.Cells.{plain, byte, top, bit_of, slice_at, slice_below, with_left, with_right, table_a, table_b, table_not_a};
ghost use Rattle.pr_cut_units.specs.Parts.{each, units_after, slices_after};
ghost use Rattle.pr_cut_units.specs.Products.{row_width};
ghost use Rattle.pr_cut_cells.specs.Prefixes.{IsPrefix};
ghost use Rattle.pr_cutmul.specs.Makings.{product_cell_of, product_row_of, product_of};

use pr_base::{Carry, Mode, slices};
use pr_cut_cells::{bit_of, byte, chain, joined, plain, top, with_left};
use pr_cut_units::Style;
use pr_net::{Cell, Slice, Unit};
use std::alloc::{AllocError, Global};

/// The bits of row `j` of a product of `e` bits, where the first factor has `w`.
fn row_width(e: u8, w: u8, j: u8) -> u8
    ensures { result ≡ row_width e w j }
{
    let most = u16::from(w) + u16::from(j) + 1;
    if u16::from(e) < most { e } else { most as u8 }
}

/// Two factors: their slices and their widths in bits.
#[derive(Clone, Copy)]
pub struct Factors<'a> {
    pub a: &'a [Slice],
    pub wa: u8,
    pub b: &'a [Slice],
    pub wb: u8,
}

/// The cell of slice `i` of row `j`.
fn row_cell(factors: &Factors, e: u8, j: u8, before: &[Slice], i: usize) -> Cell
    requires { i < 64 }
    ensures { result ≡ product_cell_of factors.now e j before.now i }
{
    let cell = Cell {
        a: byte(before, i),
        c: bit_of(factors.b, usize::from(j)),
        mode: Mode::Sum,
        table: 0xc0,
        mask: top(row_width(e, factors.wa, j), i),
        ..plain()
    };
    with_left(factors.a, usize::from(j), i, cell)
}

/// The cells of row `j`, from that of the byte of bit `j` on.
#[tactic(auto, using(pr_cut_units::proofs::EachLemmas::each_more))]
fn row_cells(
    alloc: Global,
    factors: &Factors,
    e: u8,
    j: u8,
    before: &[Slice],
) -> Result<Vec<Cell>, AllocError>
    requires { j < e }
    ensures count { IfOk result (λ all. vec_len all ≡ slices_of (row_width e factors.now.wa j) - j / 8) }
    ensures all { IfOk result (λ all. all.items ≡ each (slices_of (row_width e factors.now.wa j) - j / 8)
        (λ i. product_cell_of factors.now e j before.now (j / 8 + i))) }
{
    let mut all = Vec::new(alloc);
    for i in 0..slices(row_width(e, factors.wa, j)) - usize::from(j) / 8 {
        all.push(row_cell(factors, e, j, before, usize::from(j) / 8 + i))?;
    }
    Ok(all)
}

/// The first slices.
fn lowest(x: &[Slice], n: usize) -> &[Slice]
    ensures { result.now ≡ take n x.now }
{
    if n < x.len() { &x[..n] } else { x }
}

/// Row `j`: the whole bytes below bit `j` stay, and the others are a chain.
#[tactic(auto, using(pr_cut_cells::proofs::PrefixLemmas::prefix_of, pr_cut_cells::proofs::PrefixLemmas::prefix_whole))]
fn product_row(
    alloc: Global,
    units: &mut Vec<Unit>,
    factors: &Factors,
    e: u8,
    j: u8,
    before: &[Slice],
) -> Result<Vec<Slice>, AllocError>
    requires below { j < e }
    requires fits { length units.old.items + 40 < 2 ^ 32 }
    ensures kept { length units.old.items ≤ length units.new.items }
    ensures grows { OnOk result (length units.new.items ≤ length units.old.items + 40) }
    ensures units { OnOk result (units.new.items ≡
        units_after units.old.items (product_row_of factors.now e j before.now)) }
    ensures part { OnErr result (IsPrefix units.new.items
        (units_after units.old.items (product_row_of factors.now e j before.now))) }
    ensures slices { IfOk result (λ s. s.items ≡
        slices_after units.old.items (product_row_of factors.now e j before.now)) }
{
    let cells = row_cells(alloc, factors, e, j, before)?;
    let high = chain(alloc, units, Style::ByEntry, Carry::Zero, &cells)?;
    joined(alloc, lowest(before, usize::from(j) / 8), &high)
}

/// The first `e` bits of a product.
pub fn product(
    alloc: Global,
    units: &mut Vec<Unit>,
    factors: &Factors,
    e: u8,
) -> Result<Vec<Slice>, AllocError>
    requires fits { length units.old.items + 40 * 256 < 2 ^ 32 }
    ensures kept { length units.old.items ≤ length units.new.items }
    ensures grows { OnOk result (length units.new.items ≤ length units.old.items + 40 * 256) }
    ensures units { OnOk result (units.new.items ≡ units_after units.old.items (product_of factors.now e)) }
    ensures part { OnErr result (IsPrefix units.new.items (units_after units.old.items (product_of factors.now e))) }
    ensures slices { IfOk result (λ s. s.items ≡ slices_after units.old.items (product_of factors.now e)) }
{
    let mut before = Vec::new(alloc);
    for j in 0..factors.wb.min(e) {
        before = product_row(alloc, units, factors, e, j, &before)?;
    }
    Ok(before)
}
