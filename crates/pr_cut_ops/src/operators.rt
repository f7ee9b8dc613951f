//! Operators that are one unit.

ghost use Rattle.std.specs.Prelude.{ℕ, false, if◌then◌else◌, ◌≡◌, ◌≤◌, ◌<◌, ◌+◌, ◌/◌, ◌^◌, length, vec_len, IfOk, nat_lt};
ghost use Rattle.pr_base.specs.Numbers.{slices_of};
ghost use Rattle.pr_cut_units.specs.Cells.{slice_at, slice_below};
ghost use Rattle.pr_cut_units.specs.Parts.{each};
ghost use Rattle.pr_cut_units.specs.Widening.{read_as};
ghost use Rattle.pr_cut_units.specs.Operators.{input_cell, input_unit, bitwise_cell, bitwise, inverted_cell, inverted, chosen_cell, chosen, moved_left_cell, moved_left, extracted_cell, extracted, joined_slice, joined_cell, concatenated, ends_whole};
ghost use Rattle.pr_cut_ops.specs.Makes.{Makes};

use pr_base::{Mode, Next, slices};
use pr_cut_cells::{
    bit_of, byte, plain, push_unit, slice_at, slice_below, top, with_left, with_right,
};
use pr_net::{Cell, Slice, Unit, Wire, WireBit};
use std::alloc::{AllocError, Global};

/// The cells of an input.
#[tactic(auto, using(pr_cut_units::proofs::EachLemmas::each_more))]
fn input_cells(alloc: Global, w: u8, offset: u8) -> Result<Vec<Cell>, AllocError>
    requires { offset ≤ 128 }
    ensures count { IfOk result (λ all. vec_len all ≡ slices_of w) }
    ensures all { IfOk result (λ all. all.items ≡ each (slices_of w) (λ i. input_cell w offset i)) }
{
    let mut all = Vec::with_capacity(alloc, slices(w))?;
    for i in 0..slices(w) {
        all.push(Cell {
            a: Wire::Bus(offset + i as u8),
            table: 0xaa,
            mask: top(w, i),
            ..plain()
        })?;
    }
    Ok(all)
}

/// An input, whose bytes stand at an offset in the sample.
pub fn input_unit(
    alloc: Global,
    units: &mut Vec<Unit>,
    w: u8,
    offset: u8,
) -> Result<Vec<Slice>, AllocError>
    requires place { offset ≤ 128 }
    requires fits { length units.old.items < 2 ^ 32 }
    ensures { Makes 1 (input_unit w offset) units.old units.new result }
{
    let cells = input_cells(alloc, w, offset)?;
    push_unit(alloc, units, cells)
}

/// The cells of And, Or and Xor.
#[tactic(auto, using(pr_cut_units::proofs::EachLemmas::each_more))]
fn bitwise_cells(
    alloc: Global,
    e: u8,
    table: u8,
    x: &[Slice],
    y: &[Slice],
) -> Result<Vec<Cell>, AllocError>
    ensures count { IfOk result (λ all. vec_len all ≡ slices_of e) }
    ensures all { IfOk result (λ all. all.items ≡ each (slices_of e) (λ i. bitwise_cell e table x.now y.now i)) }
{
    let mut all = Vec::with_capacity(alloc, slices(e))?;
    for i in 0..slices(e) {
        all.push(Cell {
            a: byte(x, i),
            hi: byte(y, i),
            table,
            mask: top(e, i),
            ..plain()
        })?;
    }
    Ok(all)
}

/// And, Or and Xor, by their tables.
pub fn bitwise(
    alloc: Global,
    units: &mut Vec<Unit>,
    e: u8,
    table: u8,
    x: &[Slice],
    y: &[Slice],
) -> Result<Vec<Slice>, AllocError>
    requires fits { length units.old.items < 2 ^ 32 }
    ensures { Makes 1 (bitwise e table x.now y.now) units.old units.new result }
{
    let cells = bitwise_cells(alloc, e, table, x, y)?;
    push_unit(alloc, units, cells)
}

/// The cells of Not.
#[tactic(auto, using(pr_cut_units::proofs::EachLemmas::each_more))]
fn inverted_cells(alloc: Global, e: u8, x: &[Slice]) -> Result<Vec<Cell>, AllocError>
    ensures count { IfOk result (λ all. vec_len all ≡ slices_of e) }
    ensures all { IfOk result (λ all. all.items ≡ each (slices_of e) (λ i. inverted_cell e x.now i)) }
{
    let mut all = Vec::with_capacity(alloc, slices(e))?;
    for i in 0..slices(e) {
        all.push(Cell {
            a: byte(x, i),
            table: 0x55,
            mask: top(e, i),
            ..plain()
        })?;
    }
    Ok(all)
}

/// Not.
pub fn inverted(
    alloc: Global,
    units: &mut Vec<Unit>,
    e: u8,
    x: &[Slice],
) -> Result<Vec<Slice>, AllocError>
    requires fits { length units.old.items < 2 ^ 32 }
    ensures { Makes 1 (inverted e x.now) units.old units.new result }
{
    let cells = inverted_cells(alloc, e, x)?;
    push_unit(alloc, units, cells)
}

/// The cells of Choose.
#[tactic(auto, using(pr_cut_units::proofs::EachLemmas::each_more))]
fn chosen_cells(
    alloc: Global,
    e: u8,
    c: &[Slice],
    x: &[Slice],
    y: &[Slice],
) -> Result<Vec<Cell>, AllocError>
    ensures count { IfOk result (λ all. vec_len all ≡ slices_of e) }
    ensures all { IfOk result (λ all. all.items ≡ each (slices_of e) (λ i. chosen_cell e c.now x.now y.now i)) }
{
    let mut all = Vec::with_capacity(alloc, slices(e))?;
    for i in 0..slices(e) {
        all.push(Cell {
            a: byte(x, i),
            hi: byte(y, i),
            c: bit_of(c, 0),
            table: 0xac,
            mask: top(e, i),
            ..plain()
        })?;
    }
    Ok(all)
}

/// Choose, by the lowest bit of `c`.
pub fn chosen(
    alloc: Global,
    units: &mut Vec<Unit>,
    e: u8,
    c: &[Slice],
    x: &[Slice],
    y: &[Slice],
) -> Result<Vec<Slice>, AllocError>
    requires fits { length units.old.items < 2 ^ 32 }
    ensures { Makes 1 (chosen e c.now x.now y.now) units.old units.new result }
{
    let cells = chosen_cells(alloc, e, c, x, y)?;
    push_unit(alloc, units, cells)
}

/// The slices of a shift to the left, where no byte is cut.
#[tactic(auto, using(pr_cut_units::proofs::EachLemmas::each_more))]
fn moved_left_slices(
    alloc: Global,
    e: u8,
    w: u8,
    k: u8,
    x: &[Slice],
) -> Result<Vec<Slice>, AllocError>
    ensures count { IfOk result (λ all. vec_len all ≡ slices_of e) }
    ensures all { IfOk result (λ all. all.items ≡ each (slices_of e) (λ i. slice_below x.now i (k / 8))) }
{
    let mut all = Vec::with_capacity(alloc, slices(e))?;
    for i in 0..slices(e) {
        all.push(slice_below(x, i, usize::from(k) / 8))?;
    }
    Ok(all)
}

/// The cells of a shift to the left.
#[tactic(auto, using(pr_cut_units::proofs::EachLemmas::each_more))]
fn moved_left_cells(
    alloc: Global,
    e: u8,
    w: u8,
    k: u8,
    x: &[Slice],
) -> Result<Vec<Cell>, AllocError>
    ensures count { IfOk result (λ all. vec_len all ≡ slices_of e) }
    ensures all { IfOk result (λ all. all.items ≡ each (slices_of e) (λ i. moved_left_cell e k x.now i)) }
{
    let mut all = Vec::with_capacity(alloc, slices(e))?;
    for i in 0..slices(e) {
        all.push(with_left(
            x,
            usize::from(k),
            i,
            Cell {
                table: 0xcc,
                mask: top(e, i),
                ..plain()
            },
        ))?;
    }
    Ok(all)
}

/// A shift to the left.
pub fn moved_left(
    alloc: Global,
    units: &mut Vec<Unit>,
    e: u8,
    w: u8,
    k: u8,
    x: &[Slice],
) -> Result<Vec<Slice>, AllocError>
    requires fits { length units.old.items < 2 ^ 32 }
    ensures { Makes 1 (moved_left e w k x.now) units.old units.new result }
{
    if k % 8 == 0 && ends_whole(u64::from(e), u64::from(w) + u64::from(k)) {
        return moved_left_slices(alloc, e, w, k, x);
    }
    let cells = moved_left_cells(alloc, e, w, k, x)?;
    push_unit(alloc, units, cells)
}

/// The slices of the bits from a place on, where no byte is cut.
#[tactic(auto, using(pr_cut_units::proofs::EachLemmas::each_more))]
fn extracted_slices(
    alloc: Global,
    e: u8,
    w: u8,
    l: u64,
    x: &[Slice],
) -> Result<Vec<Slice>, AllocError>
    requires { l < 2 ^ 32 }
    ensures count { IfOk result (λ all. vec_len all ≡ slices_of e) }
    ensures all { IfOk result (λ all. all.items ≡ each (slices_of e) (λ i. slice_at x.now (i + l / 8))) }
{
    let mut all = Vec::with_capacity(alloc, slices(e))?;
    for i in 0..slices(e) {
        all.push(slice_at(x, i + (l / 8) as usize))?;
    }
    Ok(all)
}

/// The cells of the bits from a place on.
#[tactic(auto, using(pr_cut_units::proofs::EachLemmas::each_more))]
fn extracted_cells(
    alloc: Global,
    e: u8,
    w: u8,
    l: u64,
    x: &[Slice],
) -> Result<Vec<Cell>, AllocError>
    requires { l < 2 ^ 32 }
    ensures count { IfOk result (λ all. vec_len all ≡ slices_of e) }
    ensures all { IfOk result (λ all. all.items ≡ each (slices_of e) (λ i. extracted_cell e l x.now i)) }
{
    let mut all = Vec::with_capacity(alloc, slices(e))?;
    for i in 0..slices(e) {
        all.push(with_right(
            x,
            l as usize,
            i,
            Cell {
                table: 0xcc,
                mask: top(e, i),
                ..plain()
            },
        ))?;
    }
    Ok(all)
}

/// The bits from a place on.
pub fn extracted(
    alloc: Global,
    units: &mut Vec<Unit>,
    e: u8,
    w: u8,
    l: u64,
    x: &[Slice],
) -> Result<Vec<Slice>, AllocError>
    requires small { l < 2 ^ 32 }
    requires fits { length units.old.items < 2 ^ 32 }
    ensures { Makes 1 (extracted e w l x.now) units.old units.new result }
{
    if l % 8 == 0 && ends_whole(l + u64::from(e), u64::from(w)) {
        return extracted_slices(alloc, e, w, l, x);
    }
    let cells = extracted_cells(alloc, e, w, l, x)?;
    push_unit(alloc, units, cells)
}

/// The slices of a concatenation, where no byte is cut.
#[tactic(auto, using(pr_cut_units::proofs::EachLemmas::each_more))]
fn joined_slices(
    alloc: Global,
    e: u8,
    wb: u8,
    x: &[Slice],
    y: &[Slice],
) -> Result<Vec<Slice>, AllocError>
    ensures count { IfOk result (λ all. vec_len all ≡ slices_of e) }
    ensures all { IfOk result (λ all. all.items ≡ each (slices_of e) (λ i. joined_slice wb x.now y.now i)) }
{
    let mut all = Vec::with_capacity(alloc, slices(e))?;
    for i in 0..slices(e) {
        all.push(joined_slice(x, y, i, usize::from(wb) / 8))?;
    }
    Ok(all)
}

/// The cells of a concatenation.
#[tactic(auto, using(pr_cut_units::proofs::EachLemmas::each_more))]
fn joined_cells(
    alloc: Global,
    e: u8,
    wb: u8,
    x: &[Slice],
    y: &[Slice],
) -> Result<Vec<Cell>, AllocError>
    ensures count { IfOk result (λ all. vec_len all ≡ slices_of e) }
    ensures all { IfOk result (λ all. all.items ≡ each (slices_of e) (λ i. joined_cell e wb x.now y.now i)) }
{
    let mut all = Vec::with_capacity(alloc, slices(e))?;
    for i in 0..slices(e) {
        all.push(with_left(
            x,
            usize::from(wb),
            i,
            Cell {
                a: byte(y, i),
                table: 0xee,
                mask: top(e, i),
                ..plain()
            },
        ))?;
    }
    Ok(all)
}

/// A concatenation of a value and of a lower one, of these widths.
pub fn joined(
    alloc: Global,
    units: &mut Vec<Unit>,
    e: u8,
    widths: (u8, u8),
    x: &[Slice],
    y: &[Slice],
) -> Result<Vec<Slice>, AllocError>
    requires fits { length units.old.items < 2 ^ 32 }
    ensures { Makes 1 (concatenated e (read_as false widths.0 x.now) (read_as false widths.1 y.now))
        units.old units.new result }
{
    let (wa, wb) = widths;
    if wb % 8 == 0 && ends_whole(u64::from(e), u64::from(wa) + u64::from(wb)) {
        return joined_slices(alloc, e, wb, x, y);
    }
    let cells = joined_cells(alloc, e, wb, x, y)?;
    push_unit(alloc, units, cells)
}

/// Whether `e` of `u` bits end where the highest byte does, so that no byte has to be cut.
fn ends_whole(e: u64, u: u64) -> bool
    ensures { result ≡ ends_whole e u }
{
    e == u || e % 8 == 0
}

/// Slice `i` of a value above `q` whole bytes of another one.
fn joined_slice(x: &[Slice], y: &[Slice], i: usize, q: usize) -> Slice
    ensures { result ≡ (if nat_lt i q then slice_at y.now i else slice_below x.now i q) }
{
    if i < q {
        slice_at(y, i)
    } else {
        slice_below(x, i, q)
    }
}

/// The slices of a value of `w` bits: those that lack are 0.
#[tactic(auto, using(pr_cut_units::proofs::EachLemmas::each_more))]
pub fn filled_slices(alloc: Global, w: u8, x: &[Slice]) -> Result<Vec<Slice>, AllocError>
    ensures count { IfOk result (λ all. vec_len all ≡ slices_of w) }
    ensures all { IfOk result (λ all. all.items ≡ each (slices_of w) (λ i. slice_at x.now i)) }
{
    let mut all = Vec::with_capacity(alloc, slices(w))?;
    for i in 0..slices(w) {
        all.push(slice_at(x, i))?;
    }
    Ok(all)
}
