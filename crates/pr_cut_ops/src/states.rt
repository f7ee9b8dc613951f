//! Units with state.

ghost use Rattle.std.specs.Prelude.{ℕ, ◌∷◌, [], ◌≡◌, ◌≤◌, ◌<◌, ◌+◌, ◌^◌, ◌++◌, length, vec_len, OnOk, IfOk};
ghost use Rattle.pr_base.specs.Numbers.{slices_of};
ghost use Rattle.pr_net.specs.declared.cells.Slice.{Slice};
ghost use Rattle.pr_cut_units.specs.Parts.{each, units_after, slices_after};
ghost use Rattle.pr_cut_units.specs.States.{delayed_cell, delayed, hold_cell, later_cell, hold_units};
ghost use Rattle.pr_cut_ops.specs.Makes.{Makes};

use pr_base::{Next, byte_of, slices};
use pr_cut_cells::{byte, plain, push_unit, slices_of_unit, top};
use pr_net::{Cell, Slice, Unit, Wire, WireBit};
use std::alloc::{AllocError, Global};

/// The cells of a delay, which is this unit.
#[tactic(auto, using(pr_cut_units::proofs::EachLemmas::each_more))]
fn delayed_cells(
    alloc: Global,
    w: u8,
    c: u64,
    x: &[Slice],
    unit: u32,
) -> Result<Vec<Cell>, AllocError>
    ensures count { IfOk result (λ all. vec_len all ≡ slices_of w) }
    ensures all { IfOk result (λ all. all.items ≡ each (slices_of w) (λ i. delayed_cell c x.now unit i)) }
{
    let mut all = Vec::with_capacity(alloc, slices(w))?;
    for i in 0..slices(w) {
        all.push(Cell {
            a: byte(x, i),
            hi: Wire::State(unit, i as u8),
            table: 0xcc,
            next: Next::A,
            init: byte_of(u128::from(c), i),
            ..plain()
        })?;
    }
    Ok(all)
}

/// A delay with its first number.
pub fn delayed(
    alloc: Global,
    units: &mut Vec<Unit>,
    w: u8,
    c: u64,
    x: &[Slice],
) -> Result<Vec<Slice>, AllocError>
    requires fits { length units.old.items < 2 ^ 32 }
    ensures { Makes 1 (delayed w c x.now) units.old units.new result }
{
    let cells = delayed_cells(alloc, w, c, x, units.len() as u32)?;
    push_unit(alloc, units, cells)
}

/// The cells of the first hold unit.
#[tactic(auto, using(pr_cut_units::proofs::EachLemmas::each_more))]
fn hold_cells(alloc: Global, w: u8, init: u64, x: &[Slice]) -> Result<Vec<Cell>, AllocError>
    ensures count { IfOk result (λ all. vec_len all ≡ slices_of w) }
    ensures all { IfOk result (λ all. all.items ≡ each (slices_of w) (λ i. hold_cell w init x.now i)) }
{
    let mut all = Vec::with_capacity(alloc, slices(w))?;
    for i in 0..slices(w) {
        all.push(Cell {
            a: byte(x, i),
            table: 0xaa,
            mask: top(w, i),
            next: Next::Output,
            init: byte_of(u128::from(init), i),
            ..plain()
        })?;
    }
    Ok(all)
}

/// The cells of a later hold unit, after this unit.
#[tactic(auto, using(pr_cut_units::proofs::EachLemmas::each_more))]
fn later_cells(alloc: Global, w: u8, init: u64, before: u32) -> Result<Vec<Cell>, AllocError>
    ensures count { IfOk result (λ all. vec_len all ≡ slices_of w) }
    ensures all { IfOk result (λ all. all.items ≡ each (slices_of w) (λ i. later_cell init before i)) }
{
    let mut all = Vec::with_capacity(alloc, slices(w))?;
    for i in 0..slices(w) {
        all.push(Cell {
            a: Wire::State(before, i as u8),
            table: 0xaa,
            next: Next::Output,
            init: byte_of(u128::from(init), i),
            ..plain()
        })?;
    }
    Ok(all)
}

/// The slices of a past: the states of this hold unit.
#[tactic(auto, using(pr_cut_units::proofs::EachLemmas::each_more))]
pub fn past_slices(alloc: Global, w: u8, unit: u32) -> Result<Vec<Slice>, AllocError>
    ensures count { IfOk result (λ all. vec_len all ≡ slices_of w) }
    ensures all { IfOk result (λ all. all.items ≡ each (slices_of w) (λ i. Slice.State unit i)) }
{
    let mut all = Vec::with_capacity(alloc, slices(w))?;
    for i in 0..slices(w) {
        all.push(Slice::State(unit, i as u8))?;
    }
    Ok(all)
}

/// One more hold unit, after `j` of them that begin with unit `first`.
#[tactic(auto, using(pr_cut_units::proofs::EachLemmas::each_more))]
fn push_later(
    alloc: Global,
    units: &mut Vec<Unit>,
    w: u8,
    init: u64,
    before: u32,
) -> Result<(), AllocError>
    requires fits { length units.old.items < 2 ^ 32 }
    ensures units { OnOk result (units.new.items ≡
        units.old.items ++ each (slices_of w) (later_cell init before) ∷ []) }
{
    let cells = later_cells(alloc, w, init, before)?;
    units.push(Unit { cells })?;
    Ok(())
}

/// Hold units 1 to `k`; the slices are those of the first.
#[tactic(auto, using(pr_cut_units::proofs::EachLemmas::each_more))]
pub fn hold_units(
    alloc: Global,
    units: &mut Vec<Unit>,
    w: u8,
    init: u64,
    k: u32,
    x: &[Slice],
) -> Result<Vec<Slice>, AllocError>
    requires some { 1 ≤ k }
    requires fits { length units.old.items + k < 2 ^ 32 }
    ensures units { OnOk result (units.new.items ≡ units_after units.old.items (hold_units w init k x.now)) }
    ensures slices { IfOk result (λ s. s.items ≡ slices_after units.old.items (hold_units w init k x.now)) }
{
    let cells = hold_cells(alloc, w, init, x)?;
    let first = units.len() as u32;
    let slices = push_unit(alloc, units, cells)?;
    for j in 0..k - 1 {
        push_later(alloc, units, w, init, first + j)?;
    }
    Ok(slices)
}
