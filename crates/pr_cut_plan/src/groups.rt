//! Groups of units.

ghost use Rattle.std.specs.Prelude.{◌≡◌, ◌<◌, ◌≤◌, ◌+◌, ◌-◌, ◌&&◌, ◌++◌, ℕ, nat_le, nat_lt, List, [], ◌∷◌, length, take, vec_len, slice_index_or, false, OnOk, IfOk};
ghost use Rattle.std.specs.Bool.{if◌then◌else◌};
ghost use Rattle.std.specs.List.{list_any};
ghost use Rattle.pr_flat.specs.Facts.{is_rec};
ghost use Rattle.pr_flat.specs.Flats.{equations_of};
ghost use Rattle.pr_flat.specs.Shape.{EachEquation};
ghost use Rattle.pr_cut_units.specs.Parts.{each};
ghost use Rattle.pr_cut_units.specs.Groups.{bit_wires, cell_wires, ties, is_tied, tied_from, groups_of};
ghost use Rattle.pr_cut_plan.specs.Plans.{AreHoldsOf};
ghost use Rattle.pr_cut_plan.specs.Parts.{AreMarked, IsPart, AreParts, end_of, part_groups, untied_groups, parts_groups, parts_end};

use crate::plans::CutPlan;
use pr_flat::{Flat, Op};
use pr_net::{Cell, Group, Unit, Wire, WireBit};
use std::alloc::{AllocError, Global};
use std::marker::Model;

/// The hold units of a recurrence.
#[derive(Debug, Drop)]
pub struct Holds {
    first: u32,
    count: u32,
}

impl Model for Holds {
    ghost use Rattle.pr_cut_units.specs.Groups.{Holds};

    ghost Value = { Holds };

    ghost view = { λ h. record { first = h.first; count = h.count } };
}

impl Holds {
    fn has(&self, unit: u32) -> bool
        ensures { result ≡ (nat_le self.now.first unit && nat_lt unit (self.now.first + self.now.count)) }
    {
        self.first <= unit && unit - self.first < self.count
    }

    fn first(&self) -> u32
        ensures { result ≡ self.now.first }
    {
        self.first
    }

    fn count(&self) -> u32
        ensures { result ≡ self.now.count }
    {
        self.count
    }
}

fn is_rec(op: Op) -> bool
    ensures { result ≡ is_rec op }
{
    matches!(op, Op::Rec { .. })
}

/// Whether equation `i` is a recurrence that has units.
fn has_holds(flat: &Flat, plan: &CutPlan, i: usize) -> bool
    requires there { i < vec_len flat.now.equations }
    requires flags { vec_len plan.now.reached ≡ vec_len flat.now.equations }
    ensures { EachEquation (equations_of flat.now)
        (λ k e. k ≡ i → result ≡ (slice_index_or plan.now.reached.items i false && is_rec e.op)) }
{
    plan.reached[i] && is_rec(flat.equations[i].op)
}

/// These hold units more, where there are any.
fn push_where(all: &mut Vec<Holds>, some: bool, first: u32, count: u32) -> Result<(), AllocError>
    ensures { OnOk result (all.new.items ≡
        all.old.items ++ (if some then record { first = first; count = count } ∷ [] else [])) }
{
    if some {
        all.push(Holds { first, count })?;
    }
    Ok(())
}

/// The hold units of the recurrences that have units, in their order.
pub fn holds_of(alloc: Global, flat: &Flat, plan: &CutPlan) -> Result<Vec<Holds>, AllocError>
    requires flags { vec_len plan.now.reached ≡ vec_len flat.now.equations }
    requires units { vec_len plan.now.hold_units ≡ vec_len flat.now.equations }
    requires counts { vec_len plan.now.hold_counts ≡ vec_len flat.now.equations }
    ensures { IfOk result (λ holds. AreHoldsOf flat.now plan.now holds.items) }
{
    let mut all = Vec::new(alloc);
    for i in 0..flat.equations.len() {
        let some = has_holds(flat, plan, i);
        push_where(&mut all, some, plan.hold_units[i], plan.hold_counts[i])?;
    }
    Ok(all)
}

/// Whether a wire reads a state of the hold units, or a cell of a unit that is marked; the marks begin with unit `from`.
fn ties(wire: Wire, holds: &Holds, from: u32, marks: &[bool]) -> bool
    ensures { (group : List ℕ) → AreMarked from marks.now group → result ≡ ties holds.now group wire }
{
    match wire {
        Wire::Of(unit, _) => {
            from <= unit && ((unit - from) as usize) < marks.len() && marks[(unit - from) as usize]
        }
        Wire::State(unit, _) => holds.has(unit),
        _ => false,
    }
}

/// Whether C is a bit of such a wire.
fn bit_ties(bit: WireBit, holds: &Holds, from: u32, marks: &[bool]) -> bool
    ensures { (group : List ℕ) → AreMarked from marks.now group → result ≡
        list_any (ties holds.now group) (bit_wires bit) }
{
    match bit {
        WireBit::Of(wire, _) => ties(wire, holds, from, marks),
        _ => false,
    }
}

/// Whether a cell has such a wire.
fn cell_ties(cell: Cell, holds: &Holds, from: u32, marks: &[bool]) -> bool
    ensures { (group : List ℕ) → AreMarked from marks.now group → result ≡
        list_any (ties holds.now group) (cell_wires cell) }
{
    ties(cell.a, holds, from, marks)
        || ties(cell.hi, holds, from, marks)
        || ties(cell.lo, holds, from, marks)
        || bit_ties(cell.c, holds, from, marks)
}

/// Whether a unit has such a cell.
fn is_tied(unit: &Unit, holds: &Holds, from: u32, marks: &[bool]) -> bool
    ensures { (group : List ℕ) → AreMarked from marks.now group → result ≡ is_tied holds.now group unit.now }
{
    for cell in &unit.cells {
        if cell_ties(*cell, holds, from, marks) {
            return true;
        }
    }
    false
}

/// A unit that is a group by itself.
fn push_single(alloc: Global, groups: &mut Vec<Group>, unit: u32) -> Result<(), AllocError>
    ensures { OnOk result (groups.new.items ≡ groups.old.items ++ (unit ∷ []) ∷ []) }
{
    let mut units = Vec::new(alloc);
    units.push(unit)?;
    groups.push(Group { units })?;
    Ok(())
}

/// One more unit: among those that are tied, or as a group by itself.
fn push_unit(
    alloc: Global,
    groups: &mut Vec<Group>,
    tied: &mut Vec<u32>,
    unit: u32,
    is_tied: bool,
) -> Result<(), AllocError>
    ensures tied { OnOk result (tied.new.items ≡ (if is_tied then tied.old.items ++ unit ∷ [] else tied.old.items)) }
    ensures groups { OnOk result (groups.new.items ≡ groups.old.items ++ (if is_tied then [] else (unit ∷ []) ∷ [])) }
{
    if is_tied {
        tied.push(unit)?;
    } else {
        push_single(alloc, groups, unit)?;
    }
    Ok(())
}

/// The units before these hold units that they tie, from unit `from` on; every other one is pushed as a group by itself.
fn push_untied(
    alloc: Global,
    groups: &mut Vec<Group>,
    units: &[Unit],
    holds: &Holds,
    from: u32,
) -> Result<Vec<u32>, AllocError>
    requires few { length units.now ≤ 32768 }
    requires part { IsPart units.now from holds.now }
    ensures tied { IfOk result (λ tied. tied.items ≡ tied_from holds.now [] 0 (take holds.now.first units.now)) }
    ensures groups { OnOk result (groups.new.items ≡ groups.old.items ++ untied_groups units.now from holds.now) }
{
    let mut tied = Vec::new(alloc);
    let mut marks = Vec::new(alloc);
    for unit in from..holds.first() {
        let is = is_tied(&units[unit as usize], holds, from, &marks);
        marks.push(is)?;
        push_unit(alloc, groups, &mut tied, unit, is)?;
    }
    Ok(tied)
}

/// These units, and after them the hold units.
#[tactic(auto, using(pr_cut_units::proofs::EachLemmas::each_more))]
fn with_holds(tied: Vec<u32>, holds: &Holds) -> Result<Group, AllocError>
    requires { holds.now.first + holds.now.count ≤ 32768 }
    ensures { IfOk result (λ group. group ≡ tied.items ++ each holds.now.count (λ j. holds.now.first + j)) }
{
    let mut units = tied;
    for j in 0..holds.count() {
        units.push(holds.first() + j)?;
    }
    Ok(Group { units })
}

/// The groups of the units from `from` on up to the last of these hold units, and the number of the unit after it.
fn push_part(
    alloc: Global,
    groups: &mut Vec<Group>,
    units: &[Unit],
    holds: &Holds,
    from: u32,
) -> Result<u32, AllocError>
    requires few { length units.now ≤ 32768 }
    requires part { IsPart units.now from holds.now }
    ensures next { IfOk result (λ next. next ≡ end_of holds.now) }
    ensures groups { OnOk result (groups.new.items ≡ groups.old.items ++ part_groups units.now from holds.now) }
{
    let tied = push_untied(alloc, groups, units, holds, from)?;
    let group = with_holds(tied, holds)?;
    groups.push(group)?;
    Ok(holds.first() + holds.count())
}

/// The groups of the units up to the last hold unit of all, and the number of the unit after it.
fn push_parts(
    alloc: Global,
    groups: &mut Vec<Group>,
    units: &[Unit],
    holds: &[Holds],
) -> Result<u32, AllocError>
    requires few { length units.now ≤ 32768 }
    requires parts { AreParts units.now 0 holds.now }
    ensures next { IfOk result (λ next. next ≡ parts_end 0 holds.now) }
    ensures groups { OnOk result (groups.new.items ≡ groups.old.items ++ parts_groups units.now 0 holds.now) }
{
    let mut from = 0;
    for part in holds {
        from = push_part(alloc, groups, units, part, from)?;
    }
    Ok(from)
}

/// The groups of these units: each recurrence's hold units with those before them that they tie, and every other unit by itself.
pub fn groups_of(alloc: Global, units: &[Unit], holds: &[Holds]) -> Result<Vec<Group>, AllocError>
    requires few { length units.now ≤ 32768 }
    requires parts { AreParts units.now 0 holds.now }
    ensures { IfOk result (λ groups. groups.items ≡ groups_of units.now holds.now) }
{
    let mut groups = Vec::new(alloc);
    let from = push_parts(alloc, &mut groups, units, holds)?;
    for unit in from..units.len() as u32 {
        push_single(alloc, &mut groups, unit)?;
    }
    Ok(groups)
}
