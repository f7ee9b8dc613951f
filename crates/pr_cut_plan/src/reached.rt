//! The equations from which others can be reached, and the hold units of recurrences.

ghost use Rattle.std.specs.Prelude.{◌≡◌, ◌<◌, ◌≤◌, ◌+◌, ◌-◌, ◌&&◌, ◌||◌, ℕ, Bool, true, false, max, Some, List, [], ◌∷◌, length, map, vec_len, slice_index, slice_index_or, IfOk};
ghost use Rattle.std.specs.Bool.{if◌then◌else◌};
ghost use Rattle.std.specs.List.{slice_get, list_any};
ghost use Rattle.pr_flat.specs.declared.equations.Operand.{Operand};
ghost use Rattle.pr_flat.specs.Flats.{equations_of};
ghost use Rattle.pr_flat.specs.Shape.{EquationShape};
ghost use Rattle.pr_flat.specs.Facts.{is_rec, reads_equation};
ghost use Rattle.pr_cut_units.specs.Reached.{reached, past_read, greatest, hold_count};
ghost use Rattle.pr_cut_plan.specs.Marks.{MarksMore, NoneReached, TellReached};
ghost use Rattle.pr_cut_plan.specs.Plans.{AreHoldCounts, HaveNoHolds, IsRecurrence};

use pr_flat::{Flat, Op, Operand};
use std::alloc::{AllocError, Global};

/// Marks the equation that an operand names, where it is one of those from `first` on.
fn mark_one(flags: &mut [bool], first: usize, operand: Operand)
    ensures { MarksMore flags.old flags.new (λ j. reads_equation (first + j) operand) }
{
    if let Operand::Eq(number) = operand {
        let number = number as usize;
        if first <= number && number - first < flags.len() {
            flags[number - first] = true;
        }
    }
}

/// Marks the equations that operands name, of those from `first` on.
#[tactic(auto, using(crate::proofs::ReachedLemmas::any_rest))]
fn mark(flags: &mut [bool], first: usize, operands: &[Operand])
    ensures { MarksMore flags.old flags.new (λ j. list_any (reads_equation (first + j)) operands.now) }
{
    for operand in operands {
        mark_one(flags, first, *operand);
    }
}

/// Marks them where the equation that has these operands counts.
fn mark_where(flags: &mut [bool], counts: bool, first: usize, operands: &[Operand])
    ensures { MarksMore flags.old flags.new
        (λ j. counts && list_any (reads_equation (first + j)) operands.now) }
{
    if counts {
        mark(flags, first, operands);
    }
}

/// Marks the equations from `first` on, as many as there are marks, from which one of these operands can be reached.
fn mark_reached(flags: &mut [bool], flat: &Flat, operands: &[Operand], first: usize)
    requires within { first + length flags.old ≤ vec_len flat.now.equations }
    requires blank { (j : ℕ) → j < length flags.old → slice_index_or flags.old j false ≡ false }
    requires later { NoneReached (equations_of flat.now) operands.now (first + length flags.old) }
    ensures { TellReached (equations_of flat.now) operands.now first (length flags.old) flags.new }
{
    mark(flags, first, operands);
    for done in 0..flags.len() {
        let last = flags.len() - 1 - done;
        let counts = flags[last];
        mark_where(flags, counts, first, &flat.equations[first + last].args);
    }
}

/// Whether one of these operands can be reached from each of the equations from `first` on and before `end`.
fn reached_within(
    alloc: Global,
    flat: &Flat,
    operands: &[Operand],
    first: usize,
    end: usize,
) -> Result<Vec<bool>, AllocError>
    requires ordered { first ≤ end }
    requires within { end ≤ vec_len flat.now.equations }
    requires later { NoneReached (equations_of flat.now) operands.now end }
    ensures count { IfOk result (λ flags. vec_len flags ≡ end - first) }
    ensures flags { IfOk result (λ flags.
        TellReached (equations_of flat.now) operands.now first (end - first) flags.items) }
{
    let mut flags = vec![in alloc; false; end - first]?;
    mark_reached(&mut flags, flat, operands, first);
    Ok(flags)
}

/// Whether an output can be reached from each equation.
pub fn reached(alloc: Global, flat: &Flat) -> Result<Vec<bool>, AllocError>
    ensures { IfOk result (λ flags. flags.items ≡ reached (equations_of flat.now) flat.now.outputs.items) }
{
    let flags = reached_within(alloc, flat, &flat.outputs, 0, flat.equations.len())?;
    Ok(flags)
}

/// How far into the past of a recurrence an operand reads.
fn past_read(rec: u32, operand: Operand) -> u32
    ensures { result ≡ past_read rec operand }
{
    match operand {
        Operand::Past { rec: read, k } if read == rec => k,
        _ => 0,
    }
}

/// How far into the past of a recurrence one of these operands reads.
#[tactic(auto, using(crate::proofs::ReachedLemmas::most_rest))]
fn most_read(rec: u32, operands: &[Operand]) -> u32
    ensures { result ≡ greatest (map (past_read rec) operands.now) }
{
    let mut most = 0;
    for operand in operands {
        most = most.max(past_read(rec, *operand));
    }
    most
}

/// The same where the equation that has these operands counts, and else 0.
fn most_where(counts: bool, rec: u32, operands: &[Operand]) -> u32
    ensures { result ≡ (if counts then greatest (map (past_read rec) operands.now) else 0) }
{
    if counts { most_read(rec, operands) } else { 0 }
}

/// The number of hold units of a recurrence, whose body begins with equation `first`.
fn hold_count(alloc: Global, flat: &Flat, rec: u32, first: u32) -> Result<u32, AllocError>
    requires { IsRecurrence (equations_of flat.now) rec first }
    ensures { IfOk result (λ count. count ≡ hold_count (equations_of flat.now) rec) }
{
    let from = first as usize;
    let own = [Operand::Eq(rec)];
    let flags = reached_within(alloc, flat, &own, from, rec as usize + 1)?;
    let mut most = 1;
    for i in 0..flags.len() {
        most = most.max(most_where(flags[i], rec, &flat.equations[from + i].args));
    }
    Ok(most)
}

/// The number of hold units of an equation, which is 0 where it is no recurrence.
fn hold_count_at(alloc: Global, flat: &Flat, i: usize) -> Result<u32, AllocError>
    requires { i < vec_len flat.now.equations }
    ensures some { (e : EquationShape) → slice_get (equations_of flat.now) i ≡ Some e → is_rec e.op ≡ true →
        IfOk result (λ count. count ≡ hold_count (equations_of flat.now) i) }
    ensures none { (e : EquationShape) → slice_get (equations_of flat.now) i ≡ Some e → is_rec e.op ≡ false →
        IfOk result (λ count. count ≡ 0) }
{
    match flat.equations[i].op {
        Op::Rec { first, .. } => hold_count(alloc, flat, i as u32, first),
        _ => Ok(0),
    }
}

/// The number of hold units of each equation, which is 0 where it is no recurrence.
pub fn hold_counts(alloc: Global, flat: &Flat) -> Result<Vec<u32>, AllocError>
    ensures count { IfOk result (λ counts. vec_len counts ≡ vec_len flat.now.equations) }
    ensures counts { IfOk result (λ counts. AreHoldCounts (equations_of flat.now) counts.items) }
    ensures none { IfOk result (λ counts. HaveNoHolds (equations_of flat.now) counts.items) }
{
    let mut counts = Vec::new(alloc);
    for i in 0..flat.equations.len() {
        let count = hold_count_at(alloc, flat, i)?;
        counts.push(count)?;
    }
    Ok(counts)
}
