//! The plan of a net.

ghost use Rattle.std.specs.Prelude.{◌≡◌, ◌≢◌, ◌<◌, ◌≤◌, ◌^◌, ◌++◌, [], ◌∷◌, ℕ, true, false, Some, None, Err, length, vec_len, slice_index, slice_index_or, OnOk, IfOk};
ghost use Rattle.std.specs.List.{slice_get};
ghost use Rattle.pr_base.specs.declared.caps.Cap.{Cap};
ghost use Rattle.pr_flat.specs.Flats.{equations_of};
ghost use Rattle.pr_flat.specs.Widths.{AreWidths};
ghost use Rattle.pr_cut_units.specs.Reached.{reached};
ghost use Rattle.pr_cut_units.specs.Equations.{all_units, hold_unit, cut_whole};
ghost use Rattle.pr_cut_units.specs.Flats.{flat_plan, flat_net};
ghost use Rattle.pr_cut_units.specs.Nets.{limit_passed};
ghost use Rattle.pr_cut_plan.specs.Plans.{AreHoldCounts, HaveNoHolds, IsHoldCount, IsPlanOf};

use crate::equations::{body_count, input_bytes, input_count, own_count};
use crate::faults::CutFault;
use crate::reached::{hold_counts, reached};
use pr_base::Cap;
use pr_flat::Flat;
use pr_width::Widths;
use std::alloc::{AllocError, Global};

/// What is known of each equation before a unit is made.
#[derive(Debug, Drop)]
pub struct CutPlan {
    /// Whether an output can be reached from it.
    pub reached: Vec<bool>,
    /// The number of a recurrence's first hold unit.
    pub hold_units: Vec<u32>,
    /// How many hold units a recurrence has; 0 for another equation.
    pub hold_counts: Vec<u32>,
}

/// The units that equation `i` has of its own, where an output can be reached from it.
fn unit_count(flat: &Flat, widths: &[u8], i: usize, has_units: bool, holds: u32) -> u64
    requires there { i < vec_len flat.now.equations }
    requires widths { AreWidths (equations_of flat.now) widths.now }
    requires reached { has_units ≡ slice_index_or (reached (equations_of flat.now) flat.now.outputs.items) i false }
    requires holds { IsHoldCount (equations_of flat.now) i holds }
    ensures is { result ≡ slice_index (flat_plan flat.now widths.now).counts i }
    ensures few { result ≤ 2 ^ 33 }
{
    if !has_units {
        return 0;
    }
    own_count(flat, widths, i, holds)
}

/// One more number.
fn push(all: &mut Vec<u32>, number: u32) -> Result<(), AllocError>
    ensures { OnOk result (all.new.items ≡ all.old.items ++ number ∷ []) }
{
    all.push(number)?;
    Ok(())
}

/// The number of each equation's first hold unit, if it is a recurrence.
fn hold_units(
    alloc: Global,
    flat: &Flat,
    widths: &[u8],
    flags: &[bool],
    hold_counts: &[u32],
) -> Result<Vec<u32>, CutFault>
    requires widths { AreWidths (equations_of flat.now) widths.now }
    requires reached { flags.now ≡ reached (equations_of flat.now) flat.now.outputs.items }
    requires flags { length flags.now ≡ vec_len flat.now.equations }
    requires holds { length hold_counts.now ≡ vec_len flat.now.equations }
    requires counts { AreHoldCounts (equations_of flat.now) hold_counts.now }
    ensures count { IfOk result (λ units. vec_len units ≡ vec_len flat.now.equations) }
    ensures firsts { IfOk result (λ units. (i : ℕ) → i < vec_len flat.now.equations →
        slice_index units.items i ≡ hold_unit (flat_plan flat.now widths.now) i) }
    ensures within { OnOk result (all_units (flat_plan flat.now widths.now) ≤ 32768) }
    ensures limit { (cap : Cap) → result ≡ Err (CutFault.Limit cap) →
        (cap ≡ Cap.Units) × (32768 < all_units (flat_plan flat.now widths.now)) }
{
    let mut units = Vec::new(alloc);
    let mut first = input_count(flat) as u64;
    for i in 0..flat.equations.len() {
        let holds = first as u32 + body_count(&flat.equations[i], widths[i], widths);
        push(&mut units, holds)?;
        first += unit_count(flat, widths, i, flags[i], hold_counts[i]);
        if first > Cap::MOST_UNITS as u64 {
            return Err(CutFault::Limit(Cap::Units));
        }
    }
    Ok(units)
}

/// The plan of equations with these widths, on a fabric of so many columns.
///
/// # Errors
///
/// `Limit` with the first limit that their net passes: bytes of inputs, outputs, units. The limits of bytes and outputs
/// are told before any memory is asked for. `Memory` where memory is wanting.
pub fn plan_of(
    alloc: Global,
    flat: &Flat,
    widths: &Widths,
    columns: usize,
) -> Result<CutPlan, CutFault>
    requires { AreWidths (equations_of flat.now) widths.now }
    ensures plan { IfOk result (λ plan. IsPlanOf plan (equations_of flat.now) widths.now flat.now.outputs.items) }
    ensures none { IfOk result (λ plan. HaveNoHolds (equations_of flat.now) plan.hold_counts.items) }
    ensures within { OnOk result (limit_passed columns (flat_net flat.now widths.now) ≡ None) }
    ensures units { OnOk result (length (cut_whole (flat_plan flat.now widths.now)).units ≤ 32768) }
    ensures limit { (cap : Cap) → result ≡ Err (CutFault.Limit cap) →
        limit_passed columns (flat_net flat.now widths.now) ≡ Some cap }
    ensures passed { (cap : Cap) → limit_passed columns (flat_net flat.now widths.now) ≡ Some cap → cap ≢ Cap.Units →
        result ≡ Err (CutFault.Limit cap) }
{
    if input_bytes(flat) > columns {
        return Err(CutFault::Limit(Cap::InputBytes));
    }
    if flat.outputs.len() > Cap::MOST_OUTPUTS {
        return Err(CutFault::Limit(Cap::Outputs));
    }
    let reached = reached(alloc, flat)?;
    let hold_counts = hold_counts(alloc, flat)?;
    let hold_units = hold_units(alloc, flat, &widths.of, &reached, &hold_counts)?;
    Ok(CutPlan {
        reached,
        hold_units,
        hold_counts,
    })
}
