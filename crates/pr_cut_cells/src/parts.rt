//! Units, and the slices of their cells.

ghost use Rattle.std.specs.Prelude.{◌≡◌, ◌≤◌, ◌<◌, ◌^◌, ◌++◌, [], ◌∷◌, length, vec_len, map, OnOk, OnErr, IfOk};
ghost use Rattle.pr_net.specs.declared.cells.Slice.{Slice};
ghost use Rattle.pr_cut_units.specs.Parts.{each};

use pr_net::{Cell, Slice, Unit};
use std::alloc::{AllocError, Global};

/// The slices of a unit of so many cells.
#[tactic(auto, using(pr_cut_units::proofs::EachLemmas::each_more))]
pub fn slices_of_unit(alloc: Global, unit: u32, count: usize) -> Result<Vec<Slice>, AllocError>
    requires { count ≤ 255 }
    ensures { IfOk result (λ s. s.items ≡ each count (λ i. Slice.Of unit i)) }
{
    let mut slices = Vec::with_capacity(alloc, count)?;
    for i in 0..count {
        slices.push(Slice::Of(unit, i as u8))?;
    }
    Ok(slices)
}

/// One more unit, and the slices of its cells.
pub fn push_unit(
    alloc: Global,
    units: &mut Vec<Unit>,
    cells: Vec<Cell>,
) -> Result<Vec<Slice>, AllocError>
    requires fits { length units.old.items < 2 ^ 32 }
    requires few { vec_len cells ≤ 255 }
    ensures units { OnOk result (units.new.items ≡ units.old.items ++ cells.items ∷ []) }
    ensures slices { IfOk result (λ s. s.items ≡ each (vec_len cells) (λ i. Slice.Of (length units.old.items) i)) }
    ensures err { OnErr result (units.new.items ≡ units.old.items) }
{
    let slices = slices_of_unit(alloc, units.len() as u32, cells.len())?;
    units.push(Unit { cells })?;
    Ok(slices)
}

/// The same slices.
pub fn same(alloc: Global, x: &[Slice]) -> Result<Vec<Slice>, AllocError>
    ensures { IfOk result (λ s. s.items ≡ x.now) }
{
    let mut all = Vec::new(alloc);
    all.extend_from_slice(x)?;
    Ok(all)
}

/// These slices, and others above them.
pub fn joined(alloc: Global, low: &[Slice], high: &[Slice]) -> Result<Vec<Slice>, AllocError>
    ensures { IfOk result (λ s. s.items ≡ low.now ++ high.now) }
{
    let mut all = Vec::new(alloc);
    all.extend_from_slice(low)?;
    all.extend_from_slice(high)?;
    Ok(all)
}
