//! The classes of groups.

ghost use Rattle.std.specs.Prelude.{◌≡◌, ◌≢◌, ◌<◌, ◌≤◌, ℕ, [], ◌++◌, ◌^◌, IfOk, OnOk, IfNone, IfSome, All, length, map, replicate, vec_len, slice_index, slice_index_or};
ghost use Rattle.pr_place.specs.Plans.{groups_of, needs_at};
ghost use Rattle.pr_place.specs.Tables.{kinds_of};

use crate::candidates::OTHERS;
use crate::plans::Plans;
use std::alloc::{AllocError, Global};

/// The class of groups with these needs, if there is one.
fn known_class(classes: &[Vec<bool>], needs: &[bool]) -> Option<usize>
    ensures some { IfSome result (λ class. (class < length classes.now)
        × (slice_index_or (kinds_of classes.now) class [] ≡ needs.now)) }
    ensures none { IfNone result ((k : ℕ) → k < length classes.now →
        slice_index_or (kinds_of classes.now) k [] ≢ needs.now) }
{
    for class in 0..classes.len() {
        if classes[class].as_slice() == needs {
            return Some(class);
        }
    }
    None
}

/// The class of groups with these needs, made if it is not there and there is room.
fn class_of(alloc: Global, classes: &mut Vec<Vec<bool>>, needs: &[bool]) -> Result<u8, AllocError>
    requires few { vec_len classes.old ≤ 63 }
    ensures few { OnOk result (vec_len classes.new ≤ 63) }
    ensures small { IfOk result (λ class. class < 64) }
    ensures kind { IfOk result (λ class. class ≢ 63 → (class < length classes.new.items)
        × (slice_index_or (kinds_of classes.new.items) class [] ≡ needs.now)) }
    ensures more { OnOk result ((k : ℕ) → k < length classes.old.items → (k < length classes.new.items)
        × (slice_index_or (kinds_of classes.new.items) k [] ≡ slice_index_or (kinds_of classes.old.items) k [])) }
{
    if let Some(class) = known_class(classes, needs) {
        return Ok(class as u8);
    }
    if classes.len() == usize::from(OTHERS) {
        return Ok(OTHERS);
    }
    let class = classes.len() as u8;
    classes.push(Vec::from_slice(alloc, needs)?)?;
    Ok(class)
}

/// The class of each group: groups of one class but the last have the same needs.
pub fn classes(alloc: Global, plans: &Plans) -> Result<Vec<u8>, AllocError>
    ensures long { IfOk result (λ class. length class.items ≡ groups_of plans.now) }
    ensures small { IfOk result (λ class. (g : ℕ) → slice_index class.items g < 64) }
    ensures alike { IfOk result (λ class. (g h : ℕ) → g < groups_of plans.now → h < groups_of plans.now
        → slice_index class.items g ≡ slice_index class.items h → slice_index class.items g ≢ 63
        → needs_at plans.now g ≡ needs_at plans.now h) }
{
    let mut kinds = Vec::new(alloc);
    let mut class = Vec::with_capacity(alloc, plans.cells.len())?;
    for group in 0..plans.cells.len() {
        let plan = plans.plan(group);
        class.push(class_of(alloc, &mut kinds, plan.needs)?)?;
    }
    Ok(class)
}
