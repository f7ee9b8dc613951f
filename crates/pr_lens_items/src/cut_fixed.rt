//! Constant expressions that are cut off, and what names them. What is kept waits in boxes for what is read after it.

ghost use Rattle.std.specs.Prelude.{◌≡◌, ◌-◌, IfOk, OnOk};
ghost use Rattle.pr_lang.specs.Is.{name_tree, number_tree, sign_tree};
ghost use Rattle.pr_lang.specs.Tree as tree;
ghost use Rattle.pr_lang.specs.Shape.{fixed_shape, index_shape, fixed_sign_of};
ghost use Rattle.pr_lens_items.specs.Cuts.{points, cut_off, times_zero, fixed_both, entry, fixed_operation, fixed_part, index_points, index_left};

use crate::cuts::Left;
use pr_lang::{Fixed, FixedOp, Name, Ref};
use std::alloc::{AllocError, Global};

fn number(alloc: Global, number: u64) -> Result<Box<Fixed>, AllocError>
    ensures { IfOk result (λ made. fixed_shape made.value ≡ number_tree number) }
{
    Ok(Box::new(alloc, Fixed::Number(number))?)
}

fn binary(
    alloc: Global,
    op: FixedOp,
    one: Box<Fixed>,
    other: Box<Fixed>,
) -> Result<Box<Fixed>, AllocError>
    ensures { IfOk result (λ made. fixed_shape made.value
        ≡ tree.binary (sign_tree (fixed_sign_of op)) (fixed_shape one.value) (fixed_shape other.value)) }
{
    Ok(Box::new(alloc, Fixed::Binary(op, one, other))?)
}

/// A constant expression in which this one is walked, and that is 0.
pub fn times_zero(alloc: Global, value: Box<Fixed>) -> Result<Box<Fixed>, AllocError>
    ensures { IfOk result (λ made. fixed_shape made.value ≡ times_zero (fixed_shape value.value)) }
{
    let zero = number(alloc, 0)?;
    binary(alloc, FixedOp::Mul, value, zero)
}

/// A constant expression in which both of these are walked, and that is the second.
fn both(alloc: Global, one: Box<Fixed>, other: Box<Fixed>) -> Result<Box<Fixed>, AllocError>
    ensures { IfOk result (λ made. fixed_shape made.value
        ≡ fixed_both (fixed_shape one.value) (fixed_shape other.value)) }
{
    let zero = times_zero(alloc, one)?;
    binary(alloc, FixedOp::Add, zero, other)
}

/// A name without an index.
fn name_alone(alloc: Global, name: &Name) -> Result<Box<Fixed>, AllocError>
    ensures { IfOk result (λ made. fixed_shape made.value ≡ tree.refer (name_tree name.now) tree.no_index) }
{
    let name = name.copy(alloc)?;
    Ok(Box::new(alloc, Fixed::Refer(name, None))?)
}

/// A name with an index.
fn named(alloc: Global, name: &Name, index: Box<Fixed>) -> Result<Box<Fixed>, AllocError>
    ensures { IfOk result (λ made. fixed_shape made.value
        ≡ tree.refer (name_tree name.now) (tree.index (fixed_shape index.value))) }
{
    let name = name.copy(alloc)?;
    Ok(Box::new(alloc, Fixed::Refer(name, Some(index)))?)
}

/// A name whose index is reached.
fn entry(
    alloc: Global,
    left: &mut Left,
    name: &Name,
    index: Box<Fixed>,
) -> Result<Box<Fixed>, AllocError>
    ensures tree { IfOk result (λ kept. fixed_shape kept.value
        ≡ entry name.now (fixed_shape index.value) left.old.from) }
    ensures from { OnOk result (left.new.from ≡ left.old.from - 1) }
{
    if left.misses() {
        return Ok(index);
    }
    named(alloc, name, index)
}

/// An operator whose operands are reached.
fn operation(
    alloc: Global,
    left: &mut Left,
    op: FixedOp,
    one: Box<Fixed>,
    other: Box<Fixed>,
) -> Result<Box<Fixed>, AllocError>
    ensures tree { IfOk result (λ kept. fixed_shape kept.value
        ≡ fixed_operation op (fixed_shape one.value) (fixed_shape other.value) left.old.from) }
    ensures from { OnOk result (left.new.from ≡ left.old.from - 1) }
{
    if left.misses() {
        return both(alloc, one, other);
    }
    binary(alloc, op, one, other)
}

/// What is left of a constant expression.
pub fn fixed(alloc: Global, left: &mut Left, value: &Fixed) -> Result<Box<Fixed>, AllocError>
    ensures tree { IfOk result (λ kept. fixed_shape kept.value ≡ cut_off (fixed_part value.now) left.old.from) }
    ensures from { OnOk result (left.new.from ≡ left.old.from - points (fixed_part value.now)) }
{
    if left.is_out() {
        return number(alloc, 0);
    }
    match value {
        Fixed::Number(value) => {
            left.misses();
            number(alloc, *value)
        }
        Fixed::Refer(name, index) => match index {
            None => {
                left.misses();
                name_alone(alloc, name)
            }
            Some(index) => {
                let index = fixed(alloc, left, index)?;
                entry(alloc, left, name, index)
            }
        },
        Fixed::Binary(op, a, b) => {
            let one = fixed(alloc, left, a)?;
            if left.is_out() {
                return Ok(one);
            }
            let other = fixed(alloc, left, b)?;
            operation(alloc, left, *op, one, other)
        }
        Fixed::Paren(inner) => {
            let inner = fixed(alloc, left, inner)?;
            Ok(Box::new(alloc, Fixed::Paren(inner))?)
        }
    }
}

/// A target with what is left of its index.
pub fn target(alloc: Global, left: &mut Left, target: &Ref) -> Result<Ref, AllocError>
    ensures name { IfOk result (λ kept. kept.name ≡ target.now.name) }
    ensures index { IfOk result (λ kept. index_shape kept.index ≡ index_left target.now.index left.old.from) }
    ensures from { OnOk result (left.new.from ≡ left.old.from - index_points target.now.index) }
{
    let name = target.name.copy(alloc)?;
    match &target.index {
        None => Ok(Ref { name, index: None }),
        Some(index) => {
            let index = fixed(alloc, left, index)?;
            Ok(Ref {
                name,
                index: Some(Box::into_inner(index)),
            })
        }
    }
}
