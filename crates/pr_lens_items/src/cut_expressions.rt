//! Expressions that are cut off. What is kept waits in boxes for what is read after it.

ghost use Rattle.std.specs.Prelude.{◌≡◌, ◌-◌, map, IfOk, OnOk};
ghost use Rattle.pr_lang.specs.Is.{name_tree, number_tree, sign_tree};
ghost use Rattle.pr_lang.specs.Tree as tree;
ghost use Rattle.pr_lang.specs.Shape.{fixed_shape, index_shape, ref_shape, expr_shape, sign_of};
ghost use Rattle.pr_lens_items.specs.Cuts.{points, cut_off, fixed_part, index_points, expr_part, all_points, parts_left};
ghost use Rattle.pr_lens_items.specs.Cuts.{low_bit, both, all_of, holding, index_alone, refer, delayed, delay, bounded, ranged, operation, chosen, not_of, called, joined, assigned};

use crate::cut_fixed::{fixed, target, times_zero};
use crate::cuts::Left;
use pr_lang::{BinOp, Expr, Fixed, Name, Ref};
use std::alloc::{AllocError, Global};

fn number(alloc: Global, value: u64) -> Result<Box<Expr>, AllocError>
    ensures { IfOk result (λ made. expr_shape made.value ≡ number_tree value) }
{
    Ok(Box::new(alloc, Expr::Number(value))?)
}

/// What is left where nothing is reached.
pub fn nothing(alloc: Global) -> Result<Box<Expr>, AllocError>
    ensures { IfOk result (λ made. expr_shape made.value ≡ number_tree 0) }
{
    number(alloc, 0)
}

/// The lowest bit of an expression.
fn low_bit(alloc: Global, value: Box<Expr>) -> Result<Box<Expr>, AllocError>
    ensures { IfOk result (λ made. expr_shape made.value ≡ low_bit (expr_shape value.value)) }
{
    let bit = Expr::Slice(value, Fixed::Number(0), Fixed::Number(0));
    Ok(Box::new(alloc, bit)?)
}

fn binary(
    alloc: Global,
    op: BinOp,
    one: Box<Expr>,
    other: Box<Expr>,
) -> Result<Box<Expr>, AllocError>
    ensures { IfOk result (λ made. expr_shape made.value
        ≡ tree.binary (sign_tree (sign_of op)) (expr_shape one.value) (expr_shape other.value)) }
{
    Ok(Box::new(alloc, Expr::Binary(op, one, other))?)
}

/// An expression in which both of these are walked, one after the other, and that has a width where they have.
fn both(alloc: Global, one: Box<Expr>, other: Box<Expr>) -> Result<Box<Expr>, AllocError>
    ensures { IfOk result (λ made. expr_shape made.value ≡ both (expr_shape one.value) (expr_shape other.value)) }
{
    binary(alloc, BinOp::Equal, one, other)
}

/// The same of all of these.
fn all_of(alloc: Global, mut parts: Vec<Expr>) -> Result<Box<Expr>, AllocError>
    ensures { IfOk result (λ made. expr_shape made.value ≡ all_of (map expr_shape parts.items)) }
{
    let mut all = nothing(alloc)?;
    while let Some(part) = parts.pop() {
        let part = Box::new(alloc, part)?;
        all = both(alloc, part, all)?;
    }
    Ok(all)
}

/// An expression in which a constant expression is walked, and nothing else: bit 0 of 0, so that it has a width
/// whatever the number is.
fn holding(alloc: Global, value: Box<Fixed>) -> Result<Box<Expr>, AllocError>
    ensures { IfOk result (λ made. expr_shape made.value ≡ holding (fixed_shape value.value)) }
{
    let zero = nothing(alloc)?;
    let high = times_zero(alloc, value)?;
    let bit = Expr::Slice(zero, Box::into_inner(high), Fixed::Number(0));
    Ok(Box::new(alloc, bit)?)
}

/// An expression in which the index of a target is walked, and nothing else.
fn index_alone(alloc: Global, target: Ref) -> Result<Box<Expr>, AllocError>
    ensures { IfOk result (λ made. expr_shape made.value ≡ index_alone (index_shape target.index)) }
{
    let Ref { name: _name, index } = target;
    match index {
        None => nothing(alloc),
        Some(index) => {
            let index = Box::new(alloc, index)?;
            holding(alloc, index)
        }
    }
}

fn refer(alloc: Global, left: &mut Left, name: &Ref) -> Result<Box<Expr>, AllocError>
    ensures tree { IfOk result (λ kept. expr_shape kept.value ≡ refer name.now left.old.from) }
    ensures from { OnOk result (left.new.from ≡ left.old.from - index_points name.now.index - 1) }
{
    let name = target(alloc, left, name)?;
    if left.misses() {
        return index_alone(alloc, name);
    }
    Ok(Box::new(alloc, Expr::Refer(name))?)
}

/// A stream so many samples earlier.
fn earlier(alloc: Global, name: Box<Ref>, back: Box<Fixed>) -> Result<Box<Expr>, AllocError>
    ensures { IfOk result (λ made. expr_shape made.value
        ≡ tree.delay (ref_shape name.value) (fixed_shape back.value)) }
{
    let delay = Expr::Delay(Box::into_inner(name), Box::into_inner(back));
    Ok(Box::new(alloc, delay)?)
}

/// A stream one sample earlier.
fn one_earlier(alloc: Global, name: Box<Ref>) -> Result<Box<Expr>, AllocError>
    ensures { IfOk result (λ made. expr_shape made.value ≡ tree.delay (ref_shape name.value) (number_tree 1)) }
{
    let delay = Expr::Delay(Box::into_inner(name), Fixed::Number(1));
    Ok(Box::new(alloc, delay)?)
}

/// A delay whose name is reached.
fn go_back(
    alloc: Global,
    left: &mut Left,
    name: Box<Ref>,
    back: &Fixed,
) -> Result<Box<Expr>, AllocError>
    ensures tree { IfOk result (λ kept. expr_shape kept.value
        ≡ delayed (ref_shape name.value) (fixed_part back.now) left.old.from) }
    ensures from { OnOk result (left.new.from ≡ left.old.from - points (fixed_part back.now) - 1) }
{
    if left.is_out() {
        return one_earlier(alloc, name);
    }
    let back = fixed(alloc, left, back)?;
    if left.misses() {
        let next = one_earlier(alloc, name)?;
        let back = holding(alloc, back)?;
        return both(alloc, next, back);
    }
    earlier(alloc, name, back)
}

fn delay(alloc: Global, left: &mut Left, name: &Ref, back: &Fixed) -> Result<Box<Expr>, AllocError>
    ensures tree { IfOk result (λ kept. expr_shape kept.value ≡ delay name.now (fixed_part back.now) left.old.from) }
    ensures from { OnOk result
        (left.new.from ≡ left.old.from - index_points name.now.index - 1 - points (fixed_part back.now) - 1) }
{
    let name = target(alloc, left, name)?;
    if left.misses() {
        return index_alone(alloc, name);
    }
    let name = Box::new(alloc, name)?;
    go_back(alloc, left, name, back)
}

/// A slice whose operand and bounds are reached.
fn sliced(
    alloc: Global,
    left: &mut Left,
    inner: Box<Expr>,
    high: Box<Fixed>,
    low: Box<Fixed>,
) -> Result<Box<Expr>, AllocError>
    ensures tree { IfOk result (λ kept. expr_shape kept.value
        ≡ ranged (expr_shape inner.value) (fixed_shape high.value) (fixed_shape low.value) left.old.from) }
    ensures from { OnOk result (left.new.from ≡ left.old.from - 1) }
{
    if left.misses() {
        let high = holding(alloc, high)?;
        let low = holding(alloc, low)?;
        let bounds = both(alloc, high, low)?;
        return both(alloc, inner, bounds);
    }
    let slice = Expr::Slice(inner, Box::into_inner(high), Box::into_inner(low));
    Ok(Box::new(alloc, slice)?)
}

/// A slice whose operand is reached.
fn slice(
    alloc: Global,
    left: &mut Left,
    inner: Box<Expr>,
    high: &Fixed,
    low: &Fixed,
) -> Result<Box<Expr>, AllocError>
    ensures tree { IfOk result (λ kept. expr_shape kept.value
        ≡ bounded (expr_shape inner.value) (fixed_part high.now) (fixed_part low.now) left.old.from) }
    ensures from { OnOk result (left.new.from
        ≡ left.old.from - points (fixed_part high.now) - points (fixed_part low.now) - 1) }
{
    if left.is_out() {
        return Ok(inner);
    }
    let high = fixed(alloc, left, high)?;
    if left.is_out() {
        let high = holding(alloc, high)?;
        return both(alloc, inner, high);
    }
    let low = fixed(alloc, left, low)?;
    sliced(alloc, left, inner, high, low)
}

/// An operator whose operands are reached.
fn operation(
    alloc: Global,
    left: &mut Left,
    op: BinOp,
    one: Box<Expr>,
    other: Box<Expr>,
) -> Result<Box<Expr>, AllocError>
    ensures tree { IfOk result (λ kept. expr_shape kept.value
        ≡ operation op (expr_shape one.value) (expr_shape other.value) left.old.from) }
    ensures from { OnOk result (left.new.from ≡ left.old.from - 1) }
{
    if left.misses() {
        return both(alloc, one, other);
    }
    binary(alloc, op, one, other)
}

/// A choice whose parts are reached.
fn choose(
    alloc: Global,
    left: &mut Left,
    condition: Box<Expr>,
    one: Box<Expr>,
    other: Box<Expr>,
) -> Result<Box<Expr>, AllocError>
    ensures tree { IfOk result (λ kept. expr_shape kept.value
        ≡ chosen (expr_shape condition.value) (expr_shape one.value) (expr_shape other.value) left.old.from) }
    ensures from { OnOk result (left.new.from ≡ left.old.from - 1) }
{
    if left.misses() {
        let branches = both(alloc, one, other)?;
        return both(alloc, condition, branches);
    }
    Ok(Box::new(alloc, Expr::Choose(condition, one, other))?)
}

/// A complement whose operand is reached.
fn complement(alloc: Global, left: &mut Left, inner: Box<Expr>) -> Result<Box<Expr>, AllocError>
    ensures tree { IfOk result (λ kept. expr_shape kept.value ≡ not_of (expr_shape inner.value) left.old.from) }
    ensures from { OnOk result (left.new.from ≡ left.old.from - 1) }
{
    if left.misses() {
        return Ok(inner);
    }
    Ok(Box::new(alloc, Expr::Not(inner))?)
}

/// A call whose arguments are reached.
fn called(
    alloc: Global,
    left: &mut Left,
    name: &Name,
    parts: Vec<Expr>,
) -> Result<Box<Expr>, AllocError>
    ensures tree { IfOk result (λ kept. expr_shape kept.value
        ≡ called name.now (map expr_shape parts.items) left.old.from) }
    ensures from { OnOk result (left.new.from ≡ left.old.from - 1) }
{
    if left.misses() {
        return all_of(alloc, parts);
    }
    let name = name.copy(alloc)?;
    Ok(Box::new(alloc, Expr::Call(name, parts))?)
}

/// Parts beside one another that are reached.
fn joined(alloc: Global, left: &mut Left, parts: Vec<Expr>) -> Result<Box<Expr>, AllocError>
    ensures tree { IfOk result (λ kept. expr_shape kept.value ≡ joined (map expr_shape parts.items) left.old.from) }
    ensures from { OnOk result (left.new.from ≡ left.old.from - 1) }
{
    if left.misses() {
        return all_of(alloc, parts);
    }
    Ok(Box::new(alloc, Expr::Cat(parts))?)
}

/// What is left of an expression. Of a whole that is not reached, its parts that are.
#[cycle(expr)]
pub fn expr(alloc: Global, left: &mut Left, value: &Expr) -> Result<Box<Expr>, AllocError>
    ensures tree { IfOk result (λ kept. expr_shape kept.value ≡ cut_off (expr_part value.now) left.old.from) }
    ensures from { OnOk result (left.new.from ≡ left.old.from - points (expr_part value.now)) }
{
    if left.is_out() {
        return nothing(alloc);
    }
    match value {
        Expr::Number(value) => {
            left.misses();
            number(alloc, *value)
        }
        Expr::Refer(name) => refer(alloc, left, name),
        Expr::Delay(name, back) => delay(alloc, left, name, back),
        Expr::Slice(inner, high, low) => {
            let inner = expr(alloc, left, inner)?;
            slice(alloc, left, inner, high, low)
        }
        Expr::Not(inner) => {
            let inner = expr(alloc, left, inner)?;
            complement(alloc, left, inner)
        }
        Expr::Binary(op, one, other) => {
            let one = expr(alloc, left, one)?;
            if left.is_out() {
                return Ok(one);
            }
            let other = expr(alloc, left, other)?;
            operation(alloc, left, *op, one, other)
        }
        Expr::Choose(condition, one, other) => {
            let condition = expr(alloc, left, condition)?;
            if left.is_out() {
                return Ok(condition);
            }
            let one = expr(alloc, left, one)?;
            let other = expr(alloc, left, other)?;
            choose(alloc, left, condition, one, other)
        }
        Expr::Call(name, parts) => {
            let parts = exprs(alloc, left, parts)?;
            called(alloc, left, name, parts)
        }
        Expr::Cat(parts) => {
            let parts = exprs(alloc, left, parts)?;
            joined(alloc, left, parts)
        }
        Expr::Paren(inner) => {
            let inner = expr(alloc, left, inner)?;
            Ok(Box::new(alloc, Expr::Paren(inner))?)
        }
    }
}

/// The parts that are reached, the last of them perhaps in part.
#[cycle(expr)]
fn exprs(alloc: Global, left: &mut Left, parts: &[Expr]) -> Result<Vec<Expr>, AllocError>
    ensures tree { IfOk result (λ kept. map expr_shape kept.items
        ≡ parts_left (map expr_part parts.now) left.old.from) }
    ensures from { OnOk result (left.new.from ≡ left.old.from - all_points (map expr_part parts.now)) }
{
    let mut kept = Vec::new(alloc);
    for part in parts {
        if left.is_out() {
            return Ok(kept);
        }
        let part = expr(alloc, left, part)?;
        kept.push(Box::into_inner(part))?;
    }
    Ok(kept)
}

/// What is left of the expression that a statement or an item assigns. Of one that is not kept whole it is the lowest
/// bit, so that a declared width is not that of an operator inside.
pub fn assigned(alloc: Global, left: &mut Left, value: &Expr) -> Result<Box<Expr>, AllocError>
    ensures tree { IfOk result (λ kept. expr_shape kept.value ≡ assigned (expr_part value.now) left.old.from) }
    ensures from { OnOk result (left.new.from ≡ left.old.from - points (expr_part value.now)) }
{
    if left.is_out() {
        return nothing(alloc);
    }
    let kept = expr(alloc, left, value)?;
    if left.has_missed() {
        return low_bit(alloc, kept);
    }
    Ok(kept)
}
