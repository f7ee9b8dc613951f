//! Items that are cut off.

ghost use Rattle.std.specs.Prelude.{◌≡◌, ◌+◌, ◌<◌, map, IfOk};
ghost use Rattle.pr_lang.specs.Is.{name_tree, number_tree};
ghost use Rattle.pr_lang.specs.Tree as tree;
ghost use Rattle.pr_lang.specs.Shape.{fixed_shape, expr_shape, stmt_shape, item_shape, width_tree, comma_listed};
ghost use Rattle.pr_lens_items.specs.Cuts.{cut_off, fixed_part, expr_part, assigned, fixeds_from, statement, stmts_left, entries_left, result_left, item_left};

use crate::cut_expressions::{assigned, nothing};
use crate::cut_fixed::fixed;
use crate::cut_statements::{stmt, stmts};
use crate::cuts::{Cut, Left, Rest};
use pr_lang::{Expr, Fixed, Item, Name, Param, Stmt};
use std::alloc::{AllocError, Global};

/// What is left of each entry of a table.
fn entries(alloc: Global, mut left: Left, values: &[Fixed]) -> Result<Vec<Fixed>, AllocError>
    ensures { IfOk result (λ kept. map fixed_shape kept.items
        ≡ entries_left (map fixed_part values.now) left.from) }
{
    let mut kept = Vec::new(alloc);
    for value in values {
        let value = fixed(alloc, &mut left, value)?;
        kept.push(Box::into_inner(value))?;
    }
    Ok(kept)
}

fn params(alloc: Global, all: &[Param]) -> Result<Vec<Param>, AllocError>
    ensures { IfOk result (λ copies. copies.items ≡ all.now) }
{
    let mut copies = Vec::new(alloc);
    for param in all {
        let copy = Param {
            name: param.name.copy(alloc)?,
            width: param.width,
        };
        copies.push(copy)?;
    }
    Ok(copies)
}

/// What is left of the result of a function behind its statements.
fn returned(alloc: Global, rest: &mut Rest, value: &Expr) -> Result<Box<Expr>, AllocError>
    ensures missed { rest.old.frames.from ≡ 0 →
        IfOk result (λ kept. expr_shape kept.value ≡ number_tree 0) }
    ensures kept { 0 < rest.old.frames.from →
        IfOk result (λ kept. expr_shape kept.value ≡ assigned (expr_part value.now) rest.old.values.from) }
{
    if rest.frames.has_missed() {
        return nothing(alloc);
    }
    assigned(alloc, &mut rest.values, value)
}

/// What is left of the body of a function and of its result.
fn body(
    alloc: Global,
    rest: &mut Rest,
    steps: &[Stmt],
    value: &Expr,
) -> Result<(Vec<Stmt>, Box<Expr>), AllocError>
    ensures steps { IfOk result (λ kept. map stmt_shape kept.0.items
        ≡ stmts_left (map statement steps.now) rest.old.values.from rest.old.frames.from rest.old.last) }
    ensures value { IfOk result (λ kept. expr_shape kept.1.value
        ≡ result_left (map statement steps.now) (expr_part value.now) rest.old.values.from rest.old.frames.from) }
{
    let steps = stmts(alloc, rest, steps)?;
    let value = returned(alloc, rest, value)?;
    Ok((steps, value))
}

fn output(
    alloc: Global,
    cut: Cut,
    name: &Name,
    width: Option<u64>,
    value: &Expr,
) -> Result<Item, AllocError>
    ensures { IfOk result (λ kept. item_shape kept
        ≡ tree.output (name_tree name.now) (width_tree width) (assigned (expr_part value.now) (cut.values + 1))) }
{
    let name = name.copy(alloc)?;
    let mut values = Left::of(cut.values);
    let value = assigned(alloc, &mut values, value)?;
    Ok(Item::Output {
        name,
        width,
        value: Box::into_inner(value),
    })
}

fn constant(alloc: Global, cut: Cut, name: &Name, value: &Fixed) -> Result<Item, AllocError>
    ensures { IfOk result (λ kept. item_shape kept
        ≡ tree.const (name_tree name.now) (cut_off (fixed_part value.now) (fixeds_from cut.frames cut.fixeds))) }
{
    let name = name.copy(alloc)?;
    let mut left = Rest::of(cut).fixeds();
    let value = fixed(alloc, &mut left, value)?;
    Ok(Item::Const {
        name,
        value: Box::into_inner(value),
    })
}

fn table(alloc: Global, cut: Cut, name: &Name, values: &[Fixed]) -> Result<Item, AllocError>
    ensures { IfOk result (λ kept. item_shape kept ≡ tree.const (name_tree name.now)
        (tree.table (comma_listed (entries_left (map fixed_part values.now) (fixeds_from cut.frames cut.fixeds))))) }
{
    let name = name.copy(alloc)?;
    let values = entries(alloc, Rest::of(cut).fixeds(), values)?;
    Ok(Item::Table { name, values })
}

/// What is left of an item. Its own frame always is.
pub fn cut_item(alloc: Global, cut: Cut, item: &Item) -> Result<Item, AllocError>
    ensures { IfOk result (λ kept. item_shape kept ≡ item_left cut item.now) }
{
    match item {
        Item::Input { name, width } => Ok(Item::Input {
            name: name.copy(alloc)?,
            width: *width,
        }),
        Item::Output { name, width, value } => output(alloc, cut, name, *width, value),
        Item::Const { name, value } => constant(alloc, cut, name, value),
        Item::Table { name, values } => table(alloc, cut, name, values),
        Item::Function {
            name,
            params: all,
            width,
            body: steps,
            result: value,
        } => {
            let name = name.copy(alloc)?;
            let params = params(alloc, all)?;
            let mut rest = Rest::of(cut);
            let (steps, value) = body(alloc, &mut rest, steps, value)?;
            Ok(Item::Function {
                name,
                params,
                width: *width,
                body: steps,
                result: Box::into_inner(value),
            })
        }
        Item::Step(step) => {
            let mut rest = Rest::of(cut);
            let step = stmt(alloc, &mut rest, step)?;
            Ok(Item::Step(step))
        }
    }
}
