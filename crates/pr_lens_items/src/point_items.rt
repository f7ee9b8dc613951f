//! The points of items.

ghost use Rattle.std.specs.Prelude.{◌≡◌, [], IfOk, OnOk, map};
ghost use Rattle.pr_lens_items.specs.Walks.{fixed_walk, expr_walk, parts_points};
ghost use Rattle.pr_lens_items.specs.Steps.{ListsPiece, ListsParams, ListsHead, input_piece, output_piece, const_piece, table_piece, body_piece, item_piece, params_closed, stmt_steps, entries_of};

use crate::point_expressions::{expr, fixed, later};
use crate::point_statements::{frame, stmt, stmts, width};
use crate::points::{Frame, Points};
use pr_lang::{Expr, Fixed, Item, Param, Stmt};
use std::alloc::{AllocError, Global};

#[tactic(auto, using(crate::proofs::StepLaws::pushed))]
fn input(alloc: Global, points: &mut Points, at: u32) -> Result<(), AllocError>
    ensures { OnOk result (ListsPiece input_piece at points.old points.new) }
{
    let mut own = frame(alloc, later(at, 1))?;
    own.widths.push(later(at, 3))?;
    points.frames.push(own)?;
    Ok(())
}

#[tactic(auto, using(crate::proofs::StepLaws::pushed))]
fn output(
    alloc: Global,
    points: &mut Points,
    at: u32,
    bits: Option<u64>,
    value: &Expr,
) -> Result<(), AllocError>
    ensures { OnOk result (ListsPiece (output_piece bits (expr_walk value.now)) at points.old points.new) }
{
    let mut own = frame(alloc, later(at, 1))?;
    let sign = width(&mut own, later(at, 2), bits)?;
    points.frames.push(own)?;
    expr(&mut points.values, later(sign, 1), value)?;
    Ok(())
}

#[tactic(auto, using(crate::proofs::StepLaws::pushed))]
fn constant(alloc: Global, points: &mut Points, at: u32, value: &Fixed) -> Result<(), AllocError>
    ensures { OnOk result (ListsPiece (const_piece (fixed_walk value.now)) at points.old points.new) }
{
    let mut own = frame(alloc, later(at, 1))?;
    fixed(&mut own.fixeds, later(at, 3), value)?;
    points.frames.push(own)?;
    Ok(())
}

/// Lists the points of entries, each behind a bracket or a comma, of which the first is this token.
fn entries(points: &mut Vec<u32>, at: u32, values: &[Fixed]) -> Result<(), AllocError>
    ensures { OnOk result (points.new.items ≡ parts_points (map fixed_walk values.now) at points.old.items) }
{
    let mut end = at;
    for value in values {
        end = fixed(points, later(end, 1), value)?;
    }
    Ok(())
}

#[tactic(auto, using(crate::proofs::StepLaws::pushed))]
fn table(alloc: Global, points: &mut Points, at: u32, values: &[Fixed]) -> Result<(), AllocError>
    ensures { OnOk result (ListsPiece (table_piece (map fixed_walk values.now)) at points.old points.new) }
{
    let mut own = frame(alloc, later(at, 1))?;
    entries(&mut own.fixeds, later(at, 3), values)?;
    points.frames.push(own)?;
    Ok(())
}

/// Lists the names and widths of parameters, each behind a bracket or a comma, of which the first is this token; the
/// token behind them.
fn parameters(own: &mut Frame, at: u32, params: &[Param]) -> Result<u32, AllocError>
    ensures { IfOk result (λ end. ListsParams params.now at own.old own.new end) }
{
    let mut end = at;
    for param in params {
        own.names.push(later(end, 1))?;
        end = width(own, later(end, 2), param.width)?;
    }
    Ok(end)
}

/// The closing bracket of parameters that end here.
fn closed(params: &[Param], end: u32) -> u32
    ensures { result ≡ params_closed params.now end }
{
    if params.is_empty() {
        later(end, 1)
    } else {
        end
    }
}

/// Lists the frame of a function that begins at this token; the first token of its body.
#[tactic(auto, using(crate::proofs::StepLaws::pushed))]
fn head(
    alloc: Global,
    points: &mut Points,
    at: u32,
    params: &[Param],
    bits: Option<u64>,
) -> Result<u32, AllocError>
    ensures { IfOk result (λ begin. ListsHead params.now bits at points.old points.new begin) }
{
    let mut own = frame(alloc, later(at, 1))?;
    let last = parameters(&mut own, later(at, 2), params)?;
    let bracket = closed(params, last);
    let curly = width(&mut own, later(bracket, 1), bits)?;
    points.frames.push(own)?;
    Ok(later(curly, 1))
}

fn body(
    alloc: Global,
    points: &mut Points,
    at: u32,
    steps: &[Stmt],
    value: &Expr,
) -> Result<(), AllocError>
    ensures { OnOk result (ListsPiece (body_piece (map stmt_steps steps.now) (expr_walk value.now)) at
        points.old points.new) }
{
    let back = stmts(alloc, points, at, steps)?;
    expr(&mut points.values, later(back, 1), value)?;
    Ok(())
}

/// Lists the points of an item whose first token is this one.
fn item(alloc: Global, points: &mut Points, at: u32, what: &Item) -> Result<(), AllocError>
    ensures { OnOk result (ListsPiece (item_piece what.now) at points.old points.new) }
{
    match what {
        Item::Input { name: _, width: _ } => input(alloc, points, at),
        Item::Output {
            name: _,
            width,
            value,
        } => output(alloc, points, at, *width, value),
        Item::Const { name: _, value } => constant(alloc, points, at, value),
        Item::Table { name: _, values } => table(alloc, points, at, values),
        Item::Function {
            name: _,
            params,
            width,
            body: steps,
            result: value,
        } => {
            let begin = head(alloc, points, at, params, *width)?;
            body(alloc, points, begin, steps, value)
        }
        Item::Step(step) => {
            stmt(alloc, points, at, step)?;
            Ok(())
        }
    }
}

/// The points of an item whose first token is this one.
pub fn points_of(alloc: Global, at: u32, what: &Item) -> Result<Points, AllocError>
    ensures values { IfOk result (λ points. points.values.items ≡ (item_piece what.now).values at []) }
    ensures frames { IfOk result (λ points. entries_of points.frames.items ≡ (item_piece what.now).frames at []) }
{
    let mut points = Points {
        values: Vec::new(alloc),
        frames: Vec::new(alloc),
    };
    item(alloc, &mut points, at, what)?;
    Ok(points)
}
