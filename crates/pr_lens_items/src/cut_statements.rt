//! Statements that are cut off.

ghost use Rattle.std.specs.Prelude.{◌≡◌, ◌-◌, map, IfOk, OnOk};
ghost use Rattle.pr_lang.specs.Shape.{fixed_shape, ref_shape, stmt_shape};
ghost use Rattle.pr_lens_items.specs.Cuts.{points, cut_off, fixed_part, index_points, target_left, expr_part, let_left, rec_left, fixeds_from, statement, stmts_left, frames_of, values_of, Passes};

use crate::cut_expressions::assigned;
use crate::cut_fixed::{fixed, target};
use crate::cuts::{Left, Rest};
use pr_lang::{Expr, Fixed, Ref, Stmt};
use std::alloc::{AllocError, Global};

fn let_stmt(
    alloc: Global,
    rest: &mut Rest,
    name: &Ref,
    width: Option<u64>,
    value: &Expr,
) -> Result<Stmt, AllocError>
    ensures tree { IfOk result (λ kept. stmt_shape kept ≡ let_left name.now width (expr_part value.now)
        rest.old.values.from (fixeds_from rest.old.frames.from rest.old.last)) }
    ensures passes { OnOk result (Passes 0 (points (expr_part value.now)) rest.old rest.new) }
{
    let value = assigned(alloc, &mut rest.values, value)?;
    let mut fixeds = rest.fixeds();
    let target = target(alloc, &mut fixeds, name)?;
    Ok(Stmt::Let {
        target,
        width,
        value: Box::into_inner(value),
    })
}

/// A target with what is left of its index, and what is left of the initial value behind it.
fn begun(
    alloc: Global,
    mut fixeds: Left,
    name: &Ref,
    init: &Fixed,
) -> Result<(Box<Ref>, Box<Fixed>), AllocError>
    ensures target { IfOk result (λ kept. ref_shape kept.0.value ≡ target_left name.now fixeds.from) }
    ensures init { IfOk result (λ kept. fixed_shape kept.1.value
        ≡ cut_off (fixed_part init.now) (fixeds.from - index_points name.now.index)) }
{
    let target = target(alloc, &mut fixeds, name)?;
    let target = Box::new(alloc, target)?;
    let init = fixed(alloc, &mut fixeds, init)?;
    Ok((target, init))
}

fn rec_stmt(
    alloc: Global,
    rest: &mut Rest,
    name: &Ref,
    width: Option<u64>,
    init: &Fixed,
    body: &Expr,
) -> Result<Stmt, AllocError>
    ensures tree { IfOk result (λ kept. stmt_shape kept ≡ rec_left name.now width (fixed_part init.now)
        (expr_part body.now) rest.old.values.from (fixeds_from rest.old.frames.from rest.old.last)) }
    ensures passes { OnOk result (Passes 0 (points (expr_part body.now)) rest.old rest.new) }
{
    let body = assigned(alloc, &mut rest.values, body)?;
    let fixeds = rest.fixeds();
    let (target, init) = begun(alloc, fixeds, name, init)?;
    Ok(Stmt::Rec {
        target: Box::into_inner(target),
        width,
        init: Box::into_inner(init),
        body: Box::into_inner(body),
    })
}

/// What is left of the bounds of a loop.
fn bounds(
    alloc: Global,
    mut fixeds: Left,
    low: &Fixed,
    high: &Fixed,
) -> Result<(Box<Fixed>, Box<Fixed>), AllocError>
    ensures low { IfOk result (λ kept. fixed_shape kept.0.value ≡ cut_off (fixed_part low.now) fixeds.from) }
    ensures high { IfOk result (λ kept. fixed_shape kept.1.value
        ≡ cut_off (fixed_part high.now) (fixeds.from - points (fixed_part low.now))) }
{
    let low = fixed(alloc, &mut fixeds, low)?;
    let high = fixed(alloc, &mut fixeds, high)?;
    Ok((low, high))
}

/// What is left of a statement whose frame was just passed.
#[cycle(stmts)]
pub fn stmt(alloc: Global, rest: &mut Rest, step: &Stmt) -> Result<Stmt, AllocError>
    ensures tree { IfOk result (λ kept. stmt_shape kept
        ≡ (statement step.now).left rest.old.values.from rest.old.frames.from rest.old.last) }
    ensures passes { OnOk result
        (Passes (statement step.now).frames (statement step.now).values rest.old rest.new) }
{
    match step {
        Stmt::Let {
            target,
            width,
            value,
        } => let_stmt(alloc, rest, target, *width, value),
        Stmt::Rec {
            target,
            width,
            init,
            body,
        } => rec_stmt(alloc, rest, target, *width, init, body),
        Stmt::For {
            index,
            low,
            high,
            body,
        } => {
            let index = index.copy(alloc)?;
            let fixeds = rest.fixeds();
            let (low, high) = bounds(alloc, fixeds, low, high)?;
            let body = stmts(alloc, rest, body)?;
            Ok(Stmt::For {
                index,
                low: Box::into_inner(low),
                high: Box::into_inner(high),
                body,
            })
        }
    }
}

/// The statements whose frames are kept.
#[cycle(stmts)]
pub fn stmts(alloc: Global, rest: &mut Rest, steps: &[Stmt]) -> Result<Vec<Stmt>, AllocError>
    ensures tree { IfOk result (λ kept. map stmt_shape kept.items
        ≡ stmts_left (map statement steps.now) rest.old.values.from rest.old.frames.from rest.old.last) }
    ensures passes { OnOk result
        (Passes (frames_of (map statement steps.now)) (values_of (map statement steps.now)) rest.old rest.new) }
{
    let mut kept = Vec::new(alloc);
    for step in steps {
        if rest.frames.misses() {
            return Ok(kept);
        }
        kept.push(stmt(alloc, rest, step)?)?;
    }
    Ok(kept)
}
