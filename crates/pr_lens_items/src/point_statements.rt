//! The points of statements.

ghost use Rattle.std.specs.Prelude.{◌≡◌, ◌∷◌, [], IfOk, OnOk, map};
ghost use Rattle.pr_lens_items.specs.Tokens.{token_behind, widths_with};
ghost use Rattle.pr_lens_items.specs.Walks.{fixed_walk, expr_walk};
ghost use Rattle.pr_lens_items.specs.Steps.{IsBegun, ListsRec, ListsLoop, ListsSteps, ListsAll, let_steps, stmt_steps};

use crate::point_expressions::{expr, fixed, index, later};
use crate::points::{Frame, Points};
use pr_lang::{Expr, Fixed, Ref, Stmt};
use std::alloc::{AllocError, Global};

/// The frame of one name.
pub fn frame(alloc: Global, name: u32) -> Result<Frame, AllocError>
    ensures names { IfOk result (λ frame. frame.names.items ≡ name ∷ []) }
    ensures widths { IfOk result (λ frame. frame.widths.items ≡ []) }
    ensures fixeds { IfOk result (λ frame. frame.fixeds.items ≡ []) }
{
    Ok(Frame {
        names: vec![in alloc; name]?,
        widths: Vec::new(alloc),
        fixeds: Vec::new(alloc),
    })
}

/// Lists a declared width, where there is one, whose colon is this token; the token behind it.
pub fn width(frame: &mut Frame, at: u32, bits: Option<u64>) -> Result<u32, AllocError>
    ensures widths { OnOk result (frame.new.widths.items ≡ widths_with at bits frame.old.widths.items) }
    ensures end { IfOk result (λ token. token ≡ token_behind at bits) }
    ensures names { frame.new.names ≡ frame.old.names }
    ensures fixeds { frame.new.fixeds ≡ frame.old.fixeds }
{
    match bits {
        None => Ok(at),
        Some(_) => {
            frame.widths.push(later(at, 1))?;
            Ok(later(at, 2))
        }
    }
}

/// The frame of a statement that begins at this token, with its target and declared width; the token behind these.
fn begun(
    alloc: Global,
    at: u32,
    target: &Ref,
    bits: Option<u64>,
) -> Result<(Frame, u32), AllocError>
    ensures { IfOk result (λ begun. IsBegun target.now bits at begun.0 begun.1) }
{
    let mut own = frame(alloc, later(at, 1))?;
    let colon = index(&mut own.fixeds, later(at, 1), target)?;
    let sign = width(&mut own, colon, bits)?;
    Ok((own, sign))
}

/// Lists the points of an assignment that begins at this token; the token behind it.
#[tactic(auto, using(crate::proofs::StepLaws::pushed))]
fn let_stmt(
    alloc: Global,
    points: &mut Points,
    at: u32,
    target: &Ref,
    bits: Option<u64>,
    value: &Expr,
) -> Result<u32, AllocError>
    ensures { IfOk result (λ end.
        ListsSteps (let_steps target.now bits (expr_walk value.now)) at points.old points.new end) }
{
    let (own, sign) = begun(alloc, at, target, bits)?;
    points.frames.push(own)?;
    let end = expr(&mut points.values, later(sign, 1), value)?;
    Ok(later(end, 1))
}

/// Lists the points of a recurrence whose frame is begun and whose equals sign is this token; the token behind it.
#[tactic(auto, using(crate::proofs::StepLaws::pushed))]
fn rec_stmt(
    points: &mut Points,
    mut own: Frame,
    sign: u32,
    init: &Fixed,
    body: &Expr,
) -> Result<u32, AllocError>
    ensures { IfOk result (λ end.
        ListsRec own (fixed_walk init.now) (expr_walk body.now) sign points.old points.new end) }
{
    let by = fixed(&mut own.fixeds, later(sign, 1), init)?;
    points.frames.push(own)?;
    let end = expr(&mut points.values, later(by, 1), body)?;
    Ok(later(end, 1))
}

/// Lists the frame of a loop that begins at this token; the first token of its body.
#[tactic(auto, using(crate::proofs::StepLaws::pushed))]
fn head(
    alloc: Global,
    points: &mut Points,
    at: u32,
    low: &Fixed,
    high: &Fixed,
) -> Result<u32, AllocError>
    ensures { IfOk result (λ begin.
        ListsLoop (fixed_walk low.now) (fixed_walk high.now) at points.old points.new begin) }
{
    let mut own = frame(alloc, later(at, 1))?;
    let dots = fixed(&mut own.fixeds, later(at, 3), low)?;
    let end = fixed(&mut own.fixeds, later(dots, 1), high)?;
    points.frames.push(own)?;
    Ok(later(end, 1))
}

/// Lists the points of a statement that begins at this token; the token behind it.
#[cycle(stmts)]
pub fn stmt(alloc: Global, points: &mut Points, at: u32, stmt: &Stmt) -> Result<u32, AllocError>
    ensures { IfOk result (λ end. ListsSteps (stmt_steps stmt.now) at points.old points.new end) }
{
    match stmt {
        Stmt::Let {
            target,
            width,
            value,
        } => let_stmt(alloc, points, at, target, *width, value),
        Stmt::Rec {
            target,
            width,
            init,
            body,
        } => {
            let (own, sign) = begun(alloc, at, target, *width)?;
            rec_stmt(points, own, sign, init, body)
        }
        Stmt::For {
            index: _,
            low,
            high,
            body,
        } => {
            let begin = head(alloc, points, at, low, high)?;
            let end = stmts(alloc, points, begin, body)?;
            Ok(later(end, 1))
        }
    }
}

/// Lists the points of statements, the first of which begins at this token; the token behind them.
#[cycle(stmts)]
pub fn stmts(alloc: Global, points: &mut Points, at: u32, body: &[Stmt]) -> Result<u32, AllocError>
    ensures { IfOk result (λ end. ListsAll (map stmt_steps body.now) at points.old points.new end) }
{
    let mut end = at;
    for part in body {
        end = stmt(alloc, points, end, part)?;
    }
    Ok(end)
}
