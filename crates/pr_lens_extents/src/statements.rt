//! What statements make known, and the verdicts on their comparisons, declared widths and calls.

ghost use Rattle.std.specs.Prelude.{◌≡◌, ◌-◌, ◌++◌, OnOk};
ghost use Rattle.pr_lens_extents.specs.Scenes.{fixed_value, seen_in};
ghost use Rattle.pr_lens_extents.specs.Statements.{IsAdded, IsTurned, all_blank, bound, in_turn, let_outcome, rec_outcome, step_of, steps_of, turn, turns};

use crate::expressions::{extent_of, put_assigned, put_repeated};
use crate::scenes::{Scene, fixed_value, set_stream, set_target};
use crate::verdicts::{Verdict, join_all};
use pr_lang::{Expr, Fixed, Name, Ref, Stmt};
use pr_lens_reach::{constant, recurrence_of, settled_as};
use std::alloc::{AllocError, Global};

/// Adds a verdict for each comparison of a statement that is not looked at.
#[cycle(blank)]
fn put_blank(verdicts: &mut Vec<Verdict>, stmt: &Stmt) -> Result<(), AllocError>
    ensures { OnOk result (verdicts.new.items ≡ verdicts.old.items ++ (step_of stmt.now).blank) }
{
    match stmt {
        Stmt::Let {
            target: _,
            width,
            value,
        } => put_assigned(verdicts, None, *width, value),
        Stmt::Rec {
            target: _,
            width,
            init: _,
            body,
        } => put_repeated(verdicts, None, *width, body),
        Stmt::For {
            index: _,
            low: _,
            high: _,
            body,
        } => put_blanks(verdicts, body),
    }
}

/// The same of statements, one after the other.
#[cycle(blank)]
fn put_blanks(verdicts: &mut Vec<Verdict>, stmts: &[Stmt]) -> Result<(), AllocError>
    ensures { OnOk result (verdicts.new.items ≡ verdicts.old.items ++ all_blank (steps_of stmts.now)) }
{
    for stmt in stmts {
        put_blank(verdicts, stmt)?;
    }
    Ok(())
}

/// The value of a bound of a loop; 0 where it has none.
fn bound(scene: &Scene, value: &Fixed) -> u64
    ensures { result ≡ bound (fixed_value value.now (seen_in scene.now)) }
{
    fixed_value(scene, value).unwrap_or(0)
}

/// The turns of a loop.
#[derive(Drop)]
struct Span<'a> {
    index: &'a Name,
    from: u64,
    to: u64,
}

fn put_let(
    alloc: Global,
    scene: &mut Scene,
    verdicts: &mut Vec<Verdict>,
    target: &Ref,
    width: Option<u64>,
    value: &Expr,
) -> Result<(), AllocError>
    ensures { OnOk result (IsAdded (let_outcome target.now width value.now (seen_in scene.old))
        verdicts.old.items verdicts.new.items (seen_in scene.new)) }
{
    put_assigned(verdicts, Some(scene), width, value)?;
    let extent = settled_as(width, extent_of(scene, value));
    set_target(alloc, scene, target, extent)
}

fn put_rec(
    alloc: Global,
    scene: &mut Scene,
    verdicts: &mut Vec<Verdict>,
    target: &Ref,
    width: Option<u64>,
    body: &Expr,
) -> Result<(), AllocError>
    ensures { OnOk result (IsAdded (rec_outcome target.now width body.now (seen_in scene.old))
        verdicts.old.items verdicts.new.items (seen_in scene.new)) }
{
    set_target(alloc, scene, target, recurrence_of(width))?;
    put_repeated(verdicts, Some(scene), width, body)
}

/// Adds verdicts behind others.
fn put_more(verdicts: &mut Vec<Verdict>, more: &[Verdict]) -> Result<(), AllocError>
    ensures { OnOk result (verdicts.new.items ≡ verdicts.old.items ++ more.now) }
{
    verdicts.extend_from_slice(more)
}

/// Adds the verdicts on the comparisons of a statement, and looks at what it makes known.
#[cycle(stmts)]
pub fn put_stmt(
    alloc: Global,
    scene: &mut Scene,
    verdicts: &mut Vec<Verdict>,
    stmt: &Stmt,
) -> Result<(), AllocError>
    ensures { OnOk result (IsAdded ((step_of stmt.now).run (seen_in scene.old))
        verdicts.old.items verdicts.new.items (seen_in scene.new)) }
{
    match stmt {
        Stmt::Let {
            target,
            width,
            value,
        } => put_let(alloc, scene, verdicts, target, *width, value),
        Stmt::Rec {
            target,
            width,
            init: _,
            body,
        } => put_rec(alloc, scene, verdicts, target, *width, body),
        Stmt::For {
            index,
            low,
            high,
            body,
        } => {
            let mut all = Vec::new(alloc);
            put_blanks(&mut all, body)?;
            let from = bound(scene, low);
            let to = bound(scene, high);
            let span = Span { index, from, to };
            put_turns(alloc, scene, &mut all, &span, body)?;
            put_more(verdicts, &all)
        }
    }
}

/// Joins the verdicts of the turns of a loop.
#[cycle(stmts)]
fn put_turns(
    alloc: Global,
    scene: &mut Scene,
    all: &mut Vec<Verdict>,
    span: &Span,
    body: &[Stmt],
) -> Result<(), AllocError>
    ensures { OnOk result (IsTurned
        (turns (span.now.to - span.now.from) span.now.from (turn span.now.index.now (steps_of body.now))
        (record { verdicts = all.old.items; seen = seen_in scene.old }))
        all.new.items (seen_in scene.new)) }
{
    for at in span.from..span.to {
        put_turn(alloc, scene, all, span.index, at, body)?;
    }
    Ok(())
}

/// Joins the verdicts of one turn of a loop to those of the turns before it.
#[cycle(stmts)]
fn put_turn(
    alloc: Global,
    scene: &mut Scene,
    all: &mut Vec<Verdict>,
    index: &Name,
    at: u64,
    body: &[Stmt],
) -> Result<(), AllocError>
    ensures { OnOk result (IsTurned
        (turn index.now (steps_of body.now) at (record { verdicts = all.old.items; seen = seen_in scene.old }))
        all.new.items (seen_in scene.new)) }
{
    set_stream(alloc, scene, index, None, Some(constant(at)))?;
    let mut turn = Vec::new(alloc);
    put_stmts(alloc, scene, &mut turn, body)?;
    join_all(all, &turn);
    Ok(())
}

/// Adds the verdicts on the comparisons of statements, one after the other.
#[cycle(stmts)]
pub fn put_stmts(
    alloc: Global,
    scene: &mut Scene,
    verdicts: &mut Vec<Verdict>,
    stmts: &[Stmt],
) -> Result<(), AllocError>
    ensures { OnOk result (IsAdded (in_turn (steps_of stmts.now) (seen_in scene.old))
        verdicts.old.items verdicts.new.items (seen_in scene.new)) }
{
    for stmt in stmts {
        put_stmt(alloc, scene, verdicts, stmt)?;
    }
    Ok(())
}
