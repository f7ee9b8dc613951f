//! The points of expressions.

ghost use Rattle.std.specs.Prelude.{◌≡◌, map, IfOk};
ghost use Rattle.pr_lens_items.specs.Tokens.{later};
ghost use Rattle.pr_lens_items.specs.Walks.{Lists, ListsParts, IsListed, fixed_walk, index_walk, refer_walk, bounds_walk, operated, expr_walk, whole_walk, closing};

use pr_lang::{Expr, Fixed, Ref};
use std::alloc::AllocError;

/// The token so many tokens later.
#[tactic(auto, unfolding(crate::specs::Tokens::later))]
pub fn later(at: u32, tokens: u32) -> u32
    ensures { result ≡ later at tokens }
{
    at.saturating_add(tokens)
}

/// Lists a point; the token behind that of which it is the point.
fn listed(points: &mut Vec<u32>, point: u32, end: u32) -> Result<u32, AllocError>
    ensures { IfOk result (λ token. IsListed point end points.old.items points.new.items token) }
{
    points.push(point)?;
    Ok(end)
}

/// Lists the points of a constant expression that begins at this token; the token behind it.
pub fn fixed(points: &mut Vec<u32>, at: u32, value: &Fixed) -> Result<u32, AllocError>
    ensures { IfOk result (λ end. Lists (fixed_walk value.now) at points.old.items points.new.items end) }
{
    match value {
        Fixed::Number(_) => listed(points, at, later(at, 1)),
        Fixed::Refer(_, index) => match index {
            None => listed(points, at, later(at, 1)),
            Some(index) => {
                let end = fixed(points, later(at, 2), index)?;
                listed(points, at, later(end, 1))
            }
        },
        Fixed::Binary(_, left, right) => {
            let sign = fixed(points, at, left)?;
            let end = fixed(points, later(sign, 1), right)?;
            listed(points, sign, end)
        }
        Fixed::Paren(inner) => {
            let end = fixed(points, later(at, 1), inner)?;
            Ok(later(end, 1))
        }
    }
}

/// Lists the points of the index behind a name at this token; the token behind the name and its index.
pub fn index(points: &mut Vec<u32>, at: u32, target: &Ref) -> Result<u32, AllocError>
    ensures { IfOk result (λ end. Lists (index_walk target.now.index) at points.old.items points.new.items end) }
{
    match &target.index {
        None => Ok(later(at, 1)),
        Some(index) => {
            let end = fixed(points, later(at, 2), index)?;
            Ok(later(end, 1))
        }
    }
}

/// Lists the points of a slice whose curly bracket is this token; the token behind it.
fn bounds(points: &mut Vec<u32>, at: u32, high: &Fixed, low: &Fixed) -> Result<u32, AllocError>
    ensures { IfOk result (λ end.
        Lists (bounds_walk (fixed_walk high.now) (fixed_walk low.now)) at points.old.items points.new.items end) }
{
    let dots = fixed(points, later(at, 1), high)?;
    let end = fixed(points, later(dots, 1), low)?;
    listed(points, at, later(end, 1))
}

fn refer(points: &mut Vec<u32>, at: u32, target: &Ref) -> Result<u32, AllocError>
    ensures { IfOk result (λ end. Lists (refer_walk target.now) at points.old.items points.new.items end) }
{
    let end = index(points, at, target)?;
    listed(points, at, end)
}

fn delay(points: &mut Vec<u32>, at: u32, target: &Ref, back: &Fixed) -> Result<u32, AllocError>
    ensures { IfOk result (λ end.
        Lists (operated (refer_walk target.now) (fixed_walk back.now)) at points.old.items points.new.items end) }
{
    let sign = refer(points, at, target)?;
    let end = fixed(points, later(sign, 1), back)?;
    listed(points, sign, end)
}

/// Lists the points of an expression that begins at this token; the token behind it.
#[cycle(expr)]
pub fn expr(points: &mut Vec<u32>, at: u32, value: &Expr) -> Result<u32, AllocError>
    ensures { IfOk result (λ end. Lists (expr_walk value.now) at points.old.items points.new.items end) }
{
    match value {
        Expr::Number(_) => listed(points, at, later(at, 1)),
        Expr::Refer(target) => refer(points, at, target),
        Expr::Delay(target, back) => delay(points, at, target, back),
        Expr::Slice(inner, high, low) => {
            let sign = expr(points, at, inner)?;
            bounds(points, sign, high, low)
        }
        Expr::Not(inner) => {
            let end = expr(points, later(at, 1), inner)?;
            listed(points, at, end)
        }
        Expr::Binary(_, left, right) => {
            let sign = expr(points, at, left)?;
            let end = expr(points, later(sign, 1), right)?;
            listed(points, sign, end)
        }
        Expr::Choose(condition, one, other) => {
            let sign = expr(points, at, condition)?;
            let colon = expr(points, later(sign, 1), one)?;
            let end = expr(points, later(colon, 1), other)?;
            listed(points, sign, end)
        }
        Expr::Call(_, parts) => whole(points, at, parts),
        Expr::Cat(parts) => whole(points, at, parts),
        Expr::Paren(inner) => {
            let end = expr(points, later(at, 1), inner)?;
            Ok(later(end, 1))
        }
    }
}

/// Lists the points of a name or word with parts in brackets; the token behind it.
#[cycle(expr)]
fn whole(points: &mut Vec<u32>, at: u32, parts: &[Expr]) -> Result<u32, AllocError>
    ensures { IfOk result (λ end.
        Lists (whole_walk (map expr_walk parts.now)) at points.old.items points.new.items end) }
{
    let last = exprs(points, later(at, 1), parts)?;
    let bracket = closing(parts, last);
    listed(points, at, later(bracket, 1))
}

/// Lists the points of parts, each behind a bracket or a comma, of which the first is this token; the token behind
/// them.
#[cycle(expr)]
fn exprs(points: &mut Vec<u32>, at: u32, parts: &[Expr]) -> Result<u32, AllocError>
    ensures { IfOk result (λ end. ListsParts (map expr_walk parts.now) at points.old.items points.new.items end) }
{
    let mut end = at;
    for part in parts {
        end = expr(points, later(end, 1), part)?;
    }
    Ok(end)
}

/// The closing bracket of parts that end here.
fn closing(parts: &[Expr], end: u32) -> u32
    ensures { result ≡ closing (map expr_walk parts.now) end }
{
    if parts.is_empty() { later(end, 1) } else { end }
}
