//! The way down the first operands of an expression.
ghost use Rattle.std.specs.Prelude.{◌≡◌, IfOk, None, map, option_map};
ghost use Rattle.pr_expand.specs.Descents.{IsWay, first_in};

use pr_lang::Expr;
use std::alloc::{AllocError, Global};

/// An expression without a first operand, and those around it, the outermost first.
#[derive(Drop)]
pub struct Descent<'a> {
    pub around: Vec<&'a Expr>,
    pub innermost: &'a Expr,
}

/// The operand that is made before the others.
fn first_of(expr: &Expr) -> Option<&Expr>
    ensures { option_map (λ e. e.now) result ≡ first_in expr.now }
{
    match expr {
        Expr::Slice(inner, _, _) => Some(inner),
        Expr::Not(inner) => Some(inner),
        Expr::Binary(_, first, _) => Some(first),
        Expr::Choose(condition, _, _) => Some(condition),
        Expr::Paren(inner) => Some(inner),
        _ => None,
    }
}

/// Goes down the first operands. The way can be as long as the text, so the expressions on it wait in a list, and not on
/// the stack.
pub fn descend<'a>(alloc: Global, expr: &'a Expr) -> Result<Descent<'a>, AllocError>
    ensures way { IfOk result (λ d. IsWay expr.now (map (λ e. e.now) d.around.items) d.innermost.now) }
    ensures last { IfOk result (λ d. first_in d.innermost.now ≡ None) }
{
    let mut around = Vec::new(alloc);
    let mut innermost = expr;
    while let Some(first) = first_of(innermost) {
        around.push(innermost)?;
        innermost = first;
    }
    Ok(Descent { around, innermost })
}
