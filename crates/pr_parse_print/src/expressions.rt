//! Expressions.

ghost use Rattle.std.specs.Prelude.{OnOk, map, ◌∷◌, ◌++◌, []};
ghost use Rattle.pr_lang.specs.Word.{symbol};
ghost use Rattle.pr_lang.specs.declared.tokens.Symbol.TheVariants.{OpenRound, CloseRound};
ghost use Rattle.pr_lang.specs.Shape.{expr_shape, comma_listed};
ghost use Rattle.pr_lang.specs.Printed.{spelling};
ghost use Rattle.pr_parse_print.specs.Put.{IsPut, ends};

use crate::fixed::{put_fixed, put_target};
use crate::signs::sign_of;
use crate::words::{put_comma, put_keyword, put_name, put_number, put_symbol};
use pr_lang::{Expr, Fixed, Keyword, Symbol};
use std::alloc::AllocError;

/// An expression. The calls nest as deep as the tree: in one that was read from a text, at most 256 operators deep within each
/// of at most 256 pairs of brackets, one inside the other.
#[cycle(expressions)]
pub fn put_expr(text: &mut Vec<u8>, expr: &Expr) -> Result<(), AllocError>
    ensures { OnOk result (IsPut text.old.items (spelling (expr_shape expr.now)) text.new.items) }
{
    match expr {
        Expr::Number(value) => put_number(text, *value),
        Expr::Refer(target) => put_target(text, target),
        Expr::Delay(target, samples) => {
            put_target(text, target)?;
            put_symbol(text, Symbol::At)?;
            put_fixed(text, samples)
        }
        Expr::Slice(inner, high, low) => {
            put_expr(text, inner)?;
            put_ends(text, high, low)
        }
        Expr::Not(inner) => {
            put_symbol(text, Symbol::Tilde)?;
            put_expr(text, inner)
        }
        Expr::Binary(op, left, right) => {
            put_expr(text, left)?;
            put_symbol(text, sign_of(*op))?;
            put_expr(text, right)
        }
        Expr::Choose(test, yes, no) => {
            put_expr(text, test)?;
            put_symbol(text, Symbol::Ask)?;
            put_expr(text, yes)?;
            put_symbol(text, Symbol::Colon)?;
            put_expr(text, no)
        }
        Expr::Call(name, args) => {
            put_name(text, name)?;
            put_arguments(text, args)
        }
        Expr::Cat(parts) => {
            put_keyword(text, Keyword::Cat)?;
            put_arguments(text, parts)
        }
        Expr::Paren(inner) => {
            put_symbol(text, Symbol::OpenRound)?;
            put_expr(text, inner)?;
            put_symbol(text, Symbol::CloseRound)
        }
    }
}

/// The two ends of a slice.
fn put_ends(text: &mut Vec<u8>, high: &Fixed, low: &Fixed) -> Result<(), AllocError>
    ensures { OnOk result (IsPut text.old.items (ends high.now low.now) text.new.items) }
{
    put_symbol(text, Symbol::OpenCurly)?;
    put_fixed(text, high)?;
    put_symbol(text, Symbol::Dots)?;
    put_fixed(text, low)?;
    put_symbol(text, Symbol::CloseCurly)
}

/// In parentheses, with commas between.
#[cycle(expressions)]
fn put_arguments(text: &mut Vec<u8>, list: &[Expr]) -> Result<(), AllocError>
    ensures { OnOk result (IsPut text.old.items
        (symbol OpenRound ∷ (spelling (comma_listed (map expr_shape list.now)) ++
        symbol CloseRound ∷ [])) text.new.items) }
{
    put_symbol(text, Symbol::OpenRound)?;
    put_exprs(text, list)?;
    put_symbol(text, Symbol::CloseRound)
}

/// With commas between.
#[cycle(expressions)]
fn put_exprs(text: &mut Vec<u8>, list: &[Expr]) -> Result<(), AllocError>
    ensures { OnOk result (IsPut text.old.items (spelling (comma_listed (map expr_shape list.now))) text.new.items) }
{
    for (i, expr) in list.iter().enumerate() {
        put_comma(text, i)?;
        put_expr(text, expr)?;
    }
    Ok(())
}
