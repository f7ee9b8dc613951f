//! Statements.

ghost use Rattle.std.specs.Prelude.{OnOk, map, ◌∷◌, ◌++◌, []};
ghost use Rattle.pr_lang.specs.Word.{symbol};
ghost use Rattle.pr_lang.specs.declared.tokens.Symbol.TheVariants.{Assign, Semi};
ghost use Rattle.pr_lang.specs.Shape.{expr_shape, stmt_shape, listed};
ghost use Rattle.pr_lang.specs.Printed.{spelling};
ghost use Rattle.pr_parse_print.specs.Put.{IsPut};

use crate::expressions::put_expr;
use crate::fixed::{put_fixed, put_target, put_width};
use crate::words::{put_keyword, put_named, put_symbol};
use pr_lang::{Expr, Keyword, Stmt, Symbol};
use std::alloc::AllocError;

/// A value after `=`, and the semicolon.
pub fn put_value(text: &mut Vec<u8>, value: &Expr) -> Result<(), AllocError>
    ensures { OnOk result (IsPut text.old.items
        (symbol Assign ∷ (spelling (expr_shape value.now) ++ symbol Semi ∷ [])) text.new.items) }
{
    put_symbol(text, Symbol::Assign)?;
    put_expr(text, value)?;
    put_symbol(text, Symbol::Semi)
}

#[cycle(statements)]
pub fn put_stmt(text: &mut Vec<u8>, stmt: &Stmt) -> Result<(), AllocError>
    ensures { OnOk result (IsPut text.old.items (spelling (stmt_shape stmt.now)) text.new.items) }
{
    match stmt {
        Stmt::Let {
            target,
            width,
            value,
        } => {
            put_keyword(text, Keyword::Let)?;
            put_target(text, target)?;
            put_width(text, *width)?;
            put_value(text, value)
        }
        Stmt::Rec {
            target,
            width,
            init,
            body,
        } => {
            put_keyword(text, Keyword::Rec)?;
            put_target(text, target)?;
            put_width(text, *width)?;
            put_symbol(text, Symbol::Assign)?;
            put_fixed(text, init)?;
            put_keyword(text, Keyword::By)?;
            put_expr(text, body)?;
            put_symbol(text, Symbol::Semi)
        }
        Stmt::For {
            index,
            low,
            high,
            body,
        } => {
            put_named(text, Keyword::For, index)?;
            put_keyword(text, Keyword::Within)?;
            put_fixed(text, low)?;
            put_symbol(text, Symbol::Dots)?;
            put_fixed(text, high)?;
            put_symbol(text, Symbol::OpenCurly)?;
            put_stmts(text, body)?;
            put_symbol(text, Symbol::CloseCurly)
        }
    }
}

#[cycle(statements)]
pub fn put_stmts(text: &mut Vec<u8>, stmts: &[Stmt]) -> Result<(), AllocError>
    ensures { OnOk result (IsPut text.old.items (spelling (listed (map stmt_shape stmts.now))) text.new.items) }
{
    for stmt in stmts {
        put_stmt(text, stmt)?;
    }
    Ok(())
}
