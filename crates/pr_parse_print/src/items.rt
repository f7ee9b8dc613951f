//! Items.

ghost use Rattle.std.specs.Prelude.{OnOk, map};
ghost use Rattle.pr_lang.specs.Is.{name_tree};
ghost use Rattle.pr_lang.specs.Tree as tree;
ghost use Rattle.pr_lang.specs.Shape.{expr_shape, fixed_shape, param_shape, stmt_shape, item_shape, width_tree, listed, comma_listed};
ghost use Rattle.pr_lang.specs.Printed.{spelling};
ghost use Rattle.pr_parse_print.specs.Put.{IsPut};

use crate::expressions::put_expr;
use crate::fixed::{put_fixed, put_fixed_list, put_width};
use crate::statements::{put_stmt, put_stmts, put_value};
use crate::words::{put_comma, put_keyword, put_name, put_named, put_symbol};
use pr_lang::{Expr, Fixed, Item, Keyword, Name, Param, Stmt, Symbol};
use std::alloc::AllocError;

fn put_param(text: &mut Vec<u8>, param: &Param) -> Result<(), AllocError>
    ensures { OnOk result (IsPut text.old.items (spelling (param_shape param.now)) text.new.items) }
{
    put_name(text, &param.name)?;
    put_width(text, param.width)
}

/// With commas between.
fn put_params(text: &mut Vec<u8>, list: &[Param]) -> Result<(), AllocError>
    ensures { OnOk result (IsPut text.old.items (spelling (comma_listed (map param_shape list.now))) text.new.items) }
{
    for (i, param) in list.iter().enumerate() {
        put_comma(text, i)?;
        put_param(text, param)?;
    }
    Ok(())
}

fn put_table(text: &mut Vec<u8>, name: &Name, values: &[Fixed]) -> Result<(), AllocError>
    ensures { OnOk result (IsPut text.old.items
        (spelling (tree.const (name_tree name.now)
        (tree.table (comma_listed (map fixed_shape values.now))))) text.new.items) }
{
    put_named(text, Keyword::Const, name)?;
    put_symbol(text, Symbol::Assign)?;
    put_symbol(text, Symbol::OpenSquare)?;
    put_fixed_list(text, values)?;
    put_symbol(text, Symbol::CloseSquare)?;
    put_symbol(text, Symbol::Semi)
}

fn put_function(
    text: &mut Vec<u8>,
    name: &Name,
    params: &[Param],
    width: Option<u64>,
    body: &[Stmt],
    value: &Expr,
) -> Result<(), AllocError>
    ensures { OnOk result (IsPut text.old.items
        (spelling (tree.function (name_tree name.now) (comma_listed (map param_shape params.now)) (width_tree width)
        (listed (map stmt_shape body.now)) (expr_shape value.now))) text.new.items) }
{
    put_named(text, Keyword::Fn, name)?;
    put_symbol(text, Symbol::OpenRound)?;
    put_params(text, params)?;
    put_symbol(text, Symbol::CloseRound)?;
    put_width(text, width)?;
    put_symbol(text, Symbol::OpenCurly)?;
    put_stmts(text, body)?;
    put_keyword(text, Keyword::Return)?;
    put_expr(text, value)?;
    put_symbol(text, Symbol::Semi)?;
    put_symbol(text, Symbol::CloseCurly)
}

pub fn put_item(text: &mut Vec<u8>, item: &Item) -> Result<(), AllocError>
    ensures { OnOk result (IsPut text.old.items (spelling (item_shape item.now)) text.new.items) }
{
    match item {
        Item::Input { name, width } => {
            put_named(text, Keyword::Input, name)?;
            put_width(text, Some(*width))?;
            put_symbol(text, Symbol::Semi)
        }
        Item::Output { name, width, value } => {
            put_named(text, Keyword::Output, name)?;
            put_width(text, *width)?;
            put_value(text, value)
        }
        Item::Const { name, value } => {
            put_named(text, Keyword::Const, name)?;
            put_symbol(text, Symbol::Assign)?;
            put_fixed(text, value)?;
            put_symbol(text, Symbol::Semi)
        }
        Item::Table { name, values } => put_table(text, name, values),
        Item::Function {
            name,
            params,
            width,
            body,
            result,
        } => put_function(text, name, params, *width, body, result),
        Item::Step(stmt) => put_stmt(text, stmt),
    }
}
