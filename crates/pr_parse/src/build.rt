//! Trees from trees.

ghost use Rattle.std.specs.Prelude.{◌≡◌, ◌<◌, map, IfOk, IfErr, length, alloc_error};
ghost use Rattle.pr_lang.specs.Is.{name_tree, number_tree, sign_tree};
ghost use Rattle.pr_lang.specs.Tree as tree;
ghost use Rattle.pr_lang.specs.Shape.{fixed_shape, index_shape, ref_shape, width_tree, expr_shape, stmt_shape, item_shape, param_shape, sign_of, fixed_sign_of, listed, comma_listed};
ghost use Rattle.pr_parse.specs.declared.fault.Fault.TheVariants.{Memory};

use crate::fault::Fault;
use pr_lang::{BinOp, Expr, Fixed, FixedOp, Item, Name, Param, Ref, Stmt};
use std::alloc::Global;

pub fn name(alloc: Global, bytes: &[u8]) -> Result<Name, Fault>
    ensures ok { IfOk result (λ n. n ≡ bytes.now) }
    ensures err { IfErr result (λ e. e ≡ Memory alloc_error) }
{
    let bytes = Vec::from_slice(alloc, bytes)?;
    Ok(Name::new(bytes))
}

pub fn fixed_binary(alloc: Global, op: FixedOp, left: Fixed, right: Fixed) -> Result<Fixed, Fault>
    ensures ok { IfOk result (λ e. fixed_shape e
        ≡ tree.binary (sign_tree (fixed_sign_of op)) (fixed_shape left) (fixed_shape right)) }
    ensures err { IfErr result (λ e. e ≡ Memory alloc_error) }
{
    let left = Box::new(alloc, left)?;
    let right = Box::new(alloc, right)?;
    Ok(Fixed::Binary(op, left, right))
}

pub fn fixed_paren(alloc: Global, inner: Fixed) -> Result<Fixed, Fault>
    ensures ok { IfOk result (λ e. fixed_shape e ≡ tree.paren (fixed_shape inner)) }
    ensures err { IfErr result (λ e. e ≡ Memory alloc_error) }
{
    Ok(Fixed::Paren(Box::new(alloc, inner)?))
}

/// A constant expression that is a number.
pub fn fixed_number(value: u64) -> Fixed
    ensures { fixed_shape result ≡ number_tree value }
{
    Fixed::Number(value)
}

fn fixed_name(name: Name) -> Fixed
    ensures { fixed_shape result ≡ tree.refer (name_tree name) tree.no_index }
{
    Fixed::Refer(name, None)
}

fn fixed_entry(alloc: Global, name: Name, index: Fixed) -> Result<Fixed, Fault>
    ensures ok { IfOk result (λ e. fixed_shape e ≡ tree.refer (name_tree name) (tree.index (fixed_shape index))) }
    ensures err { IfErr result (λ e. e ≡ Memory alloc_error) }
{
    let index = Box::new(alloc, index)?;
    Ok(Fixed::Refer(name, Some(index)))
}

/// A name with an index or without.
pub fn fixed_refer(alloc: Global, name: Name, index: Option<Fixed>) -> Result<Fixed, Fault>
    ensures ok { IfOk result (λ e. fixed_shape e ≡ tree.refer (name_tree name) (index_shape index)) }
    ensures err { IfErr result (λ e. e ≡ Memory alloc_error) }
{
    match index {
        Some(index) => fixed_entry(alloc, name, index),
        None => Ok(fixed_name(name)),
    }
}

pub fn number(value: u64) -> Expr
    ensures { expr_shape result ≡ number_tree value }
{
    Expr::Number(value)
}

pub fn refer(target: Ref) -> Expr
    ensures { expr_shape result ≡ ref_shape target }
{
    Expr::Refer(target)
}

pub fn delay(target: Ref, samples: Fixed) -> Expr
    ensures { expr_shape result ≡ tree.delay (ref_shape target) (fixed_shape samples) }
{
    Expr::Delay(target, samples)
}

pub fn let_stmt(target: Ref, width: Option<u64>, value: Expr) -> Stmt
    ensures { stmt_shape result ≡ tree.let_stmt (ref_shape target) (width_tree width) (expr_shape value) }
{
    Stmt::Let {
        target,
        width,
        value,
    }
}

pub fn rec_stmt(target: Ref, width: Option<u64>, init: Fixed, body: Expr) -> Stmt
    ensures { stmt_shape result
        ≡ tree.rec_stmt (ref_shape target) (width_tree width) (fixed_shape init) (expr_shape body) }
{
    Stmt::Rec {
        target,
        width,
        init,
        body,
    }
}

pub fn for_stmt(index: Name, low: Fixed, high: Fixed, body: Vec<Stmt>) -> Stmt
    ensures { stmt_shape result
        ≡ tree.for_stmt (name_tree index) (fixed_shape low) (fixed_shape high) (listed (map stmt_shape body.items)) }
{
    Stmt::For {
        index,
        low,
        high,
        body,
    }
}

/// An expression that waits for what is read after it.
pub fn boxed(alloc: Global, expr: Expr) -> Result<Box<Expr>, Fault>
    ensures ok { IfOk result (λ e. e.value ≡ expr) }
    ensures err { IfErr result (λ e. e ≡ Memory alloc_error) }
{
    Ok(Box::new(alloc, expr)?)
}

pub fn binary(alloc: Global, op: BinOp, left: Box<Expr>, right: Expr) -> Result<Expr, Fault>
    ensures ok { IfOk result (λ e. expr_shape e
        ≡ tree.binary (sign_tree (sign_of op)) (expr_shape left.value) (expr_shape right)) }
    ensures err { IfErr result (λ e. e ≡ Memory alloc_error) }
{
    let right = Box::new(alloc, right)?;
    Ok(Expr::Binary(op, left, right))
}

pub fn choose(alloc: Global, test: Box<Expr>, yes: Box<Expr>, no: Expr) -> Result<Expr, Fault>
    ensures ok { IfOk result (λ e. expr_shape e
        ≡ tree.choose (expr_shape test.value) (expr_shape yes.value) (expr_shape no)) }
    ensures err { IfErr result (λ e. e ≡ Memory alloc_error) }
{
    let no = Box::new(alloc, no)?;
    Ok(Expr::Choose(test, yes, no))
}

pub fn not(alloc: Global, inner: Expr) -> Result<Expr, Fault>
    ensures ok { IfOk result (λ e. expr_shape e ≡ tree.not (expr_shape inner)) }
    ensures err { IfErr result (λ e. e ≡ Memory alloc_error) }
{
    Ok(Expr::Not(Box::new(alloc, inner)?))
}

pub fn paren(inner: Box<Expr>) -> Expr
    ensures { expr_shape result ≡ tree.paren (expr_shape inner.value) }
{
    Expr::Paren(inner)
}

pub fn slice(inner: Box<Expr>, high: Fixed, low: Fixed) -> Expr
    ensures { expr_shape result ≡ tree.slice (expr_shape inner.value) (fixed_shape high) (fixed_shape low) }
{
    Expr::Slice(inner, high, low)
}

pub fn call(name: Name, arguments: Vec<Expr>) -> Expr
    ensures { expr_shape result ≡ tree.call (name_tree name) (comma_listed (map expr_shape arguments.items)) }
{
    Expr::Call(name, arguments)
}

pub fn cat(parts: Vec<Expr>) -> Expr
    ensures { expr_shape result ≡ tree.cat (comma_listed (map expr_shape parts.items)) }
{
    Expr::Cat(parts)
}

/// One statement more.
pub fn more_stmts(mut stmts: Vec<Stmt>, stmt: Stmt) -> Result<Vec<Stmt>, Fault>
    ensures ok { IfOk result (λ v. listed (map stmt_shape v.items)
        ≡ tree.more (listed (map stmt_shape stmts.items)) (stmt_shape stmt)) }
    ensures err { IfErr result (λ e. e ≡ Memory alloc_error) }
{
    stmts.push(stmt)?;
    Ok(stmts)
}

/// One item more.
pub fn more_items(mut items: Vec<Item>, item: Item) -> Result<Vec<Item>, Fault>
    ensures ok { IfOk result (λ v. listed (map item_shape v.items)
        ≡ tree.more (listed (map item_shape items.items)) (item_shape item)) }
    ensures err { IfErr result (λ e. e ≡ Memory alloc_error) }
{
    items.push(item)?;
    Ok(items)
}

/// A list of one.
pub fn one_expr(alloc: Global, expr: Expr) -> Result<Vec<Expr>, Fault>
    ensures ok { IfOk result (λ v. comma_listed (map expr_shape v.items) ≡ tree.more tree.none (expr_shape expr)) }
    ensures some { IfOk result (λ v. 0 < length v.items) }
    ensures err { IfErr result (λ e. e ≡ Memory alloc_error) }
{
    let mut list = Vec::new(alloc);
    list.push(expr)?;
    Ok(list)
}

/// One more after a comma.
pub fn more_exprs(mut list: Vec<Expr>, expr: Expr) -> Result<Vec<Expr>, Fault>
    requires { 0 < length list.items }
    ensures ok { IfOk result (λ v. comma_listed (map expr_shape v.items)
        ≡ tree.also (comma_listed (map expr_shape list.items)) (expr_shape expr)) }
    ensures some { IfOk result (λ v. 0 < length v.items) }
    ensures err { IfErr result (λ e. e ≡ Memory alloc_error) }
{
    list.push(expr)?;
    Ok(list)
}

/// A list of one.
pub fn one_fixed(alloc: Global, fixed: Fixed) -> Result<Vec<Fixed>, Fault>
    ensures ok { IfOk result (λ v. comma_listed (map fixed_shape v.items) ≡ tree.more tree.none (fixed_shape fixed)) }
    ensures some { IfOk result (λ v. 0 < length v.items) }
    ensures err { IfErr result (λ e. e ≡ Memory alloc_error) }
{
    let mut list = Vec::new(alloc);
    list.push(fixed)?;
    Ok(list)
}

/// One more after a comma.
pub fn more_fixed(mut list: Vec<Fixed>, fixed: Fixed) -> Result<Vec<Fixed>, Fault>
    requires { 0 < length list.items }
    ensures ok { IfOk result (λ v. comma_listed (map fixed_shape v.items)
        ≡ tree.also (comma_listed (map fixed_shape list.items)) (fixed_shape fixed)) }
    ensures some { IfOk result (λ v. 0 < length v.items) }
    ensures err { IfErr result (λ e. e ≡ Memory alloc_error) }
{
    list.push(fixed)?;
    Ok(list)
}

/// A list of one.
pub fn one_param(alloc: Global, param: Param) -> Result<Vec<Param>, Fault>
    ensures ok { IfOk result (λ v. comma_listed (map param_shape v.items) ≡ tree.more tree.none (param_shape param)) }
    ensures some { IfOk result (λ v. 0 < length v.items) }
    ensures err { IfErr result (λ e. e ≡ Memory alloc_error) }
{
    let mut list = Vec::new(alloc);
    list.push(param)?;
    Ok(list)
}

/// One more after a comma.
pub fn more_params(mut list: Vec<Param>, param: Param) -> Result<Vec<Param>, Fault>
    requires { 0 < length list.items }
    ensures ok { IfOk result (λ v. comma_listed (map param_shape v.items)
        ≡ tree.also (comma_listed (map param_shape list.items)) (param_shape param)) }
    ensures some { IfOk result (λ v. 0 < length v.items) }
    ensures err { IfErr result (λ e. e ≡ Memory alloc_error) }
{
    list.push(param)?;
    Ok(list)
}
