//! Which parameters of functions are read by `signed`, directly or through other functions.

ghost use Rattle.std.specs.Prelude.{◌≡◌, OnOk, map};
ghost use Rattle.pr_lens_extents.specs.Parameters.{any_signs, call_signs, is_marked, is_signed, passes, reads_sign, signs_at, signs_of, stmt_signs, stmts_sign, use_of, with_param, with_params};
ghost use Rattle.pr_lens_extents.specs.Scenes.{seen_in};

use crate::scenes::{Scene, set_sign};
use pr_lang::{Expr, Name, Param, Stmt};
use std::alloc::{AllocError, Global};

pub fn is_signed(name: &Name) -> bool
    ensures { result ≡ is_signed name.now }
{
    name.as_bytes() == b"signed".as_slice()
}

/// Whether a function that was introduced reads the argument at this place by `signed`.
fn is_marked(scene: &Scene, function: &Name, place: u64) -> bool
    ensures { result ≡ is_marked function.now place (seen_in scene.now) }
{
    match scene.signs.get(function, Some(place)) {
        None => false,
        Some(_) => true,
    }
}

/// Whether a function reads the argument at this place by `signed`; `signed` itself does.
pub fn signs_at(scene: &Scene, function: &Name, place: u64) -> bool
    ensures { result ≡ signs_at function.now place (seen_in scene.now) }
{
    is_signed(function) || is_marked(scene, function, place)
}

/// Whether an expression is a name alone.
fn is_bare(value: &Expr, name: &Name) -> bool
    ensures { result ≡ (use_of value.now).bare name.now }
{
    match value {
        Expr::Refer(target) => {
            target.index.is_none() && target.name.as_bytes() == name.as_bytes()
        }
        Expr::Paren(inner) => is_bare(inner, name),
        _ => false,
    }
}

/// Whether a name is an argument that a function reads by `signed`.
fn passes(scene: &Scene, function: &Name, args: &[Expr], name: &Name) -> bool
    ensures { result ≡ passes function.now 0 (map use_of args.now) name.now (seen_in scene.now) }
{
    for at in 0..args.len() {
        if is_bare(&args[at], name) && signs_at(scene, function, at as u64) {
            return true;
        }
    }
    false
}

/// Whether an expression reads a name by `signed`.
#[cycle(signs)]
fn signs(scene: &Scene, value: &Expr, name: &Name) -> bool
    ensures { result ≡ signs_of value.now name.now (seen_in scene.now) }
{
    match value {
        Expr::Number(_) | Expr::Refer(_) | Expr::Delay(_, _) => false,
        Expr::Slice(inner, _, _) => signs(scene, inner, name),
        Expr::Not(inner) => signs(scene, inner, name),
        Expr::Binary(_, left, right) => signs(scene, left, name) || signs(scene, right, name),
        Expr::Choose(condition, one, other) => {
            signs(scene, condition, name) || signs(scene, one, name) || signs(scene, other, name)
        }
        Expr::Call(function, args) => call_signs(scene, function, args, name),
        Expr::Cat(parts) => any_signs(scene, parts, name),
        Expr::Paren(inner) => signs(scene, inner, name),
    }
}

/// Whether a call reads a name by `signed`, of its arguments or in them.
#[cycle(signs)]
fn call_signs(scene: &Scene, function: &Name, args: &[Expr], name: &Name) -> bool
    ensures { result ≡ call_signs function.now (map use_of args.now) name.now (seen_in scene.now) }
{
    passes(scene, function, args, name) || any_signs(scene, args, name)
}

/// Whether one of some expressions reads a name by `signed`.
#[cycle(signs)]
fn any_signs(scene: &Scene, parts: &[Expr], name: &Name) -> bool
    ensures { result ≡ any_signs (map use_of parts.now) name.now (seen_in scene.now) }
{
    for part in parts {
        if signs(scene, part, name) {
            return true;
        }
    }
    false
}

/// Whether a statement reads a name by `signed`.
#[cycle(stmts)]
fn stmt_signs(scene: &Scene, stmt: &Stmt, name: &Name) -> bool
    ensures { result ≡ stmt_signs stmt.now name.now (seen_in scene.now) }
{
    match stmt {
        Stmt::Let {
            target: _,
            width: _,
            value,
        } => signs(scene, value, name),
        Stmt::Rec {
            target: _,
            width: _,
            init: _,
            body,
        } => signs(scene, body, name),
        Stmt::For {
            index: _,
            low: _,
            high: _,
            body,
        } => stmts_sign(scene, body, name),
    }
}

/// Whether one of some statements reads a name by `signed`.
#[cycle(stmts)]
fn stmts_sign(scene: &Scene, stmts: &[Stmt], name: &Name) -> bool
    ensures { result ≡ stmts_sign stmts.now name.now (seen_in scene.now) }
{
    for stmt in stmts {
        if stmt_signs(scene, stmt, name) {
            return true;
        }
    }
    false
}

/// A function.
#[derive(Drop)]
pub struct Function<'a> {
    pub name: &'a Name,
    pub params: &'a [Param],
    pub body: &'a [Stmt],
    pub result: &'a Expr,
}

/// Whether a function reads a parameter without declared width by `signed`.
fn reads_sign(scene: &Scene, function: &Function, param: &Param) -> bool
    ensures { result
        ≡ reads_sign param.now function.now.body.now function.now.result.now (seen_in scene.now) }
{
    param.width.is_none()
        && (stmts_sign(scene, function.body, &param.name)
            || signs(scene, function.result, &param.name))
}

/// A parameter, and whether the function reads it by `signed`, are known from now on.
fn set_param(
    alloc: Global,
    scene: &mut Scene,
    function: &Function,
    at: u64,
    param: &Param,
) -> Result<(), AllocError>
    ensures { let f = function.now in OnOk result (seen_in scene.new
        ≡ with_param f.name.now at param.now f.body.now f.result.now (seen_in scene.old)) }
{
    if reads_sign(scene, function, param) {
        return set_sign(alloc, scene, function.name, at);
    }
    Ok(())
}

/// Which parameters a function reads by `signed` is known from now on.
pub fn set_params(alloc: Global, scene: &mut Scene, function: &Function) -> Result<(), AllocError>
    ensures { let f = function.now in OnOk result (seen_in scene.new
        ≡ with_params f.name.now 0 f.params.now f.body.now f.result.now (seen_in scene.old)) }
{
    for at in 0..function.params.len() {
        set_param(alloc, scene, function, at as u64, &function.params[at])?;
    }
    Ok(())
}
