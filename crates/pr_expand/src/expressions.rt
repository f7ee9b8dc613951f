//! The equations of expressions and statements, with functions inlined and loops unrolled.
ghost use Rattle.std.specs.Prelude.{◌≡◌, IfErr, IfOk, OnOk, None, option_map, slice_get, take};
ghost use Rattle.pr_scope_names.specs.Names.{KeepsNames, known_in};
ghost use Rattle.pr_expand_spec.specs.Making.{Equations, declare_last};
ghost use Rattle.pr_expand_spec.specs.Expressions.{declared_at_operator, declared_else, made_with, plan_of};
ghost use Rattle.pr_expand_spec.specs.Statements as statements;
ghost use Rattle.pr_expand_spec.specs.Programs as programs;
ghost use Rattle.pr_expand_spec.specs.Programs.{signed_function};
ghost use Rattle.pr_expand.specs.Code.{IsPast, all_of, longer, made_of, progress_of, shapes_in, streams_in};
ghost use Rattle.pr_expand.specs.Parts.{arguments_made, body_run, call_made, expr_made, exprs_made, item_called};
ghost use Rattle.pr_expand.specs.Parts.{let_made, rec_made, recurring, stmt_made, stmts_made, turn_made, turns_made};
ghost use Rattle.pr_expand.specs.Parts.{rest_made, stood, value_made};
ghost use Rattle.pr_expand.specs.Descents.{first_in};
ghost use Rattle.pr_expand.specs.Scopes.{IsScene, callee_in};

use crate::descents::{Descent, descend};
use crate::environment::Environment;
use crate::ledgers::{AllExpanded, Expanded, Ledger, Progress, cut};
use crate::making::{choose, fit, one, two, with_width};
use crate::operands::{
    concatenate, declared, gives, op_of, place_at, refer, refer_earlier, shift, value_of,
};
use crate::stops::Stop;
use pr_expand_spec::{Given, Standing};
use pr_flat::{Op, Operand};
use pr_lang::{Expr, Fixed, Item, Name, Param, Ref, Stmt};
use pr_scope_names::{Callee, Static, Statics, amount};
use std::alloc::Global;

/// A value and its declared width, if it has one.
#[derive(Clone, Copy)]
pub struct Assigned<'a> {
    pub width: Option<u64>,
    pub expr: &'a Expr,
}

/// A recurrence.
#[derive(Clone, Copy)]
struct Rec<'a> {
    target: &'a Ref,
    init: &'a Fixed,
    body: Assigned<'a>,
}

/// The body of a recurrence, how many equations stand before it, and how many with it.
#[derive(Clone, Copy)]
struct Counted<'a> {
    first: usize,
    number: u32,
    body: Assigned<'a>,
}

/// A loop's index, its first value, and the one after its last.
#[derive(Clone, Copy)]
struct Span<'a> {
    index: &'a Name,
    from: u64,
    to: u64,
}

/// A loop's index at one of its values.
#[derive(Clone, Copy)]
struct IndexValue<'a> {
    index: &'a Name,
    at: u64,
}

/// The function that a name stands for.
fn callee_of(statics: &Statics, name: &Name) -> Option<Callee>
    ensures value { result ≡ callee_in (known_in statics.now name.now) }
{
    if let Some(known) = statics.get(name) {
        if let Static::Function(callee) = known {
            return Some(*callee);
        }
    }
    None
}

/// The equations of an expression. A loop goes down the first operands and back, as a long way of calls would need much
/// stack.
#[cycle(make)]
fn make(
    alloc: Global,
    items: &[Item],
    statics: &mut Statics,
    env: &Environment,
    ledger: Ledger,
    expr: &Expr,
) -> Result<Expanded, Stop>
    requires { IsScene items.now statics.old }
    ensures value { IfOk result (λ m. made_of m ≡ expr_made expr.now items.now statics.old env.now ledger) }
    ensures limit { IfErr result (λ s. IsPast s (expr_made expr.now items.now statics.old env.now ledger).equations) }
    ensures names { OnOk result (KeepsNames statics.old statics.new) }
{
    let Descent {
        mut around,
        innermost,
    } = descend(alloc, expr)?;
    let mut made = make_innermost(alloc, items, statics, env, ledger, innermost)?;
    while let Some(outer) = around.pop() {
        made = make_rest(alloc, items, statics, env, made, outer)?;
    }
    Ok(made)
}

/// The equations of an expression without a first operand.
#[cycle(make)]
fn make_innermost(
    alloc: Global,
    items: &[Item],
    statics: &mut Statics,
    env: &Environment,
    ledger: Ledger,
    expr: &Expr,
) -> Result<Expanded, Stop>
    requires scene { IsScene items.now statics.old }
    requires innermost { first_in expr.now ≡ None }
    ensures value { IfOk result (λ m. made_of m ≡ expr_made expr.now items.now statics.old env.now ledger) }
    ensures limit { IfErr result (λ s. IsPast s (expr_made expr.now items.now statics.old env.now ledger).equations) }
    ensures names { OnOk result (KeepsNames statics.old statics.new) }
{
    match expr {
        Expr::Number(number) => Ok(gives(ledger, Operand::Const(*number), false)),
        Expr::Refer(target) => Ok(refer(statics, env, ledger, target)),
        Expr::Delay(target, back) => refer_earlier(alloc, statics, env, ledger, target, back),
        Expr::Call(name, args) => {
            let all = make_all(alloc, items, statics, env, ledger, args)?;
            call(alloc, items, statics, name, all)
        }
        Expr::Cat(parts) => {
            let all = make_all(alloc, items, statics, env, ledger, parts)?;
            concatenate(alloc, all)
        }
        _ => unreachable!(),
    }
}

/// The equations of an expression whose first operand is made.
#[cycle(make)]
fn make_rest(
    alloc: Global,
    items: &[Item],
    statics: &mut Statics,
    env: &Environment,
    made: Expanded,
    expr: &Expr,
) -> Result<Expanded, Stop>
    requires { IsScene items.now statics.old }
    ensures value { IfOk result (λ m. made_of m ≡ rest_made expr.now items.now statics.old env.now made) }
    ensures limit { IfErr result (λ s. IsPast s (rest_made expr.now items.now statics.old env.now made).equations) }
    ensures names { OnOk result (KeepsNames statics.old statics.new) }
{
    match expr {
        Expr::Slice(_, high, low) => {
            let op = Op::Slice(value_of(statics, high), value_of(statics, low));
            one(alloc, made.ledger, op, made.given, None)
        }
        Expr::Not(_) => one(alloc, made.ledger, Op::Not, made.given, None),
        Expr::Binary(op, _, second) => match shift(*op, amount(statics, second)) {
            Some(by) => one(alloc, made.ledger, by, made.given, None),
            None => {
                let b = make(alloc, items, statics, env, made.ledger, second)?;
                two(alloc, b.ledger, op_of(*op), made.given, b.given)
            }
        },
        Expr::Choose(_, first, second) => {
            let a = make(alloc, items, statics, env, made.ledger, first)?;
            let b = make(alloc, items, statics, env, a.ledger, second)?;
            choose(alloc, b.ledger, made.given, a.given, b.given)
        }
        _ => Ok(made),
    }
}

/// The equations of several expressions, one after the other.
#[cycle(make)]
fn make_all(
    alloc: Global,
    items: &[Item],
    statics: &mut Statics,
    env: &Environment,
    ledger: Ledger,
    exprs: &[Expr],
) -> Result<AllExpanded, Stop>
    requires { IsScene items.now statics.old }
    ensures value { IfOk result (λ a. all_of a ≡ exprs_made exprs.now items.now statics.old env.now ledger) }
    ensures limit { IfErr result (λ s. IsPast s (exprs_made exprs.now items.now statics.old env.now ledger).equations) }
    ensures names { OnOk result (KeepsNames statics.old statics.new) }
{
    let mut ledger = ledger;
    let mut given = Vec::new(alloc);
    for expr in exprs {
        let part = make(alloc, items, statics, env, ledger, expr)?;
        ledger = part.ledger;
        match given.push(part.given) {
            Err(failed) => return Err(Stop::Memory(failed.into())),
            Ok(()) => {}
        }
    }
    Ok(AllExpanded { ledger, given })
}

/// The item of this number.
fn item_at(items: &[Item], number: u32) -> Option<&Item>
    ensures { option_map (λ i. i.now) result ≡ slice_get items.now number }
{
    let number = number as usize;
    if number < items.len() {
        return Some(&items[number]);
    }
    None
}

/// A call, whose arguments are made.
#[cycle(make)]
fn call(
    alloc: Global,
    items: &[Item],
    statics: &mut Statics,
    name: &Name,
    all: AllExpanded,
) -> Result<Expanded, Stop>
    requires { IsScene items.now statics.old }
    ensures value { IfOk result (λ m. made_of m ≡ call_made name.now items.now statics.old all) }
    ensures limit { IfErr result (λ s. IsPast s (call_made name.now items.now statics.old all).equations) }
    ensures names { OnOk result (KeepsNames statics.old statics.new) }
{
    match callee_of(statics, name) {
        None => Ok(gives(all.ledger, Operand::Const(0), false)),
        Some(callee) => match callee.item {
            None => Ok(signed(all)),
            Some(item) => {
                let frame = statics.enter(alloc, item);
                let made = call_item(alloc, items, statics, item_at(items, item), all)?;
                statics.leave(frame);
                Ok(made)
            }
        },
    }
}

/// The argument, read as signed.
fn signed(all: AllExpanded) -> Expanded
    ensures { made_of result ≡ signed_function all.given.items (shapes_in all.ledger) }
{
    match all.given.as_slice() {
        [given] => {
            let operand = given.operand;
            gives(all.ledger, operand, true)
        }
        _ => gives(all.ledger, Operand::Const(0), false),
    }
}

/// A call of the function that an item defines.
#[cycle(make)]
fn call_item(
    alloc: Global,
    items: &[Item],
    statics: &mut Statics,
    item: Option<&Item>,
    all: AllExpanded,
) -> Result<Expanded, Stop>
    requires { IsScene items.now statics.old }
    ensures value { IfOk result (λ m. made_of m ≡ item_called (option_map (λ i. i.now) item.entry)
        items.now statics.old all) }
    ensures limit { IfErr result (λ s. IsPast s (item_called (option_map (λ i. i.now) item.entry)
        items.now statics.old all).equations) }
    ensures names { OnOk result (KeepsNames statics.old statics.new) }
{
    match item {
        None => Ok(gives(all.ledger, Operand::Const(0), false)),
        Some(item) => match item {
            Item::Input { name: _, width: _ } => Ok(gives(all.ledger, Operand::Const(0), false)),
            Item::Output {
                name: _,
                width: _,
                value: _,
            } => Ok(gives(all.ledger, Operand::Const(0), false)),
            Item::Const { name: _, value: _ } => { Ok(gives(all.ledger, Operand::Const(0), false)) }
            Item::Table { name: _, values: _ } => {
                Ok(gives(all.ledger, Operand::Const(0), false))
            }
            Item::Function {
                name: _,
                params,
                width,
                body,
                result,
            } => {
                let begun = with_arguments(alloc, params, all)?;
                let last = Assigned {
                    width: *width,
                    expr: result,
                };
                run(alloc, items, statics, begun, body, &last)
            }
            Item::Step(_) => Ok(gives(all.ledger, Operand::Const(0), false)),
        },
    }
}

/// The statements of a function's body, and its result.
#[cycle(make)]
fn run(
    alloc: Global,
    items: &[Item],
    statics: &mut Statics,
    begun: Progress,
    body: &[Stmt],
    last: &Assigned,
) -> Result<Expanded, Stop>
    requires { IsScene items.now statics.old }
    ensures value { IfOk result (λ m. made_of m ≡ body_run body.now last.now.width last.now.expr.now
        items.now statics.old begun) }
    ensures limit { IfErr result (λ s. IsPast s (body_run body.now last.now.width last.now.expr.now
        items.now statics.old begun).equations) }
    ensures names { OnOk result (KeepsNames statics.old statics.new) }
{
    let Progress { env, ledger } = make_stmts(alloc, items, statics, begun, body)?;
    make_assigned(alloc, items, statics, &env, ledger, last)
}

/// An argument under its parameter's declared width.
fn passed(alloc: Global, ledger: Ledger, width: Option<u64>, given: Given) -> Result<Expanded, Stop>
    ensures value { IfOk result (λ m. made_of m ≡ programs.passed width given (shapes_in ledger)) }
    ensures limit { IfErr result (λ s. IsPast s (programs.passed width given (shapes_in ledger)).equations) }
{
    match declared(width) {
        None => Ok(gives(ledger, given.operand, given.signed)),
        Some(width) => fit(alloc, ledger, given, width),
    }
}

/// The streams of a function's parameters.
fn with_arguments(alloc: Global, params: &[Param], all: AllExpanded) -> Result<Progress, Stop>
    ensures value { IfOk result (λ p. progress_of p ≡ arguments_made params.now all) }
    ensures limit { IfErr result (λ s. IsPast s (arguments_made params.now all).equations) }
{
    let mut env = Environment::new(alloc);
    let mut ledger = all.ledger;
    let count = params.len().min(all.given.len());
    for i in 0..count {
        let made = passed(alloc, ledger, params[i].width, all.given[i])?;
        ledger = made.ledger;
        let standing = Standing::Stream {
            given: made.given,
            init: 0,
        };
        env.set(alloc, &params[i].name, None, standing)?;
    }
    Ok(Progress { env, ledger })
}

/// Whether an expression is an operator, without parentheses.
fn is_operator(expr: &Expr) -> bool
    ensures { result ≡ (plan_of expr.now).is_operator }
{
    match expr {
        Expr::Number(_) => false,
        Expr::Refer(_) => false,
        Expr::Delay(_, _) => false,
        Expr::Slice(_, _, _) => true,
        Expr::Not(_) => true,
        Expr::Binary(_, _, _) => true,
        Expr::Choose(_, _, _) => true,
        Expr::Call(_, _) => false,
        Expr::Cat(parts) => parts.len() >= 2,
        Expr::Paren(inner) => is_operator(inner),
    }
}

/// What is assigned, at its declared width.
#[cycle(make)]
pub fn make_assigned(
    alloc: Global,
    items: &[Item],
    statics: &mut Statics,
    env: &Environment,
    ledger: Ledger,
    value: &Assigned,
) -> Result<Expanded, Stop>
    requires { IsScene items.now statics.old }
    ensures value { IfOk result (λ m. made_of m ≡ value_made value.now.width value.now.expr.now
        items.now statics.old env.now ledger) }
    ensures limit { IfErr result (λ s. IsPast s (value_made value.now.width value.now.expr.now
        items.now statics.old env.now ledger).equations) }
    ensures names { OnOk result (KeepsNames statics.old statics.new) }
{
    let width = declared(value.width);
    let made = make(alloc, items, statics, env, ledger, value.expr)?;
    assign(alloc, made, width, is_operator(value.expr))
}

/// A declared width for what is made.
fn assign(
    alloc: Global,
    made: Expanded,
    width: Option<u8>,
    operator: bool,
) -> Result<Expanded, Stop>
    ensures value { IfOk result (λ m. made_of m ≡ declared_else operator width
        (declared_at_operator operator width (made_of made))) }
    ensures limit { IfErr result (λ s. IsPast s (declared_else operator width
        (declared_at_operator operator width (made_of made))).equations) }
{
    match width {
        None => Ok(made),
        Some(width) => {
            if operator {
                Ok(declare(made, width))
            } else {
                fit(alloc, made.ledger, made.given, width)
            }
        }
    }
}

/// A declared width for an operator's own equation.
fn declare_operator(made: Expanded, width: Option<u8>, operator: bool) -> Expanded
    ensures { made_of result ≡ declared_at_operator operator width (made_of made) }
{
    if !operator {
        return made;
    }
    match width {
        None => made,
        Some(width) => declare(made, width),
    }
}

/// The operator's own equation gets the declared width.
fn declare(made: Expanded, width: u8) -> Expanded
    ensures { made_of result ≡ made_with (made_of made) (declare_last width (shapes_in made.ledger)) }
{
    Expanded {
        ledger: with_width(made.ledger, width),
        given: made.given,
    }
}

/// The equations of statements, one after the other.
#[cycle(make)]
fn make_stmts(
    alloc: Global,
    items: &[Item],
    statics: &mut Statics,
    begun: Progress,
    stmts: &[Stmt],
) -> Result<Progress, Stop>
    requires { IsScene items.now statics.old }
    ensures value { IfOk result (λ p. progress_of p ≡ stmts_made stmts.now items.now statics.old begun) }
    ensures limit { IfErr result (λ s. IsPast s (stmts_made stmts.now items.now statics.old begun).equations) }
    ensures names { OnOk result (KeepsNames statics.old statics.new) }
{
    let mut at = begun;
    for stmt in stmts {
        at = make_stmt(alloc, items, statics, at, stmt)?;
    }
    Ok(at)
}

/// The equations of a statement.
#[cycle(make)]
pub fn make_stmt(
    alloc: Global,
    items: &[Item],
    statics: &mut Statics,
    begun: Progress,
    stmt: &Stmt,
) -> Result<Progress, Stop>
    requires { IsScene items.now statics.old }
    ensures value { IfOk result (λ p. progress_of p ≡ stmt_made stmt.now items.now statics.old begun) }
    ensures limit { IfErr result (λ s. IsPast s (stmt_made stmt.now items.now statics.old begun).equations) }
    ensures names { OnOk result (KeepsNames statics.old statics.new) }
{
    match stmt {
        Stmt::Let {
            target,
            width,
            value,
        } => {
            let value = Assigned {
                width: *width,
                expr: value,
            };
            make_let(alloc, items, statics, begun, target, &value)
        }
        Stmt::Rec {
            target,
            width,
            init,
            body,
        } => {
            let body = Assigned {
                width: *width,
                expr: body,
            };
            let stmt = Rec { target, init, body };
            make_rec(alloc, items, statics, begun, &stmt)
        }
        Stmt::For {
            index,
            low,
            high,
            body,
        } => {
            let from = value_of(statics, low);
            let to = value_of(statics, high);
            let span = Span { index, from, to };
            make_turns(alloc, items, statics, begun, &span, body)
        }
    }
}

/// The turns of a loop.
#[cycle(make)]
fn make_turns(
    alloc: Global,
    items: &[Item],
    statics: &mut Statics,
    begun: Progress,
    span: &Span,
    body: &[Stmt],
) -> Result<Progress, Stop>
    requires { IsScene items.now statics.old }
    ensures value { IfOk result (λ p. progress_of p ≡ turns_made span.now.index.now span.now.from span.now.to body.now
        items.now statics.old begun) }
    ensures limit { IfErr result (λ s. IsPast s (turns_made span.now.index.now span.now.from span.now.to body.now
        items.now statics.old begun).equations) }
    ensures names { OnOk result (KeepsNames statics.old statics.new) }
{
    let mut now = begun;
    for at in span.from..span.to {
        let turn = IndexValue {
            index: span.index,
            at,
        };
        now = make_turn(alloc, items, statics, now, &turn, body)?;
    }
    Ok(now)
}

/// One turn of a loop, with the index at this value.
#[cycle(make)]
fn make_turn(
    alloc: Global,
    items: &[Item],
    statics: &mut Statics,
    begun: Progress,
    turn: &IndexValue,
    body: &[Stmt],
) -> Result<Progress, Stop>
    requires { IsScene items.now statics.old }
    ensures value { IfOk result (λ p. progress_of p ≡ turn_made turn.now.index.now turn.now.at body.now
        items.now statics.old begun) }
    ensures limit { IfErr result (λ s. IsPast s (turn_made turn.now.index.now turn.now.at body.now
        items.now statics.old begun).equations) }
    ensures names { OnOk result (KeepsNames statics.old statics.new) }
{
    let was = statics.swap_index(alloc, turn.index, Some(Static::Index(turn.at)))?;
    let ended = make_stmts(alloc, items, statics, begun, body)?;
    let _turn = statics.swap_index(alloc, turn.index, was)?;
    Ok(ended)
}

/// An assignment.
#[cycle(make)]
fn make_let(
    alloc: Global,
    items: &[Item],
    statics: &mut Statics,
    begun: Progress,
    target: &Ref,
    value: &Assigned,
) -> Result<Progress, Stop>
    requires { IsScene items.now statics.old }
    ensures value { IfOk result (λ p. progress_of p ≡ let_made target.now value.now.width value.now.expr.now
        items.now statics.old begun) }
    ensures limit { IfErr result (λ s. IsPast s (let_made target.now value.now.width value.now.expr.now
        items.now statics.old begun).equations) }
    ensures names { OnOk result (KeepsNames statics.old statics.new) }
{
    let at = place_at(statics, target);
    let Progress { env, ledger } = begun;
    let made = make_assigned(alloc, items, statics, &env, ledger, value)?;
    named(alloc, env, &target.name, at, made)
}

/// An instance that stands for this from now on.
fn stands(
    alloc: Global,
    env: Environment,
    name: &Name,
    at: Option<u64>,
    standing: Standing,
    ledger: Ledger,
) -> Result<Progress, Stop>
    ensures value { IfOk result (λ p. progress_of p ≡ stood name.now at standing env ledger) }
    ensures limit { (es : Equations) → IfErr result (λ s. IsPast s es) }
{
    let mut env = env;
    env.set(alloc, name, at, standing)?;
    Ok(Progress { env, ledger })
}

/// An instance that is assigned; it is 0 before its first sample.
pub fn named(
    alloc: Global,
    env: Environment,
    name: &Name,
    at: Option<u64>,
    made: Expanded,
) -> Result<Progress, Stop>
    ensures value { IfOk result (λ p. progress_of p ≡ statements.named name.now at (streams_in env) (made_of made)) }
    ensures limit { (es : Equations) → IfErr result (λ s. IsPast s es) }
{
    let standing = Standing::Stream {
        given: made.given,
        init: 0,
    };
    stands(alloc, env, name, at, standing, made.ledger)
}

/// The body of a recurrence of this number.
#[cycle(make)]
fn make_body(
    alloc: Global,
    items: &[Item],
    statics: &mut Statics,
    env: &Environment,
    ledger: Ledger,
    body: &Assigned,
) -> Result<Expanded, Stop>
    requires { IsScene items.now statics.old }
    ensures value { IfOk result (λ m. made_of m ≡ recurring body.now.width body.now.expr.now
        items.now statics.old env.now (shapes_in ledger)) }
    ensures limit { IfErr result (λ s. IsPast s (recurring body.now.width body.now.expr.now
        items.now statics.old env.now (shapes_in ledger)).equations) }
    ensures names { OnOk result (KeepsNames statics.old statics.new) }
{
    let made = make(alloc, items, statics, env, ledger, body.expr)?;
    Ok(declare_operator(made, declared(body.width), is_operator(body.expr)))
}

/// The body of a recurrence that stands: the one that is made, unless the counted one has more equations. Then that one
/// is made again.
#[cycle(make)]
fn settle(
    alloc: Global,
    items: &[Item],
    statics: &mut Statics,
    env: &Environment,
    made: Expanded,
    counted: &Counted,
) -> Result<Expanded, Stop>
    requires { IsScene items.now statics.old }
    ensures value { IfOk result (λ m. made_of m ≡ longer counted.now.number
        (recurring counted.now.body.width counted.now.body.expr.now items.now statics.old env.now
        (take counted.now.first (shapes_in made.ledger))) (made_of made)) }
    ensures limit { IfErr result (λ s. IsPast s (longer counted.now.number
        (recurring counted.now.body.width counted.now.body.expr.now items.now statics.old env.now
        (take counted.now.first (shapes_in made.ledger))) (made_of made)).equations) }
    ensures names { OnOk result (KeepsNames statics.old statics.new) }
{
    if counted.number as usize <= made.ledger.equations.len() {
        return Ok(made);
    }
    let ledger = cut(made.ledger, counted.first);
    make_body(alloc, items, statics, env, ledger, &counted.body)
}

/// A recurrence: its body is made once to count its equations, and once more when its number is known.
#[cycle(make)]
fn make_rec(
    alloc: Global,
    items: &[Item],
    statics: &mut Statics,
    begun: Progress,
    stmt: &Rec,
) -> Result<Progress, Stop>
    requires { IsScene items.now statics.old }
    ensures value { IfOk result (λ p. progress_of p ≡ rec_made stmt.now.target.now stmt.now.body.width stmt.now.init.now
        stmt.now.body.expr.now items.now statics.old begun) }
    ensures limit { IfErr result (λ s. IsPast s (rec_made stmt.now.target.now stmt.now.body.width stmt.now.init.now
        stmt.now.body.expr.now items.now statics.old begun).equations) }
    ensures names { OnOk result (KeepsNames statics.old statics.new) }
{
    let at = place_at(statics, stmt.target);
    let init = value_of(statics, stmt.init);
    let Progress { mut env, ledger } = begun;
    let first = ledger.equations.len();
    env.set(alloc, &stmt.target.name, at, Standing::Own(0))?;
    let counted = make_body(alloc, items, statics, &env, ledger, &stmt.body)?;
    let number = counted.ledger.equations.len() as u32;
    let ledger = cut(counted.ledger, first);
    env.set(alloc, &stmt.target.name, at, Standing::Own(number))?;
    let made = make_body(alloc, items, statics, &env, ledger, &stmt.body)?;
    env.set(alloc, &stmt.target.name, at, Standing::Own(0))?;
    let count = Counted {
        first,
        number,
        body: stmt.body,
    };
    let made = settle(alloc, items, statics, &env, made, &count)?;
    let op = Op::Rec {
        init,
        first: first as u32,
    };
    let width = declared(stmt.body.width);
    let made = one(alloc, made.ledger, op, made.given, width)?;
    let given = Given {
        operand: made.given.operand,
        signed: false,
    };
    let standing = Standing::Stream { given, init };
    stands(alloc, env, &stmt.target.name, at, standing, made.ledger)
}
