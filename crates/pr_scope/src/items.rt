//! The walk over an item.
ghost use Rattle.std.specs.Prelude.{◌≡◌, ◌<◌, IfOk, None, OnOk, map};
ghost use Rattle.pr_scope_names.specs.Outcomes.{Gives, all_of};
ghost use Rattle.pr_scope_names.specs.Names.{IsOutside, KeepsNames, horizon_in, known_in, streams_in};
ghost use Rattle.pr_scope_names.specs.Constants.{constant_of};
ghost use Rattle.pr_scope.specs.Walk.{Follows, body_walk, callee_of, constant_change, function_change, have_widths, input_change, input_ready, introduced, item_change, output_change, output_ready, params_from, step_change, table_change, world_of};

use crate::expressions::{Scene, has_past, walk};
use crate::progress::WalkState;
use crate::statements::{
    Ready, any_stmt_past, assign_stream, complete, has_width, is_new, walk_stmt, walk_stmts,
};
use pr_lang::{Expr, Fixed, Item, Name, Param, Stmt};
use pr_scope_names::{
    Callee, Count, Offence, Rule, Static, Statics, Stop, Streams, Table, constant, count_one,
};
use std::alloc::Global;

/// A function without its name.
#[derive(Clone, Copy)]
pub struct Function<'a> {
    pub params: &'a [Param],
    pub width: Option<u64>,
    pub body: &'a [Stmt],
    pub value: &'a Expr,
}

fn before_input(count: Count, width: u64) -> Result<Ready, Offence>
    ensures value { result ≡ input_ready width count }
    ensures grows { IfOk result (λ r. count.turns < r.count.turns) }
    ensures byte { OnOk result (width < 256) }
{
    let count = count_one(count, 0)?;
    if !has_width(Some(width)) {
        return Err(Offence::Breaks(Rule::Bounds));
    }
    Ok(Ready { place: None, count })
}

fn before_output(
    statics: &Statics,
    streams: &Streams,
    count: Count,
    width: Option<u64>,
    value: &Expr,
) -> Result<Ready, Offence>
    ensures value { result ≡ output_ready width value.now (known_in statics.now) (streams_in streams.now) count }
    ensures grows { IfOk result (λ r. count.turns < r.count.turns) }
{
    let count = count_one(count, 0)?;
    if !has_width(width) {
        return Err(Offence::Breaks(Rule::Bounds));
    }
    let scene = Scene {
        own: None,
        inside: false,
    };
    let count = walk(statics, streams, &scene, count, value)?;
    Ok(Ready { place: None, count })
}

/// A name that stands for no stream is introduced.
fn introduce(
    alloc: Global,
    statics: &mut Statics,
    streams: &Streams,
    number: u32,
    name: &Name,
    what: Static,
) -> Result<(), Stop>
    requires { IsOutside statics.old }
    ensures known { Gives result (λ _. known_in statics.new)
        (introduced name.now what (known_in statics.old) (streams_in streams.now)) }
    ensures horizon { horizon_in statics.new ≡ horizon_in statics.old }
{
    if !is_new(statics, streams, name) {
        return Err(Offence::Breaks(Rule::Introduced).into());
    }
    statics.set(alloc, name, number, what)?;
    Ok(())
}

/// The entries of a table, from left to right.
fn entries_of(alloc: Global, statics: &Statics, values: &[Fixed]) -> Result<Vec<u64>, Stop>
    ensures { Gives result (λ v. v.items) (all_of (map (λ f. constant_of f (known_in statics.now)) values.now)) }
{
    let mut entries = Vec::new(alloc);
    for value in values {
        let number = constant(statics, value)?;
        entries.push(number)?;
    }
    Ok(entries)
}

/// The streams of a function's parameters.
fn locals_of(alloc: Global, statics: &Statics, params: &[Param]) -> Result<Streams, Stop>
    ensures { Gives result (λ s. streams_in s) (params_from params.now (known_in statics.now) (λ _. None)) }
{
    let mut streams = Streams::new(alloc);
    for param in params {
        assign_stream(alloc, statics, &mut streams, &param.name, None)?;
    }
    Ok(streams)
}

fn params_have_widths(params: &[Param]) -> bool
    ensures { result ≡ have_widths params.now }
{
    for param in params {
        if !has_width(param.width) {
            return false;
        }
    }
    true
}

/// The count of a function's body, which begins at 0.
fn walk_body(
    alloc: Global,
    statics: &mut Statics,
    locals: Streams,
    body: &[Stmt],
    value: &Expr,
) -> Result<Count, Stop>
    ensures walk { Gives result (λ c. c) (body_walk body.now value.now (known_in statics.old) (streams_in locals)) }
    ensures same { OnOk result (known_in statics.new ≡ known_in statics.old) }
    ensures names { OnOk result (KeepsNames statics.old statics.new) }
    ensures horizon { horizon_in statics.new ≡ horizon_in statics.old }
{
    let mut streams = locals;
    let begin = Count {
        turns: 0,
        deepest: 0,
    };
    let count = walk_stmts(alloc, statics, &mut streams, true, begin, body)?;
    let scene = Scene {
        own: None,
        inside: true,
    };
    let count = walk(statics, &streams, &scene, count, value)?;
    Ok(count)
}

/// What callers see of a function, whose body is walked.
fn define(
    alloc: Global,
    statics: &mut Statics,
    number: u32,
    function: &Function,
) -> Result<Callee, Stop>
    ensures walk { Gives result (λ f. f) (callee_of number function.now.params.now function.now.width
        function.now.body.now function.now.value.now (known_in statics.old)) }
    ensures same { OnOk result (known_in statics.new ≡ known_in statics.old) }
    ensures names { OnOk result (KeepsNames statics.old statics.new) }
    ensures horizon { horizon_in statics.new ≡ horizon_in statics.old }
{
    let past = any_stmt_past(statics, function.body) || has_past(statics, function.value);
    let locals = locals_of(alloc, statics, function.params)?;
    if !(params_have_widths(function.params) && has_width(function.width)) {
        return Err(Offence::Breaks(Rule::Bounds).into());
    }
    let count = walk_body(alloc, statics, locals, function.body, function.value)?;
    Ok(Callee {
        item: Some(number),
        params: function.params.len(),
        turns: count.turns,
        depth: u32::from(count.deepest) + 1,
        past,
    })
}

fn input(alloc: Global, state: &mut WalkState, name: &Name, width: u64) -> Result<(), Stop>
    ensures walk { Follows result state.old state.new (input_change name.now width) }
    ensures grows { OnOk result (state.old.count.turns < state.new.count.turns) }
{
    let ready = before_input(state.count, width)?;
    state.count = complete(alloc, &state.statics, &mut state.streams, name, ready)?;
    state.inputs.push(width as u8)?;
    Ok(())
}

fn output(
    alloc: Global,
    state: &mut WalkState,
    name: &Name,
    width: Option<u64>,
    value: &Expr,
) -> Result<(), Stop>
    ensures walk { Follows result state.old state.new (output_change name.now width value.now) }
    ensures grows { OnOk result (state.old.count.turns < state.new.count.turns) }
{
    let ready = before_output(&state.statics, &state.streams, state.count, width, value)?;
    state.count = complete(alloc, &state.statics, &mut state.streams, name, ready)?;
    state.has_output = true;
    Ok(())
}

fn constant_item(
    alloc: Global,
    state: &mut WalkState,
    number: u32,
    name: &Name,
    value: &Fixed,
) -> Result<(), Stop>
    ensures walk { Follows result state.old state.new (constant_change name.now value.now) }
    ensures grows { OnOk result (state.old.count.turns < state.new.count.turns) }
{
    let count = count_one(state.count, 0)?;
    let what = Static::Constant(constant(&state.statics, value)?);
    introduce(
        alloc,
        &mut state.statics,
        &state.streams,
        number,
        name,
        what,
    )?;
    state.count = count;
    Ok(())
}

fn table_item(
    alloc: Global,
    state: &mut WalkState,
    number: u32,
    name: &Name,
    values: &[Fixed],
) -> Result<(), Stop>
    ensures walk { Follows result state.old state.new (table_change name.now values.now) }
    ensures grows { OnOk result (state.old.count.turns < state.new.count.turns) }
{
    let count = count_one(state.count, 0)?;
    let entries = entries_of(alloc, &state.statics, values)?;
    let what = Static::Table(Table::new(entries));
    introduce(
        alloc,
        &mut state.statics,
        &state.streams,
        number,
        name,
        what,
    )?;
    state.count = count;
    Ok(())
}

fn function_item(
    alloc: Global,
    state: &mut WalkState,
    number: u32,
    name: &Name,
    function: &Function,
) -> Result<(), Stop>
    ensures walk { Follows result state.old state.new (function_change number name.now function.now.params.now
        function.now.width function.now.body.now function.now.value.now) }
    ensures grows { OnOk result (state.old.count.turns < state.new.count.turns) }
{
    let count = count_one(state.count, 0)?;
    if !is_new(&state.statics, &state.streams, name) {
        return Err(Offence::Breaks(Rule::Introduced).into());
    }
    let callee = define(alloc, &mut state.statics, number, function)?;
    state
        .statics
        .set(alloc, name, number, Static::Function(callee))?;
    state.count = count;
    Ok(())
}

fn step(alloc: Global, state: &mut WalkState, stmt: &Stmt) -> Result<(), Stop>
    ensures walk { Follows result state.old state.new (step_change stmt.now) }
    ensures grows { OnOk result (state.old.count.turns < state.new.count.turns) }
{
    state.count = walk_stmt(
        alloc,
        &mut state.statics,
        &mut state.streams,
        false,
        state.count,
        stmt,
    )?;
    Ok(())
}

/// What the items have made after this one, which has this number.
pub fn walk_item(alloc: Global, state: &mut WalkState, number: u32, item: &Item) -> Result<(), Stop>
    ensures walk { Follows result state.old state.new (item_change number item.now) }
    ensures grows { OnOk result (state.old.count.turns < state.new.count.turns) }
{
    match item {
        Item::Input { name, width } => input(alloc, state, name, *width),
        Item::Output { name, width, value } => output(alloc, state, name, *width, value),
        Item::Const { name, value } => constant_item(alloc, state, number, name, value),
        Item::Table { name, values } => table_item(alloc, state, number, name, values),
        Item::Function {
            name,
            params,
            width,
            body,
            result,
        } => {
            let function = Function {
                params,
                width: *width,
                body,
                value: result,
            };
            function_item(alloc, state, number, name, &function)
        }
        Item::Step(stmt) => step(alloc, state, stmt),
    }
}
