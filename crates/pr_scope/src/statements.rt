//! The walk over a statement.
ghost use Rattle.std.specs.Prelude.{◌≡◌, ◌<◌, ◌≤◌, ◌-◌, ◌^◌, IfOk, None, OnOk, map, nat_lt};
ghost use Rattle.pr_scope_names.specs.Outcomes.{Gives, and_then};
ghost use Rattle.pr_scope_names.specs.Names.{KeepsNames, assign, horizon_in, is_free, known_in, streams_in};
ghost use Rattle.pr_scope.specs.Statements.{change_of, changes_of, completed, fits, for_ready, is_width, let_ready, progress_of, rec_begun, rec_body, rec_ready, stmt_past_of, stmts_past_of, turn, turns};

use crate::expressions::{Scene, has_past, walk};
use pr_lang::{Expr, Fixed, Name, Ref, Stmt};
use pr_scope_names::{
    Count, Instance, Offence, Rule, Statics, Stop, Streams, constant, count_one, place,
};
use std::alloc::Global;

/// What stands before the target is introduced.
#[derive(Clone, Copy)]
pub struct Ready {
    pub place: Option<u64>,
    pub count: Count,
}

/// The values of a loop's index, from `low` on and below `high`.
#[derive(Clone, Copy)]
pub struct Span {
    pub low: u64,
    pub high: u64,
    pub count: Count,
}

/// A stream that a name is given to.
#[derive(Clone, Copy)]
pub struct Let<'a> {
    pub target: &'a Ref,
    pub width: Option<u64>,
    pub value: &'a Expr,
}

/// A recurrence.
#[derive(Clone, Copy)]
pub struct Rec<'a> {
    pub target: &'a Ref,
    pub width: Option<u64>,
    pub init: &'a Fixed,
    pub body: &'a Expr,
}

/// A loop's index with its values, and whether the loop stands in a function's body.
#[derive(Clone, Copy)]
pub struct Loop<'a> {
    pub index: &'a Name,
    pub span: Span,
    pub inside: bool,
}

/// A turn of a loop, at one value of its index.
#[derive(Clone, Copy)]
pub struct LoopTurn<'a> {
    pub index: &'a Name,
    pub at: u64,
    pub inside: bool,
}

/// Whether a declared width, where there is one, is a width.
pub fn has_width(width: Option<u64>) -> bool
    ensures { result ≡ is_width width }
{
    match width {
        None => true,
        Some(bits) => 1 <= bits && bits <= 128,
    }
}

/// Whether a number is below 2 to the power of the width, where there is one.
fn within_width(width: Option<u64>, number: u64) -> bool
    ensures { result ≡ fits width number }
{
    match width {
        None => true,
        Some(bits) => has_bits(bits, number),
    }
}

fn has_bits(bits: u64, number: u64) -> bool
    ensures { result ≡ nat_lt number (2 ^ bits) }
{
    if bits >= 64 {
        return true;
    }
    number < 1 << bits
}

/// Whether a name is not visible.
pub fn is_new(statics: &Statics, streams: &Streams, name: &Name) -> bool
    ensures { result ≡ is_free name.now (known_in statics.now) (streams_in streams.now) }
{
    statics.get(name).is_none() && !streams.has_name(name)
}

fn before_let(
    statics: &Statics,
    streams: &Streams,
    inside: bool,
    count: Count,
    stmt: &Let,
) -> Result<Ready, Offence>
    ensures value { result
        ≡ let_ready stmt.now.target.now stmt.now.width stmt.now.value.now
        (known_in statics.now) (streams_in streams.now) inside count }
    ensures grows { IfOk result (λ r. count.turns < r.count.turns) }
{
    let count = count_one(count, 0)?;
    let index = place(statics, stmt.target)?;
    if !has_width(stmt.width) {
        return Err(Offence::Breaks(Rule::Bounds));
    }
    let scene = Scene { own: None, inside };
    let count = walk(statics, streams, &scene, count, stmt.value)?;
    Ok(Ready {
        place: index,
        count,
    })
}

/// An instance is introduced.
pub fn assign_stream(
    alloc: Global,
    statics: &Statics,
    streams: &mut Streams,
    name: &Name,
    place: Option<u64>,
) -> Result<(), Stop>
    ensures { Gives result (λ _. streams_in streams.new)
        (assign name.now place (known_in statics.now) (streams_in streams.old)) }
{
    if statics.get(name).is_some() || streams.has(name, place) {
        return Err(Offence::Breaks(Rule::Introduced).into());
    }
    streams.add(alloc, name, place)?;
    Ok(())
}

/// A target is introduced.
pub fn complete(
    alloc: Global,
    statics: &Statics,
    streams: &mut Streams,
    name: &Name,
    ready: Ready,
) -> Result<Count, Stop>
    ensures walk { Gives result (progress_of streams.new)
        (completed name.now (known_in statics.now) (streams_in streams.old) ready) }
    ensures same_count { IfOk result (λ c. c ≡ ready.count) }
{
    assign_stream(alloc, statics, streams, name, ready.place)?;
    Ok(ready.count)
}

fn let_stmt(
    alloc: Global,
    statics: &Statics,
    streams: &mut Streams,
    inside: bool,
    count: Count,
    stmt: &Let,
) -> Result<Count, Stop>
    ensures walk { Gives result (progress_of streams.new) (and_then
        (let_ready stmt.now.target.now stmt.now.width stmt.now.value.now
        (known_in statics.now) (streams_in streams.old) inside count)
        (completed stmt.now.target.now.name (known_in statics.now) (streams_in streams.old))) }
    ensures grows { IfOk result (λ c. count.turns < c.turns) }
{
    let ready = before_let(statics, streams, inside, count, stmt)?;
    complete(alloc, statics, streams, &stmt.target.name, ready)
}

fn begin_rec(statics: &Statics, count: Count, stmt: &Rec) -> Result<Ready, Offence>
    ensures value { result
        ≡ rec_begun stmt.now.target.now stmt.now.width stmt.now.init.now (known_in statics.now) count }
    ensures grows { IfOk result (λ r. count.turns < r.count.turns) }
{
    let count = count_one(count, 0)?;
    let index = place(statics, stmt.target)?;
    if !has_width(stmt.width) {
        return Err(Offence::Breaks(Rule::Bounds));
    }
    let number = constant(statics, stmt.init)?;
    if !within_width(stmt.width, number) {
        return Err(Offence::Breaks(Rule::Recurrences));
    }
    Ok(Ready {
        place: index,
        count,
    })
}

fn body_of_rec(
    alloc: Global,
    statics: &Statics,
    streams: &Streams,
    inside: bool,
    begun: Ready,
    stmt: &Rec,
) -> Result<Ready, Stop>
    ensures walk { Gives result (λ r. r)
        (rec_body stmt.now.target.now.name stmt.now.body.now
        (known_in statics.now) (streams_in streams.now) inside begun) }
    ensures grows { IfOk result (λ r. begun.count.turns ≤ r.count.turns) }
{
    let own = Instance {
        name: stmt.target.name.copy(alloc)?,
        index: begun.place,
    };
    let scene = Scene {
        own: Some(own),
        inside,
    };
    let count = walk(statics, streams, &scene, begun.count, stmt.body)?;
    Ok(Ready {
        place: begun.place,
        count,
    })
}

fn before_rec(
    alloc: Global,
    statics: &Statics,
    streams: &Streams,
    inside: bool,
    count: Count,
    stmt: &Rec,
) -> Result<Ready, Stop>
    ensures walk { Gives result (λ r. r)
        (rec_ready stmt.now.target.now stmt.now.width stmt.now.init.now stmt.now.body.now
        (known_in statics.now) (streams_in streams.now) inside count) }
    ensures grows { IfOk result (λ r. count.turns < r.count.turns) }
{
    let begun = begin_rec(statics, count, stmt)?;
    body_of_rec(alloc, statics, streams, inside, begun, stmt)
}

fn rec_stmt(
    alloc: Global,
    statics: &Statics,
    streams: &mut Streams,
    inside: bool,
    count: Count,
    stmt: &Rec,
) -> Result<Count, Stop>
    ensures walk { Gives result (progress_of streams.new) (and_then
        (rec_ready stmt.now.target.now stmt.now.width stmt.now.init.now stmt.now.body.now
        (known_in statics.now) (streams_in streams.old) inside count)
        (completed stmt.now.target.now.name (known_in statics.now) (streams_in streams.old))) }
    ensures grows { IfOk result (λ c. count.turns < c.turns) }
{
    let ready = before_rec(alloc, statics, streams, inside, count, stmt)?;
    complete(alloc, statics, streams, &stmt.target.name, ready)
}

/// A loop's bounds, and its index, which has to be new.
fn before_for(
    statics: &Statics,
    streams: &Streams,
    count: Count,
    index: &Name,
    low: &Fixed,
    high: &Fixed,
) -> Result<Span, Offence>
    ensures value { result
        ≡ for_ready index.now low.now high.now (known_in statics.now) (streams_in streams.now) count }
    ensures grows { IfOk result (λ s. count.turns < s.count.turns) }
    ensures free { OnOk result (known_in statics.now index.now ≡ None) }
{
    let count = count_one(count, 0)?;
    let low = constant(statics, low)?;
    let high = constant(statics, high)?;
    if !is_new(statics, streams, index) {
        return Err(Offence::Breaks(Rule::Introduced));
    }
    Ok(Span { low, high, count })
}

/// The count after a statement, whose walk begins with this count. No other names than streams are visible after it.
#[cycle(stmts)]
pub fn walk_stmt(
    alloc: Global,
    statics: &mut Statics,
    streams: &mut Streams,
    inside: bool,
    count: Count,
    stmt: &Stmt,
) -> Result<Count, Stop>
    ensures walk { Gives result (progress_of streams.new)
        (change_of stmt.now (known_in statics.old) inside (progress_of streams.old count)) }
    ensures same { OnOk result (known_in statics.new ≡ known_in statics.old) }
    ensures names { OnOk result (KeepsNames statics.old statics.new) }
    ensures horizon { horizon_in statics.new ≡ horizon_in statics.old }
    ensures grows { IfOk result (λ c. count.turns < c.turns) }
{
    match stmt {
        Stmt::Let {
            target,
            width,
            value,
        } => {
            let stmt = Let {
                target,
                width: *width,
                value,
            };
            let_stmt(alloc, statics, streams, inside, count, &stmt)
        }
        Stmt::Rec {
            target,
            width,
            init,
            body,
        } => {
            let stmt = Rec {
                target,
                width: *width,
                init,
                body,
            };
            rec_stmt(alloc, statics, streams, inside, count, &stmt)
        }
        Stmt::For {
            index,
            low,
            high,
            body,
        } => {
            let span = before_for(statics, streams, count, index, low, high)?;
            let all = Loop {
                index,
                span,
                inside,
            };
            walk_turns(alloc, statics, streams, &all, body)
        }
    }
}

#[cycle(stmts)]
#[tactic(auto, using(crate::proofs::Walks::turns_next))]
fn walk_turns(
    alloc: Global,
    statics: &mut Statics,
    streams: &mut Streams,
    all: &Loop,
    body: &[Stmt],
) -> Result<Count, Stop>
    requires { known_in statics.old all.now.index.now ≡ None }
    ensures walk { Gives result (progress_of streams.new)
        (turns (all.now.span.high - all.now.span.low) all.now.span.low
        (turn all.now.index.now (map change_of body.now) (known_in statics.old) all.now.inside)
        (progress_of streams.old all.now.span.count)) }
    ensures same { OnOk result (known_in statics.new ≡ known_in statics.old) }
    ensures names { OnOk result (KeepsNames statics.old statics.new) }
    ensures horizon { horizon_in statics.new ≡ horizon_in statics.old }
    ensures grows { IfOk result (λ c. all.now.span.count.turns ≤ c.turns) }
{
    let mut count = all.span.count;
    for at in all.span.low..all.span.high {
        let one = LoopTurn {
            index: all.index,
            at,
            inside: all.inside,
        };
        count = walk_turn(alloc, statics, streams, count, &one, body)?;
    }
    Ok(count)
}

#[cycle(stmts)]
fn walk_turn(
    alloc: Global,
    statics: &mut Statics,
    streams: &mut Streams,
    count: Count,
    one: &LoopTurn,
    body: &[Stmt],
) -> Result<Count, Stop>
    requires { known_in statics.old one.now.index.now ≡ None }
    ensures walk { Gives result (progress_of streams.new)
        (turn one.now.index.now (map change_of body.now) (known_in statics.old) one.now.inside one.now.at
        (progress_of streams.old count)) }
    ensures same { OnOk result (known_in statics.new ≡ known_in statics.old) }
    ensures names { OnOk result (KeepsNames statics.old statics.new) }
    ensures horizon { horizon_in statics.new ≡ horizon_in statics.old }
    ensures grows { IfOk result (λ c. count.turns < c.turns) }
{
    let count = count_one(count, 0)?;
    statics.set_index(alloc, one.index, one.at)?;
    let count = walk_stmts(alloc, statics, streams, one.inside, count, body)?;
    statics.unset_index(one.index);
    Ok(count)
}

/// The count after these statements.
#[cycle(stmts)]
pub fn walk_stmts(
    alloc: Global,
    statics: &mut Statics,
    streams: &mut Streams,
    inside: bool,
    count: Count,
    stmts: &[Stmt],
) -> Result<Count, Stop>
    ensures walk { Gives result (progress_of streams.new)
        (changes_of stmts.now (known_in statics.old) inside (progress_of streams.old count)) }
    ensures same { OnOk result (known_in statics.new ≡ known_in statics.old) }
    ensures names { OnOk result (KeepsNames statics.old statics.new) }
    ensures horizon { horizon_in statics.new ≡ horizon_in statics.old }
    ensures grows { IfOk result (λ c. count.turns ≤ c.turns) }
{
    let mut count = count;
    for stmt in stmts {
        count = walk_stmt(alloc, statics, streams, inside, count, stmt)?;
    }
    Ok(count)
}

/// Whether the text has `@` or `rec`, or a call of a function that has a past.
#[cycle(stmt_past)]
fn stmt_has_past(statics: &Statics, stmt: &Stmt) -> bool
    ensures { result ≡ stmt_past_of stmt.now (known_in statics.now) }
{
    match stmt {
        Stmt::Let { value, .. } => has_past(statics, value),
        Stmt::Rec { .. } => true,
        Stmt::For { body, .. } => any_stmt_past(statics, body),
    }
}

/// Whether one of these statements has a past.
#[cycle(stmt_past)]
pub fn any_stmt_past(statics: &Statics, stmts: &[Stmt]) -> bool
    ensures { result ≡ stmts_past_of stmts.now (known_in statics.now) }
{
    for stmt in stmts {
        if stmt_has_past(statics, stmt) {
            return true;
        }
    }
    false
}
