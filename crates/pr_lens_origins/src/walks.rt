//! For each instance of statements the number of its name.

ghost use Rattle.std.specs.Prelude.{◌≡◌, ◌++◌, ◌∷◌, [], ◌-◌, IfOk, OnOk, map};
ghost use Rattle.pr_scope_names.specs.declared.names.Static.TheVariants.{Index};
ghost use Rattle.pr_scope_names.specs.Names.{KeepsNames, bind, known_in};
ghost use Rattle.pr_lens_origins.specs.Numbers.{behind, in_turn, later, naming_of, turns};

use pr_lang::{Name, Stmt};
use pr_probe::value_of;
use pr_scope_names::{Static, Statics};
use std::alloc::{AllocError, Global};

/// So many names later.
pub fn later(at: usize, by: usize) -> usize
    ensures { result ≡ later at by }
{
    at.saturating_add(by)
}

/// How many names of streams a statement has.
#[cycle(size)]
pub fn size_of(stmt: &Stmt) -> usize
    ensures { result ≡ (naming_of stmt.now).size }
{
    match stmt {
        Stmt::Let {
            target: _,
            width: _,
            value: _,
        } => 1,
        Stmt::Rec {
            target: _,
            width: _,
            init: _,
            body: _,
        } => 1,
        Stmt::For {
            index: _,
            low: _,
            high: _,
            body,
        } => sizes_of(body),
    }
}

/// How many names of streams statements have.
#[cycle(size)]
pub fn sizes_of(stmts: &[Stmt]) -> usize
    ensures { result ≡ behind 0 (map naming_of stmts.now) }
{
    let mut total = 0;
    for stmt in stmts {
        total = later(total, size_of(stmt));
    }
    total
}

/// Adds a number.
pub fn with_number(listed: Vec<usize>, number: usize) -> Result<Vec<usize>, AllocError>
    ensures { IfOk result (λ v. v.items ≡ listed.items ++ number ∷ []) }
{
    let mut listed = listed;
    listed.push(number)?;
    Ok(listed)
}

/// The turns of a loop, and the number of the first name in its body.
#[derive(Drop)]
struct Span<'a> {
    index: &'a Name,
    from: u64,
    to: u64,
    at: usize,
}

/// Adds the numbers of statements, the first name of which has this one.
#[cycle(number)]
fn number_stmts(
    alloc: Global,
    statics: &mut Statics,
    listed: Vec<usize>,
    at: usize,
    stmts: &[Stmt],
) -> Result<Vec<usize>, AllocError>
    ensures value { IfOk result (λ v. v.items ≡ listed.items ++ in_turn (map naming_of stmts.now) at (known_in statics.old)) }
    ensures names { OnOk result (KeepsNames statics.old statics.new) }
{
    let mut listed = listed;
    let mut next = at;
    for stmt in stmts {
        listed = number_stmt(alloc, statics, listed, next, stmt)?;
        next = later(next, size_of(stmt));
    }
    Ok(listed)
}

/// Adds the numbers of a statement, the first name of which has this one.
#[cycle(number)]
pub fn number_stmt(
    alloc: Global,
    statics: &mut Statics,
    listed: Vec<usize>,
    at: usize,
    stmt: &Stmt,
) -> Result<Vec<usize>, AllocError>
    ensures value { IfOk result (λ v. v.items ≡ listed.items ++ (naming_of stmt.now).numbers at (known_in statics.old)) }
    ensures names { OnOk result (KeepsNames statics.old statics.new) }
{
    match stmt {
        Stmt::Let {
            target: _,
            width: _,
            value: _,
        } => with_number(listed, at),
        Stmt::Rec {
            target: _,
            width: _,
            init: _,
            body: _,
        } => with_number(listed, at),
        Stmt::For {
            index,
            low,
            high,
            body,
        } => {
            let from = value_of(statics, low);
            let to = value_of(statics, high);
            let span = Span {
                index,
                from,
                to,
                at,
            };
            number_turns(alloc, statics, listed, &span, body)
        }
    }
}

/// Adds the numbers of the turns of a loop.
#[cycle(number)]
fn number_turns(
    alloc: Global,
    statics: &mut Statics,
    listed: Vec<usize>,
    span: &Span,
    body: &[Stmt],
) -> Result<Vec<usize>, AllocError>
    ensures value { IfOk result (λ v. v.items ≡ listed.items ++ turns (span.now.to - span.now.from) span.now.from
        (λ i. in_turn (map naming_of body.now) span.now.at (bind span.now.index.now (Index i) (known_in statics.old)))) }
    ensures names { OnOk result (KeepsNames statics.old statics.new) }
{
    let mut listed = listed;
    for index in span.from..span.to {
        listed = number_turn(alloc, statics, listed, span, index, body)?;
    }
    Ok(listed)
}

/// Adds the numbers of one turn.
#[cycle(number)]
fn number_turn(
    alloc: Global,
    statics: &mut Statics,
    listed: Vec<usize>,
    span: &Span,
    index: u64,
    body: &[Stmt],
) -> Result<Vec<usize>, AllocError>
    ensures value { IfOk result (λ v. v.items ≡ listed.items ++ in_turn (map naming_of body.now) span.now.at
        (bind span.now.index.now (Index index) (known_in statics.old))) }
    ensures names { OnOk result (KeepsNames statics.old statics.new) }
{
    let was = statics.swap_index(alloc, span.index, Some(Static::Index(index)))?;
    let listed = number_stmts(alloc, statics, listed, span.at, body)?;
    let _turn = statics.swap_index(alloc, span.index, was)?;
    Ok(listed)
}
