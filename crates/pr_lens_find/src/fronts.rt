//! Programs that end earlier.

ghost use Rattle.std.specs.Prelude.{◌≡◌, ◌≤◌, length, IfOk, IfNone, IfSome, MatchOption};
ghost use Rattle.std.specs.List.{list_any};
ghost use Rattle.pr_compile_front.specs.Refusals.{IsRead};
ghost use Rattle.pr_lens_source.specs.Tokens.{front_text};
ghost use Rattle.pr_lens_find.specs.Fronts.{IsSeen, IsUnread, IsCutFront, front_in, spot_of};
ghost use Rattle.pr_lens_find.specs.Offences.{HasNoItem, IsItemOf};
ghost use Rattle.pr_lens_find.specs.Made.{is_input, is_output, with_input, with_output, with_ends};

use pr_lang::{Expr, Item, Name, Program};
use pr_lens_items::{Cut, cut_item};
use pr_lens_source::Source;
use pr_parse::{ParseFault, parse, tokens};
use pr_scope::{ScopeFault, check};
use std::alloc::{AllocError, Global};

/// The program of a text, where it is one.
fn program_of(alloc: Global, text: &[u8]) -> Result<Option<Program>, AllocError>
    requires { length text.now ≤ 1048576 }
    ensures read { IfOk result (λ found. IfSome found (IsRead text.now)) }
    ensures none { IfOk result (λ found. IfNone found (IsUnread text.now)) }
{
    let found = tokens(alloc, text)?;
    match parse(alloc, text, &found) {
        Ok(program) => Ok(Some(program)),
        Err(ParseFault::Syntax { token: _ }) => Ok(None),
        Err(ParseFault::Limit(_)) => Ok(None),
        Err(ParseFault::Memory(error)) => Err(error),
    }
}

/// The program of the items before this one.
pub fn front_of(alloc: Global, source: &Source, item: usize) -> Result<Option<Program>, AllocError>
    requires { length source.now.text.now ≤ 1048576 }
    ensures read { let front = front_text source.now.text.now source.now.tokens.now source.now.spans.now item in
        IfOk result (λ found. IfSome found (IsRead front)) }
    ensures none { let front = front_text source.now.text.now source.now.tokens.now source.now.spans.now item in
        IfOk result (λ found. IfNone found (IsUnread front)) }
{
    program_of(alloc, source.front(item))
}

/// The tree of an item.
pub fn item_of(alloc: Global, source: &Source, item: usize) -> Result<Option<Item>, AllocError>
    requires { length source.now.text.now ≤ 1048576 }
    ensures { let source = source.now in IfOk result (λ found. MatchOption found
        (HasNoItem source.text.now source.tokens.now source.spans.now item)
        (IsItemOf source.text.now source.tokens.now source.spans.now item)) }
{
    match front_of(alloc, source, item.saturating_add(1))? {
        None => Ok(None),
        Some(mut program) => Ok(program.items.pop()),
    }
}

/// An item with its number.
#[derive(Clone, Copy)]
pub struct Part<'a> {
    pub source: Source<'a>,
    pub number: usize,
    pub item: &'a Item,
}

/// The program of the items before this one, cut off in it.
pub fn cut_front(alloc: Global, part: &Part, cut: Cut) -> Result<Option<Program>, AllocError>
    requires { length part.now.source.text.now ≤ 1048576 }
    ensures some { IfOk result (λ found. IfSome found (IsCutFront (spot_of part.now) cut)) }
    ensures none { IfOk result (λ found. IfNone found (IsUnread (front_in (spot_of part.now)))) }
{
    match front_of(alloc, &part.source, part.number)? {
        None => Ok(None),
        Some(mut program) => {
            let kept = cut_item(alloc, cut, part.item)?;
            program.items.push(kept)?;
            Ok(Some(program))
        }
    }
}

/// What the rules of scope say of a program.
#[derive(Clone, Copy)]
pub enum Seen {
    Kept,
    Broken { rule: u8, item: u32 },
    TooLong,
}

/// What the rules of scope say of a program.
pub fn see(alloc: Global, program: Program) -> Result<Seen, AllocError>
    ensures { IfOk result (IsSeen program) }
{
    match check(alloc, program) {
        Ok(_) => Ok(Seen::Kept),
        Err(ScopeFault::Scope { rule, item }) => Ok(Seen::Broken { rule, item }),
        Err(ScopeFault::Limit(_)) => Ok(Seen::TooLong),
        Err(ScopeFault::Memory(error)) => Err(error),
    }
}

/// A name that no text has.
fn unwritten(alloc: Global, bytes: &[u8]) -> Result<Name, AllocError>
    ensures { IfOk result (λ name. name ≡ bytes.now) }
{
    Ok(Name::new(Vec::from_slice(alloc, bytes)?))
}

fn has_input(items: &[Item]) -> bool
    ensures { result ≡ list_any is_input items.now }
{
    items.iter().any(|item| matches!(item, Item::Input { .. }))
}

fn has_output(items: &[Item]) -> bool
    ensures { result ≡ list_any is_output items.now }
{
    items.iter().any(|item| matches!(item, Item::Output { .. }))
}

/// The program with an input more, where it has none.
fn with_input(alloc: Global, mut program: Program) -> Result<Program, AllocError>
    ensures { IfOk result (λ ended. ended.items.items ≡ with_input program.items.items) }
{
    if has_input(&program.items) {
        return Ok(program);
    }
    let name = unwritten(alloc, b"?in")?;
    program.items.push(Item::Input { name, width: 1 })?;
    Ok(program)
}

/// The program with an output more, where it has none.
fn with_output(alloc: Global, mut program: Program) -> Result<Program, AllocError>
    ensures { IfOk result (λ ended. ended.items.items ≡ with_output program.items.items) }
{
    if has_output(&program.items) {
        return Ok(program);
    }
    let name = unwritten(alloc, b"?out")?;
    program.items.push(Item::Output {
        name,
        width: None,
        value: Expr::Number(0),
    })?;
    Ok(program)
}

/// The program with an input and an output more behind all that it has, where it has none.
pub fn with_ends(alloc: Global, program: Program) -> Result<Program, AllocError>
    ensures { IfOk result (λ ended. ended.items.items ≡ with_ends program.items.items) }
{
    let begun = with_input(alloc, program)?;
    with_output(alloc, begun)
}
