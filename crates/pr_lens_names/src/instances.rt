//! Names with their indices.

ghost use Rattle.std.specs.Prelude.{◌≡◌, ◌++◌, ◌+◌, ◌<◌, OnOk};
ghost use Rattle.pr_lens_names.specs.Instances.{differs_behind, first_index, first_place, first_turn_text, has_place, instance_text, is_assigned_at, is_index, is_same_instance, is_target, is_target_word, last_number, less_of, low_before, low_of, may_assign, may_be_assigned, more_of, number_before, place_by, target_around, tokens_text, turn_text};

use crate::brackets::{bytes_behind, has_index, kind_behind, last_of};
use crate::names::{Sort, sort_at};
use pr_lang::{Keyword, Kind, Symbol};
use pr_lens_source::{Source, introduced_before, is_assigning, is_semi};
use pr_lens_text::{put, put_counted};
use std::alloc::AllocError;

/// Adds the bytes of the tokens from one up to another, that one not included, and nothing of what stands between them.
pub fn put_tokens(
    message: &mut Vec<u8>,
    source: &Source,
    from: usize,
    to: usize,
) -> Result<(), AllocError>
    ensures { OnOk result (message.new.items
        ≡ message.old.items ++ tokens_text source.now.text.now source.now.tokens.now from to) }
{
    for at in from..to {
        message.extend_from_slice(source.bytes(at))?;
    }
    Ok(())
}

/// Adds a name with the index behind it as they are written, in quotes.
pub fn put_instance(message: &mut Vec<u8>, source: &Source, name: usize) -> Result<(), AllocError>
    ensures { OnOk result (message.new.items
        ≡ message.old.items ++ instance_text source.now.text.now source.now.tokens.now name) }
{
    let last = last_of(source, name);
    put(message, "`")?;
    put_tokens(message, source, name, last)?;
    message.extend_from_slice(source.bytes(last))?;
    put(message, "`")
}

/// Whether the tokens so many behind two others are written in other ways.
fn differs_behind(source: &Source, one: usize, other: usize, by: usize) -> bool
    ensures { result ≡ differs_behind source.now.text.now source.now.tokens.now one other by }
{
    bytes_behind(source, other, by) != bytes_behind(source, one, by)
}

/// Whether two names are written with the same tokens, their indices included.
pub fn is_same_instance(source: &Source, one: usize, other: usize) -> bool
    ensures { result ≡ is_same_instance source.now.text.now source.now.tokens.now one other }
{
    let behind = last_of(source, one).saturating_sub(one);
    if last_of(source, other).saturating_sub(other) != behind {
        return false;
    }
    for number in 0..behind {
        if differs_behind(source, one, other, number) {
            return false;
        }
    }
    !differs_behind(source, one, other, behind)
}

/// Whether a target stands behind this word.
fn is_target_word(kind: Kind) -> bool
    ensures { result ≡ is_target_word kind }
{
    match kind {
        Kind::Word(Keyword::Let) | Kind::Word(Keyword::Rec) | Kind::Word(Keyword::Output) => true,
        _ => false,
    }
}

/// The name that the statement introduces in which a token stands, behind `let`, `rec` or `output`.
pub fn target_around(source: &Source, token: usize) -> Option<usize>
    ensures { result ≡ target_around source.now.tokens.now token }
{
    let mut at = token;
    while 0 < at {
        at -= 1;
        let kind = source.kind(at);
        if is_semi(kind) {
            return None;
        }
        if is_target_word(kind) {
            return Some(at + 1);
        }
    }
    None
}

/// Whether a name is introduced at this token by `let` or `rec`, and so may have an index.
pub fn is_assigned_at(source: &Source, token: usize) -> bool
    ensures { result ≡ is_assigned_at source.now.tokens.now token }
{
    is_assigning(source.kind(token.saturating_sub(1)))
}

/// The number before a token that ends an index.
fn number_before(kind: Kind, next: Kind) -> Option<u64>
    ensures { result ≡ number_before kind next }
{
    match (kind, next) {
        (Kind::Number(number), Kind::Mark(Symbol::CloseSquare)) => Some(number),
        _ => None,
    }
}

/// The number so many tokens behind another one, where an index ends with it.
#[tactic(auto, unfolding(crate::specs::Instances::last_number))]
pub fn last_number(source: &Source, at: usize, by: usize) -> Option<u64>
    requires { by < 16 }
    ensures { result ≡ last_number source.now.tokens.now (at + by) }
{
    number_before(kind_behind(source, at, by), kind_behind(source, at, by + 1))
}

/// The number before the dots of a loop.
fn low_before(kind: Kind, next: Kind) -> Option<u64>
    ensures { result ≡ low_before kind next }
{
    match (kind, next) {
        (Kind::Number(low), Kind::Mark(Symbol::Dots)) => Some(low),
        _ => None,
    }
}

/// Whether this is the index of a loop.
fn is_index(sort: Sort) -> bool
    ensures { result ≡ is_index sort }
{
    matches!(sort, Sort::Index)
}

/// The first value of an index that is introduced at a token, where the loop begins with a number.
#[tactic(auto, unfolding(crate::specs::Instances::low_of))]
fn low_of(source: &Source, introduced: Option<usize>) -> Option<u64>
    ensures { result ≡ low_of source.now.tokens.now introduced }
{
    match introduced {
        None => {
            return None;
        }
        Some(token) => {
            if !is_index(sort_at(source, token)) {
                return None;
            }
            return low_before(kind_behind(source, token, 2), kind_behind(source, token, 3));
        }
    }
}

/// The first value of the index of a loop that stands at a token, where the loop begins with a number.
#[tactic(auto, unfolding(crate::specs::Instances::first_index))]
fn first_index(source: &Source, at: usize) -> Option<u64>
    ensures { result ≡ first_index source.now.text.now source.now.tokens.now source.now.spans.now at }
{
    low_of(source, introduced_before(source, at))
}

/// A number more, where there is one.
fn more_of(low: u64, number: Option<u64>) -> Option<u64>
    ensures { result ≡ more_of low number }
{
    match number {
        None => {
            return None;
        }
        Some(more) => {
            return low.checked_add(more);
        }
    }
}

/// A number less, where there is one.
fn less_of(low: u64, number: Option<u64>) -> Option<u64>
    ensures { result ≡ less_of low number }
{
    match number {
        None => {
            return None;
        }
        Some(less) => {
            return low.checked_sub(less);
        }
    }
}

/// The value of an index that begins with this one, by the token behind it and the number behind that.
fn place_by(low: u64, sign: Kind, number: Option<u64>) -> Option<u64>
    ensures { result ≡ place_by low sign number }
{
    match sign {
        Kind::Mark(Symbol::CloseSquare) => Some(low),
        Kind::Mark(Symbol::Plus) => more_of(low, number),
        Kind::Mark(Symbol::Minus) => less_of(low, number),
        _ => None,
    }
}

/// The value of the index behind a name in the first turn of the loop around it, where that is the loop's index alone,
/// or a number more or less.
#[tactic(auto, unfolding(crate::specs::Instances::first_place))]
fn first_place(source: &Source, name: usize) -> Option<u64>
    ensures { result ≡ first_place source.now.text.now source.now.tokens.now source.now.spans.now name }
{
    if !has_index(source, name) {
        return None;
    }
    match first_index(source, name + 2) {
        None => {
            return None;
        }
        Some(low) => {
            let sign = kind_behind(source, name, 3);
            return place_by(low, sign, last_number(source, name, 4));
        }
    }
}

/// Whether the index behind the target at a token has this value, or one that is not told by a number.
fn has_place(source: &Source, earlier: usize, place: u64, number: Option<u64>) -> bool
    ensures { result ≡ has_place source.now.tokens.now earlier place number }
{
    match number {
        None => {
            return has_index(source, earlier);
        }
        Some(number) => {
            return number == place;
        }
    }
}

/// Whether the statement whose target is at an earlier token may assign the instance of a name with this index.
#[tactic(auto, unfolding(crate::specs::Instances::may_assign))]
fn may_assign(source: &Source, name: usize, place: u64, earlier: usize) -> bool
    ensures { result ≡ may_assign source.now.text.now source.now.tokens.now name place earlier }
{
    if !is_assigned_at(source, earlier) {
        return false;
    }
    if source.bytes(earlier) != source.bytes(name) {
        return false;
    }
    has_place(source, earlier, place, last_number(source, earlier, 2))
}

/// Whether this is the token of a target.
pub fn is_target(target: Option<usize>, token: usize) -> bool
    ensures { result ≡ is_target target token }
{
    match target {
        None => {
            return false;
        }
        Some(target) => {
            return target == token;
        }
    }
}

/// Whether a statement before that of a name, whose target is at this token, may assign its instance with this index.
fn may_be_assigned(source: &Source, name: usize, target: Option<usize>, place: u64) -> bool
    ensures { result ≡ may_be_assigned source.now.text.now source.now.tokens.now name target place }
{
    for earlier in 0..name {
        if !is_target(target, earlier) && may_assign(source, name, place, earlier) {
            return true;
        }
    }
    false
}

/// Adds which instance it is in the first turn of a loop.
#[tactic(auto, unfolding(crate::specs::Instances::turn_text))]
fn put_turn(
    message: &mut Vec<u8>,
    source: &Source,
    name: usize,
    place: u64,
) -> Result<(), AllocError>
    ensures { OnOk result (message.new.items
        ≡ message.old.items ++ turn_text source.now.text.now source.now.tokens.now name place) }
{
    put(message, ", and in the first turn it is `")?;
    message.extend_from_slice(source.bytes(name))?;
    put_counted(message, "[", place as usize)?;
    put(message, "]`")
}

/// Adds which instance it is in the first turn of a loop, where nothing assigns that one before.
#[tactic(auto, unfolding(crate::specs::Instances::first_turn_text))]
pub fn put_first_turn(
    message: &mut Vec<u8>,
    source: &Source,
    name: usize,
    target: Option<usize>,
) -> Result<(), AllocError>
    ensures { OnOk result (message.new.items
        ≡ message.old.items ++ first_turn_text source.now.text.now source.now.tokens.now source.now.spans.now name target) }
{
    let Some(place) = first_place(source, name) else {
        return Ok(());
    };
    if may_be_assigned(source, name, target, place) {
        return Ok(());
    }
    put_turn(message, source, name, place)
}
