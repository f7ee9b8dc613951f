//! Names that are introduced again, used before they are assigned, or stand for something else.

ghost use Rattle.std.specs.Prelude.{◌≡◌, ◌<◌, ◌++◌, IfSome, OnOk, length};
ghost use Rattle.pr_lens_source.specs.Kinds.{is_fn};
ghost use Rattle.pr_lens_rules.specs.Uses.{again_behind, again_text, alone_text, another_kind_text, apart_text, assign_text, behind_text, called_text, early_behind, early_text, halves_text, indexed_sort, instance_of_own_text, is_apart, is_outside, is_recurrence_of, is_signed, known_text, other_text, outside_text, own_text, recurrence_behind, sort_in, stream_text, unassigned_by, unassigned_text, unknown_by, unknown_text, usage_before, usage_text};

use crate::crossed::is_crossed;
use pr_lang::{Keyword, Kind, Symbol};
use pr_lens_names::{
    Introduction, Sort, introduction_of, is_assigned_at, is_same_instance, is_target, kind_behind,
    put_first_turn, put_instance, put_introduction, put_place, put_quoted, square_around,
    target_around,
};
use pr_lens_source::{Source, is_fn, is_rec};
use pr_lens_text::put;
use std::alloc::AllocError;

/// What to do about two names, which may have an index or not.
fn apart_text(assigned: bool) -> &'static str
    ensures { result.now ≡ apart_text assigned }
{
    if assigned {
        "Give one of the two another name, or tell them apart by an index.\n"
    } else {
        "Give one of the two another name.\n"
    }
}

/// What to do about a name that has no introduction before.
fn alone_text(signed: bool) -> &'static str
    ensures { result.now ≡ alone_text signed }
{
    if signed {
        "`signed` is a function that is there from the beginning: choose another name.\n"
    } else {
        "It is so in every turn of the loop around it: tell the instances apart by the loop's index, as in `a[i]`.\n"
    }
}

/// Whether this is the name of the function that is there from the beginning.
pub fn is_signed(source: &Source, token: usize) -> bool
    ensures { result ≡ is_signed source.now.text.now source.now.tokens.now token }
{
    source.bytes(token) == b"signed".as_slice()
}

/// Tells where a name was introduced before, and what to do.
fn put_again(
    message: &mut Vec<u8>,
    source: &Source,
    token: usize,
    introduced: Option<Introduction>,
) -> Result<(), AllocError>
    ensures { OnOk result (message.new.items
        ≡ message.old.items ++ again_behind source.now.text.now source.now.tokens.now token introduced) }
{
    match introduced {
        None => put(message, alone_text(is_signed(source, token))),
        Some(introduction) => {
            put_introduction(message, source, token, introduction)?;
            let first = is_assigned_at(source, introduction.token);
            let second = is_assigned_at(source, token);
            put(message, apart_text(first && second))
        }
    }
}

/// Tells why a name cannot be introduced again.
#[tactic(auto, unfolding(crate::specs::Uses::again_text))]
pub fn introduced_again(
    message: &mut Vec<u8>,
    source: &Source,
    token: usize,
) -> Result<(), AllocError>
    ensures { OnOk result (message.new.items ≡ message.old.items
        ++ again_text source.now.text.now source.now.tokens.now source.now.spans.now token) }
{
    put_instance(message, source, token)?;
    put(message, " is introduced a second time.\n")?;
    put_again(message, source, token, introduction_of(source, token))
}

/// What to do where the target of a statement is used in it, by the word before the target.
fn own_text(word: Kind) -> &'static str
    ensures { result.now ≡ own_text word }
{
    match word {
        Kind::Word(Keyword::Rec) =>
            "In the body of its recurrence it is what earlier samples made of it: write `@1` behind it for the sample before.\n",
        Kind::Word(Keyword::Let) =>
            "A `let` does not see itself: for feedback write a `rec`, as in `rec s:8 = 0 by s@1 + x`.\n",
        _ =>
            "An `output` does not see itself: for feedback write a `rec` before it, as in `rec s:8 = 0 by s@1 + x`.\n",
    }
}

/// Whether a token stands in a function, and another one before it outside.
#[tactic(auto, unfolding(crate::specs::Uses::is_outside))]
fn is_outside(source: &Source, earlier: usize, token: usize) -> bool
    ensures { result ≡ is_outside source.now.tokens.now source.now.spans.now earlier token }
{
    let item = source.item_at(token);
    source.item_at(earlier) != item && is_fn(source.kind(source.first(item)))
}

fn outside_text(outside: bool) -> &'static str
    ensures { result.now ≡ outside_text outside }
{
    if outside {
        "A function sees no stream from outside: pass it as a parameter.\n"
    } else {
        "This instance of it is not assigned there: with another index, or without one, it is another stream.\n"
    }
}

/// Tells what to do about an instance of a name that is not assigned, where the name is introduced before.
#[tactic(auto, unfolding(crate::specs::Uses::other_text))]
fn tell_other(
    message: &mut Vec<u8>,
    source: &Source,
    token: usize,
    introduction: Introduction,
) -> Result<(), AllocError>
    ensures { OnOk result (message.new.items ≡ message.old.items
        ++ other_text source.now.text.now source.now.tokens.now source.now.spans.now token introduction) }
{
    put_introduction(message, source, token, introduction)?;
    let outside = is_outside(source, introduction.token, token);
    put(message, outside_text(outside))
}

/// What to do about a name that is not introduced before it is used.
#[tactic(auto, unfolding(crate::specs::Uses::assign_text))]
fn assign_text() -> &'static str
    ensures { result.now ≡ assign_text }
{
    "Assign it in an item before this one, or see whether another name is meant.\n"
}

/// Whether one of two tokens stands in a function, and the other outside.
#[tactic(auto, unfolding(crate::specs::Uses::is_apart))]
fn is_apart(source: &Source, one: usize, other: usize) -> bool
    ensures { result ≡ is_apart source.now.tokens.now source.now.spans.now one other }
{
    is_outside(source, one, other) || is_outside(source, other, one)
}

/// Whether a recurrence begins with a token, its name is that of another token, and no function parts them.
#[tactic(auto, unfolding(crate::specs::Uses::is_recurrence_of))]
fn is_recurrence_of(source: &Source, token: usize, first: usize) -> bool
    requires { first < length source.now.tokens.now }
    ensures { result ≡ is_recurrence_of source.now.text.now source.now.tokens.now source.now.spans.now token first }
{
    is_rec(source.kind(first))
        && source.bytes(first + 1) == source.bytes(token)
        && !is_apart(source, first, token)
}

/// The first recurrence of the name of a token behind it, where no function parts them.
fn recurrence_behind(source: &Source, token: usize) -> Option<usize>
    ensures within { IfSome result (λ first. first < length source.now.tokens.now) }
    ensures first { result ≡ recurrence_behind source.now.text.now source.now.tokens.now source.now.spans.now token }
{
    for first in token..source.tokens.len() {
        if is_recurrence_of(source, token, first) {
            return Some(first);
        }
    }
    None
}

/// What to do where two recurrences read each other.
#[tactic(auto, unfolding(crate::specs::Uses::halves_text))]
fn halves_text() -> &'static str
    ensures { result.now ≡ halves_text }
{
    "A `rec` reads its own past and what stands before it. Two that read each other are one of two halves, as in `rec s:16 = 0 by cat(s@1{7..0} ^ a, s@1{15..8} ^ b);` with `s{15..8}` and `s{7..0}`.\n"
}

/// Tells that the recurrence that begins with a token assigns what is read before it.
#[tactic(auto, unfolding(crate::specs::Uses::behind_text))]
fn tell_behind(message: &mut Vec<u8>, source: &Source, first: usize) -> Result<(), AllocError>
    ensures { OnOk result (message.new.items
        ≡ message.old.items ++ behind_text source.now.text.now source.now.tokens.now first) }
{
    put(message, "The `rec` at ")?;
    put_place(message, source, first)?;
    put(
        message,
        " assigns this name. Move this behind it, or, where that `rec` needs it, write it into its body.\n",
    )
}

/// Tells what to do about a name that is not introduced before, and perhaps by a recurrence behind it.
fn tell_unknown_by(
    message: &mut Vec<u8>,
    source: &Source,
    token: usize,
    target: Option<usize>,
    behind: Option<usize>,
) -> Result<(), AllocError>
    requires { IfSome behind (λ first. first < length source.now.tokens.now) }
    ensures { OnOk result (message.new.items ≡ message.old.items
        ++ unknown_by source.now.text.now source.now.tokens.now token target behind) }
{
    match behind {
        None => {
            return put(message, assign_text());
        }
        Some(first) => {
            if is_crossed(source, token, target, first) {
                return put(message, halves_text());
            }
            return tell_behind(message, source, first);
        }
    }
}

/// What to do about an instance of a name in a statement that assigns an instance of it.
#[tactic(auto, unfolding(crate::specs::Uses::instance_of_own_text))]
fn instance_of_own_text() -> &'static str
    ensures { result.now ≡ instance_of_own_text }
{
    "This statement assigns an instance of it. Assign the one that is read in an item before, or see whether another index is meant.\n"
}

/// Tells what to do about an instance that is not assigned, in a statement with this target.
fn tell_by(
    message: &mut Vec<u8>,
    source: &Source,
    token: usize,
    target: Option<usize>,
    introduced: Option<Introduction>,
) -> Result<(), AllocError>
    ensures { let source = source.now in OnOk result (message.new.items ≡ message.old.items
        ++ unassigned_by source.text.now source.tokens.now source.spans.now token target introduced) }
{
    match introduced {
        None => {
            let behind = recurrence_behind(source, token);
            return tell_unknown_by(message, source, token, target, behind);
        }
        Some(introduction) => {
            if is_target(target, introduction.token) {
                return put(message, instance_of_own_text());
            }
            return tell_other(message, source, token, introduction);
        }
    }
}

#[tactic(auto, unfolding(crate::specs::Uses::unassigned_text))]
fn tell_unassigned(
    message: &mut Vec<u8>,
    source: &Source,
    token: usize,
    target: Option<usize>,
) -> Result<(), AllocError>
    ensures { let source = source.now in OnOk result (message.new.items ≡ message.old.items
        ++ unassigned_text source.text.now source.tokens.now source.spans.now token target) }
{
    tell_by(
        message,
        source,
        token,
        target,
        introduction_of(source, token),
    )
}

/// Tells what to do about an instance that is used before it is assigned, in a statement with this target.
fn tell_early(
    message: &mut Vec<u8>,
    source: &Source,
    token: usize,
    target: Option<usize>,
) -> Result<(), AllocError>
    ensures { let source = source.now in OnOk result (message.new.items ≡ message.old.items
        ++ early_behind source.text.now source.tokens.now source.spans.now token target) }
{
    match target {
        None => {
            return tell_unassigned(message, source, token, None);
        }
        Some(own) => {
            if is_same_instance(source, own, token) {
                return put(message, own_text(source.kind(own.saturating_sub(1))));
            }
            return tell_unassigned(message, source, token, Some(own));
        }
    }
}

/// Tells why an instance of a name is not assigned where it is used, and what to do.
#[tactic(auto, unfolding(crate::specs::Uses::early_text))]
pub fn used_too_early(
    message: &mut Vec<u8>,
    source: &Source,
    token: usize,
) -> Result<(), AllocError>
    ensures { OnOk result (message.new.items ≡ message.old.items
        ++ early_text source.now.text.now source.now.tokens.now source.now.spans.now token) }
{
    let target = target_around(source, token);
    put_instance(message, source, token)?;
    put(message, " is used before it is assigned")?;
    put_first_turn(message, source, token, target)?;
    put(message, ".\n")?;
    tell_early(message, source, token, target)
}

fn sort_in(introduced: Option<Introduction>) -> Option<Sort>
    ensures { result ≡ sort_in introduced }
{
    match introduced {
        None => None,
        Some(introduction) => Some(introduction.sort),
    }
}

/// What the name stands for in whose index a token stands.
#[tactic(auto, unfolding(crate::specs::Uses::indexed_sort))]
fn indexed_sort(source: &Source, token: usize) -> Option<Sort>
    ensures { result ≡ indexed_sort source.now.text.now source.now.tokens.now source.now.spans.now token }
{
    let Some(square) = square_around(source, token) else {
        return None;
    };
    sort_in(introduction_of(source, square.saturating_sub(1)))
}

/// How a name of this sort is called.
#[tactic(auto, unfolding(crate::specs::Uses::called_text))]
fn called_text(sort: Option<Sort>) -> &'static str
    ensures { result.now ≡ called_text sort }
{
    match sort {
        None => "It is called, but no function of that name is visible here.\n",
        Some(Sort::Function) => "A function does not see itself: write a loop in its place.\n",
        Some(_) => "It is called, and only a function can be.\n",
    }
}

/// What stands in the place of a stream, by what it stands in the index of.
fn stream_text(indexed: Option<Sort>) -> &'static str
    ensures { result.now ≡ stream_text indexed }
{
    match indexed {
        Some(Sort::Table) =>
            "The index of a table is a constant: where a stream is to choose, write a tree of choices on its bits, as in `k{0..0} ? 7 : 3`.\n",
        Some(Sort::Stream) =>
            "An index is a constant and tells instances apart: where a stream is to choose one, compare it with each index, as in `k == 0 ? t[0] : k == 1 ? t[1] : t[2]`. A bit that a stream chooses is `(x >> k){0..0}`.\n",
        _ =>
            "Delays, places of bits, bounds of loops, tables and indices are built from numbers, constants, entries of tables and indices alone.\n",
    }
}

/// How a name of this sort is used, by what it stands in the index of.
#[tactic(auto, unfolding(crate::specs::Uses::usage_text))]
fn usage_text(indexed: Option<Sort>, sort: Option<Sort>) -> &'static str
    ensures { result.now ≡ usage_text indexed sort }
{
    match sort {
        None =>
            "It is to be a constant, a table, an index or a function, and none of that name is visible here.\n",
        Some(Sort::Table) => "A table has an index behind it, as in `c[0]`.\n",
        Some(Sort::Function) => "A function is called, with its arguments in brackets.\n",
        Some(Sort::Constant) | Some(Sort::Index) =>
            "A constant or an index has no index behind it.\n",
        Some(Sort::Stream) | Some(Sort::Parameter) => stream_text(indexed),
    }
}

/// How a name of this sort is used, by the token behind it.
#[tactic(auto, unfolding(crate::specs::Uses::usage_before, crate::specs::Uses::earlier_text))]
fn usage_before(behind: Kind, indexed: Option<Sort>, sort: Option<Sort>) -> &'static str
    ensures { result.now ≡ usage_before behind indexed sort }
{
    match behind {
        Kind::Mark(Symbol::OpenRound) => called_text(sort),
        Kind::Mark(Symbol::At) =>
            "Only a stream has earlier samples, so only a stream stands before `@`.\n",
        _ => usage_text(indexed, sort),
    }
}

/// Tells that a name is not introduced before.
#[tactic(auto, unfolding(crate::specs::Uses::unknown_text))]
fn tell_unknown(message: &mut Vec<u8>, source: &Source, token: usize) -> Result<(), AllocError>
    ensures { OnOk result (message.new.items
        ≡ message.old.items ++ unknown_text source.now.text.now source.now.tokens.now token) }
{
    put_quoted(message, source, token)?;
    put(message, " is not introduced before.\n")
}

/// Tells where a name is introduced, or that it is not.
fn tell_known(
    message: &mut Vec<u8>,
    source: &Source,
    token: usize,
    introduced: Option<Introduction>,
) -> Result<(), AllocError>
    ensures { OnOk result (message.new.items
        ≡ message.old.items ++ known_text source.now.text.now source.now.tokens.now token introduced) }
{
    match introduced {
        None => tell_unknown(message, source, token),
        Some(introduction) => put_introduction(message, source, token, introduction),
    }
}

/// Tells how a name is used that is not visible or stands for something else.
#[tactic(auto, unfolding(crate::specs::Uses::another_kind_text))]
pub fn of_another_kind(
    message: &mut Vec<u8>,
    source: &Source,
    token: usize,
) -> Result<(), AllocError>
    ensures { OnOk result (message.new.items ≡ message.old.items
        ++ another_kind_text source.now.text.now source.now.tokens.now source.now.spans.now token) }
{
    let introduced = introduction_of(source, token);
    tell_known(message, source, token, introduced)?;
    let behind = kind_behind(source, token, 1);
    let indexed = indexed_sort(source, token);
    put(message, usage_before(behind, indexed, sort_in(introduced)))
}
