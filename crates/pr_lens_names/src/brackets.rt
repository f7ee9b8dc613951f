//! Brackets, and what stands in them.

ghost use Rattle.std.specs.Prelude.{◌≡◌, ◌+◌, ◌<◌, ◌≤◌, ◌==◌, ◌^◌, ◌&&◌, IsTrue, cond, if◌then◌else◌, length, nat_le};
ghost use Rattle.pr_lens_source.specs.Kinds.{is_close_square, is_comma, is_open_square, is_semi};
ghost use Rattle.pr_lens_source.specs.Tokens.{bytes_of, kind_of};
ghost use Rattle.pr_lens_names.specs.Brackets.{closing_of, last_of, parts_in, square_around};

use pr_lang::Kind;
use pr_lens_source::{
    Source, counted, depth_after, is_close_square, is_comma, is_open_square, is_semi,
};

/// The kind of the token so many behind another one, and End behind the last.
pub fn kind_behind(source: &Source, token: usize, by: usize) -> Kind
    ensures { result ≡ kind_of source.now.tokens.now (token + by) }
{
    let count = source.tokens.len();
    if count <= token || count - token <= by {
        return Kind::End;
    }
    source.kind(token + by)
}

/// The bytes of the token so many behind another one, and none behind the last.
pub fn bytes_behind<'s>(source: &'s Source, token: usize, by: usize) -> &'s [u8]
    ensures { result.now ≡ bytes_of source.now.text.now source.now.tokens.now (token + by) }
{
    let count = source.tokens.len();
    if count <= token || count - token <= by {
        return &[];
    }
    source.bytes(token + by)
}

/// 1 for a comma between the parts of brackets that are open so deep, else 0.
fn part_ends(depth: usize, kind: Kind) -> usize
    ensures value { result ≡ cond (is_comma kind && (depth == 1)) 1 0 }
    ensures few { result ≤ 1 }
{
    if is_comma(kind) && depth == 1 { 1 } else { 0 }
}

/// How many parts so many commas tell apart in brackets that are closed with a token.
fn parts_of(from: usize, close: usize, commas: usize) -> usize
    requires { commas + 1 < 2 ^ 64 }
    ensures { result ≡ (if nat_le close (from + 1) then 0 else commas + 1) }
{
    if close <= from || close - from == 1 {
        return 0;
    }
    commas + 1
}

/// How many parts, told apart by commas, stand in the brackets that open at a token.
fn parts_in(source: &Source, from: usize) -> usize
    requires { from < length source.now.tokens.now }
    ensures { result ≡ parts_in source.now.tokens.now from }
{
    let mut commas: usize = 0;
    let mut depth = 0;
    for at in from..source.tokens.len() {
        let kind = source.kind(at);
        depth = depth_after(depth, kind);
        if depth == 0 {
            return parts_of(from, at, commas);
        }
        commas += part_ends(depth, kind);
    }
    commas.saturating_add(1)
}

/// How many parts stand in the brackets that open so many tokens behind another one.
pub fn parts_behind(source: &Source, token: usize, by: usize) -> usize
    ensures { result ≡ parts_in source.now.tokens.now (token + by) }
{
    let count = source.tokens.len();
    if count <= token || count - token <= by {
        return 1;
    }
    parts_in(source, token + by)
}

/// The token with which the brackets are closed that open at a token.
fn closing_of(source: &Source, from: usize) -> Option<usize>
    ensures { result ≡ closing_of source.now.tokens.now from }
{
    let mut depth = 0;
    for at in from..source.tokens.len() {
        let kind = source.kind(at);
        depth = depth_after(depth, kind);
        if depth == 0 {
            return Some(at);
        }
    }
    None
}

/// Whether a name has an index behind it.
pub fn has_index(source: &Source, name: usize) -> bool
    ensures value { result ≡ is_open_square (kind_of source.now.tokens.now (name + 1)) }
    ensures room { IsTrue result → name + 2 < 2 ^ 64 }
{
    let count = source.tokens.len();
    if count <= name || count - name <= 1 {
        return false;
    }
    is_open_square(source.kind(name + 1))
}

/// The last token of a name and of the index behind it, where there is one.
#[tactic(auto, unfolding(crate::specs::Brackets::last_of))]
pub fn last_of(source: &Source, name: usize) -> usize
    ensures { result ≡ last_of source.now.tokens.now name }
{
    if !has_index(source, name) {
        return name;
    }
    closing_of(source, name + 1).unwrap_or(name)
}

/// The square bracket in which a token stands.
pub fn square_around(source: &Source, token: usize) -> Option<usize>
    ensures { result ≡ square_around source.now.tokens.now token }
{
    let mut closed: usize = 0;
    let mut at = token;
    while 0 < at {
        at -= 1;
        let kind = source.kind(at);
        if is_semi(kind) {
            return None;
        }
        let opens = is_open_square(kind);
        if closed == 0 && opens {
            return Some(at);
        }
        closed = counted(closed, is_close_square(kind), opens);
    }
    None
}
