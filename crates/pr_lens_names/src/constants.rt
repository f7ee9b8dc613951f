//! Names that are one number.

ghost use Rattle.std.specs.Prelude.{◌≡◌, ◌+◌, ◌<◌, ◌≤◌, length};
ghost use Rattle.pr_lens_source.specs.Introduced.{introduced_before};
ghost use Rattle.pr_lens_names.specs.Constants.{constant_at, is_word_of, kept_number, low_bits, number_behind, number_by, number_named, sole_number};

use pr_lang::Kind;
use pr_lens_source::{Source, introduced_before, is_colon, is_const, is_let, is_semi};

/// A number that a semicolon follows.
fn sole_number(kind: Kind, behind: Kind) -> Option<u64>
    ensures { result ≡ sole_number kind behind }
{
    match kind {
        Kind::Number(number) => { if is_semi(behind) { Some(number) } else { None } }
        _ => None,
    }
}

/// What a declared width keeps of a number.
fn low_bits(width: u64, number: u64) -> u64
    ensures { result ≡ low_bits width number }
{
    if width < 64 {
        number % (1 << width)
    } else {
        number
    }
}

/// The same, where both are known.
fn kept_number(width: Kind, number: Option<u64>) -> Option<u64>
    ensures { result ≡ kept_number width number }
{
    match width {
        Kind::Number(width) => match number {
            None => None,
            Some(number) => Some(low_bits(width, number)),
        },
        _ => None,
    }
}

/// The number that is behind a name, with a declared width or without one.
fn number_behind(source: &Source, name: usize) -> Option<u64>
    requires { name < length source.now.tokens.now + 2 }
    ensures { result ≡ number_behind source.now.tokens.now name }
{
    if is_colon(source.kind(name + 1)) {
        let number = sole_number(source.kind(name + 4), source.kind(name + 5));
        return kept_number(source.kind(name + 2), number);
    }
    sole_number(source.kind(name + 2), source.kind(name + 3))
}

/// What a name can be introduced as.
#[derive(Clone, Copy)]
pub enum Named {
    /// By `const`.
    Constant,
    /// By `let`.
    Stream,
}

/// Whether a constant or a stream is introduced behind this token.
fn is_word_of(named: Named, kind: Kind) -> bool
    ensures { result ≡ is_word_of named kind }
{
    match named {
        Named::Constant => is_const(kind),
        Named::Stream => is_let(kind),
    }
}

/// The number that a name is, where it is introduced so at this token, and is one number.
#[tactic(auto, unfolding(crate::specs::Constants::number_named))]
fn number_named(named: Named, source: &Source, name: usize) -> Option<u64>
    requires { name < length source.now.tokens.now + 2 }
    ensures { result ≡ number_named named source.now.tokens.now name }
{
    if is_word_of(named, source.kind(name.saturating_sub(1))) {
        number_behind(source, name)
    } else {
        None
    }
}

/// The number that the constant or the stream of a name is.
pub fn number_of_name(named: Named, source: &Source, at: usize) -> Option<u64>
    requires { at ≤ length source.now.tokens.now + 2 }
    ensures { result ≡ number_by named source.now.tokens.now
        (introduced_before source.now.text.now source.now.tokens.now source.now.spans.now at) }
{
    match introduced_before(source, at) {
        None => None,
        Some(name) => number_named(named, source, name),
    }
}

/// The number that a token is, or the constant of its name.
#[tactic(auto, unfolding(crate::specs::Constants::constant_at))]
pub fn constant_at(source: &Source, at: usize) -> Option<u64>
    requires { at ≤ length source.now.tokens.now + 2 }
    ensures { result
        ≡ constant_at source.now.text.now source.now.tokens.now source.now.spans.now at }
{
    match source.kind(at) {
        Kind::Number(number) => Some(number),
        Kind::Name => number_of_name(Named::Constant, source, at),
        _ => None,
    }
}
