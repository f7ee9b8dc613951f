//! One token.

ghost use Rattle.std.specs.Prelude.{◌≡◌, ◌<◌, ℕ, List, IfOk, IfErr, IfSome, map, option_map, slice_range, length};
ghost use Rattle.pr_lang.specs.Word.{named, numbered, any_name, any_number};
ghost use Rattle.pr_lang.specs.Shape.{sign_of as sign, fixed_sign_of as fixed_sign};
ghost use Rattle.pr_parse.specs.Kinds.{kind_tag, pattern_of, word_of_kind, starts_item, starts_stmt, starts_param, starts_expr, starts_fixed};
ghost use Rattle.pr_parse.specs.Reads.{IsTaken, IsNotTaken, IsFound, IsOperator, IsTest};
ghost use Rattle.pr_parse.specs.Kinds.{first_kind};

use crate::fault::Fault;
use crate::tags::{symbol_tag, tag_of};
use pr_lang::{BinOp, FixedOp, Keyword, Kind, Symbol, Token};
use pr_parse_print::{fixed_sign_of, sign_of};

/// Whether the next token is of this kind, a keyword or a symbol.
#[tactic(auto, using(crate::proofs::Takes::is_test))]
pub fn is(tokens: &[Token], kind: Kind) -> bool
    requires { 3 < kind_tag kind }
    ensures { (text : List ℕ) → IsTest (pattern_of kind) text tokens.now result }
{
    tag_of(next_kind(tokens)) == tag_of(kind)
}

/// Takes a token of this kind, which is neither a name nor a number.
pub fn take(tokens: &[Token], kind: Kind) -> Result<&[Token], Fault>
    requires { 1 < kind_tag kind }
    ensures ok { (text : List ℕ) → IfOk result (λ rest. IsTaken (word_of_kind kind) text tokens.now rest.now) }
    ensures err { (text : List ℕ) → IfErr result (λ e. IsNotTaken (pattern_of kind) text tokens.now e) }
    ensures shorter { IfOk result (λ rest. length rest.now < length tokens.now) }
{
    match tokens {
        [] => Err(Fault::Wrong(0)),
        [first, rest @ ..] => {
            if tag_of(first.kind) == tag_of(kind) {
                Ok(rest)
            } else {
                Err(Fault::Wrong(tokens.len()))
            }
        }
    }
}

/// Takes a number.
pub fn number(tokens: &[Token]) -> Result<(u64, &[Token]), Fault>
    ensures ok { (text : List ℕ) → IfOk result (λ x. IsTaken (numbered x.0) text tokens.now x.1.now) }
    ensures err { (text : List ℕ) → IfErr result (λ e. IsNotTaken any_number text tokens.now e) }
    ensures shorter { IfOk result (λ x. length x.1.now < length tokens.now) }
{
    match tokens {
        [] => Err(Fault::Wrong(0)),
        [first, rest @ ..] => match first.kind {
            Kind::Number(value) => Ok((value, rest)),
            _ => Err(Fault::Wrong(tokens.len())),
        },
    }
}

/// A token's bytes.
fn bytes_of<'a>(text: &'a [u8], token: Token) -> &'a [u8]
    ensures { result.now ≡ slice_range text.now token.start token.end }
{
    let end = (token.end as usize).min(text.len());
    let start = (token.start as usize).min(end);
    &text[start..end]
}

/// Takes a name, and tells its bytes.
pub fn name<'a, 'b>(text: &'a [u8], tokens: &'b [Token]) -> Result<(&'a [u8], &'b [Token]), Fault>
    ensures ok { IfOk result (λ x. IsTaken (named x.0.now) text.now tokens.now x.1.now) }
    ensures err { IfErr result (λ e. IsNotTaken any_name text.now tokens.now e) }
{
    match tokens {
        [] => Err(Fault::Wrong(0)),
        [first, rest @ ..] => match first.kind {
            Kind::Name => Ok((bytes_of(text, *first), rest)),
            _ => Err(Fault::Wrong(tokens.len())),
        },
    }
}

/// The operator that the token is, if it is one of these.
fn operator_of(kind: Kind, ops: &[BinOp]) -> Option<BinOp>
    ensures { IsFound sign ops.now (kind_tag kind) result }
{
    let tag = tag_of(kind);
    for op in ops {
        if tag == symbol_tag(sign_of(*op)) {
            return Some(*op);
        }
    }
    None
}

/// Takes an operator, if one of these stands there.
pub fn operator<'a>(tokens: &'a [Token], ops: &[BinOp]) -> Option<(BinOp, &'a [Token])>
    ensures found { (text : List ℕ) →
        IsOperator (map sign ops.now) text tokens.now (option_map (λ x. (sign x.0, x.1.now)) result) }
    ensures shorter { IfSome result (λ x. length x.1.now < length tokens.now) }
{
    match tokens {
        [] => None,
        [first, rest @ ..] => match operator_of(first.kind, ops) {
            Some(op) => Some((op, rest)),
            None => None,
        },
    }
}

/// The same among the operators of constant expressions.
fn fixed_operator_of(kind: Kind, ops: &[FixedOp]) -> Option<FixedOp>
    ensures { IsFound fixed_sign ops.now (kind_tag kind) result }
{
    let tag = tag_of(kind);
    for op in ops {
        if tag == symbol_tag(fixed_sign_of(*op)) {
            return Some(*op);
        }
    }
    None
}

pub fn fixed_operator<'a>(tokens: &'a [Token], ops: &[FixedOp]) -> Option<(FixedOp, &'a [Token])>
    ensures found { (text : List ℕ) →
        IsOperator (map fixed_sign ops.now) text tokens.now (option_map (λ x. (fixed_sign x.0, x.1.now)) result) }
    ensures shorter { IfSome result (λ x. length x.1.now < length tokens.now) }
{
    match tokens {
        [] => None,
        [first, rest @ ..] => match fixed_operator_of(first.kind, ops) {
            Some(op) => Some((op, rest)),
            None => None,
        },
    }
}

/// The kind of the next token; Bad, which begins nothing, where there is none.
pub fn next_kind(tokens: &[Token]) -> Kind
    ensures { result ≡ first_kind tokens.now }
{
    match tokens {
        [] => Kind::Bad,
        [first, ..] => first.kind,
    }
}

pub fn begins_item(kind: Kind) -> bool
    ensures { result ≡ starts_item kind }
{
    match kind {
        Kind::Word(Keyword::Input | Keyword::Output | Keyword::Const | Keyword::Fn) => true,
        _ => begins_stmt(kind),
    }
}

pub fn begins_stmt(kind: Kind) -> bool
    ensures { result ≡ starts_stmt kind }
{
    match kind {
        Kind::Word(Keyword::Let | Keyword::Rec | Keyword::For) => true,
        _ => false,
    }
}

pub fn begins_param(kind: Kind) -> bool
    ensures { result ≡ starts_param kind }
{
    match kind {
        Kind::Name => true,
        _ => false,
    }
}

pub fn begins_expr(kind: Kind) -> bool
    ensures { result ≡ starts_expr kind }
{
    match kind {
        Kind::Name | Kind::Number(_) | Kind::Word(Keyword::Cat) => true,
        Kind::Mark(Symbol::OpenRound | Symbol::Tilde) => true,
        _ => false,
    }
}

pub fn begins_fixed(kind: Kind) -> bool
    ensures { result ≡ starts_fixed kind }
{
    match kind {
        Kind::Name | Kind::Number(_) | Kind::Mark(Symbol::OpenRound) => true,
        _ => false,
    }
}
