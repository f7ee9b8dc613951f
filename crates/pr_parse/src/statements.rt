//! Reading statements.

ghost use Rattle.std.specs.Prelude.{◌<◌, IfOk, IfErr, map, length, [], ◌∷◌};
ghost use Rattle.pr_lang.specs.Grammar.{Part, rule, TheStmt, AnyOf, Stmts};
ghost use Rattle.pr_lang.specs.Tree as tree;
ghost use Rattle.pr_lang.specs.Shape.{expr_shape, stmt_shape, listed};
ghost use Rattle.pr_lang.specs.Is.{name_tree, sign_tree};
ghost use Rattle.pr_lang.specs.declared.tokens.Symbol.TheVariants.{Semi};
ghost use Rattle.pr_parse.specs.Kinds.{kind_tag, word_of_kind};
ghost use Rattle.pr_parse.specs.Reads.{IsRead, IsFront, Fails, FrontFails};
ghost use Rattle.pr_parse.specs.Fronts.{led_value, led_name, let_part, rec_part, for_part};

use crate::build;
use crate::expressions::expr;
use crate::fault::Fault;
use crate::fixed::{fixed, target, width};
use crate::take::{begins_stmt, is, name, next_kind, take};
use pr_lang::{Expr, Keyword, Kind, Name, Stmt, Symbol, Token};
use std::alloc::Global;

/// What introduces an expression, the expression, and a semicolon.
pub fn value_after<'a>(
    alloc: Global,
    text: &[u8],
    tokens: &'a [Token],
    lead: Kind,
) -> Result<(Expr, &'a [Token]), Fault>
    requires { 3 < kind_tag lead }
    ensures ok { IfOk result (λ x. IsFront (led_value lead) text.now tokens.now x.1.now
        (sign_tree Semi ∷ expr_shape x.0 ∷ tree.word (word_of_kind lead) ∷ [])) }
    ensures err { IfErr result (λ e. FrontFails (led_value lead) text.now tokens.now e) }
    ensures shorter { IfOk result (λ x. length x.1.now < length tokens.now) }
{
    let inside = take(tokens, lead)?;
    let (value, after) = expr(alloc, text, inside)?;
    let rest = take(after, Kind::Mark(Symbol::Semi))?;
    Ok((value, rest))
}

/// A keyword and a name.
pub fn name_after<'a>(
    alloc: Global,
    text: &[u8],
    tokens: &'a [Token],
    lead: Kind,
) -> Result<(Name, &'a [Token]), Fault>
    requires { 3 < kind_tag lead }
    ensures ok { IfOk result (λ x. IsFront (led_name lead) text.now tokens.now x.1.now
        (name_tree x.0 ∷ tree.word (word_of_kind lead) ∷ [])) }
    ensures err { IfErr result (λ e. FrontFails (led_name lead) text.now tokens.now e) }
    ensures shorter { IfOk result (λ x. length x.1.now < length tokens.now) }
{
    let after = take(tokens, lead)?;
    let (bytes, rest) = name(text, after)?;
    let name = build::name(alloc, bytes)?;
    Ok((name, rest))
}

/// A statement.
#[cycle(statements)]
pub fn stmt<'a>(
    alloc: Global,
    text: &[u8],
    tokens: &'a [Token],
) -> Result<(Stmt, &'a [Token]), Fault>
    ensures ok { IfOk result (λ x. IsRead (rule TheStmt) text.now tokens.now x.1.now (stmt_shape x.0)) }
    ensures err { IfErr result (λ e. Fails (rule TheStmt) text.now tokens.now e) }
    ensures shorter { IfOk result (λ x. length x.1.now < length tokens.now) }
{
    if is(tokens, Kind::Word(Keyword::Let)) {
        return let_stmt(alloc, text, tokens);
    }
    if is(tokens, Kind::Word(Keyword::Rec)) {
        return rec_stmt(alloc, text, tokens);
    }
    for_stmt(alloc, text, tokens)
}

fn let_stmt<'a>(
    alloc: Global,
    text: &[u8],
    tokens: &'a [Token],
) -> Result<(Stmt, &'a [Token]), Fault>
    ensures ok { IfOk result (λ x. IsRead let_part text.now tokens.now x.1.now (stmt_shape x.0)) }
    ensures err { IfErr result (λ e. Fails let_part text.now tokens.now e) }
    ensures shorter { IfOk result (λ x. length x.1.now < length tokens.now) }
{
    let after = take(tokens, Kind::Word(Keyword::Let))?;
    let (target, after) = target(alloc, text, after)?;
    let (width, after) = width(text, after)?;
    let (value, rest) = value_after(alloc, text, after, Kind::Mark(Symbol::Assign))?;
    Ok((build::let_stmt(target, width, value), rest))
}

fn rec_stmt<'a>(
    alloc: Global,
    text: &[u8],
    tokens: &'a [Token],
) -> Result<(Stmt, &'a [Token]), Fault>
    ensures ok { IfOk result (λ x. IsRead rec_part text.now tokens.now x.1.now (stmt_shape x.0)) }
    ensures err { IfErr result (λ e. Fails rec_part text.now tokens.now e) }
    ensures shorter { IfOk result (λ x. length x.1.now < length tokens.now) }
{
    let after = take(tokens, Kind::Word(Keyword::Rec))?;
    let (target, after) = target(alloc, text, after)?;
    let (width, after) = width(text, after)?;
    let after = take(after, Kind::Mark(Symbol::Assign))?;
    let (init, after) = fixed(alloc, text, after)?;
    let (body, rest) = value_after(alloc, text, after, Kind::Word(Keyword::By))?;
    Ok((build::rec_stmt(target, width, init, body), rest))
}

#[cycle(statements)]
fn for_stmt<'a>(
    alloc: Global,
    text: &[u8],
    tokens: &'a [Token],
) -> Result<(Stmt, &'a [Token]), Fault>
    ensures ok { IfOk result (λ x. IsRead for_part text.now tokens.now x.1.now (stmt_shape x.0)) }
    ensures err { IfErr result (λ e. Fails for_part text.now tokens.now e) }
    ensures shorter { IfOk result (λ x. length x.1.now < length tokens.now) }
{
    let (index, after) = name_after(alloc, text, tokens, Kind::Word(Keyword::For))?;
    let after = take(after, Kind::Word(Keyword::Within))?;
    let (low, after) = fixed(alloc, text, after)?;
    let after = take(after, Kind::Mark(Symbol::Dots))?;
    let (high, after) = fixed(alloc, text, after)?;
    let after = take(after, Kind::Mark(Symbol::OpenCurly))?;
    let (body, after) = stmts(alloc, text, after)?;
    let rest = take(after, Kind::Mark(Symbol::CloseCurly))?;
    Ok((build::for_stmt(index, low, high, body), rest))
}

/// Statements, as many as there are.
#[cycle(statements)]
pub fn stmts<'a>(
    alloc: Global,
    text: &[u8],
    tokens: &'a [Token],
) -> Result<(Vec<Stmt>, &'a [Token]), Fault>
    ensures ok { IfOk result (λ x. IsRead (rule (AnyOf Stmts)) text.now tokens.now x.1.now
        (listed (map stmt_shape x.0.items))) }
    ensures err { IfErr result (λ e. Fails (rule (AnyOf Stmts)) text.now tokens.now e) }
{
    let mut list = Vec::new(alloc);
    let mut rest = tokens;
    while begins_stmt(next_kind(rest)) {
        let (next, end) = stmt(alloc, text, rest)?;
        list = build::more_stmts(list, next)?;
        rest = end;
    }
    Ok((list, rest))
}
