//! Kinds of tokens.

ghost use Rattle.std.specs.Prelude.{◌≡◌};
ghost use Rattle.pr_lens_source.specs.Kinds.{assigns, begins_behind, begins_sum, binds_closer, goes_on, introduces, is_assign, is_assigning, is_at, is_by, is_close_curly, is_close_round, is_close_square, is_colon, is_comma, is_comparison, is_const, is_fn, is_for, is_input, is_let, is_minus, is_name, is_number, is_of_parameters, is_open_curly, is_open_round, is_open_square, is_rec, is_semi, is_shift, is_star, yields};

use pr_lang::{Keyword, Kind, Symbol};

/// Whether this token is a name.
pub fn is_name(kind: Kind) -> bool
    ensures { result ≡ is_name kind }
{
    matches!(kind, Kind::Name)
}

/// Whether this token is a number.
pub fn is_number(kind: Kind) -> bool
    ensures { result ≡ is_number kind }
{
    matches!(kind, Kind::Number(_))
}

/// Whether an input is introduced behind this word.
pub fn is_input(kind: Kind) -> bool
    ensures { result ≡ is_input kind }
{
    matches!(kind, Kind::Word(Keyword::Input))
}

/// Whether this is the word before the name of a constant.
pub fn is_const(kind: Kind) -> bool
    ensures { result ≡ is_const kind }
{
    matches!(kind, Kind::Word(Keyword::Const))
}

/// Whether a function begins with this token.
pub fn is_fn(kind: Kind) -> bool
    ensures { result ≡ is_fn kind }
{
    matches!(kind, Kind::Word(Keyword::Fn))
}

/// Whether this is the word before the name of a stream that `let` assigns.
pub fn is_let(kind: Kind) -> bool
    ensures { result ≡ is_let kind }
{
    matches!(kind, Kind::Word(Keyword::Let))
}

/// Whether a recurrence begins with this token.
pub fn is_rec(kind: Kind) -> bool
    ensures { result ≡ is_rec kind }
{
    matches!(kind, Kind::Word(Keyword::Rec))
}

/// Whether this is the word before the body of a recurrence.
pub fn is_by(kind: Kind) -> bool
    ensures { result ≡ is_by kind }
{
    matches!(kind, Kind::Word(Keyword::By))
}

/// Whether a loop begins with this token.
pub fn is_for(kind: Kind) -> bool
    ensures { result ≡ is_for kind }
{
    matches!(kind, Kind::Word(Keyword::For))
}

/// Whether a word introduces the name behind it.
pub fn introduces(kind: Kind) -> bool
    ensures { result ≡ introduces kind }
{
    match kind {
        Kind::Word(keyword) => match keyword {
            Keyword::Input | Keyword::Output | Keyword::Const | Keyword::Fn => true,
            Keyword::Let | Keyword::Rec | Keyword::For => true,
            Keyword::Return | Keyword::By | Keyword::Within | Keyword::Cat => false,
        },
        _ => false,
    }
}

/// Whether the name behind this word is assigned, or read from a sample.
pub fn assigns(kind: Kind) -> bool
    ensures { result ≡ assigns kind }
{
    match kind {
        Kind::Word(keyword) => match keyword {
            Keyword::Input | Keyword::Let | Keyword::Rec => true,
            _ => false,
        },
        _ => false,
    }
}

/// Whether the name behind this word is assigned, and may have an index.
pub fn is_assigning(kind: Kind) -> bool
    ensures { result ≡ is_assigning kind }
{
    matches!(kind, Kind::Word(Keyword::Let) | Kind::Word(Keyword::Rec))
}

/// Whether a result stands behind this word.
pub fn yields(kind: Kind) -> bool
    ensures { result ≡ yields kind }
{
    match kind {
        Kind::Word(keyword) => match keyword {
            Keyword::Output | Keyword::Return => true,
            _ => false,
        },
        _ => false,
    }
}

/// Whether a round bracket opens here.
pub fn is_open_round(kind: Kind) -> bool
    ensures { result ≡ is_open_round kind }
{
    matches!(kind, Kind::Mark(Symbol::OpenRound))
}

/// Whether a round bracket closes here.
pub fn is_close_round(kind: Kind) -> bool
    ensures { result ≡ is_close_round kind }
{
    matches!(kind, Kind::Mark(Symbol::CloseRound))
}

/// Whether a square bracket opens with a token.
pub fn is_open_square(kind: Kind) -> bool
    ensures { result ≡ is_open_square kind }
{
    matches!(kind, Kind::Mark(Symbol::OpenSquare))
}

/// Whether a square bracket closes with a token.
pub fn is_close_square(kind: Kind) -> bool
    ensures { result ≡ is_close_square kind }
{
    matches!(kind, Kind::Mark(Symbol::CloseSquare))
}

/// Whether a block is opened with this token.
pub fn is_open_curly(kind: Kind) -> bool
    ensures { result ≡ is_open_curly kind }
{
    matches!(kind, Kind::Mark(Symbol::OpenCurly))
}

/// Whether a block is closed with this token.
pub fn is_close_curly(kind: Kind) -> bool
    ensures { result ≡ is_close_curly kind }
{
    matches!(kind, Kind::Mark(Symbol::CloseCurly))
}

/// Whether a token is a comma.
pub fn is_comma(kind: Kind) -> bool
    ensures { result ≡ is_comma kind }
{
    matches!(kind, Kind::Mark(Symbol::Comma))
}

/// Whether this is a colon.
pub fn is_colon(kind: Kind) -> bool
    ensures { result ≡ is_colon kind }
{
    matches!(kind, Kind::Mark(Symbol::Colon))
}

/// Whether this is a semicolon.
pub fn is_semi(kind: Kind) -> bool
    ensures { result ≡ is_semi kind }
{
    matches!(kind, Kind::Mark(Symbol::Semi))
}

/// Whether this is the sign between a name and what it is.
pub fn is_assign(kind: Kind) -> bool
    ensures { result ≡ is_assign kind }
{
    matches!(kind, Kind::Mark(Symbol::Assign))
}

/// Whether a delay stands behind this token.
pub fn is_at(kind: Kind) -> bool
    ensures { result ≡ is_at kind }
{
    matches!(kind, Kind::Mark(Symbol::At))
}

/// Whether this is the sign of a product.
pub fn is_star(kind: Kind) -> bool
    ensures { result ≡ is_star kind }
{
    matches!(kind, Kind::Mark(Symbol::Star))
}

/// Whether this is a minus.
pub fn is_minus(kind: Kind) -> bool
    ensures { result ≡ is_minus kind }
{
    matches!(kind, Kind::Mark(Symbol::Minus))
}

/// Whether this is the sign of a shift.
pub fn is_shift(kind: Kind) -> bool
    ensures { result ≡ is_shift kind }
{
    matches!(
        kind,
        Kind::Mark(Symbol::ShiftLeft) | Kind::Mark(Symbol::ShiftRight)
    )
}

/// Whether this token is the sign of a comparison.
pub fn is_comparison(kind: Kind) -> bool
    ensures { result ≡ is_comparison kind }
{
    match kind {
        Kind::Mark(symbol) => match symbol {
            Symbol::Equal | Symbol::NotEqual => true,
            Symbol::Less | Symbol::LessEqual | Symbol::Greater | Symbol::GreaterEqual => true,
            _ => false,
        },
        _ => false,
    }
}

/// Whether a token can stand among the parameters of a function.
pub fn is_of_parameters(kind: Kind) -> bool
    ensures { result ≡ is_of_parameters kind }
{
    match kind {
        Kind::Name | Kind::Number(_) => true,
        Kind::Mark(symbol) => match symbol {
            Symbol::Comma | Symbol::Colon => true,
            _ => false,
        },
        _ => false,
    }
}

/// Whether an expression can begin behind a symbol whose operand is no sum before it.
fn begins_behind(symbol: Symbol) -> bool
    ensures { result ≡ begins_behind symbol }
{
    match symbol {
        Symbol::Assign | Symbol::OpenRound | Symbol::Comma => true,
        Symbol::Ask | Symbol::Colon => true,
        Symbol::Amp | Symbol::Bar | Symbol::Caret => true,
        Symbol::Equal | Symbol::NotEqual => true,
        Symbol::Less | Symbol::LessEqual | Symbol::Greater | Symbol::GreaterEqual => true,
        _ => false,
    }
}

/// Whether a sum begins behind this token.
pub fn begins_sum(kind: Kind) -> bool
    ensures { result ≡ begins_sum kind }
{
    match kind {
        Kind::Word(keyword) => match keyword {
            Keyword::By | Keyword::Return => true,
            _ => false,
        },
        Kind::Mark(symbol) => begins_behind(symbol),
        _ => false,
    }
}

/// Whether a name before this token is not the whole of an operand of a shift.
pub fn goes_on(kind: Kind) -> bool
    ensures { result ≡ goes_on kind }
{
    match kind {
        Kind::Mark(symbol) => match symbol {
            Symbol::Plus | Symbol::Minus | Symbol::Star | Symbol::At => true,
            Symbol::OpenRound | Symbol::OpenSquare | Symbol::OpenCurly => true,
            _ => false,
        },
        _ => false,
    }
}

/// Whether what stands before this token is an operand of it, before one of a difference.
pub fn binds_closer(kind: Kind) -> bool
    ensures { result ≡ binds_closer kind }
{
    matches!(
        kind,
        Kind::Mark(Symbol::Star) | Kind::Mark(Symbol::OpenCurly)
    )
}
