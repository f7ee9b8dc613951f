//! Kinds of tokens around products.

ghost use Rattle.std.specs.Prelude.{◌≡◌};
ghost use Rattle.pr_lens_source.specs.Kinds.{is_star};
ghost use Rattle.pr_lens_products.specs.Kinds.{goes_further, is_bare, is_held, joins, joins_with, opens, shuts};

use pr_lang::{Keyword, Kind, Symbol};
use pr_lens_source::is_star;

/// Whether the name behind this word stands for an unsigned stream whose declared width follows.
pub fn is_held(kind: Kind) -> bool
    ensures { result ≡ is_held kind }
{
    matches!(kind, Kind::Word(Keyword::Input) | Kind::Word(Keyword::Rec))
}

/// Whether a name that is assigned ends with this token where it has no declared width.
pub fn is_bare(kind: Kind) -> bool
    ensures { result ≡ is_bare kind }
{
    matches!(kind, Kind::Name | Kind::Mark(Symbol::CloseSquare))
}

/// Whether a symbol is an operator that binds looser than a product, or a comma.
fn joins_with(symbol: Symbol) -> bool
    ensures { result ≡ joins_with symbol }
{
    match symbol {
        Symbol::Comma | Symbol::Ask | Symbol::Colon => true,
        Symbol::Plus | Symbol::Minus | Symbol::ShiftLeft | Symbol::ShiftRight => true,
        Symbol::Amp | Symbol::Bar | Symbol::Caret => true,
        Symbol::Equal | Symbol::NotEqual => true,
        Symbol::Less | Symbol::LessEqual | Symbol::Greater | Symbol::GreaterEqual => true,
        _ => false,
    }
}

/// Whether a token is such an operator or a comma.
pub fn joins(kind: Kind) -> bool
    ensures { result ≡ joins kind }
{
    match kind {
        Kind::Mark(symbol) => joins_with(symbol),
        _ => false,
    }
}

/// Whether an expression begins behind this token.
pub fn opens(kind: Kind) -> bool
    ensures { result ≡ opens kind }
{
    match kind {
        Kind::Word(keyword) => match keyword {
            Keyword::By => true,
            _ => false,
        },
        Kind::Mark(symbol) => match symbol {
            Symbol::Assign | Symbol::OpenRound => true,
            _ => false,
        },
        _ => false,
    }
}

/// Whether an expression ends before this token.
pub fn shuts(kind: Kind) -> bool
    ensures { result ≡ shuts kind }
{
    matches!(
        kind,
        Kind::Mark(Symbol::Semi) | Kind::Mark(Symbol::CloseRound)
    )
}

/// Whether an expression goes on with this token behind one of its operands.
pub fn goes_further(kind: Kind) -> bool
    ensures { result ≡ goes_further kind }
{
    joins(kind) || is_star(kind)
}
