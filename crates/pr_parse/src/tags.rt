//! The numbers of tokens.

ghost use Rattle.std.specs.Prelude.{◌≡◌};
ghost use Rattle.pr_lang.specs.Word.{keyword_tag as number_of_keyword, symbol_tag as number_of_symbol};
ghost use Rattle.pr_parse.specs.Kinds.{kind_tag};

use pr_lang::{Keyword, Kind, Symbol};

pub fn keyword_tag(keyword: Keyword) -> u8
    ensures { result ≡ number_of_keyword keyword }
{
    match keyword {
        Keyword::Input => 4,
        Keyword::Output => 5,
        Keyword::Const => 6,
        Keyword::Fn => 7,
        Keyword::Return => 8,
        Keyword::Let => 9,
        Keyword::Rec => 10,
        Keyword::By => 11,
        Keyword::For => 12,
        Keyword::Within => 13,
        Keyword::Cat => 14,
    }
}

pub fn symbol_tag(symbol: Symbol) -> u8
    ensures { result ≡ number_of_symbol symbol }
{
    match symbol {
        Symbol::Colon => 15,
        Symbol::Semi => 16,
        Symbol::Assign => 17,
        Symbol::OpenRound => 18,
        Symbol::CloseRound => 19,
        Symbol::OpenSquare => 20,
        Symbol::CloseSquare => 21,
        Symbol::OpenCurly => 22,
        Symbol::CloseCurly => 23,
        Symbol::Comma => 24,
        Symbol::Dots => 25,
        Symbol::At => 26,
        Symbol::Ask => 27,
        Symbol::Plus => 28,
        Symbol::Minus => 29,
        Symbol::Star => 30,
        Symbol::Slash => 31,
        Symbol::Percent => 32,
        Symbol::Amp => 33,
        Symbol::Bar => 34,
        Symbol::Caret => 35,
        Symbol::Tilde => 36,
        Symbol::ShiftLeft => 37,
        Symbol::ShiftRight => 38,
        Symbol::Equal => 39,
        Symbol::NotEqual => 40,
        Symbol::Less => 41,
        Symbol::LessEqual => 42,
        Symbol::Greater => 43,
        Symbol::GreaterEqual => 44,
    }
}

/// The number of a kind of tokens: all names have one, and so have all numbers.
pub fn tag_of(kind: Kind) -> u8
    ensures { result ≡ kind_tag kind }
{
    match kind {
        Kind::Name => 0,
        Kind::Number(_) => 1,
        Kind::End => 2,
        Kind::Bad => 3,
        Kind::Word(keyword) => keyword_tag(keyword),
        Kind::Mark(symbol) => symbol_tag(symbol),
    }
}
