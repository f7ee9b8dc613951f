//! The longest piece at the front of a text: a gap, a token, or bytes that are none.

ghost use Rattle.std.specs.Prelude.{◌≡◌, ℕ, ◌∷◌, ◌≤◌, ◌<◌, length, drop};
ghost use Rattle.pr_lang.specs.Tokens.{keyword_of as keyword_at, symbol_of as symbol_at, letter_first, number_piece as piece_of_number, decimal_piece as piece_of_decimal, hex_piece as piece_of_hex, word_piece as piece_of_word, symbol_piece as piece_of_symbol, symbol_of, piece_from};
ghost use Rattle.pr_parse_lex.specs.Bytes.{piece_seen};
ghost use Rattle.pr_lang.specs.Spelling.{is_blank as blank};

use crate::numbers::{ByteClass, belongs, number_of, run_of};
use pr_lang::{Keyword, Kind, Symbol};

/// What stands at the front of a text, with the number of its bytes.
#[derive(Clone, Copy, Debug, PartialEq, Eq)]
pub enum Piece {
    Gap(usize),
    Whole(Kind, usize),
    Broken(usize),
}

const KEYWORDS: [Keyword; 11] = [
    Keyword::Input,
    Keyword::Output,
    Keyword::Const,
    Keyword::Fn,
    Keyword::Return,
    Keyword::Let,
    Keyword::Rec,
    Keyword::By,
    Keyword::For,
    Keyword::Within,
    Keyword::Cat,
];

/// The symbols, those of two bytes first.
const SYMBOLS: [Symbol; 30] = [
    Symbol::Dots,
    Symbol::ShiftLeft,
    Symbol::ShiftRight,
    Symbol::Equal,
    Symbol::NotEqual,
    Symbol::LessEqual,
    Symbol::GreaterEqual,
    Symbol::Colon,
    Symbol::Semi,
    Symbol::Assign,
    Symbol::OpenRound,
    Symbol::CloseRound,
    Symbol::OpenSquare,
    Symbol::CloseSquare,
    Symbol::OpenCurly,
    Symbol::CloseCurly,
    Symbol::Comma,
    Symbol::At,
    Symbol::Ask,
    Symbol::Plus,
    Symbol::Minus,
    Symbol::Star,
    Symbol::Slash,
    Symbol::Percent,
    Symbol::Amp,
    Symbol::Bar,
    Symbol::Caret,
    Symbol::Tilde,
    Symbol::Less,
    Symbol::Greater,
];

/// The keyword that these bytes are.
pub fn keyword_of(bytes: &[u8]) -> Option<Keyword>
    ensures { result ≡ keyword_at bytes.now }
{
    for keyword in KEYWORDS {
        if bytes == keyword.as_str().as_bytes() {
            return Some(keyword);
        }
    }
    None
}

/// The longest symbol at the front.
pub fn symbol_of(text: &[u8]) -> Option<Symbol>
    ensures { result ≡ symbol_at text.now }
{
    for symbol in SYMBOLS {
        if text.starts_with(symbol.as_str().as_bytes()) {
            return Some(symbol);
        }
    }
    None
}

/// Whether a name could begin at the front.
fn begins_with_letter(text: &[u8]) -> bool
    ensures { result ≡ letter_first text.now }
{
    match text {
        [] => false,
        [first, ..] => belongs(ByteClass::Letter, *first),
    }
}

/// A number of `size` bytes, whose digits follow the first `skip`.
fn number_piece(base: u64, skip: usize, size: usize, text: &[u8]) -> Piece
    requires base { 0 < base }
    requires skipped { skip ≤ size }
    requires within { size ≤ length text.now }
    ensures { piece_seen result ≡ piece_of_number base skip size text.now }
{
    if begins_with_letter(&text[size..]) {
        return Piece::Broken(size);
    }
    match number_of(base, &text[skip..size]) {
        Some(number) => Piece::Whole(Kind::Number(number), size),
        None => Piece::Broken(size),
    }
}

fn decimal_piece(text: &[u8]) -> Piece
    ensures { piece_seen result ≡ piece_of_decimal text.now }
{
    number_piece(10, 0, run_of(ByteClass::Digit, text), text)
}

fn hex_piece(text: &[u8]) -> Piece
    requires { 2 ≤ length text.now }
    ensures { piece_seen result ≡ piece_of_hex text.now }
{
    let count = run_of(ByteClass::HexDigit, &text[2..]);
    if count == 0 {
        return Piece::Broken(2);
    }
    number_piece(16, 2, 2 + count, text)
}

fn word_piece(text: &[u8]) -> Piece
    ensures { piece_seen result ≡ piece_of_word text.now }
{
    let size = run_of(ByteClass::NameByte, text);
    match keyword_of(&text[..size]) {
        Some(keyword) => Piece::Whole(Kind::Word(keyword), size),
        None => Piece::Whole(Kind::Name, size),
    }
}

fn symbol_piece(text: &[u8]) -> Piece
    ensures { piece_seen result ≡ piece_of_symbol (symbol_of text.now) }
{
    match symbol_of(text) {
        Some(symbol) => Piece::Whole(Kind::Mark(symbol), symbol.as_str().len()),
        None => Piece::Broken(1),
    }
}

fn is_blank(byte: u8) -> bool
    ensures { result ≡ blank byte }
{
    byte == b' ' || byte == b'\t' || byte == b'\r' || byte == b'\n'
}

/// The longest piece at the front of a text that begins with `first`.
pub fn front_piece(first: u8, text: &[u8]) -> Piece
    requires { text.now ≡ first ∷ drop 1 text.now }
    ensures { piece_seen result ≡ piece_from first text.now }
{
    if is_blank(first) {
        return Piece::Gap(1);
    }
    if text.starts_with(b"//") {
        return Piece::Gap(run_of(ByteClass::InComment, text));
    }
    if belongs(ByteClass::Letter, first) {
        return word_piece(text);
    }
    if text.starts_with(b"0x") {
        return hex_piece(text);
    }
    if belongs(ByteClass::Digit, first) {
        return decimal_piece(text);
    }
    symbol_piece(text)
}
