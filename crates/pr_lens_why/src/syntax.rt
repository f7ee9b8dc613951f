//! Wrong tokens.

ghost use Rattle.std.specs.Prelude.{◌≡◌, ◌≤◌, ◌++◌, OnOk, true, length};
ghost use Rattle.std.specs.List.{flat_map, list_any, slice_get};
ghost use Rattle.pr_lens_source.specs.Tokens.{end_of};
ghost use Rattle.pr_lens_names.specs.Pieces.{quoted};
ghost use Rattle.pr_lens_why.specs.Syntax.{advice_text, bad_number_text, bad_text, chain_text, comma_before, expected_pieces, file_text, follows_text, has, help_text, in_expression_text, is_bad, is_beginning, is_cat, is_comparison, is_digit_there, is_first_behind, is_letter_there, is_nothing, is_operator, is_update_near, joined, listed_text, lone_slip, missing_before, near_slip, no_token_text, operand_pieces, operand_text, operator_text, piece_where, slip_at, symbol_piece, symbol_text_for, syntax_text, whole_file_text, word_piece, word_text_for, wrong_text};
ghost use Rattle.pr_lens_why.specs.Messages.{TellsSyntax};

use crate::slips::{
    Slip, colon_slip, is_spelled, is_update, minus_slip, pair_slip, second_behind, word_before,
    word_behind, word_slip,
};
use pr_lang::{Keyword, Kind, Symbol};
use pr_lens_find::{Expected, expected_at};
use pr_lens_names::{put_in_quotes, put_quoted};
use pr_lens_source::Source;
use pr_lens_text::put;
use std::alloc::{AllocError, Global};

/// Whether one of these symbols is spelled so.
#[tactic(auto, unfolding(crate::specs::Syntax::has))]
fn has(symbols: &[Symbol], spelling: &str) -> bool
    ensures { result ≡ has symbols.now spelling.now }
{
    symbols.iter().any(|s| s.as_str() == spelling)
}

fn is_comparison(symbol: Symbol) -> bool
    ensures { result ≡ is_comparison symbol }
{
    match symbol {
        Symbol::Equal | Symbol::NotEqual => true,
        Symbol::Less | Symbol::LessEqual | Symbol::Greater | Symbol::GreaterEqual => true,
        _ => false,
    }
}

/// Whether the symbol is an operator between two operands.
fn is_operator(symbol: Symbol) -> bool
    ensures { result ≡ is_operator symbol }
{
    match symbol {
        Symbol::Plus | Symbol::Minus | Symbol::Star | Symbol::Slash | Symbol::Percent => true,
        Symbol::Amp | Symbol::Bar | Symbol::Caret => true,
        Symbol::ShiftLeft | Symbol::ShiftRight => true,
        _ => is_comparison(symbol),
    }
}

/// Whether an expression can begin with the symbol.
fn is_beginning(symbol: Symbol) -> bool
    ensures { result ≡ is_beginning symbol }
{
    matches!(symbol, Symbol::Tilde | Symbol::OpenRound)
}

/// The operators that may stand.
#[tactic(auto, unfolding(crate::specs::Syntax::operator_text))]
fn operator_text(symbols: &[Symbol]) -> &'static str
    ensures { result.now ≡ operator_text symbols.now }
{
    if !has(symbols, "&") {
        return "an operator of `+ - * / %`";
    }
    if has(symbols, "<") {
        return "an operator";
    }
    "an operator that is no comparison"
}

/// The number or the expression that may stand.
#[tactic(auto, unfolding(crate::specs::Syntax::operand_text))]
fn operand_text(symbols: &[Symbol]) -> &'static str
    ensures { result.now ≡ operand_text symbols.now }
{
    if has(symbols, "~") {
        return "an expression";
    }
    if has(symbols, "(") {
        return "a constant expression";
    }
    "a number"
}

/// A comma before all but the first.
fn comma_before(first: bool) -> &'static str
    ensures { result.now ≡ comma_before first }
{
    if first { "" } else { ", " }
}

/// Adds a piece where it is told.
#[tactic(auto, unfolding(crate::specs::Syntax::joined, crate::specs::Syntax::is_first_behind))]
fn put_piece(
    message: &mut Vec<u8>,
    first: &mut bool,
    told: bool,
    words: &str,
) -> Result<(), AllocError>
    ensures text { OnOk result (message.new.items
        ≡ message.old.items ++ joined first.old (piece_where told words.now)) }
    ensures first { OnOk result (first.new ≡ is_first_behind first.old (piece_where told words.now)) }
{
    if !told {
        return Ok(());
    }
    put(message, comma_before(*first))?;
    put(message, words)?;
    *first = false;
    Ok(())
}

/// Adds a piece in quotes where it is told.
#[tactic(auto, unfolding(crate::specs::Syntax::joined, crate::specs::Syntax::is_first_behind))]
fn put_quoted_piece(
    message: &mut Vec<u8>,
    first: &mut bool,
    told: bool,
    words: &str,
) -> Result<(), AllocError>
    ensures text { OnOk result (message.new.items
        ≡ message.old.items ++ joined first.old (piece_where told (quoted words.now))) }
    ensures first { OnOk result (first.new ≡ is_first_behind first.old (piece_where told (quoted words.now))) }
{
    if !told {
        return Ok(());
    }
    put(message, comma_before(*first))?;
    put_in_quotes(message, words.as_bytes())?;
    *first = false;
    Ok(())
}

/// Adds names, numbers, and what begins an expression.
#[tactic(auto, unfolding(crate::specs::Syntax::operand_pieces))]
fn put_operands(
    message: &mut Vec<u8>,
    first: &mut bool,
    expected: &Expected,
) -> Result<(), AllocError>
    ensures text { let e = expected.now in OnOk result (message.new.items
        ≡ message.old.items ++ joined first.old (operand_pieces e.number e.name e.symbols.items)) }
    ensures first { let e = expected.now in OnOk result (first.new
        ≡ is_first_behind first.old (operand_pieces e.number e.name e.symbols.items)) }
{
    if expected.number {
        return put_piece(message, first, true, operand_text(&expected.symbols));
    }
    put_piece(message, first, expected.name, "a name")
}

/// Adds a symbol, where it is told by itself.
fn put_symbol(
    message: &mut Vec<u8>,
    first: &mut bool,
    number: bool,
    symbol: Symbol,
) -> Result<(), AllocError>
    ensures text { OnOk result (message.new.items
        ≡ message.old.items ++ joined first.old (symbol_piece number symbol)) }
    ensures first { OnOk result (first.new ≡ is_first_behind first.old (symbol_piece number symbol)) }
{
    let begins = is_beginning(symbol) && number;
    let told = !is_operator(symbol) && !begins;
    put_quoted_piece(message, first, told, symbol.as_str())
}

/// Adds the symbols that are told by themselves.
fn put_symbols(
    message: &mut Vec<u8>,
    first: &mut bool,
    number: bool,
    symbols: &[Symbol],
) -> Result<(), AllocError>
    ensures text { OnOk result (message.new.items
        ≡ message.old.items ++ joined first.old (flat_map (symbol_piece number) symbols.now)) }
    ensures first { OnOk result (first.new
        ≡ is_first_behind first.old (flat_map (symbol_piece number) symbols.now)) }
{
    for symbol in symbols {
        put_symbol(message, first, number, *symbol)?;
    }
    Ok(())
}

/// Whether one of these is an operator.
fn has_operator(symbols: &[Symbol]) -> bool
    ensures { result ≡ list_any is_operator symbols.now }
{
    symbols.iter().any(|s| is_operator(*s))
}

/// Adds all operators as one.
fn put_operators(
    message: &mut Vec<u8>,
    first: &mut bool,
    symbols: &[Symbol],
) -> Result<(), AllocError>
    ensures text { OnOk result (message.new.items ≡ message.old.items
        ++ joined first.old (piece_where (list_any is_operator symbols.now) (operator_text symbols.now))) }
    ensures first { OnOk result (first.new
        ≡ is_first_behind first.old (piece_where (list_any is_operator symbols.now) (operator_text symbols.now))) }
{
    let told = has_operator(symbols);
    put_piece(message, first, told, operator_text(symbols))
}

fn is_cat(keyword: Keyword) -> bool
    ensures { result ≡ is_cat keyword }
{
    matches!(keyword, Keyword::Cat)
}

/// Adds a word, where it is told.
fn put_word(
    message: &mut Vec<u8>,
    first: &mut bool,
    number: bool,
    keyword: Keyword,
) -> Result<(), AllocError>
    ensures text { OnOk result (message.new.items
        ≡ message.old.items ++ joined first.old (word_piece number keyword)) }
    ensures first { OnOk result (first.new ≡ is_first_behind first.old (word_piece number keyword)) }
{
    let begins = number && is_cat(keyword);
    put_quoted_piece(message, first, !begins, keyword.as_str())
}

/// Adds the words.
fn put_words(
    message: &mut Vec<u8>,
    first: &mut bool,
    number: bool,
    keywords: &[Keyword],
) -> Result<(), AllocError>
    ensures text { OnOk result (message.new.items
        ≡ message.old.items ++ joined first.old (flat_map (word_piece number) keywords.now)) }
    ensures first { OnOk result (first.new
        ≡ is_first_behind first.old (flat_map (word_piece number) keywords.now)) }
{
    for keyword in keywords {
        put_word(message, first, number, *keyword)?;
    }
    Ok(())
}

/// Adds all pieces of what could stand there.
fn put_pieces(message: &mut Vec<u8>, expected: &Expected) -> Result<(), AllocError>
    ensures { OnOk result (message.new.items
        ≡ message.old.items ++ joined true (expected_pieces expected.now)) }
{
    let mut first = true;
    put_operands(message, &mut first, expected)?;
    put_symbols(message, &mut first, expected.number, &expected.symbols)?;
    put_operators(message, &mut first, &expected.symbols)?;
    put_words(message, &mut first, expected.number, &expected.keywords)?;
    put_piece(message, &mut first, expected.end, "the end of the text")
}

/// Whether a letter follows on a token directly.
fn is_before_letter(source: &Source, token: usize) -> bool
    ensures { let text = source.now.text.now in
        result ≡ is_letter_there (slice_get text (end_of text source.now.tokens.now token)) }
{
    match source.text.get(source.end(token)) {
        None => false,
        Some(byte) => {
            (b'A' <= *byte && *byte <= b'Z') || (b'a' <= *byte && *byte <= b'z') || *byte == b'_'
        }
    }
}

fn follows_text(letter: bool) -> &'static str
    ensures { result.now ≡ follows_text letter }
{
    if letter {
        " is followed by a letter directly.\n"
    } else {
        " is above 18446744073709551615.\n"
    }
}

/// Adds why digits are no number.
#[tactic(auto, unfolding(crate::specs::Syntax::bad_number_text))]
fn put_bad_number(message: &mut Vec<u8>, source: &Source, token: usize) -> Result<(), AllocError>
    ensures { OnOk result (message.new.items
        ≡ message.old.items ++ bad_number_text source.now.text.now source.now.tokens.now token) }
{
    if source.bytes(token) == b"0x".as_slice() {
        return put(message, "Behind `0x` a hexadecimal digit has to follow.\n");
    }
    put(message, "No number: ")?;
    put_quoted(message, source, token)?;
    put(message, follows_text(is_before_letter(source, token)))
}

/// Whether a token begins with a digit.
fn is_digit_first(bytes: &[u8]) -> bool
    ensures { result ≡ is_digit_there (slice_get bytes.now 0) }
{
    match bytes.first() {
        None => false,
        Some(byte) => b'0' <= *byte && *byte <= b'9',
    }
}

#[tactic(auto, unfolding(crate::specs::Syntax::no_token_text))]
fn no_token_text() -> &'static str
    ensures { result.now ≡ no_token_text }
{
    "No token begins with this byte. Beside blanks and comments, which begin with `//`, a text has names, numbers, words and symbols in ASCII alone.\n"
}

/// Adds what is wrong with bytes that are no token.
#[tactic(auto, unfolding(crate::specs::Syntax::bad_text))]
fn put_bad(message: &mut Vec<u8>, source: &Source, token: usize) -> Result<(), AllocError>
    ensures { OnOk result (message.new.items
        ≡ message.old.items ++ bad_text source.now.text.now source.now.tokens.now token) }
{
    if is_digit_first(source.bytes(token)) {
        return put_bad_number(message, source, token);
    }
    put(message, no_token_text())
}

fn is_bad(kind: Kind) -> bool
    ensures { result ≡ is_bad kind }
{
    matches!(kind, Kind::Bad)
}

/// Adds what is wrong with a token.
#[tactic(auto, unfolding(crate::specs::Syntax::wrong_text))]
fn put_wrong(message: &mut Vec<u8>, source: &Source, token: usize) -> Result<(), AllocError>
    ensures { OnOk result (message.new.items
        ≡ message.old.items ++ wrong_text source.now.text.now source.now.tokens.now token) }
{
    if is_bad(source.kind(token)) {
        return put_bad(message, source, token);
    }
    put_quoted(message, source, token)?;
    put(message, " cannot stand here.\n")
}

fn chain_text(comparison: bool) -> &'static str
    ensures { result.now ≡ chain_text comparison }
{
    if comparison {
        "Comparisons do not chain: put brackets around one, as in `(a < b) == c`.\n"
    } else {
        ""
    }
}

/// What to do about a symbol that cannot stand in an expression.
#[tactic(auto, unfolding(crate::specs::Syntax::in_expression_text))]
fn in_expression_text(symbol: Symbol) -> &'static str
    ensures { result.now ≡ in_expression_text symbol }
{
    match symbol {
        Symbol::Slash | Symbol::Percent =>
            "`/` and `%` are for constants: `x >> 3` divides a stream by 8, and `x{2..0}` is the remainder.\n",
        Symbol::Assign => "Two numbers are compared by `==`.\n",
        _ => chain_text(is_comparison(symbol)),
    }
}

/// What to do about a symbol that cannot stand there.
#[tactic(auto, unfolding(crate::specs::Syntax::symbol_text_for))]
fn symbol_text_for(symbols: &[Symbol], symbol: Symbol) -> &'static str
    ensures { result.now ≡ symbol_text_for symbols.now symbol }
{
    if !has(symbols, "&") {
        return "";
    }
    in_expression_text(symbol)
}

/// What is missing before a token that could begin an operand, or a statement.
#[tactic(auto, unfolding(crate::specs::Syntax::missing_before))]
fn missing_before(symbols: &[Symbol], operand: bool) -> &'static str
    ensures { result.now ≡ missing_before symbols.now operand }
{
    if !has(symbols, ";") {
        return "";
    }
    if operand && has(symbols, "+") {
        "Perhaps a `;` or an operator is missing before it.\n"
    } else {
        "Perhaps a `;` is missing before it.\n"
    }
}

/// What to do about a word of the language, where a name can stand or none.
fn word_text_for(name: bool, symbols: &[Symbol]) -> &'static str
    ensures { result.now ≡ word_text_for name symbols.now }
{
    if name {
        return "A word of the language is no name: choose another one.\n";
    }
    missing_before(symbols, false)
}

/// What to do about a token of this kind that cannot stand there.
#[tactic(auto, unfolding(crate::specs::Syntax::advice_text))]
fn advice_text(name: bool, symbols: &[Symbol], kind: Kind) -> &'static str
    ensures { result.now ≡ advice_text name symbols.now kind }
{
    match kind {
        Kind::Name | Kind::Number(_) | Kind::Word(Keyword::Cat) => missing_before(symbols, true),
        Kind::Mark(Symbol::OpenRound) | Kind::Mark(Symbol::Tilde) => missing_before(symbols, true),
        Kind::Mark(symbol) => symbol_text_for(symbols, symbol),
        Kind::Word(_) => word_text_for(name, symbols),
        Kind::End => missing_before(symbols, false),
        Kind::Bad => "",
    }
}

/// Whether `+=` or its like stand at a wrong token or beside it.
#[tactic(auto, unfolding(crate::specs::Syntax::is_update_near))]
fn is_update_near(before: &[u8], wrong: &[u8], behind: &[u8], second: &[u8]) -> bool
    ensures { result ≡ is_update_near before.now wrong.now behind.now second.now }
{
    is_update(before, wrong) || is_update(wrong, behind) || is_update(behind, second)
}

/// A habit from another language, by the words beside the wrong one.
#[tactic(auto, unfolding(crate::specs::Syntax::near_slip))]
fn near_slip(before: &[u8], wrong: &[u8], behind: &[u8], second: &[u8]) -> Option<Slip>
    ensures { result ≡ near_slip before.now wrong.now behind.now second.now }
{
    if is_update_near(before, wrong, behind, second) {
        return Some(Slip::Update);
    }
    pair_slip(before, wrong).or(word_slip(before, wrong, behind))
}

/// A habit from another language, by the wrong token alone and what could stand in its place.
#[tactic(auto, unfolding(crate::specs::Syntax::lone_slip))]
fn lone_slip(wrong: &[u8], number: bool, symbols: &[Symbol]) -> Option<Slip>
    ensures { result ≡ lone_slip wrong.now number symbols.now }
{
    if is_spelled(wrong, "!") {
        return Some(Slip::Not);
    }
    if is_spelled(wrong, "'") {
        return Some(Slip::Based);
    }
    if is_spelled(wrong, "-") {
        return minus_slip(has(symbols, "~"), number && has(symbols, "("));
    }
    if is_spelled(wrong, ":") {
        let close = has(symbols, "]") && !has(symbols, ",");
        return colon_slip(has(symbols, ".."), close);
    }
    None
}

/// A habit from another language, at a wrong token.
#[tactic(auto, unfolding(crate::specs::Syntax::slip_at))]
fn slip_at(source: &Source, expected: &Expected, token: usize) -> Option<Slip>
    ensures { result ≡ slip_at source.now.text.now source.now.tokens.now expected.now token }
{
    let wrong = source.bytes(token);
    let before = word_before(source, token);
    let behind = word_behind(source, token);
    let near = near_slip(before, wrong, behind, second_behind(source, token));
    let lone = lone_slip(wrong, expected.number, &expected.symbols);
    near.or(lone)
}

/// What this language has in place of a habit from another one, or what a token of this kind advises.
#[tactic(auto, unfolding(crate::specs::Syntax::help_text))]
fn help_text(slip: Option<Slip>, expected: &Expected, kind: Kind) -> &'static str
    ensures { result.now ≡ help_text slip expected.now kind }
{
    match slip {
        Some(slip) => slip.advice(),
        None => advice_text(expected.name, &expected.symbols, kind),
    }
}

/// Whether nothing could stand in the place of a token.
fn is_nothing(expected: &Expected) -> bool
    ensures { result ≡ is_nothing expected.now }
{
    !expected.name
        && !expected.number
        && !expected.end
        && expected.keywords.is_empty()
        && expected.symbols.is_empty()
}

/// Adds what could stand in the place of a token, where anything could.
#[tactic(auto, unfolding(crate::specs::Syntax::listed_text))]
fn put_expected(message: &mut Vec<u8>, expected: &Expected) -> Result<(), AllocError>
    ensures { OnOk result (message.new.items ≡ message.old.items ++ listed_text expected.now) }
{
    if is_nothing(expected) {
        return Ok(());
    }
    put(message, "What could: ")?;
    put_pieces(message, expected)?;
    put(message, ".\n")
}

/// What is told of a file that is no text of a program, by what it begins with.
#[tactic(auto, unfolding(crate::specs::Syntax::file_text, crate::specs::Syntax::configuration_text, crate::specs::Syntax::checkpoint_text, crate::specs::Syntax::byte_order_text))]
fn file_text(text: &[u8]) -> &'static str
    ensures { result.now ≡ file_text text.now }
{
    if text.starts_with(b"PIP1") || text.starts_with(b"PIP2") {
        return "The file is a configuration, and no text of a program: `piperench show FILE` tells what is in it, and `piperench exec FILE SAMPLES` runs it.\n";
    }
    if text.starts_with(b"PICK") {
        return "The file is a checkpoint, and no text of a program: `piperench move FILE SAMPLES` goes on from it, and `piperench extend FILE SAMPLES` makes the next one.\n";
    }
    if text.starts_with(b"\xef\xbb\xbf") {
        return "The file begins with a byte order mark (BOM): save it without one.\n";
    }
    ""
}

/// What the first token tells of the whole file.
#[tactic(auto, unfolding(crate::specs::Syntax::whole_file_text))]
fn whole_file_text(text: &[u8], token: usize) -> &'static str
    ensures { result.now ≡ whole_file_text text.now token }
{
    if token == 0 { file_text(text) } else { "" }
}

/// Tells what is wrong with a token, what could have stood there, and what to do.
pub fn tell(
    alloc: Global,
    message: &mut Vec<u8>,
    source: &Source,
    token: usize,
) -> Result<(), AllocError>
    requires { length source.now.text.now ≤ 1048576 }
    ensures { OnOk result (TellsSyntax source.now.text.now source.now.tokens.now token
        message.old.items message.new.items) }
{
    let expected = expected_at(alloc, source, token)?;
    put_wrong(message, source, token)?;
    put_expected(message, &expected)?;
    let slip = slip_at(source, &expected, token);
    put(message, help_text(slip, &expected, source.kind(token)))?;
    put(message, whole_file_text(source.text, token))
}
