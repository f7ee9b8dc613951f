//! What could have stood in the place of a wrong token.

ghost use Rattle.std.specs.Prelude.{ℕ, ◌≡◌, ◌≤◌, ◌++◌, ◌∷◌, [], List, filter, length, if◌then◌else◌, IfOk, OnOk};
ghost use Rattle.pr_lang.specs.Spelling.{keyword_text, symbol_text};
ghost use Rattle.pr_lang.specs.Syntax.{refusal_of};
ghost use Rattle.pr_lens_source.specs.Tokens.{text_before};
ghost use Rattle.pr_lens_find.specs.Expected.{is_taken, is_good, with_token, can_stand, could_stand, told_keywords, told_symbols, IsExpected};

use pr_base::Cap;
use pr_lang::{Keyword, Symbol};
use pr_lens_source::Source;
use pr_parse::{ParseFault, parse, tokens};
use std::alloc::{AllocError, Global};

/// The words, in the order in which they are told.
#[tactic(auto, unfolding(crate::specs::Expected::told_keywords))]
fn told_keywords() -> [Keyword; 11]
    ensures { result ≡ told_keywords }
{
    [
        Keyword::Input,
        Keyword::Output,
        Keyword::Const,
        Keyword::Fn,
        Keyword::Let,
        Keyword::Rec,
        Keyword::For,
        Keyword::Return,
        Keyword::By,
        Keyword::Within,
        Keyword::Cat,
    ]
}

/// The symbols, in the order in which they are told.
#[tactic(auto, unfolding(crate::specs::Expected::told_symbols))]
fn told_symbols() -> [Symbol; 30]
    ensures { result ≡ told_symbols }
{
    [
        Symbol::Semi,
        Symbol::Comma,
        Symbol::Colon,
        Symbol::Assign,
        Symbol::OpenRound,
        Symbol::CloseRound,
        Symbol::OpenSquare,
        Symbol::CloseSquare,
        Symbol::OpenCurly,
        Symbol::CloseCurly,
        Symbol::Dots,
        Symbol::At,
        Symbol::Ask,
        Symbol::Tilde,
        Symbol::Plus,
        Symbol::Minus,
        Symbol::Star,
        Symbol::Slash,
        Symbol::Percent,
        Symbol::Amp,
        Symbol::Bar,
        Symbol::Caret,
        Symbol::ShiftLeft,
        Symbol::ShiftRight,
        Symbol::Equal,
        Symbol::NotEqual,
        Symbol::Less,
        Symbol::LessEqual,
        Symbol::Greater,
        Symbol::GreaterEqual,
    ]
}

/// What could stand at a place.
#[derive(Drop)]
pub struct Expected {
    pub name: bool,
    pub number: bool,
    pub end: bool,
    pub keywords: Vec<Keyword>,
    pub symbols: Vec<Symbol>,
}

/// Whether a text is refused at no token up to this one.
fn is_taken(alloc: Global, text: &[u8], at: usize) -> Result<bool, AllocError>
    requires { length text.now ≤ 1048576 }
    ensures { IfOk result (λ taken. taken ≡ is_taken (refusal_of text.now) at) }
{
    let found = tokens(alloc, text)?;
    match parse(alloc, text, &found) {
        Ok(_) => Ok(true),
        Err(ParseFault::Syntax { token }) => Ok(token as usize > at),
        Err(ParseFault::Limit(_)) => Ok(true),
        Err(ParseFault::Memory(error)) => Err(error),
    }
}

/// What stands before a token, and these bytes in its place.
fn with_token(alloc: Global, front: &[u8], bytes: &[u8]) -> Result<Vec<u8>, AllocError>
    ensures { IfOk result (λ text. text.items ≡ with_token front.now bytes.now) }
{
    let mut text = Vec::with_capacity(alloc, front.len())?;
    text.extend_from_slice(front)?;
    text.push(b' ')?;
    text.extend_from_slice(bytes)?;
    text.push(b' ')?;
    Ok(text)
}

/// Whether these bytes could stand in the place of a token.
fn could_stand(alloc: Global, source: &Source, at: usize, bytes: &[u8]) -> Result<bool, AllocError>
    ensures { let front = text_before source.now.text.now source.now.tokens.now at in
        IfOk result (λ can. can ≡ could_stand front at bytes.now) }
{
    let text = with_token(alloc, source.before(at), bytes)?;
    if text.len() > Cap::MOST_PROGRAM_BYTES {
        return Ok(false);
    }
    is_taken(alloc, &text, at)
}

/// What is always written in the same way: a word, or a symbol.
trait Spelled: Copy {
    ghost spelling: { Self → List ℕ };

    /// Its bytes.
    fn bytes(self) -> &'static [u8]
        ensures { result.now ≡ spelling self };
}

impl Spelled for Keyword {
    ghost spelling = { keyword_text };

    fn bytes(self) -> &'static [u8] {
        self.as_str().as_bytes()
    }
}

impl Spelled for Symbol {
    ghost spelling = { symbol_text };

    fn bytes(self) -> &'static [u8] {
        self.as_str().as_bytes()
    }
}

/// Adds a word or a symbol where it could stand.
fn add_possible<T: Spelled>(
    alloc: Global,
    source: &Source,
    at: usize,
    one: T,
    all: &mut Vec<T>,
) -> Result<(), AllocError>
    ensures { let front = text_before source.now.text.now source.now.tokens.now at in OnOk result
        (all.new.items ≡ all.old.items ++ (if can_stand front at T.spelling one then one ∷ [] else [])) }
{
    if !could_stand(alloc, source, at, one.bytes())? {
        return Ok(());
    }
    all.push(one)?;
    Ok(())
}

/// Those of these words or symbols that could stand there.
fn possible_among<T: Spelled>(
    alloc: Global,
    source: &Source,
    at: usize,
    told: &[T],
) -> Result<Vec<T>, AllocError>
    ensures { let front = text_before source.now.text.now source.now.tokens.now at in
        IfOk result (λ all. all.items ≡ filter (can_stand front at T.spelling) told.now) }
{
    let mut all = Vec::new(alloc);
    for one in told {
        add_possible(alloc, source, at, *one, &mut all)?;
    }
    Ok(all)
}

/// Whether the text could end before a token.
fn could_end(alloc: Global, source: &Source, at: usize) -> Result<bool, AllocError>
    requires { length source.now.text.now ≤ 1048576 }
    ensures { let front = text_before source.now.text.now source.now.tokens.now at in
        IfOk result (λ can. can ≡ is_good (refusal_of front)) }
{
    let text = source.before(at);
    let found = tokens(alloc, text)?;
    match parse(alloc, text, &found) {
        Ok(_) => Ok(true),
        Err(ParseFault::Memory(error)) => Err(error),
        Err(_) => Ok(false),
    }
}

/// What could stand in the place of a token, by what stands before it.
pub fn expected_at(alloc: Global, source: &Source, at: usize) -> Result<Expected, AllocError>
    requires { length source.now.text.now ≤ 1048576 }
    ensures { let front = text_before source.now.text.now source.now.tokens.now at in
        IfOk result (IsExpected front at) }
{
    Ok(Expected {
        name: could_stand(alloc, source, at, b"name")?,
        number: could_stand(alloc, source, at, b"1")?,
        end: could_end(alloc, source, at)?,
        keywords: possible_among(alloc, source, at, &told_keywords())?,
        symbols: possible_among(alloc, source, at, &told_symbols())?,
    })
}
