//! How deep tokens are nested.

ghost use Rattle.std.specs.Prelude.{◌≡◌, ◌≤◌, ℕ, List, IfOk, IfSome, All};
ghost use Rattle.pr_lang.specs.Load.{Loads as LoadsOf, top as top_of, opened as after_open, closed as after_close, closed_curly as after_curly, begun_anew as after_start, one_more as after_operator, first_deep as first_deep_of};
ghost use Rattle.pr_lang.specs.Word.{words};
ghost use Rattle.pr_lang.specs.declared.tokens.Kind.TheVariants.{Word, Mark};
ghost use Rattle.pr_parse_lex.specs.Depth.{loads_seen, effect_seen, after_kind};

use pr_base::Cap;
use pr_lang::{Keyword, Kind, Symbol, Token};
use std::alloc::{AllocError, Global};

/// The load, and the loads that wait under it, the top last.
#[derive(Debug, Drop)]
pub struct Loads {
    load: u32,
    waiting: Vec<u32>,
}

/// What a token does to the load.
#[derive(Clone, Copy, Debug, PartialEq, Eq)]
pub enum Effect {
    Nothing,
    Opens,
    Closes,
    ClosesCurly,
    Starts,
    Adds,
}

fn keyword_effect(keyword: Keyword) -> Effect
    ensures { (s : LoadsOf) → effect_seen result s ≡ after_kind (Word keyword) s }
{
    match keyword {
        Keyword::By | Keyword::Within | Keyword::Cat => Effect::Nothing,
        Keyword::Input | Keyword::Output | Keyword::Const | Keyword::Fn => Effect::Starts,
        Keyword::Return | Keyword::Let | Keyword::Rec | Keyword::For => Effect::Starts,
    }
}

fn symbol_effect(symbol: Symbol) -> Effect
    ensures { (s : LoadsOf) → effect_seen result s ≡ after_kind (Mark symbol) s }
{
    match symbol {
        Symbol::OpenRound | Symbol::OpenSquare | Symbol::OpenCurly => Effect::Opens,
        Symbol::CloseRound | Symbol::CloseSquare => Effect::Closes,
        Symbol::CloseCurly => Effect::ClosesCurly,
        Symbol::Comma | Symbol::Semi => Effect::Starts,
        Symbol::Assign | Symbol::Dots => Effect::Nothing,
        Symbol::Colon | Symbol::At | Symbol::Ask | Symbol::Plus | Symbol::Minus => Effect::Adds,
        Symbol::Star | Symbol::Slash | Symbol::Percent | Symbol::Amp | Symbol::Bar => Effect::Adds,
        Symbol::Caret | Symbol::Tilde | Symbol::ShiftLeft | Symbol::ShiftRight => Effect::Adds,
        Symbol::Equal | Symbol::NotEqual | Symbol::Less | Symbol::LessEqual => Effect::Adds,
        Symbol::Greater | Symbol::GreaterEqual => Effect::Adds,
    }
}

fn effect_of(kind: Kind) -> Effect
    ensures { (s : LoadsOf) → effect_seen result s ≡ after_kind kind s }
{
    match kind {
        Kind::Word(keyword) => keyword_effect(keyword),
        Kind::Mark(symbol) => symbol_effect(symbol),
        Kind::Name | Kind::Number(_) | Kind::End | Kind::Bad => Effect::Nothing,
    }
}

fn top(waiting: &[u32]) -> Option<u32>
    requires { All (λ n. n ≤ 256) waiting.now }
    ensures value { result ≡ top_of waiting.now }
    ensures within { IfSome result (λ n. n ≤ 256) }
{
    waiting.last().copied()
}

fn opened(mut loads: Loads) -> Result<Loads, AllocError>
    requires load { loads.load ≤ 256 }
    requires waiting { All (λ n. n ≤ 256) loads.waiting.items }
    ensures value { IfOk result (λ r. loads_seen r ≡ after_open (loads_seen loads)) }
    ensures within { IfOk result (λ r. All (λ n. n ≤ 256) r.waiting.items) }
{
    loads.waiting.push(loads.load)?;
    loads.load += 1;
    Ok(loads)
}

fn closed(mut loads: Loads) -> Loads
    requires { All (λ n. n ≤ 256) loads.waiting.items }
    ensures value { loads_seen result ≡ after_close (loads_seen loads) }
    ensures within { All (λ n. n ≤ 256) result.waiting.items }
{
    match loads.waiting.pop() {
        Some(load) => Loads {
            load,
            waiting: loads.waiting,
        },
        None => loads,
    }
}

fn closed_curly(mut loads: Loads) -> Loads
    requires { All (λ n. n ≤ 256) loads.waiting.items }
    ensures value { loads_seen result ≡ after_curly (loads_seen loads) }
    ensures within { All (λ n. n ≤ 256) result.waiting.items }
{
    match loads.waiting.pop() {
        Some(load) => Loads {
            load: load + 1,
            waiting: loads.waiting,
        },
        None => loads,
    }
}

fn started(loads: Loads) -> Loads
    requires { All (λ n. n ≤ 256) loads.waiting.items }
    ensures value { loads_seen result ≡ after_start (loads_seen loads) }
    ensures within { All (λ n. n ≤ 256) result.waiting.items }
{
    let load = match top(&loads.waiting) {
        Some(load) => load + 1,
        None => 0,
    };
    Loads {
        load,
        waiting: loads.waiting,
    }
}

/// The loads after a token.
fn after(loads: Loads, kind: Kind) -> Result<Loads, AllocError>
    requires load { loads.load ≤ 256 }
    requires waiting { All (λ n. n ≤ 256) loads.waiting.items }
    ensures value { IfOk result (λ r. loads_seen r ≡ after_kind kind (loads_seen loads)) }
    ensures within { IfOk result (λ r. All (λ n. n ≤ 256) r.waiting.items) }
{
    match effect_of(kind) {
        Effect::Nothing => Ok(loads),
        Effect::Opens => opened(loads),
        Effect::Closes => Ok(closed(loads)),
        Effect::ClosesCurly => Ok(closed_curly(loads)),
        Effect::Starts => Ok(started(loads)),
        Effect::Adds => Ok(Loads {
            load: loads.load + 1,
            waiting: loads.waiting,
        }),
    }
}

/// The place of the first token whose load passes its limit.
pub fn first_deep(alloc: Global, tokens: &[Token]) -> Result<Option<usize>, AllocError>
    ensures { (text : List ℕ) → IfOk result (λ place. place ≡ first_deep_of (words text tokens.now)) }
{
    let mut loads = Loads {
        load: 0,
        waiting: Vec::new(alloc),
    };
    for (place, token) in tokens.iter().enumerate() {
        loads = after(loads, token.kind)?;
        if loads.load > Cap::MOST_NESTING {
            return Ok(Some(place));
        }
    }
    Ok(None)
}
