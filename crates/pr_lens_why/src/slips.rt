//! What other languages write and this one does not.

ghost use Rattle.std.specs.Prelude.{◌≡◌};
ghost use Rattle.pr_lens_why.specs.Slips.{advice_of, colon_slip, is_sign, is_spelled, is_update, is_update_sign, minus_slip, pair_slip, second_behind, word_before, word_behind, word_slip};

use pr_lens_source::Source;

/// A habit from another language.
#[derive(Clone, Copy, Debug, PartialEq, Eq)]
pub enum Slip {
    /// `a && b`.
    And,
    /// `a || b`.
    Or,
    /// `!a`.
    Not,
    /// `a >>> 2`.
    SignedShift,
    /// `let y := a`.
    Colon,
    /// `s += a`.
    Update,
    /// `if (c) a else b`.
    If,
    /// `input a:8 signed`.
    Sign,
    /// `a{7:0}`.
    Range,
    /// `a[7:0]`.
    Bits,
    /// `x * -7`.
    Minus,
    /// `const c = -7`.
    Negative,
    /// `8'hff`.
    Based,
}

impl Slip {
    /// What this language has instead.
    pub fn advice(self) -> &'static str
        ensures { result.now ≡ advice_of self }
    {
        match self {
            Slip::And => "`&` joins two conditions: `(a > 1) & (b > 1)`.\n",
            Slip::Or => "`|` joins two conditions: `(a > 1) | (b > 1)`.\n",
            Slip::Not => "`x == 0` asks whether a number is 0, and `~x` flips each of its bits.\n",
            Slip::SignedShift => "`>>` keeps the sign of a signed stream: `signed(x) >> 2`.\n",
            Slip::Colon => "A width follows on `:`, and the stream on `=`: `let y:9 = x + 1;`.\n",
            Slip::Update =>
                "A name is assigned once. A running sum reads its own last number: `rec s:16 = 0 by s@1 + x;`.\n",
            Slip::If =>
                "There is no `if`: `c ? a : b` is `a` where `c` is 1, and `b` where it is 0.\n",
            Slip::Sign =>
                "No declaration has a sign. Write `signed(x)` where the stream is read.\n",
            Slip::Range => "Two dots stand between two bounds: `x{7..0}`, or `for i in 0..8`.\n",
            Slip::Bits =>
                "A slice is `x{7..0}`, and a width follows on the name: `let y:8 = x;`.\n",
            Slip::Minus =>
                "No operand has a sign: `0 - x` is minus `x`, and `signed(x) + 5 < 0` asks whether `x` is below -5.\n",
            Slip::Negative =>
                "Constants are never below 0. A coefficient -7 of 8 bits is written `256 - 7`.\n",
            Slip::Based =>
                "A number is decimal, or hexadecimal as `0xff`. Its width stands with a name: `let y:8 = 0xff;`.\n",
        }
    }
}

/// The token before a token, as it is written.
#[tactic(auto, unfolding(crate::specs::Slips::word_before))]
pub fn word_before<'a>(source: &'a Source, token: usize) -> &'a [u8]
    ensures { result.now ≡ word_before source.now.text.now source.now.tokens.now token }
{
    if 0 < token {
        source.bytes(token - 1)
    } else {
        &[]
    }
}

/// The token behind it.
#[tactic(auto, unfolding(crate::specs::Slips::word_behind))]
pub fn word_behind<'a>(source: &'a Source, token: usize) -> &'a [u8]
    ensures { result.now ≡ word_behind source.now.text.now source.now.tokens.now token }
{
    if token < source.tokens.len() {
        source.bytes(token + 1)
    } else {
        &[]
    }
}

/// The second token behind it.
#[tactic(auto, unfolding(crate::specs::Slips::second_behind))]
pub fn second_behind<'a>(source: &'a Source, token: usize) -> &'a [u8]
    ensures { result.now ≡ second_behind source.now.text.now source.now.tokens.now token }
{
    if token < source.tokens.len() {
        word_behind(source, token + 1)
    } else {
        &[]
    }
}

/// Whether a token is written so.
#[tactic(auto, unfolding(crate::specs::Slips::is_spelled))]
pub fn is_spelled(word: &[u8], spelling: &str) -> bool
    ensures { result ≡ is_spelled word.now spelling.now }
{
    word == spelling.as_bytes()
}

/// Whether other languages join the operator to `=`.
#[tactic(auto, unfolding(crate::specs::Slips::is_update_sign))]
fn is_update_sign(word: &[u8]) -> bool
    ensures { result ≡ is_update_sign word.now }
{
    is_spelled(word, "+")
        || is_spelled(word, "-")
        || is_spelled(word, "*")
        || is_spelled(word, "&")
        || is_spelled(word, "|")
        || is_spelled(word, "^")
}

/// Whether two tokens are `+=` or its like.
#[tactic(auto, unfolding(crate::specs::Slips::is_update))]
pub fn is_update(first: &[u8], second: &[u8]) -> bool
    ensures { result ≡ is_update first.now second.now }
{
    is_update_sign(first) && is_spelled(second, "=")
}

/// Two symbols that are one symbol elsewhere.
#[tactic(auto, unfolding(crate::specs::Slips::pair_slip))]
pub fn pair_slip(first: &[u8], second: &[u8]) -> Option<Slip>
    ensures { result ≡ pair_slip first.now second.now }
{
    if is_spelled(first, "&") && is_spelled(second, "&") {
        return Some(Slip::And);
    }
    if is_spelled(first, "|") && is_spelled(second, "|") {
        return Some(Slip::Or);
    }
    if is_spelled(first, ">>") && is_spelled(second, ">") {
        return Some(Slip::SignedShift);
    }
    if is_spelled(first, ":") && is_spelled(second, "=") {
        return Some(Slip::Colon);
    }
    None
}

/// Whether a word is `signed` and reads no stream.
#[tactic(auto, unfolding(crate::specs::Slips::is_sign))]
fn is_sign(word: &[u8], behind: &[u8]) -> bool
    ensures { result ≡ is_sign word.now behind.now }
{
    is_spelled(word, "signed") && !is_spelled(behind, "(")
}

/// A word of another language, before the wrong token, at it or behind it.
#[tactic(auto, unfolding(crate::specs::Slips::word_slip))]
pub fn word_slip(before: &[u8], wrong: &[u8], behind: &[u8]) -> Option<Slip>
    ensures { result ≡ word_slip before.now wrong.now behind.now }
{
    if is_spelled(before, "if") || is_spelled(wrong, "if") {
        return Some(Slip::If);
    }
    if is_spelled(wrong, "else") || is_spelled(behind, "else") {
        return Some(Slip::If);
    }
    if is_sign(before, wrong) || is_sign(wrong, behind) {
        return Some(Slip::Sign);
    }
    None
}

/// A minus sign, where an expression or a constant could stand.
#[tactic(auto, unfolding(crate::specs::Slips::minus_slip))]
pub fn minus_slip(expression: bool, constant: bool) -> Option<Slip>
    ensures { result ≡ minus_slip expression constant }
{
    if expression {
        return Some(Slip::Minus);
    }
    if constant { Some(Slip::Negative) } else { None }
}

/// A colon, where `..` could stand, or the end of an index.
#[tactic(auto, unfolding(crate::specs::Slips::colon_slip))]
pub fn colon_slip(dots: bool, close: bool) -> Option<Slip>
    ensures { result ≡ colon_slip dots close }
{
    if dots {
        return Some(Slip::Range);
    }
    if close { Some(Slip::Bits) } else { None }
}
