//! Words of a line.

ghost use Rattle.std.specs.Prelude.{◌≡◌, ◌≢◌, ◌↔◌, ◌<◌, ◌≤◌, ◌^◌, ◌++◌, ◌∷◌, ℕ, List, Option, IsTrue, length, slice_index, take, drop, codes, decimal};
ghost use Rattle.std.specs.List.{flat_map};
ghost use Rattle.pr_log.specs.Lines.{hex_digit, hex_byte, configured_text, saved_text, entry_text};
ghost use Rattle.pr_lens_log.specs.Words.{HasNone, IsCut, AreShort, IsShort, IsLong, AreBytes, row_text};

use std::str;

/// How many bytes stand before the first such sign, or in all.
fn count_before(bytes: &[u8], sign: u8) -> usize
    ensures within { result ≤ length bytes.now }
    ensures none { (k : ℕ) → k < result → slice_index bytes.now k ≢ sign }
    ensures found { result < length bytes.now → slice_index bytes.now result ≡ sign }
{
    for (at, byte) in bytes.iter().enumerate() {
        if *byte == sign {
            return at;
        }
    }
    bytes.len()
}

/// The bytes behind the first.
fn behind(bytes: &[u8]) -> &[u8]
    ensures { result.now ≡ drop 1 bytes.now }
{
    match bytes {
        [] => bytes,
        [_, rest @ ..] => rest,
    }
}

/// What stands before the first such sign, and behind it.
pub fn cut(bytes: &[u8], sign: u8) -> (&[u8], &[u8])
    ensures { (before rest : List ℕ) → IsCut sign bytes.now before rest
        → (result.0.now ≡ before) × (result.1.now ≡ rest) }
{
    let (before, rest) = bytes.split_at(count_before(bytes, sign));
    (before, behind(rest))
}

/// The second word, and the words behind it.
pub fn second(words: &[u8]) -> (&[u8], &[u8])
    ensures { (first word rest : List ℕ) → HasNone 32 first → HasNone 32 word
        → words.now ≡ first ++ 32 ∷ (word ++ 32 ∷ rest)
        → (result.0.now ≡ word) × (result.1.now ≡ rest) }
{
    let (_, rest) = cut(words, b' ');
    cut(rest, b' ')
}

/// The number that the digits of a text say, or 0.
fn number_of(text: &str) -> u64
    ensures fits { result < 2 ^ 64 }
    ensures reads { (n : ℕ) → n < 2 ^ 64 → text.now ≡ decimal n → result ≡ n }
{
    text.parse::<u64>().unwrap_or(0)
}

/// The number that the digits of a word say, or 0.
pub fn number(word: &[u8]) -> u64
    ensures fits { result < 2 ^ 64 }
    ensures reads { (n : ℕ) → n < 2 ^ 64 → word.now ≡ decimal n → result ≡ n }
{
    match str::from_utf8(word) {
        Err(_) => 0,
        Ok(text) => number_of(text),
    }
}

/// The same, where it has 32 bits.
fn short(word: &[u8]) -> u32
    ensures fits { result < 2 ^ 32 }
    ensures reads { (n : ℕ) → n < 2 ^ 32 → word.now ≡ decimal n → result ≡ n }
{
    let number = number(word);
    if number < 4_294_967_296 {
        number as u32
    } else {
        0
    }
}

/// Whether a word is a hyphen.
fn is_hyphen(word: &[u8]) -> bool
    ensures { IsTrue result ↔ (word.now ≡ codes "-") }
{
    word == b"-".as_slice()
}

/// The number of a sample or of a result, or none for a hyphen.
pub fn entry(word: &[u8]) -> Option<u64>
    ensures fits { IsLong result }
    ensures reads { (e : Option ℕ) → IsLong e → word.now ≡ entry_text e → result ≡ e }
{
    if is_hyphen(word) {
        return None;
    }
    Some(number(word))
}

/// A stage and its stripe, or none for a hyphen.
pub fn configured(word: &[u8]) -> Option<(u32, u32)>
    ensures fits { AreShort result }
    ensures reads { (c : Option (ℕ × ℕ)) → AreShort c → word.now ≡ configured_text c → result ≡ c }
{
    if is_hyphen(word) {
        return None;
    }
    let (stage, stripe) = cut(word, b'@');
    Some((short(stage), short(stripe)))
}

/// The stage whose state was saved, or none for a hyphen; the digits of its state; and the words behind.
pub fn saved(words: &[u8]) -> (Option<u32>, &[u8], &[u8])
    ensures fits { IsShort result.0 }
    ensures reads { (stage : Option ℕ) (state rest : List ℕ) → IsShort stage → AreBytes state
        → words.now ≡ saved_text stage state ++ 32 ∷ rest
        → (result.0 ≡ stage) × (result.1.now ≡ row_text stage state) × (result.2.now ≡ rest) }
{
    let (word, rest) = cut(words, b' ');
    if is_hyphen(word) {
        return (None, &[], rest);
    }
    let (row, rest) = cut(rest, b' ');
    (Some(short(word)), row, rest)
}

/// What a hexadecimal digit stands for; 0 for another byte.
fn digit(byte: u8) -> u8
    ensures least { result ≤ 15 }
    ensures reads { (n : ℕ) → n < 16 → byte ≡ hex_digit n → result ≡ n }
{
    if b'0' <= byte && byte <= b'9' {
        byte - b'0'
    } else if b'a' <= byte && byte <= b'f' {
        byte - b'a' + 10
    } else {
        0
    }
}

/// The byte of a column that the digits of a state say; 0 for a column that they do not have.
fn byte_at(word: &[u8], column: usize) -> u8
    ensures { (state : List ℕ) → AreBytes state → word.now ≡ flat_map hex_byte state
        → column < length state → result ≡ slice_index state column }
{
    if word.len() / 2 <= column {
        return 0;
    }
    digit(word[2 * column]) * 16 + digit(word[2 * column + 1])
}

/// The bytes of a state of at most 64 columns, and how many columns it has.
pub fn state(word: &[u8]) -> ([u8; 64], usize)
    ensures few { result.1 ≤ 64 }
    ensures reads { (state : List ℕ) → length state ≤ 64 → AreBytes state → word.now ≡ flat_map hex_byte state
        → take result.1 result.0 ≡ state }
{
    let mut bytes = [0u8; 64];
    for column in 0..64 {
        bytes[column] = byte_at(word, column);
    }
    (bytes, (word.len() / 2).min(64))
}
