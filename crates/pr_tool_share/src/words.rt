//! The words of a line.
ghost use Rattle.std.specs.Prelude.{◌≡◌, ◌≤◌, ◌<◌, not, [], ◌∷◌, length, position, unwrap_or, IfSome, MatchOption};
ghost use Rattle.pr_samples.specs.Lines.{is_blank, words_of, begins_apart};

/// Whether a byte is a blank.
fn is_blank(byte: u8) -> bool
    ensures { result ≡ is_blank byte }
{
    byte == b' ' || byte == b'\t'
}

/// Whether a line begins with a blank, or is empty.
pub(crate) fn begins_apart(line: &[u8]) -> bool
    ensures { result ≡ begins_apart line.now }
{
    match line.first() {
        None => true,
        Some(byte) => is_blank(*byte),
    }
}

/// The place of the first byte that is no blank.
fn first_letter(line: &[u8]) -> Option<usize>
    ensures place { result ≡ position (λ b. not (is_blank b)) line.now }
    ensures within { IfSome result (λ n. n < length line.now) }
{
    line.iter().position(|b| !is_blank(*b))
}

/// The place of the first blank.
fn first_blank(line: &[u8]) -> Option<usize>
    ensures place { result ≡ position is_blank line.now }
    ensures within { IfSome result (λ n. n < length line.now) }
{
    line.iter().position(|b| is_blank(*b))
}

/// The number of blanks at the front of a line.
fn blanks(line: &[u8]) -> usize
    ensures count { result ≡ unwrap_or (position (λ b. not (is_blank b)) line.now) (length line.now) }
    ensures within { result ≤ length line.now }
{
    first_letter(line).unwrap_or(line.len())
}

/// The number of bytes before the first blank of a line.
fn letters(line: &[u8]) -> usize
    ensures count { result ≡ unwrap_or (position is_blank line.now) (length line.now) }
    ensures within { result ≤ length line.now }
{
    first_blank(line).unwrap_or(line.len())
}

/// The first word of a line, and what follows it.
pub(crate) fn next_word(line: &[u8]) -> Option<(&[u8], &[u8])>
    ensures { MatchOption result (words_of line.now ≡ []) (λ p. words_of line.now ≡ p.0.now ∷ words_of p.1.now) }
{
    let (_, rest) = line.split_at(blanks(line));
    let (word, rest) = rest.split_at(letters(rest));
    if word.is_empty() {
        None
    } else {
        Some((word, rest))
    }
}
