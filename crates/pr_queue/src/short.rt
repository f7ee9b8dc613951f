//! Pieces of at most 8 bytes: each waits as one word in a ring of words.

ghost use Rattle.std.specs.Prelude.{◌≡◌, ◌+◌, ◌<◌, ◌≤◌, ◌↔◌, [], ◌∷◌, ◌++◌, map, length, MatchOption, IsErr, OnOk, OnErr};
ghost use Rattle.circular_buffer.specs.Buffer.{buffer};
ghost use Rattle.pr_queue.specs.Pieces.{of_word};

use crate::{Empty, Full};
use circular_buffer::HeapCircularBuffer;

/// The most bytes of a piece that is kept as a word.
const SHORT: usize = 8;

/// The word whose lowest bytes are those of a piece; none where they are more than 8.
#[inline(always)]
pub(crate) fn word_of(piece: &[u8]) -> Option<u64>
    ensures { MatchOption result (8 < length piece.now) (λ w. (length piece.now ≤ 8) × (of_word (length piece.now) w ≡ piece.now)) }
{
    match piece.len() {
        1 => Some(u64::from_le_bytes([piece[0], 0, 0, 0, 0, 0, 0, 0])),
        2 => Some(u64::from_le_bytes([piece[0], piece[1], 0, 0, 0, 0, 0, 0])),
        n if n <= SHORT => Some(word_of_more(piece)),
        _ => None,
    }
}

/// As [`word_of`] for up to 8 bytes. It is not inlined, so that the code for one or two bytes stays short.
#[inline(never)]
fn word_of_more(piece: &[u8]) -> u64
    requires { length piece.now ≤ 8 }
    ensures { of_word (length piece.now) result ≡ piece.now }
{
    match piece.len() {
        1 => u64::from(piece[0]),
        2 => u64::from_le_bytes([piece[0], piece[1], 0, 0, 0, 0, 0, 0]),
        3 => u64::from_le_bytes([piece[0], piece[1], piece[2], 0, 0, 0, 0, 0]),
        4 => u64::from_le_bytes([piece[0], piece[1], piece[2], piece[3], 0, 0, 0, 0]),
        5 => u64::from_le_bytes([piece[0], piece[1], piece[2], piece[3], piece[4], 0, 0, 0]),
        6 => u64::from_le_bytes([
            piece[0], piece[1], piece[2], piece[3], piece[4], piece[5], 0, 0,
        ]),
        7 => u64::from_le_bytes([
            piece[0], piece[1], piece[2], piece[3], piece[4], piece[5], piece[6], 0,
        ]),
        8 => u64::from_le_bytes([
            piece[0], piece[1], piece[2], piece[3], piece[4], piece[5], piece[6], piece[7],
        ]),
        _ => 0,
    }
}

/// Fills a piece with the lowest bytes of a word. One or two bytes are moved without a call.
#[inline(always)]
fn read_word(into: &mut [u8], word: u64)
    requires { length into.old ≤ 8 }
    ensures { into.new ≡ of_word (length into.old) word }
{
    match into.len() {
        1 => into[0] = word.to_le_bytes()[0],
        2 => {
            let bytes = word.to_le_bytes();
            into[0] = bytes[0];
            into[1] = bytes[1];
        }
        _ => read_word_more(into, word),
    }
}

/// As [`read_word`] for any number of bytes up to 8. It is not inlined.
#[inline(never)]
fn read_word_more(into: &mut [u8], word: u64)
    requires { length into.old ≤ 8 }
    ensures { into.new ≡ of_word (length into.old) word }
{
    let bytes = word.to_le_bytes();
    match into.len() {
        3 => {
            into[0] = bytes[0];
            into[1] = bytes[1];
            into[2] = bytes[2];
        }
        4 => into.copy_from_slice(&bytes[..4]),
        8 => into.copy_from_slice(&bytes[..8]),
        n => into.copy_from_slice(&bytes[..n]),
    }
}

/// Appends a word, or says that the ring is full.
#[inline(always)]
pub(crate) fn put_word(words: &mut HeapCircularBuffer<u64>, word: u64) -> Result<(), Full>
    ensures full { IsErr result ↔ (words.old.capacity ≤ length words.old.items) }
    ensures put { OnOk result (words.new ≡ buffer (words.old.items ++ word ∷ []) words.old.capacity) }
    ensures same { OnErr result (words.new ≡ words.old) }
{
    match words.try_push_back(word) {
        Ok(()) => Ok(()),
        Err(_word) => Err(Full),
    }
}

/// Takes the oldest word and fills a piece with its lowest bytes, or says that the ring is empty.
#[inline(always)]
pub(crate) fn get_word(words: &mut HeapCircularBuffer<u64>, into: &mut [u8]) -> Result<(), Empty>
    requires { 0 < length words.old.items → length into.old ≤ 8 }
    ensures empty { IsErr result ↔ (words.old.items ≡ []) }
    ensures got { OnOk result (map (of_word (length into.old)) words.old.items
        ≡ into.new ∷ map (of_word (length into.old)) words.new.items) }
    ensures less { OnOk result (length words.old.items ≡ length words.new.items + 1) }
    ensures same { OnErr result ((words.new ≡ words.old) × (into.new ≡ into.old)) }
    ensures capacity { words.new.capacity ≡ words.old.capacity }
{
    match words.pop_front() {
        Some(word) => {
            read_word(into, word);
            Ok(())
        }
        None => Err(Empty),
    }
}
