//! Files by their words.

use std::alloc::{AllocError, Global};

/// The exclusive or of two inputs on 16 columns of 8 registers, in the format without maps: the first words, which end
/// with stage 0 column 1, and stage 1 column 0. All other words are 0.
const FIRST: [u32; 17] = [
    0x50495031, 0x00100008, 0x00000002, 0x00000002, 0x00000008, 0x00000008, 0x00000001, 0x00000008,
    0x00001002, 0x40000000, 0x00000000, 0xaaff0000, 0x00010000, 0x40010000, 0x00000000, 0xaaff0000,
    0x00010000,
];

const SECOND: [u32; 4] = [0x10011011, 0x00000000, 0x66ff0000, 0x00020000];

/// The same with maps.
pub(crate) const PACKED: [u32; 23] = [
    0x50495032, 0x00100008, 0x00000002, 0x00000002, 0x00000008, 0x00000008, 0x00000001, 0x00000008,
    0x00001002, 0x00000003, 0x40000000, 0x00000000, 0xaaff0000, 0x00010000, 0x40010000, 0x00000000,
    0xaaff0000, 0x00010000, 0x00000001, 0x10011011, 0x00000000, 0x66ff0000, 0x00020000,
];

/// A running sum, whose second stage has a state and a cell that writes nothing.
pub(crate) const SUM: [u32; 22] = [
    0x50495032, 0x00100008, 0x00000002, 0x00000001, 0x00000008, 0x00000001, 0x00000008, 0x00001011,
    0x00000001, 0x40000000, 0x00000000, 0xaaff0000, 0x00010000, 0x00000003, 0x30101001, 0x00000000,
    0xccff0000, 0x00000010, 0x20000000, 0x00000000, 0xaaffff00, 0x00011000,
];

/// A running sum after one sample of 5, from 250 on, as a checkpoint.
pub(crate) const MARK: [u32; 25] = [
    0x5049434b, 0x00000000, 0x00000001, 0x50495032, 0x00100008, 0x00000002, 0x00000001, 0x00000008,
    0x00000001, 0x00000008, 0x00001011, 0x00000001, 0x40000000, 0x00000000, 0xaaff0000, 0x00010000,
    0x00000003, 0x30101001, 0x00000000, 0xccff0000, 0x00000010, 0x20000000, 0x00000000, 0xaaffff00,
    0x00011000,
];

/// The file of these words.
pub(crate) fn file(alloc: Global, words: &[u32]) -> Result<Vec<u8>, AllocError> {
    let mut bytes = Vec::new(alloc);
    for word in words {
        bytes.extend_from_slice(&word.to_be_bytes())?;
    }
    Ok(bytes)
}

/// The file of these words with another word at this place.
pub(crate) fn with_word(
    alloc: Global,
    words: &[u32],
    place: usize,
    word: u32,
) -> Result<Vec<u8>, AllocError> {
    let mut words = words.to_vec(alloc)?;
    if place < words.len() {
        words[place] = word;
    }
    file(alloc, &words)
}

/// The words without maps.
pub(crate) fn plain(alloc: Global) -> Result<Vec<u32>, AllocError> {
    let mut words = Vec::from_slice(alloc, &FIRST)?;
    words.resize(73, 0)?;
    words.extend_from_slice(&SECOND)?;
    words.resize(137, 0)?;
    Ok(words)
}
