//! Configuration files, word by word.
use std::alloc::{AllocError, Global};

/// The columns and registers of the base fabric.
pub const BASE: u32 = 0x0010_0008;

/// Those of the wide one.
pub const WIDE: u32 = 0x0020_0010;

/// The table of the exclusive or of A and B.
pub const XOR: u32 = 0x66ff_0000;

/// An operator on two inputs by its table word: in the newer format, or in the older one with so many words for each
/// stage.
#[derive(Clone, Copy)]
pub enum Kind {
    Packed {
        sizes: u32,
        table: u32,
    },
    Plain {
        sizes: u32,
        words: usize,
        table: u32,
    },
    /// No bytes.
    Empty,
}

/// What is done to a file.
#[derive(Clone, Copy)]
pub enum Change {
    Nothing,
    Shortened,
    Lengthened,
    /// The word at this place becomes another one.
    Word { place: usize, word: u32 },
    /// It becomes a checkpoint after so many samples.
    Marked(u64),
}

/// The exclusive or on the base fabric, in the newer format.
pub const NEWER: Kind = Kind::Packed {
    sizes: BASE,
    table: XOR,
};

/// The same in the older one.
pub const OLDER: Kind = Kind::Plain {
    sizes: BASE,
    words: 64,
    table: XOR,
};

/// The exclusive or on the wide fabric, in the newer format.
pub const WIDER: Kind = Kind::Packed {
    sizes: WIDE,
    table: XOR,
};

/// Another operator on the base fabric, in the older format.
pub const OTHER: Kind = Kind::Plain {
    sizes: BASE,
    words: 64,
    table: 0x77ff_0000,
};

/// The words of an operator on two inputs from the third on, up to the stages.
const HEAD: [u32; 7] = [2, 2, 8, 8, 1, 8, 0x1002];

/// The two processing elements of its first stage, which take the inputs.
const FIRST: [u32; 8] = [
    0x4000_0000,
    0,
    0xaaff_0000,
    0x0001_0000,
    0x4001_0000,
    0,
    0xaaff_0000,
    0x0001_0000,
];

/// A running sum that begins with 250, in the newer format: stage 1 keeps it in its state.
const RUNNING_SUM: [u32; 22] = [
    0x5049_5032,
    BASE,
    2,
    1,
    8,
    1,
    8,
    0x1011,
    1,
    0x4000_0000,
    0,
    0xaaff_0000,
    0x0001_0000,
    3,
    0x3010_1001,
    0,
    0xccff_0000,
    0x10,
    0x2000_0000,
    0,
    0xaaff_fa00,
    0x0001_1000,
];

/// Appends words.
fn put(bytes: &mut Vec<u8>, words: &[u32]) -> Result<(), AllocError> {
    for word in words {
        bytes.extend_from_slice(&word.to_be_bytes())?;
    }
    Ok(())
}

/// An operator on two inputs by its table word, in the newer format. `sizes` are the numbers of columns and registers.
pub fn packed(alloc: Global, sizes: u32, table: u32) -> Result<Vec<u8>, AllocError> {
    let mut bytes = Vec::new(alloc);
    put(&mut bytes, &[0x5049_5032, sizes])?;
    put(&mut bytes, &HEAD)?;
    put(&mut bytes, &[3])?;
    put(&mut bytes, &FIRST)?;
    put(&mut bytes, &[1, 0x1001_1011, 0, table, 0x0002_0000])?;
    Ok(bytes)
}

/// The same in the older format, with so many words for each stage.
pub fn plain(alloc: Global, sizes: u32, words: usize, table: u32) -> Result<Vec<u8>, AllocError> {
    let mut bytes = Vec::new(alloc);
    put(&mut bytes, &[0x5049_5031, sizes])?;
    put(&mut bytes, &HEAD)?;
    put(&mut bytes, &FIRST)?;
    for _ in 8..words {
        put(&mut bytes, &[0])?;
    }
    put(&mut bytes, &[0x1001_1011, 0, table, 0x0002_0000])?;
    for _ in 4..words {
        put(&mut bytes, &[0])?;
    }
    Ok(bytes)
}

/// A file with another word at this place, where it has one.
fn with_word(mut bytes: Vec<u8>, place: usize, word: u32) -> Vec<u8> {
    if place < bytes.len() / 4 {
        let at = 4 * place;
        bytes[at..at + 4].copy_from_slice(&word.to_be_bytes());
    }
    bytes
}

/// A file without its last byte.
fn shortened(mut bytes: Vec<u8>) -> Vec<u8> {
    bytes.pop();
    bytes
}

/// A file with one byte more.
fn lengthened(mut bytes: Vec<u8>) -> Result<Vec<u8>, AllocError> {
    bytes.push(0)?;
    Ok(bytes)
}

/// The running sum.
pub fn running_sum(alloc: Global) -> Result<Vec<u8>, AllocError> {
    let mut bytes = Vec::new(alloc);
    put(&mut bytes, &RUNNING_SUM)?;
    Ok(bytes)
}

/// The checkpoint of a configuration file in the newer format after so many samples.
fn marked(alloc: Global, count: u64, file: &[u8]) -> Result<Vec<u8>, AllocError> {
    let mut bytes = Vec::new(alloc);
    put(&mut bytes, &[0x5049_434b])?;
    bytes.extend_from_slice(&count.to_be_bytes())?;
    bytes.extend_from_slice(file)?;
    Ok(bytes)
}

/// The file of a configuration.
fn file_of(alloc: Global, kind: Kind) -> Result<Vec<u8>, AllocError> {
    match kind {
        Kind::Packed { sizes, table } => packed(alloc, sizes, table),
        Kind::Plain {
            sizes,
            words,
            table,
        } => plain(alloc, sizes, words, table),
        Kind::Empty => Ok(Vec::new(alloc)),
    }
}

/// A file after a change.
pub fn changed(alloc: Global, file: Vec<u8>, change: Change) -> Result<Vec<u8>, AllocError> {
    match change {
        Change::Nothing => Ok(file),
        Change::Shortened => Ok(shortened(file)),
        Change::Lengthened => lengthened(file),
        Change::Word { place, word } => Ok(with_word(file, place, word)),
        Change::Marked(count) => marked(alloc, count, &file),
    }
}

/// The file of a configuration, after a change.
pub fn made(alloc: Global, kind: Kind, change: Change) -> Result<Vec<u8>, AllocError> {
    let file = file_of(alloc, kind)?;
    changed(alloc, file, change)
}
