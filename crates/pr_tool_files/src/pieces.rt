//! Bytes and words.

use std::alloc::{AllocError, Global};

/// So many times the same piece.
pub fn repeated(alloc: Global, piece: &[u8], count: usize) -> Result<Vec<u8>, AllocError> {
    let mut bytes = Vec::new(alloc);
    for _ in 0..count {
        bytes.extend_from_slice(piece)?;
    }
    Ok(bytes)
}

/// The words as the system gives them.
pub fn command_line(alloc: Global, words: &[&str]) -> Result<Vec<String>, AllocError> {
    let mut line = vec![in alloc; String::from_str(alloc, "piperench")?]?;
    for word in words {
        line.push(String::from_str(alloc, word)?)?;
    }
    Ok(line)
}
