//! What shelves and sinks do, told as lines of text.

use pr_edge::{Shelf, Sink, read_all, write_all};
use std::alloc::{AllocError, Global};
use std::fmt::Write;

/// Files by their names.
pub(crate) type Named = Vec<(String, Vec<u8>)>;

/// Appends a file.
pub(crate) fn put_file(
    alloc: Global,
    files: &mut Named,
    name: &str,
    text: &[u8],
) -> Result<(), AllocError> {
    let name = String::from_str(alloc, name)?;
    files.push((name, Vec::from_slice(alloc, text)?))?;
    Ok(())
}

/// Appends bytes as text.
pub(crate) fn put_text(bytes: &[u8], told: &mut String) -> Result<(), AllocError> {
    told.push_str(str::from_utf8(bytes).unwrap_or("no text"))
}

/// Reads a file whole that may have so many bytes, and appends its text or why there is none.
pub(crate) fn put_whole<S: Shelf>(
    alloc: Global,
    shelf: &mut S,
    name: &str,
    limit: usize,
    told: &mut String,
) -> Result<(), AllocError> {
    match read_all(alloc, shelf, name, limit) {
        Ok(bytes) => put_text(&bytes, told)?,
        Err(fault) => write!(told, "{fault:?}")?,
    }
    told.push_str("\n")
}

/// Reads at most four bytes at a place of a file, and appends their text.
pub(crate) fn put_part<S: Shelf>(
    shelf: &mut S,
    name: &str,
    place: u64,
    told: &mut String,
) -> Result<(), AllocError> {
    let mut part = [0; 4];
    match shelf.read_at(name, place, &mut part) {
        Ok(count) => put_text(&part[..count.min(4)], told)?,
        Err(_) => told.push_str("failed")?,
    }
    told.push_str("\n")
}

/// Writes texts, and appends each with what became of it.
pub(crate) fn put_writes<K: Sink>(
    sink: &mut K,
    texts: &[&str],
    told: &mut String,
) -> Result<(), AllocError> {
    for text in texts {
        told.push_str(text)?;
        told.push_str(match write_all(sink, text.as_bytes()) {
            Ok(()) => " written\n",
            Err(_) => " failed\n",
        })?;
    }
    Ok(())
}
