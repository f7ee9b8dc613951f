//! The files of the calls.

use pr_tool_files::{Change, Kind, NEWER, OLDER, OTHER, WIDER, made};
use std::alloc::{AllocError, Global};

/// The names of files, and their bytes.
pub(crate) type Files = Vec<(String, Vec<u8>)>;

/// Programs `p`, `r`, `g`, of which the last has no width, and `filter`; samples `s`, `q`, `b` and `f`, where a line of
/// `b` and that of `f` are no sample of two bytes; a text `t` that is neither samples nor a stall text; and `e`, which has
/// no byte.
const TEXTS: &str = "\
    #p input a:8;\ninput b:8;\noutput y = a ^ b;\n\
    #r input x:8; rec s:8 = 250 by s@1 + x; output y = s;\
    #g input x:8; rec s = 0 by s@1 + x; output y = s;\
    #filter input x:8;\n\
    const c = [8, 9, 10, 11, 12, 13, 14, 15, 15, 14, 13, 12, 11, 10, 9, 8];\n\
    fn tap(a, k) { return a * k; }\n\
    let s[0]:24 = tap(x, c[0]);\n\
    for i in 1..16 { let s[i]:24 = s[i-1] + tap(x@i, c[i]); }\n\
    output y = s[15];\n\
    #s 5 3\n255 1\n\
    #q 5\n1\n1\n\
    #b 5 3\n255 1\n7 x\n1 1\n2 2\n\
    #f 256 1\n\
    #t ..x\
    #e ";

/// Appends a file.
pub(crate) fn put(
    alloc: Global,
    files: &mut Files,
    name: &str,
    bytes: Vec<u8>,
) -> Result<(), AllocError> {
    files.push((String::from_str(alloc, name)?, bytes))?;
    Ok(())
}

/// A text of a head, a piece so many times, and a tail.
pub(crate) fn long_text(
    alloc: Global,
    head: &str,
    piece: &str,
    count: usize,
    tail: &str,
) -> Result<Vec<u8>, AllocError> {
    let mut text = Vec::from_slice(alloc, head.as_bytes())?;
    for _ in 0..count {
        text.extend_from_slice(piece.as_bytes())?;
    }
    text.extend_from_slice(tail.as_bytes())?;
    Ok(text)
}

/// Appends such a text.
pub(crate) fn put_long(
    alloc: Global,
    files: &mut Files,
    name: &str,
    head: &str,
    piece: &str,
    count: usize,
    tail: &str,
) -> Result<(), AllocError> {
    let text = long_text(alloc, head, piece, count, tail)?;
    put(alloc, files, name, text)
}

/// Appends the files of a text, in which each is a mark, a name, a blank and what it holds.
pub(crate) fn put_texts(alloc: Global, files: &mut Files, texts: &str) -> Result<(), AllocError> {
    for file in texts.split('#') {
        if let Some((name, text)) = file.split_once(' ') {
            put(alloc, files, name, Vec::from_slice(alloc, text.as_bytes())?)?;
        }
    }
    Ok(())
}

/// Appends a configuration after a change.
fn put_made(
    alloc: Global,
    files: &mut Files,
    name: &str,
    kind: Kind,
    change: Change,
) -> Result<(), AllocError> {
    put(alloc, files, name, made(alloc, kind, change)?)
}

/// Appends configurations: `c` is the exclusive or.
fn put_configurations(alloc: Global, files: &mut Files) -> Result<(), AllocError> {
    put_made(alloc, files, "c", NEWER, Change::Nothing)?;
    put_made(alloc, files, "m", NEWER, Change::Marked(2))?;
    put_made(alloc, files, "wide", WIDER, Change::Nothing)?;
    put_made(alloc, files, "old", OLDER, Change::Nothing)?;
    put_made(alloc, files, "changed", OTHER, Change::Nothing)
}

/// Appends configurations that are refused.
fn put_refused(alloc: Global, files: &mut Files) -> Result<(), AllocError> {
    let third = Change::Word { place: 9, word: 7 };
    let far = Change::Word {
        place: 9,
        word: 0x0001_0003,
    };
    put_made(alloc, files, "cut", NEWER, Change::Shortened)?;
    put_made(alloc, files, "long", NEWER, Change::Lengthened)?;
    put_made(alloc, files, "old-cut", OLDER, Change::Shortened)?;
    put_made(alloc, files, "old-long", OLDER, Change::Lengthened)?;
    put_made(alloc, files, "third", NEWER, third)?;
    put_made(alloc, files, "far", NEWER, far)
}

/// The texts of all calls, and these.
pub(crate) fn texts(alloc: Global, more: &str) -> Result<Files, AllocError> {
    let mut files = Vec::new(alloc);
    put_texts(alloc, &mut files, TEXTS)?;
    put_texts(alloc, &mut files, more)?;
    Ok(files)
}

/// The texts of all calls, and the configurations.
pub(crate) fn files(alloc: Global) -> Result<Files, AllocError> {
    let mut files = texts(alloc, "")?;
    put_configurations(alloc, &mut files)?;
    put_refused(alloc, &mut files)?;
    Ok(files)
}
