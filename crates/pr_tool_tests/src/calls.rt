//! Calls of the tool, and what is checked of them.

use crate::files::Files;
use pr_edge::{MemShelf, MemSink};
use pr_tool::{Answer, Bench, piperench};
use std::alloc::{AllocError, Global};
use std::fmt::Write;
use std::process::Abort;

/// How a call ends where all went well.
pub(crate) const OK: &str = "= Ok 0\n";

/// How it ends where a read failed.
pub(crate) const READ_FAULT: &str = "= ReadFault 10\nread fault\n";

/// How it ends where a write failed.
pub(crate) const WRITE_FAULT: &str = "= WriteFault 11\nwrite fault\n";

/// How calls are made. Reads and writes are counted from 1, and none is number 0.
#[derive(Clone, Copy)]
pub(crate) struct Setting<'a> {
    /// The word in place of `_`.
    pub(crate) blank: &'a str,
    /// The read that fails.
    pub(crate) read: u64,
    /// The write that fails.
    pub(crate) write: u64,
    /// The bytes that a note may have.
    pub(crate) note: usize,
}

/// Calls in which nothing fails.
pub(crate) const PLAIN: Setting<'static> = Setting {
    blank: "",
    read: 0,
    write: 0,
    note: 1_000,
};

/// The words of a line as the system gives them.
fn words_of(alloc: Global, line: &str, blank: &str) -> Result<Vec<String>, AllocError> {
    let mut words = Vec::new(alloc);
    words.push(String::from_str(alloc, "piperench")?)?;
    for word in line.split(' ') {
        let word = if word == "_" { blank } else { word };
        words.push(String::from_str(alloc, word)?)?;
    }
    Ok(words)
}

/// The list of one number.
fn only(alloc: Global, number: u64) -> Result<Vec<u64>, AllocError> {
    Vec::from_slice(alloc, &[number])
}

/// A shelf with these files, of which a read fails.
pub(crate) fn shelf_of(
    alloc: Global,
    files: Files,
    setting: &Setting<'_>,
) -> Result<MemShelf, AllocError> {
    MemShelf::make(alloc, files, only(alloc, setting.read)?)
}

/// A sink with room for so many bytes, of which a write fails.
fn sink_of(alloc: Global, room: usize, write: u64) -> Result<MemSink, AllocError> {
    MemSink::make(alloc, room, only(alloc, write)?)
}

/// How a call ends: a line with the answer and its status, and the note.
fn ending_of(alloc: Global, answer: Answer, note: &[u8]) -> Result<Vec<u8>, AllocError> {
    let mut line = String::new(alloc);
    writeln!(line, "= {answer:?} {}", answer.status())?;
    let mut ending = Vec::from_slice(alloc, line.as_bytes())?;
    ending.extend_from_slice(note)?;
    Ok(ending)
}

/// Calls the tool with the words of a line, appends what it writes to the text, and says how the call ends.
pub(crate) fn call_on(
    alloc: Global,
    line: &str,
    shelf: &mut MemShelf,
    bench: &mut Bench,
    setting: &Setting<'_>,
    text: &mut Vec<u8>,
) -> Result<Vec<u8>, AllocError> {
    let words = words_of(alloc, line, setting.blank)?;
    let mut out = sink_of(alloc, 100_000, setting.write)?;
    let mut note = sink_of(alloc, setting.note, 0)?;
    let answer = piperench(alloc, &words, shelf, &mut out, &mut note, bench);
    text.extend_from_slice(out.bytes())?;
    ending_of(alloc, answer, note.bytes())
}

/// The same with nothing on the bench.
fn call(
    alloc: Global,
    line: &str,
    shelf: &mut MemShelf,
    setting: &Setting<'_>,
    text: &mut Vec<u8>,
) -> Result<Vec<u8>, AllocError> {
    call_on(alloc, line, shelf, &mut Bench::Nothing, setting, text)
}

/// Checks what came of a call.
pub(crate) fn check(
    rt: &impl Abort,
    came: &[u8],
    wanted: &[u8],
    line: &str,
    setting: &Setting<'_>,
) {
    assert_eq!(rt;
        came,
        wanted,
        "{line}, {}, {}, {}",
        setting.blank, setting.read, setting.write
    );
}

/// Calls the tool with the words of a line, checks how the call ends, and gives what it writes.
pub(crate) fn text_over(
    rt: &impl Abort,
    alloc: Global,
    line: &str,
    shelf: &mut MemShelf,
    setting: &Setting<'_>,
    ending: &str,
) -> Result<Vec<u8>, AllocError> {
    let mut text = Vec::new(alloc);
    let came = call(alloc, line, shelf, setting, &mut text)?;
    check(rt, &came, ending.as_bytes(), line, setting);
    Ok(text)
}

/// The same over these files.
pub(crate) fn text_of(
    rt: &impl Abort,
    alloc: Global,
    line: &str,
    files: Files,
    setting: &Setting<'_>,
    ending: &str,
) -> Result<Vec<u8>, AllocError> {
    let mut shelf = shelf_of(alloc, files, setting)?;
    text_over(rt, alloc, line, &mut shelf, setting, ending)
}

/// Calls the tool with the words of a line, and checks how the call ends and what it writes.
pub(crate) fn check_text(
    rt: &impl Abort,
    alloc: Global,
    line: &str,
    files: Files,
    setting: &Setting<'_>,
    ending: &str,
    wanted: &[u8],
) -> Result<(), AllocError> {
    let text = text_of(rt, alloc, line, files, setting, ending)?;
    check(rt, &text, wanted, line, setting);
    Ok(())
}

/// The same where the tool writes these lines, or, if a call fails, their first bytes.
pub(crate) fn check_lines(
    rt: &impl Abort,
    alloc: Global,
    line: &str,
    files: Files,
    setting: &Setting<'_>,
    ending: &str,
    lines: &str,
) -> Result<(), AllocError> {
    let text = text_of(rt, alloc, line, files, setting, ending)?;
    let count = if ending == OK {
        lines.len()
    } else {
        lines.len().min(text.len())
    };
    check(rt, &text, &lines.as_bytes()[..count], line, setting);
    Ok(())
}

/// Calls the tool with the words of a line, and checks what it writes and, behind that, how the call ends.
fn check_call(
    rt: &impl Abort,
    alloc: Global,
    line: &str,
    shelf: &mut MemShelf,
    setting: &Setting<'_>,
    wanted: &str,
) -> Result<(), AllocError> {
    let mut text = Vec::new(alloc);
    let ending = call(alloc, line, shelf, setting, &mut text)?;
    text.extend_from_slice(&ending)?;
    check(rt, &text, wanted.as_bytes(), line, setting);
    Ok(())
}

/// Makes the calls of a table over these files, and checks what comes of each. A case is a mark, the words, and on the
/// lines behind them the text, the answer with its status, and the note.
pub(crate) fn check_calls(
    rt: &impl Abort,
    alloc: Global,
    files: Files,
    setting: &Setting<'_>,
    cases: &str,
) -> Result<(), AllocError> {
    let mut shelf = shelf_of(alloc, files, setting)?;
    for case in cases.split("$ ") {
        let (line, wanted) = case.split_once('\n').unwrap_or((case, ""));
        if !line.is_empty() {
            check_call(rt, alloc, line, &mut shelf, setting, wanted)?;
        }
    }
    Ok(())
}
