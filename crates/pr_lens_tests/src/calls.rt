//! Calls of the companion over a file in memory, and what is checked of them.

use pr_edge::{SureShelf, SureSink};
use pr_lens_tool::{Reply, pipelens};
use std::alloc::{AllocError, Global};
use std::process::Abort;

/// The bytes that a call may write here.
const ROOM: usize = 32_768;

/// The words of a line as the system gives them.
fn words_of(alloc: Global, line: &str) -> Result<Vec<String>, AllocError> {
    let mut words = Vec::new(alloc);
    words.push(String::from_str(alloc, "pipelens")?)?;
    for word in line.split(' ') {
        words.push(String::from_str(alloc, word)?)?;
    }
    Ok(words)
}

/// A file of this name with this text.
fn file_of(alloc: Global, name: &str, text: &str) -> Result<(String, Vec<u8>), AllocError> {
    let name = String::from_str(alloc, name)?;
    Ok((name, Vec::from_slice(alloc, text.as_bytes())?))
}

/// A shelf with this text in the file `p`. What stands behind a line of three hyphens is in the file `s`.
fn shelf_of(alloc: Global, text: &str) -> Result<SureShelf, AllocError> {
    let (program, samples) = text.split_once("\n---\n").unwrap_or((text, ""));
    let mut files = Vec::new(alloc);
    files.push(file_of(alloc, "p", program)?)?;
    files.push(file_of(alloc, "s", samples)?)?;
    Ok(SureShelf::make(files))
}

/// Calls the companion with the words of a line over a text: what this comes to.
fn call(alloc: Global, line: &str, text: &str, out: &mut SureSink) -> Result<Reply, AllocError> {
    let words = words_of(alloc, line)?;
    let mut shelf = shelf_of(alloc, text)?;
    Ok(pipelens(alloc, &words, &mut shelf, out))
}

/// Appends bytes as text.
fn put_text(bytes: &[u8], told: &mut String) -> Result<(), AllocError> {
    told.push_str(str::from_utf8(bytes).unwrap_or("no text"))
}

/// Appends the line that is told beside what is written, behind a mark, where there is one.
fn put_note(alloc: Global, reply: &Reply, told: &mut String) -> Result<(), AllocError> {
    let mut note = SureSink::make(alloc, ROOM)?;
    reply.put_note(&mut note);
    if !note.bytes().is_empty() {
        told.push_str("! ")?;
    }
    put_text(note.bytes(), told)
}

/// What comes of a call: on a line its status, and behind it what it writes, and its note.
fn answer_to(alloc: Global, line: &str, text: &str) -> Result<String, AllocError> {
    let mut out = SureSink::make(alloc, ROOM)?;
    let reply = call(alloc, line, text, &mut out)?;
    let mut told = format!(in alloc; "{}\n", reply.outcome.status())?;
    put_text(out.bytes(), &mut told)?;
    put_note(alloc, &reply, &mut told)?;
    Ok(told)
}

/// Whether an answer is as wanted: `whole`, or `start...`, or `start...part...` with anything in the place of `...`.
fn fits(answer: &str, wanted: &str) -> bool {
    let Some(wanted) = wanted.strip_suffix("...\n") else {
        return answer == wanted;
    };
    let (start, part) = wanted.split_once("...").unwrap_or((wanted, ""));
    match answer.strip_prefix(start) {
        Some(rest) => rest.contains(part),
        None => false,
    }
}

/// Makes a call over a text, and checks what comes of it.
fn check(
    rt: &impl Abort,
    alloc: Global,
    line: &str,
    text: &str,
    wanted: &str,
) -> Result<(), AllocError> {
    let answer = answer_to(alloc, line, text)?;
    let answer = answer.as_str();
    assert!(rt;
        fits(answer, wanted),
        "{line}\n{text}\n= {answer}wanted:\n= {wanted}"
    );
    Ok(())
}

/// Makes the calls of a table, and checks what comes of each. A case is `$` with the words of a call, the text in the file
/// `p` (and `s`) where it is another than this one, and behind `=` the answer.
pub(crate) fn check_calls<'a>(
    rt: &impl Abort,
    alloc: Global,
    text: &'a str,
    cases: &'a str,
) -> Result<(), AllocError> {
    for case in cases.split("$ pipelens ") {
        let (call, wanted) = case.split_once("\n= ").unwrap_or((case, ""));
        let (line, text) = call.split_once('\n').unwrap_or((call, text));
        if !line.is_empty() {
            check(rt, alloc, line, text, wanted)?;
        }
    }
    Ok(())
}
