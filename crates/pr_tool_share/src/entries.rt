//! The lines of a list.
ghost use Rattle.std.specs.Prelude.{◌≡◌, ◌<◌, [], ◌∷◌, true, false, None, IfOk, MatchOption, length, option_map};
ghost use Rattle.std.specs.Str.{is_utf8};
ghost use Rattle.pr_samples.specs.Lines.{words_of, without_return};
ghost use Rattle.pr_tool_share.specs.Entries.{entry_by, list_lines};
ghost use Rattle.pr_tool_share.specs.EntryLines.{IsLine, entry_said};

use crate::words::{begins_apart, next_word};
use pr_samples::line_end;
use pr_tool_words::number_in;
use std::alloc::{AllocError, Global};
use std::str::from_utf8;

/// A program of a list.
#[derive(Drop)]
pub struct Entry {
    /// The name of its file.
    pub program: String,
    /// The name of its samples' file.
    pub samples: String,
    /// The greatest number of samples of a turn, from 1 to 1,000,000.
    pub quota: u32,
}

/// What the words of a line say of a program.
#[derive(Clone, Copy)]
pub struct Said<'a> {
    program: &'a str,
    samples: &'a str,
    quota: u32,
}

/// What a line says.
#[derive(Drop)]
pub enum Line {
    /// Nothing: it is blank.
    Blank,
    /// A program.
    Program(Entry),
    /// It is not as it should be.
    Wrong,
}

/// The greatest quota.
const GREATEST_QUOTA: u32 = 1_000_000;

/// The first line of a text, without its LF, and the text after it.
pub(crate) fn split_line(text: &[u8]) -> (&[u8], &[u8])
    requires { 0 < length text.now }
    ensures lines { list_lines text.now ≡ result.0.now ∷ list_lines result.1.now }
    ensures shorter { length result.1.now < length text.now }
{
    match line_end(text) {
        None => (text, &text[text.len()..]),
        Some(end) => (&text[..end], &text[end + 1..]),
    }
}

/// A line without the CR at its end.
fn without_return(line: &[u8]) -> &[u8]
    ensures { result.now ≡ without_return line.now }
{
    match line.split_last() {
        Some((last, before)) if *last == b'\r' => before,
        _ => line,
    }
}

/// The text that these bytes are, if they are UTF-8.
fn text_of(bytes: &[u8]) -> Option<&str>
    ensures { MatchOption result (is_utf8 bytes.now ≡ false) (λ s. (s.now ≡ bytes.now) × (is_utf8 bytes.now ≡ true)) }
{
    match from_utf8(bytes) {
        Ok(text) => Some(text),
        Err(_) => None,
    }
}

/// The words of a line that has three.
fn three_words(line: &[u8]) -> Option<(&[u8], &[u8], &[u8])>
    ensures { MatchOption result (entry_by (words_of line.now) ≡ None)
        (λ w. words_of line.now ≡ w.0.now ∷ w.1.now ∷ w.2.now ∷ []) }
{
    let (program, rest) = next_word(line)?;
    let (samples, rest) = next_word(rest)?;
    let (quota, rest) = next_word(rest)?;
    match next_word(rest) {
        None => Some((program, samples, quota)),
        Some(_) => None,
    }
}

/// What the words of a line say of a program.
fn program_of(line: &[u8]) -> Option<Said>
    ensures { option_map entry_said result ≡ entry_by (words_of line.now) }
{
    let (program, samples, quota) = three_words(line)?;
    let program = text_of(program)?;
    let samples = text_of(samples)?;
    let quota = number_in(text_of(quota)?, 1, GREATEST_QUOTA)?;
    Some(Said {
        program,
        samples,
        quota,
    })
}

/// What a line says.
pub(crate) fn line_of(alloc: Global, line: &[u8]) -> Result<Line, AllocError>
    ensures { IfOk result (λ said. IsLine line.now said) }
{
    let line = without_return(line);
    if next_word(line).is_none() {
        return Ok(Line::Blank);
    }
    if begins_apart(line) {
        return Ok(Line::Wrong);
    }
    match program_of(line) {
        None => Ok(Line::Wrong),
        Some(said) => Ok(Line::Program(Entry {
            program: String::from_str(alloc, said.program)?,
            samples: String::from_str(alloc, said.samples)?,
            quota: said.quota,
        })),
    }
}
