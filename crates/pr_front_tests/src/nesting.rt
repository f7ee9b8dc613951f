//! Texts that are nested deep.

use crate::reading::{Answer, answer_to, printed};
use std::alloc::{AllocError, Global};
use std::test::Fail;

/// How often parts are repeated, the answer, and the shape of a text: the second and the fourth of its parts are repeated.
const REPEATED: &str = "200 203 output y = |(|||;
256 259 output y = |(|||
257 deep output y = |(|||
300 deep output y = |(|||;
256 program output y = |~|||a;
257 deep output y = |~|||a;
256 program input a:8; output y = a|{7..0}|||;
300 deep input a:8; output y = a|{7..0}|||;
256 program input a:8; output y = |(|a|)|;
257 deep input a:8; output y = |(|a|)|;";

fn put(text: &mut Vec<u8>, part: &str, times: usize) -> Result<(), AllocError> {
    for _ in 0..times {
        text.extend_from_slice(part.as_bytes())?;
    }
    Ok(())
}

/// The text of a shape.
fn repeated(alloc: Global, shape: &str, times: usize) -> Result<Vec<u8>, AllocError> {
    let mut text = Vec::new(alloc);
    let mut is_repeated = false;
    for part in shape.split('|') {
        put(&mut text, part, if is_repeated { times } else { 1 })?;
        is_repeated = !is_repeated;
    }
    Ok(text)
}

/// The answer of a word: the wrong token, or another one.
fn answer_of(word: &str) -> Option<Answer> {
    if word == "deep" {
        return Some(Answer::TooDeep);
    }
    if word == "program" {
        return Some(Answer::Program);
    }
    word.parse().ok().map(Answer::Syntax)
}

/// Whether a text comes to the answer of a word.
fn comes_to(alloc: Global, text: &[u8], word: &str) -> Result<bool, AllocError> {
    if text.len() > 10000 {
        return Ok(false);
    }
    Ok(answer_of(word) == Some(answer_to(alloc, text)?))
}

/// Whether the text of a line comes to its answer.
fn is_answered(alloc: Global, line: &str) -> Result<bool, AllocError> {
    let Some((times, rest)) = line.split_once(' ') else {
        return Ok(false);
    };
    let (Ok(times), Some((word, shape))) = (times.parse(), rest.split_once(' ')) else {
        return Ok(false);
    };
    comes_to(alloc, &repeated(alloc, shape, times)?, word)
}

/// The first line whose text comes to another answer.
fn other_line(alloc: Global, lines: &'static str) -> Result<Option<&'static str>, AllocError> {
    for line in lines.lines() {
        if !is_answered(alloc, line)? {
            return Ok(Some(line));
        }
    }
    Ok(None)
}

#[test]
fn repeated_parts(rt: HostRuntime) -> Result<(), Fail> {
    assert_eq!(rt; other_line(rt.alloc(), REPEATED)?, None);
    Ok(())
}

/// Whether the text of a shape is printed as that of another one, with 256 of each repeated part.
fn is_printed(alloc: Global, shape: &str, wanted: &str) -> Result<bool, AllocError> {
    let text = repeated(alloc, shape, 256)?;
    if text.len() > 2000 {
        return Ok(false);
    }
    Ok(printed(alloc, &text)?.as_slice() == repeated(alloc, wanted, 256)?.as_slice())
}

#[test]
fn deep_parentheses_are_printed(rt: HostRuntime) -> Result<(), Fail> {
    let wanted = "input a : 8 ;\noutput y = |( |a |) |;\n";
    assert!(rt; is_printed(rt.alloc(), "input a:8; output y = |(|a|)|;", wanted)?);
    assert!(rt; is_printed(rt.alloc(), wanted, wanted)?);
    Ok(())
}
