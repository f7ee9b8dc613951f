//! Stall texts.

use pr_samples::{Held, Stall};
use std::alloc::{AllocError, Global};
use std::fmt::Write;
use std::test::Fail;

/// The letter that a stall text has for what is held.
fn letter(held: Held) -> &'static str {
    match (held.input, held.output) {
        (false, false) => ".",
        (true, false) => "i",
        (false, true) => "o",
        (true, true) => "b",
    }
}

/// Appends what is held in six turns, or the place of the first bad byte.
fn put_turns(alloc: Global, text: &[u8], told: &mut String) -> Result<(), AllocError> {
    let text = Vec::from_slice(alloc, text)?;
    if text.len() > 100 {
        return told.push_str("too long\n");
    }
    match Stall::make(text) {
        Ok(mut stall) => {
            for _ in 0..6 {
                told.push_str(letter(stall.next()))?;
            }
        }
        Err(bad) => write!(told, "bad at {}", bad.place)?,
    }
    told.push_str("\n")
}

#[test]
fn turns_of_texts(rt: HostRuntime) -> Result<(), Fail> {
    let mut told = String::new(rt.alloc());
    put_turns(rt.alloc(), b".i\r\nob\n", &mut told)?;
    put_turns(rt.alloc(), b"..x y", &mut told)?;
    assert_eq!(rt; told.as_str(), ".iob..\nbad at 2\n");
    Ok(())
}
