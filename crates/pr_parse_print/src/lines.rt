//! Programs, each item on a line of its own.

ghost use Rattle.std.specs.Prelude.{◌≡◌, OnOk, IfOk, ◌∷◌, ◌++◌, [], List, ℕ, drop};
ghost use Rattle.pr_lang.specs.Word.{words_of};
ghost use Rattle.pr_lang.specs.Shape.{item_shape, program_shape};
ghost use Rattle.pr_lang.specs.Printed.{spelling, spaced, printed};
ghost use Rattle.pr_lang.specs.Syntax.{IsProgram};

use crate::items::put_item;
use pr_lang::{Item, Program};
use std::alloc::{AllocError, Global};

/// The bytes after the first.
fn after_first(bytes: &[u8]) -> &[u8]
    ensures { result.now ≡ drop 1 bytes.now }
{
    match bytes {
        [] => bytes,
        [_, rest @ ..] => rest,
    }
}

/// A line of its own, without a space in front.
fn put_line(alloc: Global, text: &mut Vec<u8>, item: &Item) -> Result<(), AllocError>
    ensures { OnOk result (text.new.items ≡ text.old.items ++ spaced (spelling (item_shape item.now)) (10 ∷ [])) }
{
    let mut line = Vec::new(alloc);
    put_item(&mut line, item)?;
    text.extend_from_slice(after_first(&line))?;
    text.push(b'\n')?;
    Ok(())
}

/// The text of a program: its tokens with one space between, and each item on a line of its own. Where the program was read
/// from a text, this text has the same tokens, and so it is read back as the same program.
pub fn print(alloc: Global, program: &Program) -> Result<Vec<u8>, AllocError>
    ensures text { IfOk result (λ text. text.items ≡ printed (program_shape program.now)) }
    ensures same { IfOk result (λ text. (from : List ℕ) → IsProgram from (program_shape program.now) →
        IsProgram text.items (program_shape program.now)) }
    ensures tokens { IfOk result (λ text. (from : List ℕ) → IsProgram from (program_shape program.now) →
        words_of text.items ≡ words_of from) }
{
    let mut text = Vec::new(alloc);
    for item in program.items.as_slice() {
        put_line(alloc, &mut text, item)?;
    }
    Ok(text)
}
