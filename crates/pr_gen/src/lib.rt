//! Programs and samples of any size, made by a rule: for tries of a whole compilation and run.
#![tactic(auto)]

ghost use Rattle.std.specs.Prelude.{◌≡◌, ◌≤◌, IfOk};
ghost use Rattle.pr_gen.specs.Texts.{program_text, samples_text};

use itoa::Buffer;
use std::alloc::{AllocError, Global};

mod lines;

use lines::{put_samples, put_table};

/// A program with one input of 16 bits and a loop of `k` turns, each a sum, a delay and an exclusive or.
pub fn program_of(alloc: Global, k: u32) -> Result<Vec<u8>, AllocError>
    requires least { 1 ≤ k }
    requires greatest { k ≤ 1000 }
    ensures { IfOk result (λ text. text.items ≡ program_text k) }
{
    let mut text = Vec::from_slice(alloc, b"input x:16;\nconst c = [")?;
    put_table(&mut text, k)?;
    text.extend_from_slice(b"];\nlet t[0] = x;\nfor i in 1..")?;
    let mut buffer = Buffer::new();
    text.extend_from_slice(buffer.format(k + 1).as_bytes())?;
    text.extend_from_slice(b" { let t[i]:16 = (t[i-1] + c[i-1]) ^ t[i-1]@1; }\noutput y = t[")?;
    text.extend_from_slice(buffer.format(k).as_bytes())?;
    text.extend_from_slice(b"];\n")?;
    Ok(text)
}

/// A thousand samples of 16 bits, one a line, the same for every `k`.
pub fn samples_of(alloc: Global, k: u32) -> Result<Vec<u8>, AllocError>
    requires least { 1 ≤ k }
    requires greatest { k ≤ 1000 }
    ensures { IfOk result (λ text. text.items ≡ samples_text) }
{
    let mut text = Vec::new(alloc);
    put_samples(&mut text)?;
    Ok(text)
}
