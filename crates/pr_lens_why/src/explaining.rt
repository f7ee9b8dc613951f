//! Explanations of refusals.

ghost use Rattle.std.specs.Prelude.{◌≡◌, ◌≤◌, length, min, IfOk};
ghost use Rattle.pr_lang.specs.Tokens.{tokens_of};
ghost use Rattle.pr_compile.specs.Refusals.{IsCompileAnswer, IsRefused};
ghost use Rattle.pr_lens_why.specs.Verdicts.{IsVerdict, IsExplained, IsPointing};

use crate::telling::tell;
use pr_compile::{CompileFault, compile_counted};
use pr_lens_source::{Source, spans_of};
use pr_parse::tokens;
use std::alloc::{AllocError, Global};

/// Why a text is refused.
#[derive(Drop)]
pub struct Explanation {
    /// The compiler's answer.
    pub fault: CompileFault,
    /// The token to look at.
    pub token: usize,
    /// Its first byte.
    pub start: usize,
    /// The byte behind its last one.
    pub end: usize,
    /// What is wrong and what to do, in lines.
    pub message: Vec<u8>,
}

/// What the compiler says of a text.
#[derive(Drop)]
pub enum Verdict {
    Accepted,
    Refused(Explanation),
}

/// The explanation of a refusal, which points at a token, or at the end of the text behind all tokens.
fn pointing(source: &Source, token: usize, fault: CompileFault, message: Vec<u8>) -> Explanation
    requires { source.now.tokens.now ≡ tokens_of source.now.text.now }
    ensures fault { result.fault ≡ fault }
    ensures token { result.token ≡ min token (length (tokens_of source.now.text.now)) }
    ensures place { IsPointing source.now.text.now result }
    ensures message { result.message.items ≡ message.items }
{
    let token = token.min(source.tokens.len());
    let start = source.start(token);
    Explanation {
        fault,
        token,
        start,
        end: source.end(token).max(start),
        message,
    }
}

/// The explanation of a refusal, with narrowed equations or without.
fn explained<const N: usize, const P: usize>(
    alloc: Global,
    text: &[u8],
    narrowed: bool,
    fault: CompileFault,
) -> Result<Explanation, AllocError>
    requires short { length text.now ≤ 1048576 }
    requires columns { 1 ≤ N }
    requires most_columns { N ≤ 64 }
    requires registers { 2 ≤ P }
    requires most_registers { P ≤ 16 }
    requires refused { IsRefused N P narrowed text.now fault }
    ensures { IfOk result (IsExplained N P narrowed text.now) }
{
    let found = tokens(alloc, text)?;
    let spans = spans_of(alloc, &found)?;
    let source = Source {
        text,
        tokens: &found,
        spans: &spans,
    };
    let mut message = Vec::new(alloc);
    let token = tell::<N, P>(alloc, &mut message, &source, narrowed, &fault)?;
    Ok(pointing(&source, token, fault, message))
}

/// The verdict on a text that is refused; want of memory is none.
fn refused<const N: usize, const P: usize>(
    alloc: Global,
    text: &[u8],
    narrowed: bool,
    fault: CompileFault,
) -> Result<Verdict, AllocError>
    requires short { length text.now ≤ 1048576 }
    requires columns { 1 ≤ N }
    requires most_columns { N ≤ 64 }
    requires registers { 2 ≤ P }
    requires most_registers { P ≤ 16 }
    requires answer { IsCompileAnswer N P narrowed text.now fault }
    ensures { IfOk result (IsVerdict N P narrowed text.now) }
{
    match fault {
        CompileFault::Memory(error) => Err(error),
        other => {
            let explanation = explained::<N, P>(alloc, text, narrowed, other)?;
            Ok(Verdict::Refused(explanation))
        }
    }
}

/// What the compiler says of a text on N columns and P registers, with narrowed equations or without, and an
/// explanation where it is refused.
pub fn explain<const N: usize, const P: usize>(
    alloc: Global,
    text: &[u8],
    narrowed: bool,
) -> Result<Verdict, AllocError>
    requires short { length text.now ≤ 1048576 }
    requires columns { 1 ≤ N }
    requires most_columns { N ≤ 64 }
    requires registers { 2 ≤ P }
    requires most_registers { P ≤ 16 }
    ensures { IfOk result (IsVerdict N P narrowed text.now) }
{
    match compile_counted::<N, P>(alloc, text, narrowed) {
        Ok(_) => Ok(Verdict::Accepted),
        Err(fault) => refused::<N, P>(alloc, text, narrowed, fault),
    }
}
