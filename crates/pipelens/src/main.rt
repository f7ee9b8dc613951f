//! The companion: the system's words, files and streams, put through it.
#![tactic(auto)]

ghost use Rattle.std.specs.Prelude.{◌≡◌, ◌⊎◌, true, IsSome, IfOk, IfErr};
ghost use Rattle.std.specs.Process.{exit_status};
ghost use Rattle.pr_system.specs.Gathering.{are_through};
ghost use Rattle.pr_tool.specs.Noted.{GainsNote};
ghost use Rattle.pr_tool_answers.specs.declared.answers.Answer.{Answer};
ghost use Rattle.pr_lens_tool.specs.declared.outcomes.Outcome.TheVariants.{Plain};
ghost use Rattle.pr_lens_tool.specs.Orders.{asked_by};
ghost use Rattle.pr_lens_tool.specs.Outcomes.{status_of, line_of};
ghost use Rattle.pr_lens_tool.specs.Replies.{HasLine, HasOwnLine};
ghost use Rattle.pipelens.specs.Settled.{is_write_fault, plain_reply, settled};
ghost use Rattle.pipelens.specs.Ends.{IsEnded, asked_in, refusal_of};

use pr_edge::Sink;
use pr_lens_tool::{Outcome, Reply, pipelens};
use pr_system::{
    FileShelf, Finished, Gathered, Gathering, OutSink, WordsFault, are_through, words_of,
};
use pr_tool::{Answer, Bounds};
use std::cell::RefCell;
use std::io::{self, Printer, Write};
use std::process::ExitCode;
use std::rt::{Env, Files};

/// The outcome where memory was wanting.
const MEMORY: Outcome = Outcome::Plain(Answer::Memory);

/// The outcome where the last results did not go through.
const WRITE_FAULT: Outcome = Outcome::Plain(Answer::WriteFault);

/// What a call of the companion came to.
#[derive(Drop)]
struct Called<W> {
    /// What it replied.
    reply: Reply,
    /// What became of the last results; after a write fault no more are handed on.
    last: Option<Finished<W>>,
}

/// Whether a write failed.
fn is_write_fault(outcome: Outcome) -> bool
    ensures { result ≡ is_write_fault outcome }
{
    match outcome {
        Outcome::Plain(Answer::WriteFault) | Outcome::Streamed(Answer::WriteFault) => true,
        _ => false,
    }
}

/// Hands on the last results of a call, unless a write failed.
fn finish<W: Write + Drop>(outcome: Outcome, results: Gathering<W>) -> Option<Finished<W>>
    ensures { (is_write_fault outcome ≡ true) ⊎ IsSome result }
{
    if is_write_fault(outcome) {
        None
    } else {
        Some(results.finish())
    }
}

/// Runs the companion on the words, with results gathered on their way to standard output, and hands on the last of these.
///
/// # Errors
///
/// Want of memory, before the companion is asked.
fn call<'a, R: Files + Print + AllocGlobal>(
    rt: &'a R,
    words: &[String],
) -> Result<Called<Printer<'a, R>>, Outcome>
    ensures refused { IfErr result (λ o. o ≡ Plain Answer.Memory) }
    ensures line { IfOk result (λ c. HasLine (asked_by words.now) c.reply) }
    ensures own { IfOk result (λ c. HasOwnLine (asked_by words.now) c.reply) }

    // The last results were handed on, but after a write fault.
    ensures finished { IfOk result (λ c. (is_write_fault c.reply.outcome ≡ true) ⊎ IsSome c.last) }
{
    let alloc = rt.alloc();
    let Ok(gathering) = Gathering::new(alloc, io::writer(rt)) else {
        return Err(MEMORY);
    };
    let results = RefCell::new(gathering);
    let reply = {
        let mut shelf = FileShelf::make(alloc, rt, &results)?;
        let mut out = OutSink::new(Gathered { results: &results });
        pipelens(alloc, words, &mut shelf, &mut out)
    };
    let last = finish(reply.outcome, results.into_inner());
    Ok(Called { reply, last })
}

/// The reply that is an outcome, and nothing more.
fn plain(outcome: Outcome) -> Reply
    ensures { result ≡ plain_reply outcome }
{
    Reply {
        outcome,
        bounds: Bounds::BASE,
        line: Ok(None),
    }
}

/// What a call comes to: what was replied, if its last results went through, and else a write fault.
fn settle<W: Drop>(called: Called<W>) -> Reply
    ensures { result ≡ settled called.reply called.last }
{
    let Called { reply, last } = called;
    if are_through(&last) {
        reply
    } else {
        plain(WRITE_FAULT)
    }
}

/// Calls the companion with these words; what it comes to.
fn reply_to<R: Files + Print + AllocGlobal>(rt: &R, words: &[String]) -> Reply
    // A line that it tells in place of an answer's own is that of what was asked for, and so are the limits of its own.
    ensures line { HasLine (asked_by words.now) result }
    ensures own { HasOwnLine (asked_by words.now) result }
{
    match call(rt, words) {
        Ok(called) => settle(called),
        Err(outcome) => plain(outcome),
    }
}

/// Writes the line of a call, and says with which status to end. Nobody can be told of a line that is not written.
fn report<E: Sink>(reply: &Reply, stderr: &mut E) -> u8
    ensures status { result ≡ status_of reply.now.outcome }
    ensures note { GainsNote (E.view stderr.old).told (E.view stderr.new).told (E.view stderr.old).faults
        (E.view stderr.new).faults (line_of reply.now) }
{
    reply.put_note(stderr);
    reply.outcome.status()
}

/// What a call comes to where the words cannot be had.
fn refusal_of(fault: WordsFault) -> Outcome
    ensures { result ≡ refusal_of fault }
{
    match fault {
        WordsFault::NoText => Outcome::Usage,
        WordsFault::Memory => MEMORY,
    }
}

/// Calls the companion with the words of a command line, where they can be had; what it comes to.
fn replied<R: Files + Print + AllocGlobal>(rt: &R, given: Result<Vec<String>, WordsFault>) -> Reply
    ensures refused { IfErr given (λ fault. result ≡ plain_reply (refusal_of fault)) }
    ensures line { HasLine (asked_in given) result }
    ensures own { HasOwnLine (asked_in given) result }
{
    match given {
        Ok(words) => reply_to(rt, &words),
        Err(fault) => plain(refusal_of(fault)),
    }
}

/// Calls the companion with the words that the system gives, writes its line, and ends with the status of its outcome.
fn ended<R: Env + Files + Print + AllocGlobal, E: Sink>(rt: &R, stderr: &mut E) -> ExitCode
    ensures { IsEnded (E.view stderr.old).told (E.view stderr.new).told (E.view stderr.old).faults
        (E.view stderr.new).faults (exit_status result) }
{
    let reply = replied(rt, words_of(rt));
    ExitCode::from(report(&reply, stderr))
}

fn main(rt: HostRuntime) -> ExitCode {
    ended(&rt, &mut OutSink::new(rt.stderr()))
}
