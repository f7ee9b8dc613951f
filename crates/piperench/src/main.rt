//! The program: the system's words, files and streams, put through the tool.
#![tactic(auto)]

ghost use Rattle.std.specs.Prelude.{◌≡◌, ◌⊎◌, None, IfErr};
ghost use Rattle.std.specs.Process.{exit_status};
ghost use Rattle.pr_edge.specs.SureSink.{bytes_of};
ghost use Rattle.pr_system.specs.Gathering.{are_through};
ghost use Rattle.pr_tool.specs.Noted.{GainsNote};
ghost use Rattle.pr_tool.specs.Notes.{note_of};
ghost use Rattle.pr_tool.specs.Words.{asked_by, bounds_in};
ghost use Rattle.piperench.specs.Settled.{settled, line_after};
ghost use Rattle.piperench.specs.Ends.{IsEnded, asked_in, refusal_of};

mod calls;

use calls::{Called, call, settle};
use pr_edge::{Sink, write_all};
use pr_system::{OutSink, WordsFault, are_through, words_of};
use pr_tool::{Answer, Bounds, put_note};
use std::process::ExitCode;
use std::rt::{Env, Files};

/// Writes the line that was held back, where the last results went through, and else that of a write fault.
fn put_held<E: Sink>(held: &[u8], through: bool, stderr: &mut E)
    ensures { GainsNote (E.view stderr.old).told (E.view stderr.new).told (E.view stderr.old).faults
        (E.view stderr.new).faults (line_after held.now through) }
{
    if !through {
        put_note(stderr, &Bounds::BASE, &Answer::WriteFault);
        return;
    }
    // Nobody can be told of a note that is not written.
    match write_all(stderr, held) {
        Ok(()) => {}
        Err(_) => {}
    }
}

/// Writes the note of a call, and says with which answer to end.
fn report<W, E: Sink>(called: &Called<W>, stderr: &mut E) -> Answer
    ensures answer { result ≡ settled called.now.told (are_through called.now.last) }
    ensures note { GainsNote (E.view stderr.old).told (E.view stderr.new).told (E.view stderr.old).faults
        (E.view stderr.new).faults (line_after (bytes_of called.now.note) (are_through called.now.last)) }
{
    let through = are_through(&called.last);
    put_held(called.note.bytes(), through, stderr);
    settle(called.told, through)
}

/// Writes the note of an answer that came before the tool was asked.
fn refuse<E: Sink>(answer: Answer, stderr: &mut E) -> Answer
    ensures answer { result ≡ answer }
    ensures note { GainsNote (E.view stderr.old).told (E.view stderr.new).told (E.view stderr.old).faults
        (E.view stderr.new).faults (note_of (bounds_in None) answer) }
{
    put_note(stderr, &Bounds::BASE, &answer);
    answer
}

/// Calls the tool with these words, writes the note, and says with which answer to end.
fn answer_to<R: Files + Print + AllocGlobal, E: Sink>(
    rt: &R,
    words: &[String],
    stderr: &mut E,
) -> Answer
    // Words that are no lawful command line are answered so, unless memory is wanting or a write fails, and no others are.
    ensures usage { result ≡ Answer.Usage → asked_by words.now ≡ None }
    ensures wrong { asked_by words.now ≡ None
        → (result ≡ Answer.Usage) ⊎ ((result ≡ Answer.Memory) ⊎ (result ≡ Answer.WriteFault)) }

    // The note is the line of the answer, up to a write that fails.
    ensures note { GainsNote (E.view stderr.old).told (E.view stderr.new).told (E.view stderr.old).faults
        (E.view stderr.new).faults (note_of (bounds_in (asked_by words.now)) result) }
{
    match call(rt, words) {
        Ok(called) => report(&called, stderr),
        Err(answer) => refuse(answer, stderr),
    }
}

/// The answer where the words cannot be had.
fn refusal_of(fault: WordsFault) -> Answer
    ensures { result ≡ refusal_of fault }
{
    match fault {
        WordsFault::NoText => Answer::Usage,
        WordsFault::Memory => Answer::Memory,
    }
}

/// Answers the words of a command line, where they can be had, and writes the note.
fn answered<R: Files + Print + AllocGlobal, E: Sink>(
    rt: &R,
    given: Result<Vec<String>, WordsFault>,
    stderr: &mut E,
) -> Answer
    ensures refused { IfErr given (λ fault. result ≡ refusal_of fault) }
    ensures usage { result ≡ Answer.Usage → asked_in given ≡ None }
    ensures wrong { asked_in given ≡ None
        → (result ≡ Answer.Usage) ⊎ ((result ≡ Answer.Memory) ⊎ (result ≡ Answer.WriteFault)) }
    ensures note { GainsNote (E.view stderr.old).told (E.view stderr.new).told (E.view stderr.old).faults
        (E.view stderr.new).faults (note_of (bounds_in (asked_in given)) result) }
{
    match given {
        Ok(words) => answer_to(rt, &words, stderr),
        Err(fault) => refuse(refusal_of(fault), stderr),
    }
}

/// Answers the words that the system gives, writes the note, and ends with the status of the answer.
fn ended<R: Env + Files + Print + AllocGlobal, E: Sink>(rt: &R, stderr: &mut E) -> ExitCode
    ensures { IsEnded (E.view stderr.old).told (E.view stderr.new).told (E.view stderr.old).faults
        (E.view stderr.new).faults (exit_status result) }
{
    ExitCode::from(answered(rt, words_of(rt), stderr).status())
}

fn main(rt: HostRuntime) -> ExitCode {
    ended(&rt, &mut OutSink::new(rt.stderr()))
}
