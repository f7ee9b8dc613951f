//! A call of the tool, up to what became of its last results.
ghost use Rattle.std.specs.Prelude.{◌≡◌, ◌⊎◌, [], Some, None, IsSome, IfOk, IfErr};
ghost use Rattle.pr_edge.specs.SureSink.{bytes_of, told_of};
ghost use Rattle.pr_tool.specs.Notes.{note_of};
ghost use Rattle.pr_tool.specs.Words.{asked_by, bounds_in};
ghost use Rattle.piperench.specs.Settled.{settled};

use pr_edge::{Shelf, Sink, SureSink};
use pr_system::{FileShelf, Finished, Gathered, Gathering, OutSink};
use pr_tool::{Answer, Bench, piperench};
use std::alloc::Global;
use std::cell::RefCell;
use std::io::{self, Printer, Write};
use std::rt::Files;

/// The bytes of a note, at most.
const NOTE: usize = 128;

/// What a call of the tool came to.
#[derive(Drop)]
pub struct Called<W> {
    /// What the tool answered.
    pub told: Answer,
    /// The line of this answer. It is held back until the last result is through, since there is to be one line at most.
    pub note: SureSink,
    /// What became of the last results; after a write fault no more are handed on.
    pub last: Option<Finished<W>>,
}

/// What a call comes to: what the tool answered, if its last results then went through, and else a write fault.
pub fn settle(told: Answer, through: bool) -> Answer
    ensures { result ≡ settled told through }
{
    if through { told } else { Answer::WriteFault }
}

/// Asks the tool, on a bench of its own, with an empty sink for its note.
fn ask<S: Shelf, K: Sink>(
    alloc: Global,
    words: &[String],
    shelf: &mut S,
    out: &mut K,
    note: &mut SureSink,
) -> Answer
    requires { told_of note.old ≡ record { bytes = Some []; keeps = 128 } }
    ensures usage { result ≡ Answer.Usage → asked_by words.now ≡ None }
    ensures wrong { asked_by words.now ≡ None → (result ≡ Answer.Usage) ⊎ (result ≡ Answer.Memory) }
    ensures note { bytes_of note.new ≡ note_of (bounds_in (asked_by words.now)) result }
{
    let mut bench = Bench::Nothing;
    piperench(alloc, words, shelf, out, note, &mut bench)
}

/// Hands on the last results of a call, unless a write failed.
fn finish<W: Write + Drop>(told: Answer, results: Gathering<W>) -> Option<Finished<W>>
    ensures { (told ≡ Answer.WriteFault) ⊎ IsSome result }
{
    match told {
        Answer::WriteFault => None,
        _ => Some(results.finish()),
    }
}

/// Asks the tool what the words ask for, with results gathered on their way to standard output, and hands on the last of these.
///
/// # Errors
///
/// `Memory`, before the tool is asked.
pub fn call<'a, R: Files + Print + AllocGlobal>(
    rt: &'a R,
    words: &[String],
) -> Result<Called<Printer<'a, R>>, Answer>
    ensures refused { IfErr result (λ a. a ≡ Answer.Memory) }

    // Words that are no lawful command line are answered so, or memory is wanting, and no other words are.
    ensures usage { IfOk result (λ c. c.told ≡ Answer.Usage → asked_by words.now ≡ None) }
    ensures wrong { IfOk result
        (λ c. asked_by words.now ≡ None → (c.told ≡ Answer.Usage) ⊎ (c.told ≡ Answer.Memory)) }

    // The line that is held back is that of the answer.
    ensures note { IfOk result (λ c. bytes_of c.note ≡ note_of (bounds_in (asked_by words.now)) c.told) }

    // The last results were handed on, but after a write fault.
    ensures finished { IfOk result (λ c. (c.told ≡ Answer.WriteFault) ⊎ IsSome c.last) }
{
    let alloc = rt.alloc();
    let mut note = SureSink::make(alloc, NOTE)?;
    let Ok(gathering) = Gathering::new(alloc, io::writer(rt)) else {
        return Err(Answer::Memory);
    };
    let results = RefCell::new(gathering);
    let told = {
        let mut shelf = FileShelf::make(alloc, rt, &results)?;
        let mut out = OutSink::new(Gathered { results: &results });
        ask(alloc, words, &mut shelf, &mut out, &mut note)
    };
    let last = finish(told, results.into_inner());
    Ok(Called { told, note, last })
}
