//! The top call.
ghost use Rattle.std.specs.Prelude.{◌≡◌, ◌≢◌, ◌⊎◌, ◌≤◌, ℕ, List, length, Some, None, Option};
ghost use Rattle.pr_edge.specs.Count.{Rose, IsSteady};
ghost use Rattle.pr_tool_words.specs.Lawful.{Order};
ghost use Rattle.pr_tool_words.specs.Orders.{order_of};
ghost use Rattle.pr_tool_answers.specs.Owed.{IsOwed};
ghost use Rattle.pr_tool_modes.specs.Calls.{call};
ghost use Rattle.pr_tool_modes.specs.Files.{IsInOrder};
ghost use Rattle.pr_tool_modes.specs.Jobs.{Job};
ghost use Rattle.pr_tool_modes.specs.Sources.{Text};
ghost use Rattle.pr_tool_modes.specs.Lines.{AreProgramLines};
ghost use Rattle.pr_tool_modes.specs.declared.targets.Target.{Target};
ghost use Rattle.pr_tool.specs.Notes.{note_of};
ghost use Rattle.pr_tool.specs.Noted.{GainsNote};
ghost use Rattle.pr_tool.specs.Requests.{Runs, request_of};
ghost use Rattle.pr_tool.specs.Words.{asked_by, bounds_for, bounds_in, fabric_for, IsOnce, IsOther};
ghost use Rattle.pr_tool.specs.Calls.{IsUnchanged, IsCalled, IsVerdict, IsToldVerdict, HasGained};

use crate::modes::carry_out;
use crate::notes::{Bounds, put_note};
use crate::requests::request_of;
use pr_base::{Cap, Fabric};
use pr_edge::{Shelf, Sink};
use pr_tool_answers::Answer;
use pr_tool_modes::Bench;
use pr_tool_words::{Mode, Words, WordsFault, read_words};
use std::alloc::Global;

/// An answer, and the limits that its line tells.
#[derive(Clone, Copy)]
struct Reply {
    answer: Answer,
    bounds: Bounds,
}

/// Does what the words of a command line ask for, with the files of the shelf. Results go to `out`, and the line of an
/// answer other than Ok goes to `note`.
///
/// The first word is the program's name. A run leaves its machine on the bench; every other mode leaves the bench as it
/// was. Words and files have one verdict at most (`answer_law`).
pub fn piperench<S: Shelf, K: Sink, E: Sink>(
    alloc: Global,
    words: &[String],
    shelf: &mut S,
    out: &mut K,
    note: &mut E,
    bench: &mut Bench,
) -> Answer
    // What it came to, by the request of the words: what was read, what is written, and what is on the bench.
    ensures called { IsCalled (asked_by words.now)
        (call (S.view shelf.old) (S.view shelf.new) (K.view out.old) (K.view out.new)) bench.old bench.new result }

    // Over told files the answer is the verdict on words and files, or a fault that was counted, or want of memory; and where
    // no count rises it is the verdict or want of memory.
    ensures verdict { (files : List ℕ → Option (List ℕ)) → (S.view shelf.old).told ≡ Some files
        → IsOwed (IsVerdict files (asked_by words.now)) (S.view shelf.old).faults (S.view shelf.new).faults
        (K.view out.old).faults (K.view out.new).faults result }
    ensures complete { (files : List ℕ → Option (List ℕ)) → (S.view shelf.old).told ≡ Some files
        → IsSteady (S.view shelf.old).faults (S.view shelf.new).faults
        → IsSteady (K.view out.old).faults (K.view out.new).faults
        → IsVerdict files (asked_by words.now) result ⊎ (result ≡ Answer.Memory) }

    // The headline, for every text of samples, every number of stripes from 2 to 256, every stall text and both fabrics. Over told
    // files a run of a program has written the lines of what the program means on the samples that were fed to it. At Ok, at a bad
    // line and at a limit of samples these are all samples before the end, all their lines are written, and the machine on the bench
    // stands for the whole script of the run: it was asked for no more cycles than one for each turn of the stall text and those
    // that drain the samples. After a read fault they are first samples, and all their lines are written, or no run was begun.
    // After a write fault first bytes of the lines are, and the last line of the log is begun only where all samples were fed and
    // are good. With the log all this holds of the text that `out` gained without the lines of the log, byte by byte. At every other
    // answer no run was begun: nothing is written, and the bench is as it was.
    ensures lines { (files : List ℕ → Option (List ℕ)) (order : Order) (j : Job) (name : List ℕ) (target : Target)
        → (S.view shelf.old).told ≡ Some files
        → asked_by words.now ≡ Some order → request_of order ≡ Runs j → j.source ≡ Text name target
        → AreProgramLines files j
        (call (S.view shelf.old) (S.view shelf.new) (K.view out.old) (K.view out.new)) bench.old bench.new result }

    // What each request has written over told files, and what is on the bench. A checkpoint has the number of its samples, with those
    // before, and the configuration as they left it, and comes of samples that are all good alone; the bench is as it was. A run that
    // goes on from one writes the lines of the further samples, which are the rest of what the program means (`moving_law`). The
    // programs of a list have written the text of their turns, in which the lines of each are those that it writes alone.
    ensures gained { (files : List ℕ → Option (List ℕ)) (order : Order) → (S.view shelf.old).told ≡ Some files
        → asked_by words.now ≡ Some order
        → HasGained files (request_of order)
        (call (S.view shelf.old) (S.view shelf.new) (K.view out.old) (K.view out.new)) bench.old bench.new result }

    // Each answer by its cause: wrong words, a failed read, a failed write, want of memory.
    ensures usage { result ≡ Answer.Usage → asked_by words.now ≡ None }
    ensures wrong { asked_by words.now ≡ None → (result ≡ Answer.Usage) ⊎ (result ≡ Answer.Memory) }
    ensures read_fault { result ≡ Answer.ReadFault
        → IsToldVerdict (S.view shelf.old).told (asked_by words.now) result
        ⊎ Rose (S.view shelf.old).faults (S.view shelf.new).faults }
    ensures write_fault { result ≡ Answer.WriteFault → Rose (K.view out.old).faults (K.view out.new).faults }
    ensures memory { result ≡ Answer.Memory → ((K.view out.new).told ≡ (K.view out.old).told)
        × (bench.new ≡ bench.old) }

    // A file that is named once is read in order, and no byte of it twice, so that a pipe serves as well.
    ensures once { (q : List ℕ) → IsOnce (S.view shelf.old).told (asked_by words.now) q
        → IsInOrder ((S.view shelf.old).reach q) ((S.view shelf.new).reach q) }

    // Only the files of the request are read, and those that a list of programs names.
    ensures other_files { (q : List ℕ) → IsOther (S.view shelf.old).told (asked_by words.now) q
        → (S.view shelf.new).reach q ≡ (S.view shelf.old).reach q }

    ensures note { GainsNote (E.view note.old).told (E.view note.new).told (E.view note.old).faults
        (E.view note.new).faults (note_of (bounds_in (asked_by words.now)) result) }
    ensures short { length (note_of (bounds_in (asked_by words.now)) result) ≤ 128 }
    ensures told { (S.view shelf.new).told ≡ (S.view shelf.old).told }
    ensures counts { ((S.view shelf.old).faults ≤ (S.view shelf.new).faults)
        × ((K.view out.old).faults ≤ (K.view out.new).faults)
        × ((E.view note.old).faults ≤ (E.view note.new).faults) }
{
    let reply = reply_to(alloc, words, shelf, out, bench);
    put_note(note, &reply.bounds, &reply.answer);
    reply.answer
}

/// The fabric of the programs of a command line. Those of a list are for the base fabric.
fn fabric_for(words: &Words<'_>) -> Fabric
    ensures { result ≡ fabric_for (order_of words.now) (order_of words.now).task }
{
    match words.mode {
        Mode::Share { .. } => Fabric::Base,
        _ => words.options.fabric,
    }
}

/// The limits of a command line.
fn bounds_of(words: &Words<'_>) -> Bounds
    ensures { result ≡ bounds_for (order_of words.now) }
{
    let fabric = fabric_for(words);
    let sample_bytes = match words.mode {
        Mode::Eval { .. } => Cap::MOST_EVALUATED_BYTES,
        _ => Cap::MOST_SAMPLE_BYTES,
    };
    Bounds {
        fabric,
        sample_bytes,
    }
}

/// Does what the words ask for, but for the note.
fn reply_to<S: Shelf, K: Sink>(
    alloc: Global,
    words: &[String],
    shelf: &mut S,
    out: &mut K,
    bench: &mut Bench,
) -> Reply
    ensures called { IsCalled (asked_by words.now)
        (call (S.view shelf.old) (S.view shelf.new) (K.view out.old) (K.view out.new))
        bench.old bench.new result.answer }
    ensures bounds { note_of result.bounds result.answer ≡ note_of (bounds_in (asked_by words.now)) result.answer }
    ensures once { (q : List ℕ) → IsOnce (S.view shelf.old).told (asked_by words.now) q
        → IsInOrder ((S.view shelf.old).reach q) ((S.view shelf.new).reach q) }
    ensures other_files { (q : List ℕ) → IsOther (S.view shelf.old).told (asked_by words.now) q
        → (S.view shelf.new).reach q ≡ (S.view shelf.old).reach q }
    ensures told { (S.view shelf.new).told ≡ (S.view shelf.old).told }
    ensures shelf_later { (S.view shelf.old).faults ≤ (S.view shelf.new).faults }
    ensures out_later { (K.view out.old).faults ≤ (K.view out.new).faults }
{
    match read_words(alloc, words) {
        Ok(words) => Reply {
            answer: carry_out(alloc, &request_of(&words), shelf, out, bench),
            bounds: bounds_of(&words),
        },
        Err(WordsFault::Usage) => Reply {
            answer: Answer::Usage,
            bounds: Bounds::BASE,
        },
        Err(WordsFault::Memory(_) | WordsFault::Unparsed(_)) => Reply {
            answer: Answer::Memory,
            bounds: Bounds::BASE,
        },
    }
}
