//! What the streams of a program are on the samples of a file.

ghost use Rattle.std.specs.Prelude.{◌≡◌, ◌≢◌, ◌≤◌, ◌+◌, ℕ, List, IfErr, IfOk, OnOk};
ghost use Rattle.pr_base.specs.Limits.{most_program_bytes};
ghost use Rattle.pr_edge.specs.Files.{IsReadOnce};
ghost use Rattle.pr_tool_modes.specs.Files.{IsInOrder, ShowsFault};
ghost use Rattle.pr_tool_modes.specs.Programs.{IsLoaded, IsNotLoaded};
ghost use Rattle.pr_lens_signals.specs.Calls.{seen};
ghost use Rattle.pr_lens_signals.specs.Manners.{manner_of};
ghost use Rattle.pr_lens_tool.specs.Outcomes.{Shows};
ghost use Rattle.pr_lens_tool.specs.Streams.{TellsStreams};

use crate::outcomes::Outcome;
use pr_base::Cap;
use pr_compile::CompileFault;
use pr_compile_front::{Front, read_program};
use pr_edge::{Shelf, Sink};
use pr_lens_signals::{NoStream, Style, signals};
use pr_tool::Answer;
use pr_tool_modes::{compile_answer, read_file};
use std::alloc::Global;

/// Reads the program of a file, with its equations and their widths.
fn load<S: Shelf>(alloc: Global, shelf: &mut S, name: &str) -> Result<Front, Answer>
    ensures loaded { IfOk result (λ f. IsLoaded (S.view shelf.old).told name.now f) }
    ensures refused { IfErr result
        (IsNotLoaded (S.view shelf.old).told name.now (S.view shelf.old).faults (S.view shelf.new).faults) }
    ensures steady { OnOk result ((S.view shelf.new).faults ≡ (S.view shelf.old).faults) }
    ensures shown { IfErr result (ShowsFault (S.view shelf.old).faults (S.view shelf.new).faults) }
    ensures later { (S.view shelf.old).faults ≤ (S.view shelf.new).faults }
    ensures same { (S.view shelf.new).told ≡ (S.view shelf.old).told }
    ensures once { IsReadOnce (most_program_bytes + 4096) ((S.view shelf.old).reach name.now)
        ((S.view shelf.new).reach name.now) }
    ensures others { (q : List ℕ) → q ≢ name.now → (S.view shelf.new).reach q ≡ (S.view shelf.old).reach q }
{
    let most = Cap::MOST_PROGRAM_BYTES;
    let text = read_file(alloc, shelf, name, most, Cap::ProgramBytes)?;
    match read_program(alloc, &text) {
        Ok(front) => Ok(front),
        Err(fault) => Err(compile_answer(&CompileFault::from(fault))),
    }
}

/// Writes what every named stream of the program of a file is at every sample of another, and says what it comes to.
pub fn of_samples<S: Shelf, K: Sink>(
    alloc: Global,
    name: &str,
    samples: &str,
    style: &Style,
    shelf: &mut S,
    out: &mut K,
) -> Outcome
    ensures told { TellsStreams name.now samples.now (manner_of style.now)
        (seen (S.view shelf.old) (S.view shelf.new) (K.view out.old) (K.view out.new)) result }
    ensures shown { Shows (S.view shelf.old).faults (S.view shelf.new).faults result }
    ensures same { (S.view shelf.new).told ≡ (S.view shelf.old).told }
    ensures later { (S.view shelf.old).faults ≤ (S.view shelf.new).faults }
    ensures out_later { (K.view out.old).faults ≤ (K.view out.new).faults }

    // A file that is not both the program and the samples is read in order, and no byte of it twice.
    ensures once { (q : List ℕ) → (q ≡ name.now → q ≢ samples.now)
        → IsInOrder ((S.view shelf.old).reach q) ((S.view shelf.new).reach q) }
    ensures others { (q : List ℕ) → q ≢ name.now → q ≢ samples.now → (S.view shelf.new).reach q
        ≡ (S.view shelf.old).reach q }
{
    let front = match load(alloc, shelf, name) {
        Ok(front) => front,
        Err(answer) => return Outcome::Plain(answer),
    };
    match signals(alloc, front, style, samples, shelf, out) {
        Ok(answer) => Outcome::Streamed(answer),
        Err(NoStream { place }) => Outcome::NoStream { place },
    }
}
