//! The bench of a program on the samples of a file.

ghost use Rattle.std.specs.Prelude.{◌≡◌, ◌≢◌, ◌≤◌, ℕ, List, Some, length, vec_len, ◌⊎◌, IfErr, IfOk, IsErrOf, OnErr};
ghost use Rattle.pr_edge.specs.Files.{HasReadCause, IsMissing};
ghost use Rattle.pr_samples.specs.declared.feed.Got.{Got};
ghost use Rattle.pr_samples.specs.Feed.{name_of, place_of};
ghost use Rattle.pr_tool_answers.specs.declared.answers.Answer.{Answer};
ghost use Rattle.pr_tool_modes.specs.Files.{IsInOrder};
ghost use Rattle.pr_tool_modes.specs.Programs.{inputs_of};
ghost use Rattle.pr_lens_signals.specs.Reading.{IsLongFeed};
ghost use Rattle.pr_lens_rtl_text.specs.Limits.{most_text_bytes};
ghost use Rattle.pr_lens_bench.specs.declared.trials.NoBench.TheVariants.{Ended};
ghost use Rattle.pr_lens_bench.specs.Reading.{HasLines, IsCut, IsFit, IsNotShort, IsShort};
ghost use Rattle.pr_lens_bench.specs.Benches.{IsBench, IsUnbenched};

use crate::reading::{Lines, lines_in};
use crate::texts::whole_text;
use crate::trials::{NoBench, Trial};
use pr_edge::Shelf;
use pr_lens_rtl_text::MOST_TEXT_BYTES;
use pr_samples::{Feed, Got};
use pr_tool_modes::answer_of;
use std::alloc::{AllocError, Global};

/// A feed of the samples of a file.
fn feed_of(alloc: Global, trial: &Trial, samples: &str) -> Result<Feed, AllocError>
    ensures feed { IfOk result (IsLongFeed (inputs_of trial.now.front.scoped.program)) }
    ensures name { IfOk result (λ f. name_of f ≡ samples.now) }
{
    Feed::make(alloc, samples, &trial.front.scoped.inputs)
}

/// The lines of the samples of a feed, unless they have too many bytes.
fn lines_of<S: Shelf>(
    alloc: Global,
    trial: &Trial,
    feed: &mut Feed,
    shelf: &mut S,
) -> Result<Lines, NoBench>
    requires fit { IsFit trial.now }
    requires feed { IsLongFeed (inputs_of trial.now.front.scoped.program) feed.old }
    ensures lines { IfOk result
        (λ r. r.end ≢ Got.ReadFault
        → HasLines (S.view shelf.old).told trial.now.front.scoped.program trial.now.design feed.old feed.new
        r.text.items r.count r.end) }
    ensures short { IfOk result (λ r. length r.text.items ≤ most_text_bytes) }
    ensures there { IfOk result
        (λ r. r.end ≢ Got.ReadFault → IsMissing (S.view shelf.old).told (name_of feed.old) → ⊥) }
    ensures cause { IfOk result
        (λ r. r.end ≡ Got.ReadFault
        → HasReadCause (S.view shelf.old).told (name_of feed.old) (S.view shelf.old).faults (S.view shelf.new).faults) }
    ensures cut { IfErr result
        (IsCut (S.view shelf.old).told trial.now.front.scoped.program trial.now.design feed.old feed.new) }
    ensures steady { IfOk result (λ r. r.end ≢ Got.ReadFault → (S.view shelf.new).faults ≡ (S.view shelf.old).faults) }
    ensures kept { OnErr result ((S.view shelf.new).faults ≡ (S.view shelf.old).faults) }
    ensures name { name_of feed.new ≡ name_of feed.old }
    ensures later { (S.view shelf.old).faults ≤ (S.view shelf.new).faults }
    ensures same { (S.view shelf.new).told ≡ (S.view shelf.old).told }
    ensures reached { (S.view shelf.old).reach (name_of feed.old) ≡ Some (place_of feed.old)
        → (S.view shelf.new).reach (name_of feed.old) ≡ Some (place_of feed.new) }
    ensures others { (q : List ℕ) → q ≢ name_of feed.old → (S.view shelf.new).reach q ≡ (S.view shelf.old).reach q }
{
    let mut sample = vec![in alloc; 0; trial.front.scoped.inputs.len()]?;
    let mut row = vec![in alloc; 0; trial.front.flat.outputs.len()]?;
    lines_in(alloc, trial, feed, shelf, &mut sample, &mut row)
}

/// The bench with these lines, unless it has too many bytes.
fn short_text(alloc: Global, trial: &Trial, lines: &Lines) -> Result<Vec<u8>, NoBench>
    ensures made { IfOk result (λ text. IsShort trial.now.design lines.now text.items) }
    ensures refused { IfErr result (IsNotShort trial.now.design lines.now) }
{
    let text = whole_text(alloc, &trial.design, lines.count, &lines.text)?;
    if MOST_TEXT_BYTES < text.len() {
        return Err(NoBench::Long);
    }
    Ok(text)
}

/// A bench that tries the module of a design on the samples of a file: it wants what the program means on them.
///
/// Each sample is evaluated when it is read. Nothing is made where a line is no sample.
pub fn bench<S: Shelf>(
    alloc: Global,
    trial: &Trial,
    samples: &str,
    shelf: &mut S,
) -> Result<Vec<u8>, NoBench>
    requires { IsFit trial.now }
    ensures made { IfOk result (λ text.
        IsBench (S.view shelf.old).told samples.now trial.now.front.scoped.program trial.now.design text.items) }
    ensures refused { IfErr result
        (IsUnbenched (S.view shelf.old).told samples.now trial.now.front.scoped.program trial.now.design
        (S.view shelf.old).faults (S.view shelf.new).faults) }

    // A read that fails is not tried again: it ends with ReadFault.
    ensures steady { IsErrOf result (Ended Answer.ReadFault) ⊎ (S.view shelf.new).faults ≡ (S.view shelf.old).faults }

    ensures later { (S.view shelf.old).faults ≤ (S.view shelf.new).faults }
    ensures same { (S.view shelf.new).told ≡ (S.view shelf.old).told }

    // The file is read in order, and no byte of it twice.
    ensures once { IsInOrder ((S.view shelf.old).reach samples.now) ((S.view shelf.new).reach samples.now) }
    ensures others { (q : List ℕ) → q ≢ samples.now → (S.view shelf.new).reach q ≡ (S.view shelf.old).reach q }
{
    let mut feed = feed_of(alloc, trial, samples)?;
    let lines = lines_of(alloc, trial, &mut feed, shelf)?;
    match lines.end {
        Got::End => short_text(alloc, trial, &lines),
        end => Err(NoBench::Ended(answer_of(end))),
    }
}
