//! The results of a program on the samples of a file.
ghost use Rattle.std.specs.Prelude.{◌≡◌, ◌≢◌, ◌≤◌, ◌↔◌, ℕ, List, length, vec_len, Some, IfOk, IfErr, IsTrue, OnErr, OnOk};
ghost use Rattle.pr_samples.specs.declared.feed.Got.{Got};
ghost use Rattle.pr_base.specs.declared.caps.Cap.{Cap};
ghost use Rattle.pr_edge.specs.Files.{IsMissing, HasReadCause};
ghost use Rattle.pr_flat.specs.Widths.{AreWidths};
ghost use Rattle.pr_expand_spec.specs.Programs.{equations_of};
ghost use Rattle.pr_compile_front.specs.Passed.{HasEquations};
ghost use Rattle.pr_samples.specs.Feed.{name_of, place_of, SameFile};
ghost use Rattle.pr_tool_modes.specs.Files.{IsInOrder, ShowsFault, IsUnread};
ghost use Rattle.pr_tool_modes.specs.Programs.{inputs_of};
ghost use Rattle.pr_tool_modes.specs.Evaluations.{IsShortFeed, HasEvaluated, HasLines};

use crate::lines::push_line;
use pr_base::{Cap, Num};
use pr_compile_front::Front;
use pr_edge::Shelf;
use pr_samples::{Feed, Got};
use pr_source::Evaluator;
use pr_tool_answers::Answer;
use std::alloc::{AllocError, Global};

/// The lines of results, and how the samples end.
#[derive(Drop)]
pub struct Results {
    pub text: Vec<u8>,
    pub end: Got,
}

/// Whether samples end with a read that failed.
fn is_read_fault(end: Got) -> bool
    ensures { IsTrue result ↔ (end ≡ Got.ReadFault) }
{
    matches!(end, Got::ReadFault)
}

/// Evaluates a program on the samples of a feed, one after the other. `sample` and `row` have room for one of each.
fn results_in<S: Shelf>(
    alloc: Global,
    front: &Front,
    feed: &mut Feed,
    shelf: &mut S,
    sample: &mut [Num],
    row: &mut [Num],
) -> Result<Results, AllocError>
    requires flat { HasEquations front.now.scoped.program front.now.flat }
    requires widths { AreWidths (equations_of front.now.scoped.program).equations front.now.widths }
    requires feed { IsShortFeed (inputs_of front.now.scoped.program) feed.old }
    requires sample { length sample.old ≡ vec_len front.now.scoped.inputs }
    requires row { length row.old ≡ vec_len front.now.flat.outputs }
    ensures results { IfOk result
        (λ r. r.end ≢ Got.ReadFault
        → HasEvaluated (S.view shelf.old).told front.now.scoped.program feed.old feed.new r.text.items r.end) }
    ensures there { IfOk result
        (λ r. r.end ≢ Got.ReadFault → IsMissing (S.view shelf.old).told (name_of feed.old) → ⊥) }
    ensures cause { IfOk result
        (λ r. r.end ≡ Got.ReadFault
        → HasReadCause (S.view shelf.old).told (name_of feed.old) (S.view shelf.old).faults (S.view shelf.new).faults) }
    ensures steady { IfOk result (λ r. r.end ≢ Got.ReadFault → (S.view shelf.new).faults ≡ (S.view shelf.old).faults) }
    ensures kept { OnErr result ((S.view shelf.new).faults ≡ (S.view shelf.old).faults) }
    ensures file { SameFile feed.old feed.new }
    ensures later { (S.view shelf.old).faults ≤ (S.view shelf.new).faults }
    ensures same { (S.view shelf.new).told ≡ (S.view shelf.old).told }
    ensures reached { (S.view shelf.old).reach (name_of feed.old) ≡ Some (place_of feed.old)
        → (S.view shelf.new).reach (name_of feed.old) ≡ Some (place_of feed.new) }
    ensures others { (q : List ℕ) → q ≢ name_of feed.old → (S.view shelf.new).reach q ≡ (S.view shelf.old).reach q }
{
    let mut evaluator = Evaluator::new(alloc, &front.flat)?;
    let mut text = Vec::new(alloc);
    'samples: loop {
        match feed.next(shelf, sample) {
            Got::Sample => {
                evaluator.next(&front.flat, &front.widths, sample, row);
                push_line(&mut text, row)?;
            }
            end => return Ok(Results { text, end }),
        }
    }
}

/// Evaluates a program on the samples of a feed.
fn evaluate<S: Shelf>(
    alloc: Global,
    front: &Front,
    feed: &mut Feed,
    shelf: &mut S,
) -> Result<Results, AllocError>
    requires flat { HasEquations front.now.scoped.program front.now.flat }
    requires widths { AreWidths (equations_of front.now.scoped.program).equations front.now.widths }
    requires feed { IsShortFeed (inputs_of front.now.scoped.program) feed.old }
    ensures results { IfOk result
        (λ r. r.end ≢ Got.ReadFault
        → HasEvaluated (S.view shelf.old).told front.now.scoped.program feed.old feed.new r.text.items r.end) }
    ensures there { IfOk result
        (λ r. r.end ≢ Got.ReadFault → IsMissing (S.view shelf.old).told (name_of feed.old) → ⊥) }
    ensures cause { IfOk result
        (λ r. r.end ≡ Got.ReadFault
        → HasReadCause (S.view shelf.old).told (name_of feed.old) (S.view shelf.old).faults (S.view shelf.new).faults) }
    ensures steady { IfOk result (λ r. r.end ≢ Got.ReadFault → (S.view shelf.new).faults ≡ (S.view shelf.old).faults) }
    ensures kept { OnErr result ((S.view shelf.new).faults ≡ (S.view shelf.old).faults) }
    ensures file { SameFile feed.old feed.new }
    ensures later { (S.view shelf.old).faults ≤ (S.view shelf.new).faults }
    ensures same { (S.view shelf.new).told ≡ (S.view shelf.old).told }
    ensures reached { (S.view shelf.old).reach (name_of feed.old) ≡ Some (place_of feed.old)
        → (S.view shelf.new).reach (name_of feed.old) ≡ Some (place_of feed.new) }
    ensures others { (q : List ℕ) → q ≢ name_of feed.old → (S.view shelf.new).reach q ≡ (S.view shelf.old).reach q }
{
    let mut sample = vec![in alloc; 0; front.scoped.inputs.len()]?;
    let mut row = vec![in alloc; 0; front.flat.outputs.len()]?;
    results_in(alloc, front, feed, shelf, &mut sample, &mut row)
}

/// The lines of what a program means on the samples of a file. The file is read to its end, or past the limit of its bytes, and
/// no more of it is kept than the feed's buffer and the rows that the program looks back on.
pub fn results_of<S: Shelf>(
    alloc: Global,
    front: &Front,
    samples: &str,
    shelf: &mut S,
) -> Result<Results, Answer>
    requires flat { HasEquations front.now.scoped.program front.now.flat }
    requires widths { AreWidths (equations_of front.now.scoped.program).equations front.now.widths }
    ensures results { IfOk result
        (λ r. HasLines (S.view shelf.old).told samples.now front.now.scoped.program r.text.items r.end) }
    ensures refused { IfErr result
        (IsUnread 16777216 Cap.SampleBytes (S.view shelf.old).told samples.now (S.view shelf.old).faults
        (S.view shelf.new).faults) }

    // A read that fails is not tried again: it ends with ReadFault.
    ensures steady { OnOk result ((S.view shelf.new).faults ≡ (S.view shelf.old).faults) }
    ensures shown { IfErr result (ShowsFault (S.view shelf.old).faults (S.view shelf.new).faults) }

    ensures later { (S.view shelf.old).faults ≤ (S.view shelf.new).faults }
    ensures same { (S.view shelf.new).told ≡ (S.view shelf.old).told }
    ensures once { IsInOrder ((S.view shelf.old).reach samples.now) ((S.view shelf.new).reach samples.now) }
    ensures others { (q : List ℕ) → q ≢ samples.now → (S.view shelf.new).reach q ≡ (S.view shelf.old).reach q }
{
    let inputs = &front.scoped.inputs;
    let mut feed = match Feed::make_bounded(
        alloc,
        samples,
        inputs,
        Cap::MOST_SAMPLES,
        Cap::MOST_EVALUATED_BYTES,
    ) {
        Ok(feed) => feed,
        Err(_) => return Err(Answer::Memory),
    };
    let results = match evaluate(alloc, front, &mut feed, shelf) {
        Ok(results) => results,
        Err(_) => return Err(Answer::Memory),
    };
    if is_read_fault(results.end) {
        return Err(Answer::ReadFault);
    }
    match feed.is_too_long(shelf) {
        Ok(false) => Ok(results),
        Ok(true) => Err(Answer::Limit {
            which: Cap::SampleBytes,
        }),
        Err(_) => Err(Answer::ReadFault),
    }
}
