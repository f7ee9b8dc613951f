//! The lines of a bench, which are made while the samples are read.

ghost use Rattle.std.specs.Prelude.{◌≡◌, ◌≢◌, ◌≤◌, ℕ, List, Some, length, vec_len, IfErr, IfOk, OnErr};
ghost use Rattle.pr_edge.specs.Files.{HasReadCause, IsMissing};
ghost use Rattle.pr_samples.specs.declared.feed.Got.{Got};
ghost use Rattle.pr_samples.specs.Feed.{name_of, place_of, SameFile};
ghost use Rattle.pr_tool_modes.specs.Programs.{inputs_of};
ghost use Rattle.pr_lens_signals.specs.Reading.{IsLongFeed};
ghost use Rattle.pr_lens_rtl_text.specs.Limits.{most_text_bytes};
ghost use Rattle.pr_lens_bench.specs.Reading.{HasLines, IsCut, IsFit};

use crate::cells::put_row;
use crate::trials::{NoBench, Trial};
use pr_base::Num;
use pr_edge::Shelf;
use pr_lens_rtl_text::MOST_TEXT_BYTES;
use pr_samples::{Feed, Got};
use pr_source::Evaluator;
use std::alloc::Global;

/// The lines of samples, how many they are, and how the samples end.
#[derive(Drop)]
pub struct Lines {
    pub text: Vec<u8>,
    pub count: usize,
    pub end: Got,
}

/// The lines of the samples of a feed, unless they have too many bytes. `sample` and `row` have room for one of each.
pub fn lines_in<S: Shelf>(
    alloc: Global,
    trial: &Trial,
    feed: &mut Feed,
    shelf: &mut S,
    sample: &mut [Num],
    row: &mut [Num],
) -> Result<Lines, NoBench>
    requires fit { IsFit trial.now }
    requires feed { IsLongFeed (inputs_of trial.now.front.scoped.program) feed.old }
    requires sample { length sample.old ≡ vec_len trial.now.front.scoped.inputs }
    requires row { length row.old ≡ vec_len trial.now.front.flat.outputs }
    ensures lines { IfOk result
        (λ r. r.end ≢ Got.ReadFault
        → HasLines (S.view shelf.old).told trial.now.front.scoped.program trial.now.design feed.old feed.new
        r.text.items r.count r.end) }
    ensures short { IfOk result (λ r. length r.text.items ≤ most_text_bytes) }
    ensures there { IfOk result
        (λ r. r.end ≢ Got.ReadFault → IsMissing (S.view shelf.old).told (name_of feed.old) → ⊥) }
    ensures cause { IfOk result
        (λ r. r.end ≡ Got.ReadFault
        → HasReadCause (S.view shelf.old).told (name_of feed.old) (S.view shelf.old).faults (S.view shelf.new).faults) }
    ensures cut { IfErr result
        (IsCut (S.view shelf.old).told trial.now.front.scoped.program trial.now.design feed.old feed.new) }
    ensures steady { IfOk result (λ r. r.end ≢ Got.ReadFault → (S.view shelf.new).faults ≡ (S.view shelf.old).faults) }
    ensures kept { OnErr result ((S.view shelf.new).faults ≡ (S.view shelf.old).faults) }
    ensures file { SameFile feed.old feed.new }
    ensures later { (S.view shelf.old).faults ≤ (S.view shelf.new).faults }
    ensures same { (S.view shelf.new).told ≡ (S.view shelf.old).told }
    ensures reached { (S.view shelf.old).reach (name_of feed.old) ≡ Some (place_of feed.old)
        → (S.view shelf.new).reach (name_of feed.old) ≡ Some (place_of feed.new) }
    ensures others { (q : List ℕ) → q ≢ name_of feed.old → (S.view shelf.new).reach q ≡ (S.view shelf.old).reach q }
{
    let mut evaluator = Evaluator::new(alloc, &trial.front.flat)?;
    let mut text = Vec::new(alloc);
    let mut count = 0;
    'samples: loop {
        match feed.next(shelf, sample) {
            Got::Sample => {
                evaluator.next(&trial.front.flat, &trial.front.widths, sample, row);
                put_row(&mut text, &trial.design, count, sample, row)?;
                count += 1;
                if MOST_TEXT_BYTES < text.len() {
                    return Err(NoBench::Long);
                }
            }
            end => return Ok(Lines { text, count, end }),
        }
    }
}
