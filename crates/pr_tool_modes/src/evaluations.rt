//! A program that is evaluated on the samples of a file.
ghost use Rattle.std.specs.Prelude.{◌≡◌, ◌≢◌, ◌≤◌};
ghost use Rattle.pr_tool_modes.specs.Calls.{call, IsOrderly};
ghost use Rattle.pr_tool_modes.specs.Evaluations.{answer_by, IsPut, IsEvaluated};

use crate::programs::load_program;
use crate::results::{Results, results_of};
use pr_edge::{Shelf, Sink, write_all};
use pr_samples::Got;
use pr_tool_answers::Answer;
use std::alloc::Global;

/// What comes of samples that end so.
pub fn answer_of(end: Got) -> Answer
    ensures { result ≡ answer_by end }
{
    match end {
        Got::Sample | Got::End => Answer::Ok,
        Got::BadSample { line } => Answer::BadSample { line },
        Got::ReadFault => Answer::ReadFault,
        Got::Limit(which) => Answer::Limit { which },
    }
}

/// Writes the lines of results.
fn put_results<K: Sink>(out: &mut K, results: &Results) -> Answer
    ensures put { IsPut results.now.text.items results.now.end
        (K.view out.old).told (K.view out.new).told (K.view out.old).faults (K.view out.new).faults result }
    ensures later { (K.view out.old).faults ≤ (K.view out.new).faults }
{
    match write_all(out, &results.text) {
        Ok(()) => answer_of(results.end),
        Err(_) => Answer::WriteFault,
    }
}

/// Evaluates the program of a file on the samples of another. The line of each result goes to `out`.
///
/// The program is read first, and then the whole file of samples, of which each is evaluated when it is read. Where a line is no
/// sample, the results of the samples before are written. All is evaluated before the first byte is written.
pub fn eval<S: Shelf, K: Sink>(
    alloc: Global,
    program: &str,
    samples: &str,
    shelf: &mut S,
    out: &mut K,
) -> Answer
    // What it came to: the program is refused, or what the samples come to.
    ensures ended { IsEvaluated program.now samples.now
        (call (S.view shelf.old) (S.view shelf.new) (K.view out.old) (K.view out.new)) result }

    // A file that is not both the program and the samples is read in order, and no byte of it twice. No other file is read.
    ensures orderly { IsOrderly (λ q. q ≡ program.now → q ≢ samples.now) (λ q. (q ≢ program.now) × (q ≢ samples.now))
        (S.view shelf.old) (S.view shelf.new) }
    ensures out_later { (K.view out.old).faults ≤ (K.view out.new).faults }
{
    let front = match load_program(alloc, shelf, program) {
        Ok(front) => front,
        Err(answer) => return answer,
    };
    match results_of(alloc, &front, samples, shelf) {
        Ok(results) => put_results(out, &results),
        Err(answer) => answer,
    }
}
