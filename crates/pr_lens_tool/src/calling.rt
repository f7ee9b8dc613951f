//! The call.

ghost use Rattle.std.specs.Prelude.{◌≡◌, ◌≢◌, ◌≤◌, ◌+◌, ℕ, List, IfOk, IfErr, OnOk};
ghost use Rattle.pr_base.specs.Limits.{most_program_bytes};
ghost use Rattle.pr_edge.specs.Files.{IsReadOnce};
ghost use Rattle.pr_tool_answers.specs.declared.answers.Answer.{Answer};
ghost use Rattle.pr_lens_signals.specs.Calls.{seen};
ghost use Rattle.pr_lens_tool.specs.declared.outcomes.Outcome.TheVariants.{Plain};
ghost use Rattle.pr_tool_modes.specs.Files.{IsInOrder};
ghost use Rattle.pr_lens_tool.specs.Asked.{Whole, asked_in, product_in, question_in, target_in};
ghost use Rattle.pr_lens_tool.specs.Files.{IsOnce, IsOnceFile, IsOther, IsOtherFile};
ghost use Rattle.pr_lens_tool.specs.Orders.{asked_by};
ghost use Rattle.pr_lens_tool.specs.Outcomes.{IsWritten, Shows};
ghost use Rattle.pr_lens_tool.specs.Programs.{IsToldOf, IsUntold};
ghost use Rattle.pr_lens_tool.specs.Replies.{HasLine, HasOwnLine};
ghost use Rattle.pr_lens_tool.specs.Calls.{IsMade, IsUnmade, IsFollowed, IsCalled};

use crate::asking::{OrderFault, read_order};
use crate::benches::bench_of;
use crate::logs::of_log;
use crate::orders::{Order, Product, Question, Target, Task};
use crate::outcomes::{Outcome, Output, Reply};
use crate::programs::of_program;
use crate::replies::{bare, reply_of};
use crate::signals::of_samples;
use pr_base::{Cap, Fabric};
use pr_edge::{Shelf, Sink, write_all};
use pr_tool::Answer;
use pr_tool_modes::read_file;
use std::alloc::Global;

/// The help.
const HELP: &[u8] = b"\
pipelens looks at programs and runs of piperench

usage: pipelens TASK FILE [SAMPLES] [--fabric F] [--narrow] [--samples N] [--json] [--csv] [--signed NAME,..] [--no-warnings] [--name MODULE] [--seed N] [--from T] [--to T]

  why PROGRAM    where and why a program is refused, or what to look at again
  cost PROGRAM   equations, units and stages, and cycles by stripes
  graph PROGRAM  the units by stage with their wires, for Graphviz
  rtl PROGRAM    its stages as a module in Verilog
  wave LOG       the log of `piperench trace` as a waveform (VCD)
  chart LOG      the log of `piperench trace` as a picture (SVG)
  signals PROGRAM SAMPLES
                 what every named stream is at every sample, as a waveform (VCD)
  testbench PROGRAM SAMPLES
                 a test bench for the module of `rtl`, with the results of `eval`

  --fabric F     base has 16 columns and 8 registers, wide 32 and 16; base without it
  --narrow       leaves out what no output shows
  --samples N    how long the run is whose cycles `cost` tells; 1000 without it
  --json         a line of JSON for each finding of `why`, and one for all that `cost` tells
  --no-warnings  `why` points out nothing in a program that is accepted
  --name MODULE  how the module of `rtl` is named; pipeline without it
  --csv          `signals` writes lines of numbers in place of a waveform
  --signed NAME,..
                 `signals` shows the streams of these names as two's complement
  --seed N       when `testbench` offers samples and takes results; 1 without it
  --from T, --to T
                 `wave` and `chart` show the cycles from the first to the last of these numbers
";

/// What is asked of the program of a file; else what the call comes to.
fn of_file<S: Shelf>(
    alloc: Global,
    target: &Target,
    question: Question,
    shelf: &mut S,
) -> Result<Output, Outcome>
    ensures told { IfOk result (λ o. IsToldOf
        (question_in question.entry) (S.view shelf.old).told (target_in target.now) o.outcome o.text.items) }
    ensures refused { IfErr result
        (IsUntold (S.view shelf.old).told (target_in target.now) (S.view shelf.old).faults (S.view shelf.new).faults) }
    ensures steady { OnOk result ((S.view shelf.new).faults ≡ (S.view shelf.old).faults) }
    ensures shown { IfErr result (Shows (S.view shelf.old).faults (S.view shelf.new).faults) }
    ensures later { (S.view shelf.old).faults ≤ (S.view shelf.new).faults }
    ensures same { (S.view shelf.new).told ≡ (S.view shelf.old).told }
    ensures once { IsReadOnce (most_program_bytes + 4096)
        ((S.view shelf.old).reach (target_in target.now).file) ((S.view shelf.new).reach (target_in target.now).file) }
    ensures others { (q : List ℕ) → q ≢ (target_in target.now).file → (S.view shelf.new).reach q
        ≡ (S.view shelf.old).reach q }
{
    let most = Cap::MOST_PROGRAM_BYTES;
    let text = match read_file(alloc, shelf, target.file, most, Cap::ProgramBytes) {
        Ok(text) => text,
        Err(answer) => return Err(Outcome::Plain(answer)),
    };
    match target.fabric {
        Fabric::Base => of_program::<16, 8>(alloc, target, question, &text),
        Fabric::Wide => of_program::<32, 16>(alloc, target, question, &text),
    }
}

/// A text, made whole; else what the call comes to.
fn made<S: Shelf>(
    alloc: Global,
    target: &Target,
    product: Product,
    shelf: &mut S,
) -> Result<Output, Outcome>
    ensures made { IfOk result (λ o.
        IsMade (product_in product.entry) (S.view shelf.old).told (target_in target.now) o.outcome o.text.items) }
    ensures unmade { IfErr result (IsUnmade (product_in product.entry)
        (S.view shelf.old).told (target_in target.now) (S.view shelf.old).faults (S.view shelf.new).faults) }
    ensures steady { OnOk result ((S.view shelf.new).faults ≡ (S.view shelf.old).faults) }
    ensures shown { IfErr result (Shows (S.view shelf.old).faults (S.view shelf.new).faults) }
    ensures later { (S.view shelf.old).faults ≤ (S.view shelf.new).faults }
    ensures same { (S.view shelf.new).told ≡ (S.view shelf.old).told }
    ensures once { (q : List ℕ) → IsOnceFile (Whole (product_in product.entry)) (target_in target.now) q
        → IsInOrder ((S.view shelf.old).reach q) ((S.view shelf.new).reach q) }
    ensures others { (q : List ℕ) → IsOtherFile (Whole (product_in product.entry)) (target_in target.now) q
        → (S.view shelf.new).reach q ≡ (S.view shelf.old).reach q }
{
    match product {
        Product::OfProgram(question) => of_file(alloc, target, question, shelf),
        Product::OfLog { drawing, window } => of_log(alloc, drawing, window, shelf, target.file),
        Product::Bench {
            samples,
            name,
            seed,
        } => bench_of(alloc, target, samples, name, seed, shelf),
    }
}

/// Writes a text whole; what the call comes to, where that is this outcome unless a write fails.
fn written<K: Sink>(out: &mut K, text: &[u8], outcome: Outcome) -> Outcome
    ensures written { IsWritten (K.view out.old).told (K.view out.new).told (K.view out.old).faults
        (K.view out.new).faults text.now outcome result }
    ensures later { (K.view out.old).faults ≤ (K.view out.new).faults }
{
    match write_all(out, text) {
        Ok(()) => outcome,
        Err(_) => Outcome::Plain(Answer::WriteFault),
    }
}

/// Does what is asked for, and says what it comes to.
fn follow<S: Shelf, K: Sink>(alloc: Global, order: &Order, shelf: &mut S, out: &mut K) -> Outcome
    ensures followed { IsFollowed (asked_in order.now)
        (seen (S.view shelf.old) (S.view shelf.new) (K.view out.old) (K.view out.new)) result }
    ensures shown { Shows (S.view shelf.old).faults (S.view shelf.new).faults result }
    ensures told { (S.view shelf.new).told ≡ (S.view shelf.old).told }
    ensures shelf_later { (S.view shelf.old).faults ≤ (S.view shelf.new).faults }
    ensures out_later { (K.view out.old).faults ≤ (K.view out.new).faults }
    ensures once { (q : List ℕ) → IsOnceFile (asked_in order.now).task (asked_in order.now).target q
        → IsInOrder ((S.view shelf.old).reach q) ((S.view shelf.new).reach q) }
    ensures others { (q : List ℕ) → IsOtherFile (asked_in order.now).task (asked_in order.now).target q
        → (S.view shelf.new).reach q ≡ (S.view shelf.old).reach q }
{
    match order.task {
        Task::Signals { samples, style } => {
            of_samples(alloc, order.target.file, samples, &style, shelf, out)
        }
        Task::Whole(product) => match made(alloc, &order.target, product, shelf) {
            Ok(output) => written(out, &output.text, output.outcome),
            Err(outcome) => outcome,
        },
    }
}

/// Does what the words ask for, the program's name first among them, and says what it comes to.
///
/// What is written is made whole before its first byte is written, but streams are written as samples come.
pub fn pipelens<S: Shelf, K: Sink>(
    alloc: Global,
    words: &[String],
    shelf: &mut S,
    out: &mut K,
) -> Reply
    // Lawful words are followed: what they ask for is written whole, unless a write fails, or nothing is, for its cause.
    // Other words get the help where they ask for it, and are refused where they do not. Memory may want in any call.
    ensures called { IsCalled words.now
        (seen (S.view shelf.old) (S.view shelf.new) (K.view out.old) (K.view out.new)) result.outcome }
    // A line that is told in place of an answer's own names the file. It is left out for want of memory alone.
    ensures line { HasLine (asked_by words.now) result }
    // The outcome's own line tells the limits of what was asked for.
    ensures own { HasOwnLine (asked_by words.now) result }
    // A failed read is not kept quiet: the outcome is a read fault, or the count is as it was.
    ensures shown { Shows (S.view shelf.old).faults (S.view shelf.new).faults result.outcome }
    // A file that is named once is read in order, and no byte of it twice, so that a pipe serves as well.
    ensures once { (q : List ℕ) → IsOnce (asked_by words.now) q
        → IsInOrder ((S.view shelf.old).reach q) ((S.view shelf.new).reach q) }
    // Only the files that are named are read.
    ensures other_files { (q : List ℕ) → IsOther (asked_by words.now) q → (S.view shelf.new).reach q
        ≡ (S.view shelf.old).reach q }
    ensures told { (S.view shelf.new).told ≡ (S.view shelf.old).told }
    ensures shelf_later { (S.view shelf.old).faults ≤ (S.view shelf.new).faults }
    ensures out_later { (K.view out.old).faults ≤ (K.view out.new).faults }
{
    match read_order(alloc, words) {
        Ok(order) => {
            let outcome = follow(alloc, &order, shelf, out);
            reply_of(alloc, &order, outcome)
        }
        Err(OrderFault::Help) => bare(written(out, HELP, Outcome::Plain(Answer::Ok))),
        Err(OrderFault::Usage) => bare(Outcome::Usage),
        Err(OrderFault::Memory(_) | OrderFault::Unparsed(_)) => bare(Outcome::Plain(
            Answer::Memory,
        )),
    }
}
