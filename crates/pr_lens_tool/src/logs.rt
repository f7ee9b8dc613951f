//! What is made of logs.

ghost use Rattle.std.specs.Prelude.{◌≡◌, ◌≢◌, ◌≤◌, ◌<◌, ◌+◌, ◌-◌, ◌^◌, ℕ, List, Some, IfOk, IfErr, OnOk, length};
ghost use Rattle.pr_edge.specs.Files.{IsMissing, IsReadOnce, OfFile};
ghost use Rattle.pr_tool_answers.specs.declared.answers.Answer.{Answer};
ghost use Rattle.pr_lens_log.specs.declared.windows.Window.{Window};
ghost use Rattle.pr_lens_log.specs.Logs.{IsKept, Tale};
ghost use Rattle.pr_lens_log.specs.Readers.{HasRead, HasRoom, choice_of as choice_in};
ghost use Rattle.pr_lens_log.specs.Windows.{part_of};
ghost use Rattle.pr_lens_tool.specs.declared.outcomes.Outcome.TheVariants.{Plain, Unshown};
ghost use Rattle.pr_lens_tool.specs.Outcomes.{Shows};
ghost use Rattle.pr_lens_tool.specs.Logs.{HasLog, HasShortText, IsDrawing, IsNoLog, IsReadOnFrom, IsReadTo, IsUndrawn, choice_of, drawn_text, most_log_bytes};

use crate::orders::Drawing;
use crate::outcomes::{Outcome, Output};
use pr_edge::Shelf;
use pr_lens_chart::{MOST, chart};
use pr_lens_log::{Choice, Log, Reader, Window};
use pr_lens_wave::wave;
use pr_tool::Answer;
use std::alloc::{AllocError, Global};

/// The bytes of a log, at most.
const LOG: u64 = 17_592_186_044_416;

/// Reads on in the file of a log, and says how many bytes came; else what the call comes to.
fn read_more<S: Shelf>(
    reader: &mut Reader,
    shelf: &mut S,
    name: &str,
    place: u64,
) -> Result<usize, Outcome>
    requires read { IsReadTo (S.view shelf.old).told name.now place reader.old }
    requires room { HasRoom reader.old 4096 }
    ensures read { IfOk result (λ count. IsReadTo (S.view shelf.old).told name.now (place + count) reader.new) }
    ensures end { IfOk result (λ count. count ≡ 0
        → OfFile (S.view shelf.old).told name.now (λ file. length file ≤ place)) }
    ensures there { IfOk result (λ count. IsMissing (S.view shelf.old).told name.now → ⊥) }
    ensures few { IfOk result (λ count. count ≤ 4096) }
    ensures room { IfOk result (λ count. (more : ℕ) → HasRoom reader.old (more + count) → HasRoom reader.new more) }
    ensures refused { IfErr result
        (IsNoLog (S.view shelf.old).told name.now (S.view shelf.old).faults (S.view shelf.new).faults) }
    ensures choice { IfOk result (λ count. choice_in reader.new ≡ choice_in reader.old) }
    ensures steady { OnOk result ((S.view shelf.new).faults ≡ (S.view shelf.old).faults) }
    ensures shown { IfErr result (Shows (S.view shelf.old).faults (S.view shelf.new).faults) }
    ensures later { (S.view shelf.old).faults ≤ (S.view shelf.new).faults }
    ensures same { (S.view shelf.new).told ≡ (S.view shelf.old).told }
    ensures reached { IfOk result (λ count. (S.view shelf.old).reach name.now ≡ Some place
        → (S.view shelf.new).reach name.now ≡ Some (place + count)) }
    ensures once { IsReadOnFrom place ((S.view shelf.old).reach name.now) ((S.view shelf.new).reach name.now) }
    ensures others { (q : List ℕ) → q ≢ name.now → (S.view shelf.new).reach q ≡ (S.view shelf.old).reach q }
{
    let mut piece = [0u8; 4096];
    match shelf.read_at(name, place, &mut piece) {
        Err(_) => Err(Outcome::Plain(Answer::ReadFault)),
        Ok(count) => match reader.read(&piece[..count]) {
            Ok(()) => Ok(count),
            Err(fault) => Err(Outcome::from(fault)),
        },
    }
}

/// Reads the file of a log to its end; else what the call comes to.
fn read_file<S: Shelf>(reader: &mut Reader, shelf: &mut S, name: &str) -> Result<(), Outcome>
    requires read { IsReadTo (S.view shelf.old).told name.now 0 reader.old }
    requires room { HasRoom reader.old (2 ^ 45) }
    ensures read { OnOk result (HasShortText (S.view shelf.old).told name.now (λ text. HasRead text reader.new)) }
    ensures room { OnOk result (HasRoom reader.new 1) }
    ensures refused { IfErr result
        (IsNoLog (S.view shelf.old).told name.now (S.view shelf.old).faults (S.view shelf.new).faults) }
    ensures choice { OnOk result (choice_in reader.new ≡ choice_in reader.old) }
    ensures steady { OnOk result ((S.view shelf.new).faults ≡ (S.view shelf.old).faults) }
    ensures shown { IfErr result (Shows (S.view shelf.old).faults (S.view shelf.new).faults) }
    ensures later { (S.view shelf.old).faults ≤ (S.view shelf.new).faults }
    ensures same { (S.view shelf.new).told ≡ (S.view shelf.old).told }
    ensures once { IsReadOnce (most_log_bytes + 4096) ((S.view shelf.old).reach name.now)
        ((S.view shelf.new).reach name.now) }
    ensures others { (q : List ℕ) → q ≢ name.now → (S.view shelf.new).reach q ≡ (S.view shelf.old).reach q }
{
    let mut place: u64 = 0;
    while place <= LOG {
        let count = read_more(reader, shelf, name, place)?;
        if count == 0 {
            return Ok(());
        }
        place += count as u64;
    }
    Err(Outcome::LongLog)
}

/// Which cycles of a log are drawn.
fn choice_of(drawing: Drawing, window: Window) -> Choice
    ensures { result ≡ choice_of drawing window }
{
    match drawing {
        Drawing::Wave => Choice { window, most: None },
        Drawing::Chart => Choice {
            window,
            most: Some(MOST),
        },
    }
}

/// The log of a file, of which the cycles that are drawn are kept; else what the call comes to.
fn log_of<S: Shelf>(
    alloc: Global,
    drawing: Drawing,
    window: Window,
    shelf: &mut S,
    name: &str,
) -> Result<Log, Outcome>
    ensures read { IfOk result (HasLog (choice_of drawing window) (S.view shelf.old).told name.now) }
    ensures refused { IfErr result
        (IsNoLog (S.view shelf.old).told name.now (S.view shelf.old).faults (S.view shelf.new).faults) }
    ensures steady { OnOk result ((S.view shelf.new).faults ≡ (S.view shelf.old).faults) }
    ensures shown { IfErr result (Shows (S.view shelf.old).faults (S.view shelf.new).faults) }
    ensures later { (S.view shelf.old).faults ≤ (S.view shelf.new).faults }
    ensures same { (S.view shelf.new).told ≡ (S.view shelf.old).told }
    ensures once { IsReadOnce (most_log_bytes + 4096) ((S.view shelf.old).reach name.now)
        ((S.view shelf.new).reach name.now) }
    ensures others { (q : List ℕ) → q ≢ name.now → (S.view shelf.new).reach q ≡ (S.view shelf.old).reach q }
{
    let mut reader = Reader::make(alloc, choice_of(drawing, window))?;
    read_file(&mut reader, shelf, name)?;
    match reader.finish() {
        Ok(log) => Ok(log),
        Err(fault) => Err(Outcome::from(fault)),
    }
}

/// The drawing of the cycles that a log keeps.
fn drawn(alloc: Global, drawing: Drawing, log: Log) -> Result<Vec<u8>, AllocError>
    ensures { (window : Window) (tale : Tale) → IsKept (choice_of drawing window) tale log
        → IfOk result (λ text. text.items ≡ drawn_text drawing (part_of window tale.cycles) tale) }
{
    match drawing {
        Drawing::Wave => wave(alloc, log),
        Drawing::Chart => chart(alloc, log),
    }
}

/// What a call comes to where no cycle of a log is shown.
fn unshown(log: &Log) -> Outcome
    ensures { result ≡ Unshown log.now.totals.first log.now.totals.last }
{
    Outcome::Unshown {
        first: log.totals.first,
        last: log.totals.last,
    }
}

/// The drawing of the cycles of the log of a file that a window shows; else what the call comes to.
#[tactic(auto, using(crate::proofs::LogLemmas::undrawn_unread))]
pub fn of_log<S: Shelf>(
    alloc: Global,
    drawing: Drawing,
    window: Window,
    shelf: &mut S,
    name: &str,
) -> Result<Output, Outcome>
    ensures well { IfOk result (λ o. o.outcome ≡ Plain Answer.Ok) }
    ensures drawn { IfOk result (λ o. IsDrawing drawing window (S.view shelf.old).told name.now o.text.items) }
    ensures refused { IfErr result
        (IsUndrawn window (S.view shelf.old).told name.now (S.view shelf.old).faults (S.view shelf.new).faults) }

    // A read that fails is not tried again: it ends with ReadFault.
    ensures steady { OnOk result ((S.view shelf.new).faults ≡ (S.view shelf.old).faults) }
    ensures shown { IfErr result (Shows (S.view shelf.old).faults (S.view shelf.new).faults) }

    ensures later { (S.view shelf.old).faults ≤ (S.view shelf.new).faults }
    ensures same { (S.view shelf.new).told ≡ (S.view shelf.old).told }

    // The file is read in order and each byte of it once, at most 4,096 past the limit.
    ensures once { IsReadOnce (most_log_bytes + 4096) ((S.view shelf.old).reach name.now)
        ((S.view shelf.new).reach name.now) }
    ensures others { (q : List ℕ) → q ≢ name.now → (S.view shelf.new).reach q ≡ (S.view shelf.old).reach q }
{
    let log = log_of(alloc, drawing, window, shelf, name)?;
    if log.excerpt.part.is_empty() {
        return Err(unshown(&log));
    }
    Ok(Output {
        text: drawn(alloc, drawing, log)?,
        outcome: Outcome::Plain(Answer::Ok),
    })
}
