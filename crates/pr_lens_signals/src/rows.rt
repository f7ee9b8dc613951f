//! The rows of a program that shows its instances, which are written while the samples are read.

ghost use Rattle.std.specs.Prelude.{◌≡◌, ◌≢◌, ◌≤◌, ◌<◌, ◌+◌, ◌++◌, ◌∷◌, [], ℕ, List, Some, length, vec_len, IfErr, IfOk, OnErr, OnOk};
ghost use Rattle.pr_edge.specs.Files.{HasReadCause, IsMissing};
ghost use Rattle.pr_edge.specs.Tape.{Appends, AppendsFront};
ghost use Rattle.pr_flat.specs.Flats.{equations_of as flat_equations};
ghost use Rattle.pr_samples.specs.declared.feed.Got.{Got};
ghost use Rattle.pr_samples.specs.Feed.{name_of, place_of, SameFile};
ghost use Rattle.pr_source.specs.Standing.{Stands};
ghost use Rattle.pr_tool_modes.specs.Programs.{inputs_of};
ghost use Rattle.pr_lens_tracks.specs.Texts.{HasWritten, rows_text, text_behind};
ghost use Rattle.pr_lens_signals.specs.Reading.{HasBegun, HasEnded, IsLongFeed, IsPen, IsReady, IsWriteCause};

use crate::probing::Showing;
use pr_base::Num;
use pr_edge::{Shelf, Sink, write_all};
use pr_lens_tracks::Pen;
use pr_samples::{Feed, Got};
use pr_source::Evaluator;
use pr_tool_answers::Answer;

/// What samples are read, evaluated and written with.
#[derive(Drop)]
pub struct Work {
    pub feed: Feed,
    pub evaluator: Evaluator,
    pub pen: Pen,
}

/// Writes a text that is made whole.
pub fn put_text<K: Sink>(out: &mut K, text: &[u8]) -> Result<(), Answer>
    ensures all { OnOk result (Appends (K.view out.old).told (K.view out.new).told text.now) }
    ensures front { OnErr result (AppendsFront (K.view out.old).told (K.view out.new).told text.now) }
    ensures cause { IfErr result (IsWriteCause (K.view out.old).faults (K.view out.new).faults) }
    ensures later { (K.view out.old).faults ≤ (K.view out.new).faults }
{
    match write_all(out, text) {
        Ok(()) => Ok(()),
        Err(_) => Err(Answer::WriteFault),
    }
}

/// Writes the text of a further row.
fn put_row<K: Sink>(pen: &mut Pen, row: &[Num], out: &mut K) -> Result<(), Answer>
    requires tracks { vec_len pen.old.tracks ≡ length row.now }
    requires before { vec_len pen.old.before ≡ length row.now }
    requires room { pen.old.count < 18446744073709551615 }
    ensures all { (rows : List (List ℕ)) → HasWritten rows pen.old → OnOk result (Appends
        (K.view out.old).told (K.view out.new).told (text_behind pen.old.form pen.old.tracks.items rows row.now)) }
    ensures front { (rows : List (List ℕ)) → HasWritten rows pen.old → OnErr result (AppendsFront
        (K.view out.old).told (K.view out.new).told (text_behind pen.old.form pen.old.tracks.items rows row.now)) }
    ensures written { (rows : List (List ℕ)) → HasWritten rows pen.old
        → OnOk result (HasWritten (rows ++ row.now ∷ []) pen.new) }
    ensures form { pen.new.form ≡ pen.old.form }
    ensures tracks { pen.new.tracks ≡ pen.old.tracks }
    ensures count { OnOk result (pen.new.count ≡ pen.old.count + 1) }
    ensures size { vec_len pen.new.before ≡ vec_len pen.old.before }
    ensures cause { IfErr result (IsWriteCause (K.view out.old).faults (K.view out.new).faults) }
    ensures later { (K.view out.old).faults ≤ (K.view out.new).faults }
{
    match pen.write(row) {
        Ok(()) => put_text(out, &pen.line),
        Err(_) => Err(Answer::Memory),
    }
}

/// Writes the numbers of the instances, which stand behind so many outputs, sample by sample. `sample` and `row` have room
/// for one of each.
pub fn put_rows<S: Shelf, K: Sink>(
    showing: &Showing,
    work: &mut Work,
    shelf: &mut S,
    sample: &mut [Num],
    row: &mut [Num],
    out: &mut K,
) -> Result<Got, Answer>
    requires ready { IsReady showing.now }
    requires feed { IsLongFeed (inputs_of showing.now.probed.scoped.program) work.old.feed }
    requires evaluator { (widths : List ℕ) →
        Stands (flat_equations showing.now.probed.flat) widths [] work.old.evaluator }
    requires pen { IsPen showing.now work.old.pen }
    requires sample { length sample.old ≡ vec_len showing.now.probed.scoped.inputs }
    requires row { length row.old ≡ vec_len showing.now.probed.flat.outputs }
    ensures ended { IfOk result
        (λ end. end ≢ Got.ReadFault
        → HasEnded (S.view shelf.old).told showing.now
        work.old.feed work.new.feed end (λ rows. Appends (K.view out.old).told (K.view out.new).told
        (rows_text work.old.pen.form work.old.pen.tracks.items rows))) }
    ensures there { IfOk result
        (λ end. end ≢ Got.ReadFault → IsMissing (S.view shelf.old).told (name_of work.old.feed) → ⊥) }
    ensures read { IfOk result
        (λ end. end ≡ Got.ReadFault
        → HasReadCause (S.view shelf.old).told (name_of work.old.feed) (S.view shelf.old).faults
        (S.view shelf.new).faults) }
    ensures begun { IfOk result
        (λ end. end ≡ Got.ReadFault
        → HasBegun (S.view shelf.old).told showing.now
        work.old.feed work.new.feed (λ rows. Appends (K.view out.old).told (K.view out.new).told
        (rows_text work.old.pen.form work.old.pen.tracks.items rows))) }
    ensures cut { OnErr result (HasBegun (S.view shelf.old).told showing.now
        work.old.feed work.new.feed (λ rows. AppendsFront (K.view out.old).told (K.view out.new).told
        (rows_text work.old.pen.form work.old.pen.tracks.items rows))) }
    ensures cause { IfErr result (IsWriteCause (K.view out.old).faults (K.view out.new).faults) }
    ensures steady { IfOk result (λ end. end ≢ Got.ReadFault → (S.view shelf.new).faults ≡ (S.view shelf.old).faults) }
    ensures kept { OnErr result ((S.view shelf.new).faults ≡ (S.view shelf.old).faults) }
    ensures file { SameFile work.old.feed work.new.feed }
    ensures later { (S.view shelf.old).faults ≤ (S.view shelf.new).faults }
    ensures same { (S.view shelf.new).told ≡ (S.view shelf.old).told }
    ensures reached { (S.view shelf.old).reach (name_of work.old.feed) ≡ Some (place_of work.old.feed)
        → (S.view shelf.new).reach (name_of work.old.feed) ≡ Some (place_of work.new.feed) }
    ensures others { (q : List ℕ) → q ≢ name_of work.old.feed → (S.view shelf.new).reach q
        ≡ (S.view shelf.old).reach q }
    ensures out_later { (K.view out.old).faults ≤ (K.view out.new).faults }
{
    let front = showing.probed.flat.outputs.len() - showing.probed.instances.len();
    'samples: loop {
        match work.feed.next(shelf, sample) {
            Got::Sample => {
                work.evaluator
                    .next(&showing.probed.flat, &showing.widths, sample, row);
                match put_row(&mut work.pen, &row[front..], out) {
                    Ok(()) => {}
                    Err(answer) => return Err(answer),
                }
            }
            end => return Ok(end),
        }
    }
}
