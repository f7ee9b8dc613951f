//! The streams of a program's names on the samples of a file.

ghost use Rattle.std.specs.Prelude.{◌≡◌, ◌≢◌, ◌≤◌, [], ℕ, List, None, length, vec_len, IfErr, IfNone, IfOk, IfSome, OnErr, OnOk, option_map};
ghost use Rattle.pr_edge.specs.Tape.{Appends, AppendsFront};
ghost use Rattle.pr_lang.specs.declared.trees.Program.{Program};
ghost use Rattle.pr_scope.specs.Walk.{offence};
ghost use Rattle.pr_flat.specs.Flats.{equations_of as flat_equations};
ghost use Rattle.pr_flat.specs.Widths.{AreWidths};
ghost use Rattle.pr_expand_spec.specs.Programs.{equations_of};
ghost use Rattle.pr_samples.specs.Feed.{name_of};
ghost use Rattle.pr_source.specs.Standing.{Stands};
ghost use Rattle.pr_tool_modes.specs.Files.{IsInOrder, ShowsFault};
ghost use Rattle.pr_tool_modes.specs.Programs.{inputs_of};
ghost use Rattle.pr_lens_tracks.specs.Texts.{head_text};
ghost use Rattle.pr_lens_signals.specs.Calls.{seen};
ghost use Rattle.pr_lens_signals.specs.Manners.{AreKnown, IsForeign, IsUnknownOf, Manner, manner_of};
ghost use Rattle.pr_lens_signals.specs.Reading.{IsLongFeed, IsPen, IsReady, IsSetUp, IsWriteCause};
ghost use Rattle.pr_lens_signals.specs.Signals.{IsShown};

use crate::probing::{Showing, showing_of};
use crate::rows::{Work, put_rows, put_text};
use crate::tracks::{NoStream, Style, tracks_of};
use pr_base::Num;
use pr_compile_front::Front;
use pr_edge::{Shelf, Sink};
use pr_lens_tracks::{Pen, Track, put_head, unknown_in};
use pr_samples::Feed;
use pr_source::Evaluator;
use pr_tool_answers::Answer;
use pr_tool_modes::answer_of;
use std::alloc::{AllocError, Global};

/// All that is made before the first sample is read.
#[derive(Drop)]
struct Start {
    work: Work,
    /// The room for a sample.
    sample: Vec<Num>,
    /// The room for the numbers of all outputs.
    row: Vec<Num>,
}

/// What the samples of a file are read, evaluated and written with.
fn start_of(alloc: Global, showing: &Showing, pen: Pen, samples: &str) -> Result<Start, AllocError>
    ensures feed { IfOk result
        (λ s. IsLongFeed (inputs_of showing.now.probed.scoped.program) s.work.feed) }
    ensures name { IfOk result (λ s. name_of s.work.feed ≡ samples.now) }
    ensures evaluator { IfOk result
        (λ s. (widths : List ℕ) → Stands (flat_equations showing.now.probed.flat) widths [] s.work.evaluator) }
    ensures pen { IfOk result (λ s. s.work.pen ≡ pen) }
    ensures sample { IfOk result (λ s. length s.sample.items ≡ vec_len showing.now.probed.scoped.inputs) }
    ensures row { IfOk result (λ s. length s.row.items ≡ vec_len showing.now.probed.flat.outputs) }
{
    let feed = Feed::make(alloc, samples, &showing.probed.scoped.inputs)?;
    let evaluator = Evaluator::new(alloc, &showing.probed.flat)?;
    let sample = vec![in alloc; 0; showing.probed.scoped.inputs.len()]?;
    let row = vec![in alloc; 0; showing.probed.flat.outputs.len()]?;
    let work = Work {
        feed,
        evaluator,
        pen,
    };
    Ok(Start { work, sample, row })
}

/// Writes all that stands before the first row.
fn put_start<K: Sink>(alloc: Global, pen: &Pen, out: &mut K) -> Result<(), Answer>
    ensures all { OnOk result
        (Appends (K.view out.old).told (K.view out.new).told (head_text pen.now.form pen.now.tracks.items)) }
    ensures front { OnErr result
        (AppendsFront (K.view out.old).told (K.view out.new).told (head_text pen.now.form pen.now.tracks.items)) }
    ensures cause { IfErr result (IsWriteCause (K.view out.old).faults (K.view out.new).faults) }
    ensures later { (K.view out.old).faults ≤ (K.view out.new).faults }
{
    let mut text = Vec::new(alloc);
    match put_head(&mut text, pen.form, &pen.tracks) {
        Ok(()) => put_text(out, text.as_slice()),
        Err(_) => Err(Answer::Memory),
    }
}

/// Writes the names of a program's instances, and then their numbers, sample by sample.
fn show<S: Shelf, K: Sink>(
    alloc: Global,
    showing: &Showing,
    pen: Pen,
    samples: &str,
    shelf: &mut S,
    out: &mut K,
) -> Answer
    requires ready { IsReady showing.now }
    requires pen { IsPen showing.now pen }
    ensures shown { (manner : Manner) → (program : Program) → offence program ≡ None
        → IsSetUp manner program showing.now pen
        → IsShown manner samples.now program
        (seen (S.view shelf.old) (S.view shelf.new) (K.view out.old) (K.view out.new)) result }
    ensures fault { ShowsFault (S.view shelf.old).faults (S.view shelf.new).faults result }
    ensures later { (S.view shelf.old).faults ≤ (S.view shelf.new).faults }
    ensures same { (S.view shelf.new).told ≡ (S.view shelf.old).told }
    ensures once { IsInOrder ((S.view shelf.old).reach samples.now) ((S.view shelf.new).reach samples.now) }
    ensures others { (q : List ℕ) → q ≢ samples.now → (S.view shelf.new).reach q ≡ (S.view shelf.old).reach q }
    ensures out_later { (K.view out.old).faults ≤ (K.view out.new).faults }
{
    let mut start = match start_of(alloc, showing, pen, samples) {
        Ok(start) => start,
        Err(_) => return Answer::Memory,
    };
    match put_start(alloc, &start.work.pen, out) {
        Ok(()) => {}
        Err(answer) => return answer,
    }
    match put_rows(
        showing,
        &mut start.work,
        shelf,
        &mut start.sample,
        &mut start.row,
        out,
    ) {
        Ok(end) => answer_of(end),
        Err(answer) => answer,
    }
}

/// The place of the first name of a list, where there is one, that no stream has.
fn foreign_in(signed: Option<&str>, tracks: &[Track]) -> Option<usize>
    ensures some { IfSome result (IsUnknownOf (option_map (λ s. s.now) signed.entry) tracks.now) }
    ensures none { IfNone result (AreKnown (option_map (λ s. s.now) signed.entry) tracks.now) }
{
    match signed {
        None => None,
        Some(list) => unknown_in(list, tracks),
    }
}

/// Writes the names of a program's stream instances, and then their numbers at each sample of a file.
///
/// The numbers at a sample are written before the next sample is read. Where a line is no sample, the text on the samples
/// before it stands written.
pub fn signals<S: Shelf, K: Sink>(
    alloc: Global,
    front: Front,
    style: &Style,
    samples: &str,
    shelf: &mut S,
    out: &mut K,
) -> Result<Answer, NoStream>
    requires few { length (equations_of front.scoped.program).equations ≤ 16384 }
    requires widths { AreWidths (equations_of front.scoped.program).equations front.widths }
    // The text is that of the streams of the program's names on all samples of the file, or on the first of them.
    ensures shown { IfOk result
        (λ answer. IsShown (manner_of style.now) samples.now front.scoped.program
        (seen (S.view shelf.old) (S.view shelf.new) (K.view out.old) (K.view out.new)) answer) }
    // A read that fails is answered with ReadFault, and is not tried again.
    ensures fault { IfOk result (ShowsFault (S.view shelf.old).faults (S.view shelf.new).faults) }
    // A name that is to be shown as two's complement is that of no stream, and nothing is read or written.
    ensures foreign { IfErr result (λ e. IsForeign (manner_of style.now) front.scoped.program e.place) }
    ensures unwritten { OnErr result ((K.view out.new).told ≡ (K.view out.old).told) }
    ensures unread { OnErr result ((S.view shelf.new).faults ≡ (S.view shelf.old).faults) }
    ensures later { (S.view shelf.old).faults ≤ (S.view shelf.new).faults }
    ensures same { (S.view shelf.new).told ≡ (S.view shelf.old).told }
    // The file is read in order, and no byte of it twice.
    ensures once { IsInOrder ((S.view shelf.old).reach samples.now) ((S.view shelf.new).reach samples.now) }
    ensures others { (q : List ℕ) → q ≢ samples.now → (S.view shelf.new).reach q ≡ (S.view shelf.old).reach q }
    ensures out_later { (K.view out.old).faults ≤ (K.view out.new).faults }
{
    let showing = match showing_of(alloc, front) {
        Ok(showing) => showing,
        Err(answer) => return Ok(answer),
    };
    let tracks = match tracks_of(alloc, &showing, style.signed) {
        Ok(tracks) => tracks,
        Err(_) => return Ok(Answer::Memory),
    };
    if let Some(place) = foreign_in(style.signed, &tracks) {
        return Err(NoStream { place });
    }
    match Pen::make(alloc, style.form, tracks) {
        Ok(pen) => Ok(show(alloc, &showing, pen, samples, shelf, out)),
        Err(_) => Ok(Answer::Memory),
    }
}
