//! A pen, which writes rows one after the other.

ghost use Rattle.std.specs.Prelude.{◌≡◌, ◌++◌, ◌+◌, ◌∷◌, ◌<◌, [], ℕ, List, IfOk, OnOk, length, vec_len};
ghost use Rattle.pr_lens_tracks.specs.Texts.{HasWritten, head_text, row_text, text_behind};
ghost use Rattle.pr_lens_tracks.specs.declared.looks.Form.{Form};

use crate::changes::{put_changes, put_time};
use crate::looks::{Form, Track};
use crate::tables::{put_names, put_numbers};
use crate::waves::put_wave_head;
use pr_base::Num;
use std::alloc::{AllocError, Global};

/// What rows are written with.
#[derive(Drop)]
pub struct Pen {
    pub form: Form,
    pub tracks: Vec<Track>,
    /// How many rows were written.
    pub count: usize,
    /// The last of them.
    pub before: Vec<Num>,
    /// Its text.
    pub line: Vec<u8>,
}

/// Adds all that stands before the first row.
pub fn put_head(text: &mut Vec<u8>, form: Form, tracks: &[Track]) -> Result<(), AllocError>
    ensures { OnOk result (text.new.items ≡ text.old.items ++ head_text form tracks.now) }
{
    match form {
        Form::Csv => put_names(text, tracks),
        Form::Wave => put_wave_head(text, tracks),
    }
}

/// Adds what a waveform says of a row: its changes, and the time at which it is over.
fn put_step(
    text: &mut Vec<u8>,
    tracks: &[Track],
    count: usize,
    before: &[Num],
    row: &[Num],
) -> Result<(), AllocError>
    requires tracks { length tracks.now ≡ length row.now }
    requires before { length before.now ≡ length row.now }
    requires room { count < 18446744073709551615 }
    ensures { OnOk result (text.new.items
        ≡ text.old.items ++ row_text Form.Wave tracks.now count before.now row.now) }
{
    put_changes(text, tracks, 0 < count, before, row)?;
    put_time(text, count + 1)
}

impl Pen {
    /// A pen that wrote nothing yet.
    pub fn make(alloc: Global, form: Form, tracks: Vec<Track>) -> Result<Pen, AllocError>
        ensures form { IfOk result (λ pen. pen.form ≡ form) }
        ensures tracks { IfOk result (λ pen. pen.tracks ≡ tracks) }
        ensures before { IfOk result (λ pen. vec_len pen.before ≡ vec_len tracks) }
        ensures written { IfOk result (HasWritten []) }
    {
        let before = vec![in alloc; 0; tracks.len()]?;
        Ok(Pen {
            form,
            tracks,
            count: 0,
            before,
            line: Vec::new(alloc),
        })
    }

    /// Makes the text of a further row.
    fn make_line(&mut self, row: &[Num]) -> Result<(), AllocError>
        requires tracks { vec_len self.old.tracks ≡ length row.now }
        requires before { vec_len self.old.before ≡ length row.now }
        requires room { self.old.count < 18446744073709551615 }
        ensures line { OnOk result (self.new.line.items
            ≡ row_text self.old.form self.old.tracks.items self.old.count self.old.before.items row.now) }
        ensures form { self.new.form ≡ self.old.form }
        ensures tracks { self.new.tracks ≡ self.old.tracks }
        ensures count { self.new.count ≡ self.old.count }
        ensures before { self.new.before ≡ self.old.before }
    {
        self.line.clear();
        match self.form {
            Form::Csv => put_numbers(&mut self.line, &self.tracks, row),
            Form::Wave => put_step(&mut self.line, &self.tracks, self.count, &self.before, row),
        }
    }

    /// Makes the text of a further row, in `line`.
    pub fn write(&mut self, row: &[Num]) -> Result<(), AllocError>
        requires tracks { vec_len self.old.tracks ≡ length row.now }
        requires before { vec_len self.old.before ≡ length row.now }
        requires room { self.old.count < 18446744073709551615 }
        ensures line { OnOk result ((rows : List (List ℕ)) → HasWritten rows self.old
            → self.new.line.items ≡ text_behind self.old.form self.old.tracks.items rows row.now) }
        ensures written { OnOk result ((rows : List (List ℕ)) → HasWritten rows self.old
            → HasWritten (rows ++ row.now ∷ []) self.new) }
        ensures form { self.new.form ≡ self.old.form }
        ensures tracks { self.new.tracks ≡ self.old.tracks }
        ensures count { OnOk result (self.new.count ≡ self.old.count + 1) }
        ensures size { vec_len self.new.before ≡ vec_len self.old.before }
    {
        self.make_line(row)?;
        self.count += 1;
        self.before.copy_from_slice(row);
        Ok(())
    }
}
