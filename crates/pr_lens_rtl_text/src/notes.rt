//! Comments: what the columns of stages carry.

ghost use Rattle.std.specs.Prelude.{◌≡◌, ◌+◌, ◌*◌, ◌++◌, None, Some, OnOk, codes, option_map, slice_index_or};
ghost use Rattle.std.specs.List.{list_all};
ghost use Rattle.pr_lens_rtl_text.specs.Notes.{is_note_byte, is_noted, is_repeated, label_at, label_of, note_of, place_at, tail_text};

use pr_lens_rtl::{Net, Part};
use pr_lens_rtl_terms::is_kept;
use pr_lens_text::put;
use std::alloc::AllocError;

/// What the columns of the stages of a module carry.
#[derive(Drop)]
pub struct Notes {
    /// The labels.
    pub labels: Vec<Vec<u8>>,
    /// How many columns a stage has.
    pub columns: u8,
    /// For each column of each stage, those of stage 0 first, the place of its label, if it has one.
    pub owners: Vec<Option<usize>>,
}

/// The owner at a place; none where there is none.
pub fn owner_at(owners: &[Option<usize>], at: usize) -> Option<usize>
    ensures { result ≡ slice_index_or owners.now at None }
{
    match owners.get(at) {
        Some(owner) => *owner,
        None => None,
    }
}

/// The label at a place.
fn label_at(notes: &Notes, place: Option<usize>) -> Option<&[u8]>
    ensures { option_map (λ label. label.now) result ≡ label_at notes.now place }
{
    match place {
        None => None,
        Some(place) => match notes.labels.get(place) {
            None => None,
            Some(label) => Some(label.as_slice()),
        },
    }
}

/// The place of a column of a stage in the table.
fn place_of(stage: u32, columns: u8, col: u32) -> usize
    ensures { result ≡ stage * columns + col }
{
    stage as usize * usize::from(columns) + col as usize
}

/// The place of the label of a column of a stage, if it has one.
fn place_at(notes: &Notes, stage: u32, col: u32) -> Option<usize>
    ensures { result ≡ place_at notes.now stage col }
{
    owner_at(&notes.owners, place_of(stage, notes.columns, col))
}

/// The label of a column of a stage.
fn label_of(notes: &Notes, stage: u32, col: u32) -> Option<&[u8]>
    ensures { option_map (λ label. label.now) result ≡ label_of notes.now stage col }
{
    label_at(notes, place_at(notes, stage, col))
}

/// Whether a vector of a column may have its label.
fn is_noted(part: Part) -> bool
    ensures { result ≡ is_noted part }
{
    matches!(part, Part::Output | Part::State)
}

/// Whether the column to the left has the same label, and the same vector of it is written.
fn is_repeated(notes: &Notes, marks: &[bool], part: Part, stage: u32, col: u32) -> bool
    ensures { result ≡ is_repeated notes.now marks.now part stage col }
{
    if col == 0 {
        return false;
    }
    if !is_kept(marks, Net::Of(part, stage, col - 1)) {
        return false;
    }
    place_at(notes, stage, col - 1) == place_at(notes, stage, col)
}

/// The label of a vector, where these are written.
#[tactic(auto, unfolding(crate::specs::Notes::note_of))]
fn note_of<'a>(notes: &'a Notes, marks: &[bool], net: Net) -> Option<&'a [u8]>
    ensures { option_map (λ label. label.now) result ≡ note_of notes.now marks.now net }
{
    match net {
        Net::Of(part, stage, col) => {
            if !is_noted(part) {
                return None;
            }
            if is_repeated(notes, marks, part, stage, col) {
                return None;
            }
            label_of(notes, stage, col)
        }
        _ => None,
    }
}

/// Whether a byte may stand in a comment.
fn is_note_byte(byte: u8) -> bool
    ensures { result ≡ is_note_byte byte }
{
    matches!(byte, b'A'..=b'Z' | b'a'..=b'z' | b'_' | b'0'..=b'9' | b' ' | b',' | b'[' | b']')
}

/// Whether all bytes of a label may stand in a comment.
fn is_note(label: &[u8]) -> bool
    ensures { result ≡ list_all is_note_byte label.now }
{
    label.iter().all(|&byte| is_note_byte(byte))
}

/// Adds the comment of a label.
fn put_comment(text: &mut Vec<u8>, label: &[u8]) -> Result<(), AllocError>
    ensures { OnOk result (text.new.items ≡ text.old.items ++ tail_text (Some label.now)) }
{
    if !is_note(label) {
        return Ok(());
    }
    put(text, " // ")?;
    text.extend_from_slice(label)
}

/// Adds the comment of a vector, where it has one, and ends the line.
pub fn end_line(
    text: &mut Vec<u8>,
    marks: &[bool],
    notes: &Notes,
    net: Net,
) -> Result<(), AllocError>
    ensures { OnOk result (text.new.items
        ≡ text.old.items ++ (tail_text (note_of notes.now marks.now net) ++ codes "\n")) }
{
    if let Some(label) = note_of(notes, marks, net) {
        put_comment(text, label)?;
    }
    put(text, "\n")
}
