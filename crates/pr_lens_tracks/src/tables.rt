//! Lines of names and of numbers, with a comma between.

ghost use Rattle.std.specs.Prelude.{◌≡◌, ◌++◌, ◌∷◌, OnOk, length, if◌then◌else◌};
ghost use Rattle.pr_lens_tracks.specs.Looks.{number_text};
ghost use Rattle.pr_lens_tracks.specs.Tables.{index_text, names_line, numbers_line, track_text};

use crate::looks::{Look, Track, below_zero};
use itoa::Buffer;
use pr_base::Num;
use pr_lens_text::{put, put_number};
use std::alloc::AllocError;

/// Adds the index of a stream, where it has one.
pub fn put_index(text: &mut Vec<u8>, index: Option<u64>) -> Result<(), AllocError>
    ensures { OnOk result (text.new.items ≡ text.old.items ++ index_text index) }
{
    match index {
        None => Ok(()),
        Some(number) => {
            put(text, "[")?;
            put_number(text, number as usize)?;
            put(text, "]")
        }
    }
}

/// Adds the name of a stream, with its index.
pub fn put_track(text: &mut Vec<u8>, track: &Track) -> Result<(), AllocError>
    ensures { OnOk result (text.new.items ≡ text.old.items ++ track_text track.now) }
{
    text.extend_from_slice(track.name.as_bytes())?;
    put_index(text, track.index)
}

/// Adds the name of a stream, after a comma where it is not the first.
fn put_name(text: &mut Vec<u8>, begun: bool, track: &Track) -> Result<(), AllocError>
    ensures { OnOk result (text.new.items
        ≡ text.old.items ++ (if begun then 44 ∷ track_text track.now else track_text track.now)) }
{
    if begun {
        text.push(b',')?;
    }
    put_track(text, track)
}

/// Adds a number as its stream shows it.
fn put_number_of(text: &mut Vec<u8>, look: Look, number: Num) -> Result<(), AllocError>
    ensures { OnOk result (text.new.items ≡ text.old.items ++ number_text look number) }
{
    let mut buffer = Buffer::new();
    match below_zero(look, number) {
        None => text.extend_from_slice(buffer.format(number).as_bytes()),
        Some(below) => {
            text.push(b'-')?;
            text.extend_from_slice(buffer.format(below).as_bytes())
        }
    }
}

/// Adds a number, after a comma where it is not the first.
fn put_cell(text: &mut Vec<u8>, begun: bool, look: Look, number: Num) -> Result<(), AllocError>
    ensures { OnOk result (text.new.items
        ≡ text.old.items ++ (if begun then 44 ∷ number_text look number else number_text look number)) }
{
    if begun {
        text.push(b',')?;
    }
    put_number_of(text, look, number)
}

/// Adds the line of the names of streams.
pub fn put_names(text: &mut Vec<u8>, tracks: &[Track]) -> Result<(), AllocError>
    ensures { OnOk result (text.new.items ≡ text.old.items ++ names_line tracks.now) }
{
    for place in 0..tracks.len() {
        put_name(text, 0 < place, &tracks[place])?;
    }
    text.push(b'\n')?;
    Ok(())
}

/// Adds the line of numbers.
pub fn put_numbers(text: &mut Vec<u8>, tracks: &[Track], numbers: &[Num]) -> Result<(), AllocError>
    requires { length tracks.now ≡ length numbers.now }
    ensures { OnOk result (text.new.items ≡ text.old.items ++ numbers_line tracks.now numbers.now) }
{
    for place in 0..numbers.len() {
        put_cell(text, 0 < place, tracks[place].look, numbers[place])?;
    }
    text.push(b'\n')?;
    Ok(())
}
