//! The head of a waveform.

ghost use Rattle.std.specs.Prelude.{◌≡◌, ◌++◌, OnOk, length};
ghost use Rattle.pr_lens_tracks.specs.Waves.{range_text, type_text, variable_text, variables_text, wave_head};

use crate::changes::put_time;
use crate::looks::Track;
use crate::tables::put_track;
use pr_lens_text::{put, put_counted};
use std::alloc::AllocError;

/// The type that viewers are told.
fn type_word(signed: bool) -> &'static str
    ensures { result.now ≡ type_text signed }
{
    if signed { "integer" } else { "wire" }
}

/// Adds which bits a stream has.
fn put_range(text: &mut Vec<u8>, index: Option<u64>, width: u8) -> Result<(), AllocError>
    ensures { OnOk result (text.new.items ≡ text.old.items ++ range_text index width) }
{
    if index.is_none() && width <= 1 {
        return Ok(());
    }
    put_counted(text, " [", usize::from(width).saturating_sub(1))?;
    put(text, ":0]")
}

/// Adds the line that names a stream.
#[tactic(auto, unfolding(crate::specs::Waves::variable_text))]
fn put_variable(text: &mut Vec<u8>, place: usize, track: &Track) -> Result<(), AllocError>
    ensures { OnOk result (text.new.items ≡ text.old.items ++ variable_text place track.now) }
{
    put(text, "$var ")?;
    put(text, type_word(track.look.signed))?;
    put_counted(text, " ", usize::from(track.look.width))?;
    put_counted(text, " ", place)?;
    put(text, " ")?;
    put_track(text, track)?;
    put_range(text, track.index, track.look.width)?;
    put(text, " $end\n")
}

/// Adds the lines that name streams.
fn put_variables(text: &mut Vec<u8>, tracks: &[Track]) -> Result<(), AllocError>
    ensures { OnOk result (text.new.items ≡ text.old.items ++ variables_text 0 tracks.now) }
{
    for place in 0..tracks.len() {
        put_variable(text, place, &tracks[place])?;
    }
    Ok(())
}

/// Adds all that stands before the first change.
#[tactic(auto, unfolding(crate::specs::Waves::wave_head))]
pub fn put_wave_head(text: &mut Vec<u8>, tracks: &[Track]) -> Result<(), AllocError>
    ensures { OnOk result (text.new.items ≡ text.old.items ++ wave_head tracks.now) }
{
    put(
        text,
        "$comment the named streams of a program, a step of time for each sample $end\n",
    )?;
    put(text, "$timescale 1 ns $end\n$scope module program $end\n")?;
    put_variables(text, tracks)?;
    put(text, "$upscope $end\n$enddefinitions $end\n")?;
    put_time(text, 0)
}
