//! The changes of a waveform.

ghost use Rattle.std.specs.Prelude.{◌≡◌, ◌++◌, ◌+◌, ◌/◌, ◌%◌, ◌^◌, OnOk, length, map};
ghost use Rattle.pr_lens_tracks.specs.Waves.{bits_text, changes_text, news_text, time_text, value_text, width_of};

use crate::looks::Track;
use pr_base::Num;
use pr_lens_text::{put, put_counted};
use std::alloc::AllocError;

/// Adds a time.
#[tactic(auto, unfolding(crate::specs::Waves::time_text))]
pub fn put_time(text: &mut Vec<u8>, time: usize) -> Result<(), AllocError>
    ensures { OnOk result (text.new.items ≡ text.old.items ++ time_text time) }
{
    put_counted(text, "#", time)?;
    put(text, "\n")
}

/// The digit of a bit of a number.
fn bit_digit(number: Num, place: u8) -> u8
    ensures { result ≡ 48 + number / 2 ^ place % 2 }
{
    if place < 128 {
        b'0' + ((number >> place) % 2) as u8
    } else {
        b'0'
    }
}

/// Adds so many bits of a number, the highest first.
fn put_bits(text: &mut Vec<u8>, width: u8, number: Num) -> Result<(), AllocError>
    ensures { OnOk result (text.new.items ≡ text.old.items ++ bits_text width number) }
{
    let mut left = width;
    while 0 < left {
        left -= 1;
        text.push(bit_digit(number, left))?;
    }
    Ok(())
}

/// Adds the number of a stream.
#[tactic(auto, unfolding(crate::specs::Waves::value_text))]
fn put_value(text: &mut Vec<u8>, place: usize, width: u8, number: Num) -> Result<(), AllocError>
    ensures { OnOk result (text.new.items ≡ text.old.items ++ value_text place width number) }
{
    put(text, "b")?;
    put_bits(text, width, number)?;
    put_counted(text, " ", place)?;
    put(text, "\n")
}

/// Adds the number of a stream, where it is the first or another one than before.
fn put_news(
    text: &mut Vec<u8>,
    place: usize,
    width: u8,
    begun: bool,
    before: Num,
    now: Num,
) -> Result<(), AllocError>
    ensures { OnOk result (text.new.items ≡ text.old.items ++ news_text place width begun before now) }
{
    if begun && before == now {
        return Ok(());
    }
    put_value(text, place, width, now)
}

/// Adds the numbers of a row that are others than those of the row before.
pub fn put_changes(
    text: &mut Vec<u8>,
    tracks: &[Track],
    begun: bool,
    before: &[Num],
    now: &[Num],
) -> Result<(), AllocError>
    requires tracks { length tracks.now ≡ length now.now }
    requires before { length before.now ≡ length now.now }
    ensures { OnOk result (text.new.items
        ≡ text.old.items ++ changes_text (map width_of tracks.now) begun before.now now.now) }
{
    for place in 0..now.len() {
        let width = tracks[place].look.width;
        put_news(text, place, width, begun, before[place], now[place])?;
    }
    Ok(())
}
