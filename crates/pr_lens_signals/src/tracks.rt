//! The streams of a program's names, and how each is shown.

ghost use Rattle.std.specs.Prelude.{◌≡◌, ◌<◌, get_or, length, true, IfOk, option_map, vec_len};
ghost use Rattle.pr_flat.specs.Widths.{operand_width};
ghost use Rattle.pr_width.specs.Reads.{is_within};
ghost use Rattle.pr_lens_signals.specs.Manners.{track_of};
ghost use Rattle.pr_lens_tracks.specs.declared.looks.Look.{Look};
ghost use Rattle.pr_lens_signals.specs.Reading.{IsReady, all_looks, all_widths, tracks_in};

use crate::probing::Showing;
use pr_flat::Operand;
use pr_lens_tracks::{Form, Look, Track, is_listed};
use pr_scope_names::Instance;
use pr_width::{Widths, operand_width};
use std::alloc::{AllocError, Global};

/// How streams are shown.
#[derive(Clone, Copy, PartialEq, Eq, Debug)]
pub struct Style<'a> {
    /// The kind of the text.
    pub form: Form,
    /// The names of streams that are shown as two's complement whatever their kinds, with a comma between.
    pub signed: Option<&'a str>,
}

/// A name that is to be shown as two's complement is that of no stream.
#[derive(Clone, Copy, PartialEq, Eq, Debug)]
pub struct NoStream {
    /// Its place among the names, from 0.
    pub place: usize,
}

/// The width of an operand.
fn width_of(operand: Operand, widths: &Widths) -> u8
    requires { is_within (length widths.now) operand ≡ true }
    ensures { result ≡ operand_width widths.now operand }
{
    operand_width(operand, &widths.of)
}

/// The width of what the output at a place shows.
fn width_at(showing: &Showing, place: usize) -> u8
    requires ready { IsReady showing.now }
    requires within { place < vec_len showing.now.probed.flat.outputs }
    ensures { result ≡ get_or (all_widths showing.now) place 0 }
{
    width_of(showing.probed.flat.outputs[place], &showing.widths)
}

/// How the instance at a place is shown by itself.
fn look_at(showing: &Showing, place: usize) -> Look
    requires ready { IsReady showing.now }
    requires within { place < vec_len showing.now.probed.instances }
    ensures { (d : Look) → result ≡ get_or (all_looks showing.now) place d }
{
    let front = showing.probed.flat.outputs.len() - showing.probed.instances.len();
    let signed = showing.probed.kinds[place];
    let width = width_at(showing, front + place);
    Look { width, signed }
}

/// An instance that is shown so by itself, and as two's complement where its name is listed.
fn track_of(
    alloc: Global,
    instance: &Instance,
    look: Look,
    signed: Option<&str>,
) -> Result<Track, AllocError>
    ensures { IfOk result (λ t. t ≡ track_of (option_map (λ s. s.now) signed.entry) instance.now look) }
{
    let name = instance.name.copy(alloc)?;
    let signed = look.signed || is_listed(signed, instance.name.as_bytes());
    let width = look.width;
    Ok(Track {
        name,
        index: instance.index,
        look: Look { width, signed },
    })
}

/// The instances of a program, and how they are shown.
pub fn tracks_of(
    alloc: Global,
    showing: &Showing,
    signed: Option<&str>,
) -> Result<Vec<Track>, AllocError>
    requires ready { IsReady showing.now }
    ensures { IfOk result (λ tracks. tracks.items ≡ tracks_in (option_map (λ s. s.now) signed.entry) showing.now) }
{
    let mut tracks = Vec::new(alloc);
    for place in 0..showing.probed.instances.len() {
        let look = look_at(showing, place);
        let track = track_of(alloc, &showing.probed.instances[place], look, signed)?;
        tracks.push(track)?;
    }
    Ok(tracks)
}
