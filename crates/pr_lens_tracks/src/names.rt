//! Lists of names.

ghost use Rattle.std.specs.Prelude.{◌≡◌, Some, option_map, slice_get};
ghost use Rattle.pr_lens_tracks.specs.Names.{has_name, is_listed, names_in, unknown_in};

use crate::looks::Track;

/// Whether a name stands in a list of names, with a comma between.
fn has_piece(list: &str, name: &[u8]) -> bool
    ensures { result ≡ is_listed (Some list.now) name.now }
{
    list.split(',').any(|piece| piece.as_bytes() == name)
}

/// Whether a name is one of a list, where there is one.
pub fn is_listed(list: Option<&str>, name: &[u8]) -> bool
    ensures { result ≡ is_listed (option_map (λ s. s.now) list.entry) name.now }
{
    match list {
        None => false,
        Some(list) => has_piece(list, name),
    }
}

/// Whether a stream has the name.
fn has_name(tracks: &[Track], name: &[u8]) -> bool
    ensures { result ≡ has_name tracks.now name.now }
{
    tracks.iter().any(|track| track.name.as_bytes() == name)
}

/// The place of the first name of a list that no stream has.
pub fn unknown_in(list: &str, tracks: &[Track]) -> Option<usize>
    ensures { result ≡ unknown_in tracks.now list.now }
{
    list.split(',')
        .position(|piece| !has_name(tracks, piece.as_bytes()))
}

/// The name at a place of a list.
pub fn name_at<'a>(list: &'a str, place: usize) -> Option<&'a str>
    ensures { option_map (λ s. s.now) result ≡ slice_get (names_in list.now) place }
{
    list.split(',').nth(place)
}
