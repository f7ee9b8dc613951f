//! Counts of points.

ghost use Rattle.std.specs.Prelude.{◌≡◌, ◌-◌, min};
ghost use Rattle.std.specs.List.{slice_get};

/// The number, or the greatest of 32 bits where it has more.
pub fn short(number: usize) -> u32
    ensures { result ≡ min number 4294967295 }
{
    if number < 4_294_967_295 {
        return number as u32;
    }
    u32::MAX
}

/// The token of the point of this number, from 1.
pub fn numbered(points: &[u32], number: usize) -> Option<usize>
    ensures { result ≡ slice_get points.now (number - 1) }
{
    match points.get(number.saturating_sub(1)) {
        None => None,
        Some(token) => Some(*token as usize),
    }
}
