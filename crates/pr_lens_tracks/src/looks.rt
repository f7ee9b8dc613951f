//! How streams are shown.

ghost use Rattle.std.specs.Prelude.{◌≡◌, ◌≤◌, ◌-◌, ◌^◌, IfSome, IfNone};
ghost use Rattle.pr_lens_tracks.specs.Looks.{below_zero};

use pr_base::Num;
use pr_lang::Name;

/// The kinds of texts.
#[derive(Clone, Copy, PartialEq, Eq, Debug)]
pub enum Form {
    /// A line of names, and a line of numbers for each sample.
    Csv,
    /// A waveform: the names, and what changes at each sample.
    Wave,
}

/// How a stream is shown.
#[derive(Clone, Copy, PartialEq, Eq, Debug)]
pub struct Look {
    /// The bits of its numbers.
    pub width: u8,
    /// Whether its numbers are shown as two's complement.
    pub signed: bool,
}

/// A stream, and how it is shown.
#[derive(Drop)]
pub struct Track {
    pub name: Name,
    pub index: Option<u64>,
    pub look: Look,
}

/// The least number of so many bits whose highest bit is 1, where 128 bits hold it.
fn half_of(width: u8) -> Option<Num>
    ensures some { IfSome result (λ half. half ≡ 2 ^ (width - 1)) }
    ensures none { IfNone result (128 ≤ width - 1) }
{
    let shift = width.saturating_sub(1);
    if shift < 128 { Some(1 << shift) } else { None }
}

/// How far below 0 a number stands, where it is shown as a negative one.
pub fn below_zero(look: Look, number: Num) -> Option<Num>
    ensures { result ≡ below_zero look number }
{
    if !look.signed {
        return None;
    }
    match half_of(look.width) {
        None => None,
        Some(half) => {
            if number < half {
                None
            } else {
                Some(half.saturating_sub(number - half))
            }
        }
    }
}
