//! Where the sources of a stage lie.

ghost use Rattle.std.specs.Prelude.{true, false, ◌≡◌, ◌+◌, ◌<◌, ◌≤◌, ℕ, length, slice_index, slice_index_or};
ghost use Rattle.pr_conf.specs.declared.pes.Source.{Source};
ghost use Rattle.pr_stripe_prepared.specs.Places.{known_in, state_in, here_in, row_in, is_suited};
ghost use Rattle.pr_lanes.specs.Lanes.{is_place};
ghost use Rattle.pr_stripe_prepared.specs.Rows.{IsRow};

use crate::rows::made_of;
use pr_conf::Source;

fn known_of(source: Source) -> u8
    ensures { result ≡ known_in source }
{
    match source {
        Source::Const(byte) => byte,
        Source::Prev { .. } | Source::Here(_) | Source::State(_) | Source::Bus(_) => 0,
    }
}

fn state_of(source: Source) -> u8
    ensures { result ≡ state_in source }
{
    match source {
        Source::State(col) => col,
        Source::Const(_) | Source::Prev { .. } | Source::Here(_) | Source::Bus(_) => 128,
    }
}

fn here_of(source: Source) -> u8
    ensures { result ≡ here_in source }
{
    match source {
        Source::Here(col) => col,
        Source::Const(_) | Source::Prev { .. } | Source::State(_) | Source::Bus(_) => 128,
    }
}

fn row_of(source: Source) -> u16
    ensures { result ≡ row_in source }
{
    match source {
        Source::Prev { col, reg } => (u16::from(reg).saturating_sub(1)) * 16 + u16::from(col),
        Source::Bus(place) => u16::from(place),
        Source::Const(_) | Source::Here(_) | Source::State(_) => 65535,
    }
}

/// Whether whole rows of so many registers give a source.
pub(crate) fn suits(registers: usize, source: Source) -> bool
    requires { registers ≤ 16 }
    ensures { result ≡ is_suited registers source }
{
    match source {
        Source::Const(_) => true,
        Source::Prev { col, reg } => 0 < reg
            && usize::from(row_of(Source::Prev { col, reg })) < registers * 16,
        Source::Here(col) | Source::State(col) => col < 16,
        Source::Bus(place) => usize::from(place) < registers * 16,
    }
}

/// The bytes that are known, and 0 elsewhere.
pub(crate) fn known_row(sources: &[Source; 32]) -> [u8; 32]
    ensures { IsRow 32 (λ _. known_in) sources.now result }
{
    made_of(sources, |_, source| known_of(source))
}

/// The columns of the state.
pub(crate) fn state_row(sources: &[Source; 32]) -> [u8; 32]
    ensures { IsRow 32 (λ _. state_in) sources.now result }
{
    made_of(sources, |_, source| state_of(source))
}

/// The columns of the outputs.
pub(crate) fn here_row(sources: &[Source; 32]) -> [u8; 32]
    ensures { IsRow 32 (λ _. here_in) sources.now result }
{
    made_of(sources, |_, source| here_of(source))
}

/// Whether one of these is an output.
pub(crate) fn any_here(sources: &[Source; 32]) -> bool
    ensures { result ≡ false → (k : ℕ) (d : Source) → k < 32 → here_in (slice_index_or sources.now k d) ≡ 128 }
{
    for k in 0..32 {
        if here_of(sources[k]) != 128 {
            return true;
        }
    }
    false
}

/// The places of the row.
pub(crate) fn row_row(sources: &[Source; 32]) -> [u16; 32]
    ensures { IsRow 32 (λ _. row_in) sources.now result }
{
    made_of(sources, |_, source| row_of(source))
}
