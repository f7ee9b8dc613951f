//! What is told of a product that can be made with fewer units.

ghost use Rattle.std.specs.Prelude.{◌≡◌, ◌++◌, OnOk};
ghost use Rattle.pr_lens_names.specs.Pieces.{quoted};
ghost use Rattle.pr_lens_products.specs.Texts.{cheap_text, factors_text, made_text, part_text, shifted_text, shifts_text, stream_of, two_text, unit_word, units_text, way_text, width_text};

use crate::products::{CheapProduct, Part};
use crate::shifts::Shifts;
use crate::units::Way;
use pr_lens_names::put_tokens;
use pr_lens_source::Source;
use pr_lens_text::{put, put_number};
use std::alloc::AllocError;

/// Tells tokens as they stand in the text, without the blanks and comments between them.
fn put_part(message: &mut Vec<u8>, source: &Source, part: Part) -> Result<(), AllocError>
    ensures { OnOk result (message.new.items
        ≡ message.old.items ++ part_text source.now.text.now source.now.tokens.now part) }
{
    put_tokens(message, source, part.first, part.end)
}

/// Tells a product of these factors.
#[tactic(auto, unfolding(crate::specs::Texts::factors_text))]
fn put_factors(
    message: &mut Vec<u8>,
    source: &Source,
    one: Part,
    other: Part,
) -> Result<(), AllocError>
    ensures { OnOk result (message.new.items
        ≡ message.old.items ++ factors_text source.now.text.now source.now.tokens.now one other) }
{
    put_part(message, source, one)?;
    put(message, " * ")?;
    put_part(message, source, other)
}

/// Tells a product in quotes.
#[tactic(auto, unfolding(pr_lens_names::specs::Pieces::quoted))]
fn put_product(
    message: &mut Vec<u8>,
    source: &Source,
    cheap: &CheapProduct,
) -> Result<(), AllocError>
    ensures { OnOk result (message.new.items ≡ message.old.items
        ++ quoted (factors_text source.now.text.now source.now.tokens.now cheap.now.before cheap.now.behind)) }
{
    put(message, "`")?;
    put_factors(message, source, cheap.before, cheap.behind)?;
    put(message, "`")
}

/// Tells a stream that is shifted.
fn put_shifted(
    message: &mut Vec<u8>,
    source: &Source,
    stream: Part,
    by: u8,
) -> Result<(), AllocError>
    ensures { OnOk result (message.new.items
        ≡ message.old.items ++ shifted_text (part_text source.now.text.now source.now.tokens.now stream) by) }
{
    if by == 0 {
        return put_part(message, source, stream);
    }
    put(message, "(")?;
    put_part(message, source, stream)?;
    put(message, " << ")?;
    put_number(message, usize::from(by))?;
    put(message, ")")
}

/// Tells a stream that is shifted twice, and what stands between.
#[tactic(auto, unfolding(crate::specs::Texts::two_text))]
fn put_two(
    message: &mut Vec<u8>,
    source: &Source,
    stream: Part,
    one: u8,
    sign: &str,
    other: u8,
) -> Result<(), AllocError>
    ensures { OnOk result (message.new.items ≡ message.old.items
        ++ two_text (part_text source.now.text.now source.now.tokens.now stream) one sign.now other) }
{
    put(message, "(")?;
    put_shifted(message, source, stream, one)?;
    put(message, sign)?;
    put_shifted(message, source, stream, other)?;
    put(message, ")")
}

/// Tells shifts of a stream.
fn put_shifts(
    message: &mut Vec<u8>,
    source: &Source,
    stream: Part,
    shifts: Shifts,
) -> Result<(), AllocError>
    ensures { OnOk result (message.new.items ≡ message.old.items
        ++ shifts_text (part_text source.now.text.now source.now.tokens.now stream) shifts) }
{
    match shifts {
        Shifts::One { by } => put_shifted(message, source, stream, by),
        Shifts::Sum { by, and } => put_two(message, source, stream, by, " + ", and),
        Shifts::Difference { by, less } => put_two(message, source, stream, by, " - ", less),
    }
}

/// The word behind a number of units.
fn unit_word(units: u32) -> &'static str
    ensures { result.now ≡ unit_word units }
{
    if units == 1 {
        " unit, and `"
    } else {
        " units, and `"
    }
}

/// Tells how many units a product takes.
#[tactic(auto, unfolding(crate::specs::Texts::units_text))]
fn put_units(message: &mut Vec<u8>, units: u32) -> Result<(), AllocError>
    ensures { OnOk result (message.new.items ≡ message.old.items ++ units_text units) }
{
    put(message, " takes ")?;
    put_number(message, units as usize)?;
    put(message, unit_word(units))
}

/// The factor that is a stream.
fn stream_of(cheap: &CheapProduct) -> Part
    ensures { result ≡ stream_of cheap.now }
{
    if cheap.reversed {
        cheap.behind
    } else {
        cheap.before
    }
}

/// Tells the other way to make a product.
fn put_way(message: &mut Vec<u8>, source: &Source, cheap: &CheapProduct) -> Result<(), AllocError>
    ensures { OnOk result (message.new.items
        ≡ message.old.items ++ way_text source.now.text.now source.now.tokens.now cheap.now cheap.now.cheaper.way) }
{
    match cheap.cheaper.way {
        Way::Shifted { shifts } => put_shifts(message, source, stream_of(cheap), shifts),
        Way::Swapped => put_factors(message, source, cheap.behind, cheap.before),
    }
}

/// Tells the other way and its units.
#[tactic(auto, unfolding(crate::specs::Texts::made_text))]
fn put_made(message: &mut Vec<u8>, source: &Source, cheap: &CheapProduct) -> Result<(), AllocError>
    ensures { OnOk result (message.new.items
        ≡ message.old.items ++ made_text source.now.text.now source.now.tokens.now cheap.now) }
{
    put_way(message, source, cheap)?;
    put(message, "` takes ")?;
    put_number(message, cheap.cheaper.units as usize)?;
    put(message, ".\nWrite this in the place of the product: ")
}

/// Tells how wide the other way is beside the product.
fn put_width(message: &mut Vec<u8>, way: Way) -> Result<(), AllocError>
    ensures { OnOk result (message.new.items ≡ message.old.items ++ width_text way) }
{
    match way {
        Way::Shifted {
            shifts: Shifts::One { .. },
        } => put(
            message,
            "it gives the same numbers, and has one bit less.\nSee whether a difference, `~`, `signed`, a slice or `cat` reads this bit.\n",
        ),
        _ => put(message, "it gives the same numbers, and is as wide.\n"),
    }
}

/// Tells that a product can be made with fewer units.
#[tactic(auto, unfolding(crate::specs::Texts::cheap_text))]
pub fn put_cheap(
    message: &mut Vec<u8>,
    source: &Source,
    cheap: &CheapProduct,
) -> Result<(), AllocError>
    ensures { OnOk result (message.new.items
        ≡ message.old.items ++ cheap_text source.now.text.now source.now.tokens.now cheap.now) }
{
    put_product(message, source, cheap)?;
    put_units(message, cheap.cheaper.product)?;
    put_made(message, source, cheap)?;
    put_width(message, cheap.cheaper.way)
}
