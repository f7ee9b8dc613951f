//! Programs for which registers ran out.

ghost use Rattle.std.specs.Prelude.{◌≡◌, ◌++◌, OnOk};
ghost use Rattle.pr_lens_why.specs.Limits.{beside_text, kept_text, later_text, left_text, registers_text};

use pr_lens_fits::Unfit;
use pr_lens_text::{put, put_counted};
use std::alloc::AllocError;

/// Tells how many bytes are kept, and how many a stage keeps on so many columns, in each so many.
#[tactic(auto, unfolding(crate::specs::Limits::kept_text))]
fn tell_kept(
    message: &mut Vec<u8>,
    kept: usize,
    columns: usize,
    each: usize,
) -> Result<(), AllocError>
    ensures { OnOk result (message.new.items ≡ message.old.items ++ kept_text kept columns each) }
{
    put_counted(message, "Registers ran out: ", kept)?;
    put_counted(
        message,
        " bytes that are made before are needed here or later, and a stage keeps ",
        each.saturating_mul(columns),
    )
}

/// Tells how many bytes a column keeps, and how many columns are needed.
#[tactic(auto, unfolding(crate::specs::Limits::left_text))]
fn tell_left(message: &mut Vec<u8>, each: usize, needed: usize) -> Result<(), AllocError>
    ensures { OnOk result (message.new.items ≡ message.old.items ++ left_text each needed) }
{
    put_counted(message, ", ", each)?;
    put_counted(
        message,
        " in a column. The unit that is left takes ",
        needed,
    )
}

/// How many columns these are.
fn beside_text(columns: usize) -> &'static str
    ensures { result.now ≡ beside_text columns }
{
    if columns == 1 {
        " column.\n"
    } else {
        " columns beside each other.\n"
    }
}

/// Tells what to do where too many bytes are kept.
#[tactic(auto, unfolding(crate::specs::Limits::later_text))]
fn tell_later(message: &mut Vec<u8>) -> Result<(), AllocError>
    ensures { OnOk result (message.new.items ≡ message.old.items ++ later_text) }
{
    put(
        message,
        "Work one after the other: `x ^ (late & 0)` is x, but only after `late` is there, and so what reads it is made later.\n",
    )
}

/// Tells that more bytes are kept than there is room for on so many columns and registers, and what to do.
#[tactic(auto, unfolding(crate::specs::Limits::registers_text))]
pub fn tell_registers(
    message: &mut Vec<u8>,
    unfit: &Unfit,
    columns: usize,
    registers: usize,
) -> Result<(), AllocError>
    ensures { OnOk result (message.new.items ≡ message.old.items ++ registers_text unfit.now columns registers) }
{
    let each = registers.saturating_sub(1);
    tell_kept(message, unfit.kept, columns, each)?;
    tell_left(message, each, unfit.columns)?;
    put(message, beside_text(unfit.columns))?;
    tell_later(message)
}
