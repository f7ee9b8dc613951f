//! Names of signals, and their values.

ghost use Rattle.std.specs.Prelude.{◌≡◌, ◌++◌, OnOk, false};
ghost use Rattle.std.specs.Fmt.{digits};
ghost use Rattle.pr_lens_wave.specs.Waves.{name_text, value_text, number_change, bit_text, bit_change};

use pr_lens_text::{put, put_counted};
use std::alloc::{AllocError, Global};

/// Adds the name that stands for the signal of this number in the changes: `s` and the number.
pub fn put_name(text: &mut Vec<u8>, signal: usize) -> Result<(), AllocError>
    ensures { OnOk result (text.new.items ≡ text.old.items ++ name_text signal) }
{
    put_counted(text, "s", signal)
}

/// Adds the bits of a number, the highest first, without leading zeros.
fn put_bits(alloc: Global, text: &mut Vec<u8>, number: u64) -> Result<(), AllocError>
    ensures { OnOk result (text.new.items ≡ text.old.items ++ digits 2 false number) }
{
    let bits = format!(in alloc; "{number:b}")?;
    put(text, bits.as_str())
}

/// Adds a number, or that there is none.
fn put_value(alloc: Global, text: &mut Vec<u8>, value: Option<u64>) -> Result<(), AllocError>
    ensures { OnOk result (text.new.items ≡ text.old.items ++ value_text value) }
{
    match value {
        None => put(text, "z"),
        Some(number) => put_bits(alloc, text, number),
    }
}

/// Adds a change of a signal of several bits to a number, or to none.
pub fn put_number_change(
    alloc: Global,
    text: &mut Vec<u8>,
    signal: usize,
    value: Option<u64>,
) -> Result<(), AllocError>
    ensures { OnOk result (text.new.items ≡ text.old.items ++ number_change signal value) }
{
    put(text, "b")?;
    put_value(alloc, text, value)?;
    put(text, " ")?;
    put_name(text, signal)?;
    put(text, "\n")
}

fn bit_word(bit: bool) -> &'static str
    ensures { result.now ≡ bit_text bit }
{
    if bit { "1" } else { "0" }
}

/// Adds a change of a signal of one bit.
pub fn put_bit_change(text: &mut Vec<u8>, signal: usize, value: bool) -> Result<(), AllocError>
    ensures { OnOk result (text.new.items ≡ text.old.items ++ bit_change signal value) }
{
    put(text, bit_word(value))?;
    put_name(text, signal)?;
    put(text, "\n")
}
