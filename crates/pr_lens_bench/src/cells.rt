//! The lines that fill the memories of a bench.

ghost use Rattle.std.specs.Prelude.{◌≡◌, ◌<◌, ◌++◌, OnOk, codes, decimal, length};
ghost use Rattle.pr_lens_bench.specs.Cells.{cell_text, cells_text, letter_text, row_text};

use crate::pieces::put_named;
use crate::texts::Design;
use itoa::Buffer;
use pr_base::Num;
use pr_lens_rtl_names::Side;
use pr_lens_rtl_text::Port;
use pr_lens_text::{put, put_counted};
use std::alloc::AllocError;

/// The letter of a memory.
fn letter(side: Side) -> &'static str
    ensures { result.now ≡ letter_text side }
{
    match side {
        Side::Input => " s_",
        Side::Output => " w_",
    }
}

/// Adds a number in decimal digits.
fn put_digits(text: &mut Vec<u8>, number: Num) -> Result<(), AllocError>
    ensures { OnOk result (text.new.items ≡ text.old.items ++ decimal number) }
{
    let mut buffer = Buffer::new();
    text.extend_from_slice(buffer.format(number).as_bytes())
}

/// Adds a constant without its width.
fn put_value(text: &mut Vec<u8>, number: Num) -> Result<(), AllocError>
    ensures { OnOk result (text.new.items ≡ text.old.items ++ codes "'d" ++ decimal number ++ codes ";") }
{
    put(text, "'d")?;
    put_digits(text, number)?;
    put(text, ";")
}

/// Adds the number of a port.
#[tactic(auto, unfolding(crate::specs::Cells::cell_text))]
fn put_cell(
    text: &mut Vec<u8>,
    side: Side,
    place: usize,
    port: &Port,
    number: Num,
) -> Result<(), AllocError>
    ensures { OnOk result (text.new.items ≡ text.old.items ++ cell_text side place port.now number) }
{
    put_named(text, letter(side), port)?;
    put_counted(text, "[", place)?;
    put_counted(text, "] = ", usize::from(port.width))?;
    put_value(text, number)
}

/// Adds the numbers of ports.
fn put_cells(
    text: &mut Vec<u8>,
    side: Side,
    place: usize,
    ports: &[Port],
    numbers: &[Num],
) -> Result<(), AllocError>
    ensures { OnOk result (text.new.items ≡ text.old.items ++ cells_text side place ports.now numbers.now) }
{
    for i in 0..ports.len().min(numbers.len()) {
        put_cell(text, side, place, &ports[i], numbers[i])?;
    }
    Ok(())
}

/// Adds the line of a sample and its result.
pub fn put_row(
    text: &mut Vec<u8>,
    design: &Design,
    place: usize,
    sample: &[Num],
    row: &[Num],
) -> Result<(), AllocError>
    ensures line { OnOk result (text.new.items
        ≡ text.old.items ++ row_text design.now.inputs.items design.now.outputs.items place sample.now row.now) }
    ensures more { OnOk result (length text.old.items < length text.new.items) }
{
    put(text, "   ")?;
    put_cells(text, Side::Input, place, &design.inputs, sample)?;
    put_cells(text, Side::Output, place, &design.outputs, row)?;
    put(text, "\n")
}
