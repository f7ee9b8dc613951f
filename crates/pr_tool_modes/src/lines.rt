//! Lines of numbers.
ghost use Rattle.std.specs.Prelude.{◌≡◌, ◌++◌, ◌∷◌, decimal, OnOk, if◌then◌else◌};
ghost use Rattle.pr_base.specs.Rows.{row_line};

use itoa::Buffer;
use pr_base::Num;
use std::alloc::AllocError;

/// Appends a number, after a blank where it is not the first.
fn push_number(text: &mut Vec<u8>, begun: bool, number: Num) -> Result<(), AllocError>
    ensures { OnOk result (text.new.items ≡ text.old.items ++ (if begun then 32 ∷ decimal number else decimal number)) }
{
    if begun {
        text.push(b' ')?;
    }
    let mut buffer = Buffer::new();
    text.extend_from_slice(buffer.format(number).as_bytes())?;
    Ok(())
}

/// Appends the line of a row.
pub fn push_line(text: &mut Vec<u8>, numbers: &[Num]) -> Result<(), AllocError>
    ensures { OnOk result (text.new.items ≡ text.old.items ++ row_line numbers.now) }
{
    for i in 0..numbers.len() {
        push_number(text, i > 0, numbers[i])?;
    }
    text.push(b'\n')?;
    Ok(())
}
