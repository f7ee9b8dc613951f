//! Bytes, as a terminal can take them.

ghost use Rattle.std.specs.Prelude.{◌≡◌, ◌<◌, ◌++◌, IfOk, OnOk};
ghost use Rattle.std.specs.List.{flat_map};
ghost use Rattle.pr_log.specs.Lines.{hex_byte, hex_digit};
ghost use Rattle.pr_lens_show.specs.Bytes.{is_plain, shown, shown_byte};

use pr_lens_text::put;
use std::alloc::{AllocError, Global};

/// Whether a byte is printable ASCII or a tab.
pub fn is_plain(byte: u8) -> bool
    ensures { result ≡ is_plain byte }
{
    byte == b'\t' || (b' ' <= byte && byte <= b'~')
}

/// A hexadecimal digit.
fn hex_digit(number: u8) -> u8
    requires { number < 16 }
    ensures { result ≡ hex_digit number }
{
    if number < 10 {
        b'0' + number
    } else {
        b'a' + (number - 10)
    }
}

/// Adds a byte as two hexadecimal digits.
pub fn put_hex(text: &mut Vec<u8>, byte: u8) -> Result<(), AllocError>
    ensures { OnOk result (text.new.items ≡ text.old.items ++ hex_byte byte) }
{
    text.push(hex_digit(byte / 16))?;
    text.push(hex_digit(byte % 16))?;
    Ok(())
}

/// Adds a byte, as an escape where it is not printable.
fn put_byte(text: &mut Vec<u8>, byte: u8) -> Result<(), AllocError>
    ensures { OnOk result (text.new.items ≡ text.old.items ++ shown_byte byte) }
{
    if is_plain(byte) {
        text.push(byte)?;
        return Ok(());
    }
    put(text, "\\x")?;
    put_hex(text, byte)
}

/// Adds bytes, each as an escape where it is not printable.
pub fn put_shown(text: &mut Vec<u8>, bytes: &[u8]) -> Result<(), AllocError>
    ensures { OnOk result (text.new.items ≡ text.old.items ++ shown bytes.now) }
{
    for byte in bytes {
        put_byte(text, *byte)?;
    }
    Ok(())
}

/// Bytes, each as an escape where it is not printable.
pub fn shown(alloc: Global, bytes: &[u8]) -> Result<Vec<u8>, AllocError>
    ensures { IfOk result (λ text. text.items ≡ shown bytes.now) }
{
    let mut text = Vec::new(alloc);
    put_shown(&mut text, bytes)?;
    Ok(text)
}
