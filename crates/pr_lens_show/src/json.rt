//! Strings in JSON.

ghost use Rattle.std.specs.Prelude.{◌≡◌, ◌++◌, OnOk};
ghost use Rattle.std.specs.List.{flat_map};
ghost use Rattle.pr_lens_show.specs.Json.{json_byte, json_string, other_byte};

use crate::bytes::put_hex;
use pr_lens_text::put;
use std::alloc::AllocError;

/// Adds a byte of a string.
fn put_byte(text: &mut Vec<u8>, byte: u8) -> Result<(), AllocError>
    ensures { OnOk result (text.new.items ≡ text.old.items ++ json_byte byte) }
{
    match byte {
        b'"' => put(text, "\\\""),
        b'\\' => put(text, "\\\\"),
        b'\n' => put(text, "\\n"),
        _ => put_other(text, byte),
    }
}

/// Adds a byte that has no short escape.
fn put_other(text: &mut Vec<u8>, byte: u8) -> Result<(), AllocError>
    ensures { OnOk result (text.new.items ≡ text.old.items ++ other_byte byte) }
{
    if byte >= b' ' {
        text.push(byte)?;
        return Ok(());
    }
    put(text, "\\u00")?;
    put_hex(text, byte)
}

/// Adds the bytes of a string, without its quotation marks.
fn put_bytes(text: &mut Vec<u8>, bytes: &[u8]) -> Result<(), AllocError>
    ensures { OnOk result (text.new.items ≡ text.old.items ++ flat_map json_byte bytes.now) }
{
    for byte in bytes {
        put_byte(text, *byte)?;
    }
    Ok(())
}

/// Adds a string.
#[tactic(auto, unfolding(crate::specs::Json::json_string))]
pub fn put_string(text: &mut Vec<u8>, bytes: &[u8]) -> Result<(), AllocError>
    ensures { OnOk result (text.new.items ≡ text.old.items ++ json_string bytes.now) }
{
    put(text, "\"")?;
    put_bytes(text, bytes)?;
    put(text, "\"")
}
