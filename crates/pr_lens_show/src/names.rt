//! Names of files, as a line tells them and as a shell takes them.

ghost use Rattle.std.specs.Prelude.{◌≡◌, ◌++◌, OnOk};
ghost use Rattle.std.specs.List.{flat_map, list_all};
ghost use Rattle.pr_lens_show.specs.Names.{begins_with_dash, folder_before, is_bare, is_control, name_byte, name_text, quoted, quoted_byte, word_of};

use crate::bytes::put_hex;
use pr_lens_text::put;
use std::alloc::AllocError;

/// Whether a terminal takes a byte of a name as a command.
fn is_control(byte: u8) -> bool
    ensures { result ≡ is_control byte }
{
    byte < b' ' || byte == 127
}

/// Adds a byte of a name, as an escape where a terminal would take it as a command.
fn put_byte(text: &mut Vec<u8>, byte: u8) -> Result<(), AllocError>
    ensures { OnOk result (text.new.items ≡ text.old.items ++ name_byte byte) }
{
    if is_control(byte) {
        put(text, "\\x")?;
        return put_hex(text, byte);
    }
    text.push(byte)?;
    Ok(())
}

/// Adds a name, as a line tells it.
pub fn put_name(text: &mut Vec<u8>, name: &str) -> Result<(), AllocError>
    ensures { OnOk result (text.new.items ≡ text.old.items ++ name_text name.now) }
{
    for byte in name.as_bytes() {
        put_byte(text, *byte)?;
    }
    Ok(())
}

/// Whether a shell takes a byte as it is: a letter, a digit, a byte of a letter beyond ASCII, or one of `+ , - . / : @ _`.
fn is_bare(byte: u8) -> bool
    ensures { result ≡ is_bare byte }
{
    matches!(byte, b'+'..=b':' | b'@'..=b'Z' | b'a'..=b'z' | b'_' | 128..=255)
}

/// Whether a shell takes all of these bytes as they are.
fn are_bare(bytes: &[u8]) -> bool
    ensures { result ≡ list_all is_bare bytes.now }
{
    bytes.iter().all(|&byte| is_bare(byte))
}

/// Adds a byte between two quotation marks.
fn put_quoted_byte(text: &mut Vec<u8>, byte: u8) -> Result<(), AllocError>
    ensures { OnOk result (text.new.items ≡ text.old.items ++ quoted_byte byte) }
{
    if byte == b'\'' {
        return put(text, "'\\''");
    }
    put_byte(text, byte)
}

/// Adds bytes between two quotation marks.
fn put_quoted_bytes(text: &mut Vec<u8>, bytes: &[u8]) -> Result<(), AllocError>
    ensures { OnOk result (text.new.items ≡ text.old.items ++ flat_map quoted_byte bytes.now) }
{
    for byte in bytes {
        put_quoted_byte(text, *byte)?;
    }
    Ok(())
}

/// Adds a name, in quotation marks where a shell needs them.
#[tactic(auto, unfolding(crate::specs::Names::quoted))]
fn put_quoted(text: &mut Vec<u8>, name: &str) -> Result<(), AllocError>
    ensures { OnOk result (text.new.items ≡ text.old.items ++ quoted name.now) }
{
    if are_bare(name.as_bytes()) {
        return put(text, name);
    }
    put(text, "'")?;
    put_quoted_bytes(text, name.as_bytes())?;
    put(text, "'")
}

/// Whether a name begins as an option does.
fn begins_with_dash(name: &str) -> bool
    ensures { result ≡ begins_with_dash name.now }
{
    name.as_bytes().first() == Some(&b'-')
}

/// The folder that is named before a name that begins as an option does.
fn folder_before(name: &str) -> &'static str
    ensures { result.now ≡ folder_before name.now }
{
    if begins_with_dash(name) { "./" } else { "" }
}

/// Adds a name as a word for a shell.
///
/// ```text
/// filter.dil       filter.dil
/// my filter.dil    'my filter.dil'
/// -x.dil           ./-x.dil
/// ```
pub fn put_word(text: &mut Vec<u8>, name: &str) -> Result<(), AllocError>
    ensures { OnOk result (text.new.items ≡ text.old.items ++ word_of name.now) }
{
    put(text, folder_before(name))?;
    put_quoted(text, name)
}
