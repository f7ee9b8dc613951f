// The parts of a line, with the room that each takes.
ghost use Rattle.std.specs.Prelude.{◌≡◌, ◌+◌, ◌*◌, ◌≤◌, ◌++◌, length, decimal};
ghost use Rattle.std.specs.List.{flat_map};
ghost use Rattle.arrayvec.specs.ArrayString.{array_string_len};
ghost use Rattle.pr_log.specs.Lines.{hex_digit, hex_byte, configured_text, saved_text, entry_text};

use arrayvec::ArrayString;
use itoa::Buffer;

type Line = ArrayString<256>;

/// Appends a number of 64 bits.
pub fn put_long(text: &mut Line, n: u64)
    requires { array_string_len text.old + 20 ≤ 256 }
    ensures bytes { text.new.bytes ≡ text.old.bytes ++ decimal n }
    ensures len { array_string_len text.new ≤ array_string_len text.old + 20 }
{
    let mut buffer = Buffer::new();
    text.push_str(buffer.format(n));
}

/// Appends a number of 32 bits.
fn put_short(text: &mut Line, n: u32)
    requires { array_string_len text.old + 10 ≤ 256 }
    ensures bytes { text.new.bytes ≡ text.old.bytes ++ decimal n }
    ensures len { array_string_len text.new ≤ array_string_len text.old + 10 }
{
    let mut buffer = Buffer::new();
    text.push_str(buffer.format(n));
}

/// The character of a hexadecimal digit.
fn hex_char(n: u8) -> u8
    requires { n ≤ 15 }
    ensures digit { result ≡ hex_digit n }
    ensures ascii { result ≤ 127 }
{
    if n < 10 { b'0' + n } else { b'a' + (n - 10) }
}

/// Appends each byte as two hexadecimal digits.
fn put_bytes(text: &mut Line, bytes: &[u8])
    requires { array_string_len text.old + 2 * length bytes.now ≤ 256 }
    ensures bytes { text.new.bytes ≡ text.old.bytes ++ flat_map hex_byte bytes.now }
    ensures len { array_string_len text.new ≡ array_string_len text.old + 2 * length bytes.now }
{
    for byte in bytes {
        text.push(char::from(hex_char(*byte / 16)));
        text.push(char::from(hex_char(*byte % 16)));
    }
}

/// Appends the stage that was configured and its stripe.
pub fn put_configured(text: &mut Line, configured: Option<(u32, u32)>)
    requires { array_string_len text.old + 21 ≤ 256 }
    ensures bytes { text.new.bytes ≡ text.old.bytes ++ configured_text configured }
    ensures len { array_string_len text.new ≤ array_string_len text.old + 21 }
{
    match configured {
        None => text.push_str("-"),
        Some((stage, stripe)) => {
            put_short(text, stage);
            text.push_str("@");
            put_short(text, stripe);
        }
    }
}

/// Appends the stage whose state was saved and this state.
pub fn put_saved(text: &mut Line, saved: Option<u32>, state: &[u8])
    requires state { length state.now ≤ 64 }
    requires room { array_string_len text.old + 139 ≤ 256 }
    ensures bytes { text.new.bytes ≡ text.old.bytes ++ saved_text saved state.now }
    ensures len { array_string_len text.new ≤ array_string_len text.old + 139 }
{
    match saved {
        None => text.push_str("-"),
        Some(stage) => {
            put_short(text, stage);
            text.push_str(" ");
            put_bytes(text, state);
        }
    }
}

/// Appends the number of a sample or of a result.
pub fn put_entry(text: &mut Line, entry: Option<u64>)
    requires { array_string_len text.old + 20 ≤ 256 }
    ensures bytes { text.new.bytes ≡ text.old.bytes ++ entry_text entry }
    ensures len { array_string_len text.new ≤ array_string_len text.old + 20 }
{
    match entry {
        None => text.push_str("-"),
        Some(n) => put_long(text, n),
    }
}
