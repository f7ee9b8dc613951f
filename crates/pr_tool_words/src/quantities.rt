//! Numbers among the words.

ghost use Rattle.std.specs.Prelude.{◌≡◌, ◌≤◌, IfSome};
ghost use Rattle.pr_tool_words.specs.Lawful.{number_in};

use itoa::Buffer;

/// The number that the text says in decimal digits without leading zeros, where it is in this range.
pub fn number_in(text: &str, least: u32, greatest: u32) -> Option<u32>
    ensures value { result ≡ number_in least greatest text.now }
    ensures range { IfSome result (λ n. (least ≤ n) × (n ≤ greatest)) }
{
    let number = match text.parse::<u32>() {
        Ok(number) => number,
        Err(_) => return None,
    };
    let mut buffer = Buffer::new();
    if buffer.format(number) == text && least <= number && number <= greatest {
        Some(number)
    } else {
        None
    }
}
