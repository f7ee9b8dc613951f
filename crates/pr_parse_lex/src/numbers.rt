//! Runs of bytes of one kind, and the numbers that digits make.

ghost use Rattle.std.specs.Prelude.{◌≡◌, ℕ, ◌^◌, ◌≤◌, ◌<◌, MatchOption, length};
ghost use Rattle.std.specs.List.{prefix_len};
ghost use Rattle.pr_lang.specs.Tokens.{digit_value as value_of_digit, number_after};
ghost use Rattle.pr_parse_lex.specs.Bytes.{passes};
ghost use Rattle.pr_parse_lex.specs.declared.numbers.ByteClass.TheVariants.{Letter, Digit};

/// The bytes that may go on with a token or a comment.
#[derive(Clone, Copy, Debug, PartialEq, Eq)]
pub enum ByteClass {
    Letter,
    NameByte,
    Digit,
    HexDigit,
    InComment,
}

/// Whether the byte is one of these.
pub fn belongs(class: ByteClass, byte: u8) -> bool
    ensures { result ≡ passes class byte }
{
    match class {
        ByteClass::Letter => is_letter(byte),
        ByteClass::NameByte => is_letter(byte) || is_digit(byte),
        ByteClass::Digit => is_digit(byte),
        ByteClass::HexDigit => is_digit(byte)
            || (b'A' <= byte && byte <= b'F')
            || (b'a' <= byte && byte <= b'f'),
        ByteClass::InComment => byte != b'\n',
    }
}

fn is_letter(byte: u8) -> bool
    ensures { result ≡ passes Letter byte }
{
    (b'A' <= byte && byte <= b'Z') || (b'a' <= byte && byte <= b'z') || byte == b'_'
}

fn is_digit(byte: u8) -> bool
    ensures { result ≡ passes Digit byte }
{
    b'0' <= byte && byte <= b'9'
}

/// How many bytes at the front are of this class.
pub fn run_of(class: ByteClass, text: &[u8]) -> usize
    ensures value { result ≡ prefix_len (passes class) text.now }
    ensures within { result ≤ length text.now }
{
    for (i, byte) in text.iter().enumerate() {
        if !belongs(class, *byte) {
            return i;
        }
    }
    text.len()
}

/// What a digit of either case stands for.
fn digit_value(digit: u8) -> u64
    ensures { result ≡ value_of_digit digit }
{
    if is_digit(digit) {
        u64::from(digit - b'0')
    } else if b'a' <= digit {
        u64::from(digit - b'a') + 10
    } else {
        u64::from(digit.saturating_sub(b'A' - 10))
    }
}

/// The number of these digits, or None where it has more than 64 bits.
pub fn number_of(base: u64, digits: &[u8]) -> Option<u64>
    requires { 0 < base }
    ensures { MatchOption result (2 ^ 64 ≤ number_after base 0 digits.now) (λ n. n ≡ number_after base 0 digits.now) }
{
    let mut number: u64 = 0;
    for digit in digits {
        let Some(raised) = number.checked_mul(base) else {
            return None;
        };
        let Some(next) = raised.checked_add(digit_value(*digit)) else {
            return None;
        };
        number = next;
    }
    Some(number)
}
