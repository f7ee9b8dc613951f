//! Stall texts: in which turns a side of the machine is held.
ghost use Rattle.std.specs.Prelude.{◌≡◌, ◌≤◌, not, length, drop, position, Some, None, IfOk, IfErr};
ghost use Rattle.pr_samples.specs.Stall.{is_stall_byte, turn_of, turns_of, turns_left, next_turn};

use thiserror::Error;

/// Which sides are held in a turn.
#[derive(Clone, Copy, PartialEq, Eq, Debug)]
pub struct Held {
    /// No sample is fed.
    pub input: bool,
    /// No result is taken.
    pub output: bool,
}

/// A stall text has a byte at this place that is none of `.`, `i`, `o`, `b`, CR and LF.
#[derive(Clone, Copy, PartialEq, Eq, Debug, Error)]
#[error("a bad byte in a stall text")]
pub struct BadStall {
    pub place: u32,
}

/// A stall text, and how far it was read.
#[derive(Drop)]
pub struct Stall {
    text: Vec<u8>,
    at: usize,
}

/// Whether a stall text may have this byte.
fn is_lawful(byte: u8) -> bool
    ensures { result ≡ is_stall_byte byte }
{
    matches!(byte, b'.' | b'i' | b'o' | b'b' | b'\r' | b'\n')
}

/// The place of the first byte that a stall text may not have.
fn first_bad(text: &[u8]) -> Option<usize>
    ensures { result ≡ position (λ b. not (is_stall_byte b)) text.now }
{
    text.iter().position(|b| !is_lawful(*b))
}

/// The turn of a byte, if it is one.
fn turn(byte: u8) -> Option<Held>
    ensures { result ≡ turn_of byte }
{
    match byte {
        b'.' => Some(Held {
            input: false,
            output: false,
        }),
        b'i' => Some(Held {
            input: true,
            output: false,
        }),
        b'o' => Some(Held {
            input: false,
            output: true,
        }),
        b'b' => Some(Held {
            input: true,
            output: true,
        }),
        _ => None,
    }
}

impl Stall {
    /// A stall text, of which no turn was asked for.
    pub fn make(text: Vec<u8>) -> Result<Stall, BadStall>
        requires { length text.items ≤ 1048576 }
        ensures good { IfOk result (λ s. position (λ b. not (is_stall_byte b)) text.items ≡ None) }
        ensures bad { IfErr result (λ e. position (λ b. not (is_stall_byte b)) text.items ≡ Some e.place) }
        ensures turns { IfOk result (λ s. turns_left s ≡ turns_of text.items) }
        ensures few { IfOk result (λ s. length (turns_left s) ≤ 1048576) }
    {
        match first_bad(&text) {
            None => Ok(Stall { text, at: 0 }),
            Some(place) => Err(BadStall {
                place: place as u32,
            }),
        }
    }

    /// The next turn. After the end of the text every turn is free.
    #[inline(always)]
    pub fn next(&mut self) -> Held
        ensures turn { result ≡ next_turn (turns_left self.old) }
        ensures left { turns_left self.new ≡ drop 1 (turns_left self.old) }
    {
        while self.at < self.text.len() {
            let byte = self.text[self.at];
            self.at += 1;
            if let Some(turn) = turn(byte) {
                return turn;
            }
        }
        Held {
            input: false,
            output: false,
        }
    }
}
