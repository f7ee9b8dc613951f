//! What a processing element makes of bytes.

use pr_base::Mode;

/// What an element reads.
#[derive(Clone, Copy)]
pub(crate) struct Bytes {
    pub(crate) a: u8,
    pub(crate) hi: u8,
    pub(crate) lo: u8,
    pub(crate) c: bool,
    /// The carry-in.
    pub(crate) carry: bool,
}

/// What an element makes.
#[derive(Clone, Copy)]
pub(crate) struct CellResult {
    pub(crate) byte: u8,
    /// The carry-out.
    pub(crate) carry: bool,
}

/// The byte at a place, or 0.
pub(crate) fn at(list: &[u8], place: usize) -> u8 {
    match list.get(place) {
        Some(byte) => *byte,
        None => 0,
    }
}

/// The bits of a byte, or their inverses.
fn given(byte: u8, as_is: bool) -> u8 {
    if as_is { byte } else { !byte }
}

/// The bits that a table gives for those of two bytes and for one bit.
fn looked_up(table: u8, a: u8, b: u8, c: bool) -> u8 {
    let mut bits = 0;
    for k in 0..8u8 {
        if (table >> k) & 1 == 1 && (k & 4 != 0) == c {
            bits |= given(a, k & 1 != 0) & given(b, k & 2 != 0);
        }
    }
    bits
}

/// `hi` moved to the left, with the highest bits of `lo` after it.
fn shifted(hi: u8, lo: u8, shift: u8) -> u8 {
    let both = u16::from(hi) * 256 + u16::from(lo);
    ((both >> (8 - shift % 8)) % 256) as u8
}

impl Bytes {
    /// What an element makes of these bytes, before its mask.
    pub(crate) fn made(self, shift: u8, table: u8, mode: Mode) -> CellResult {
        let x = looked_up(table, self.a, shifted(self.hi, self.lo, shift), self.c);
        match mode {
            Mode::Plain => CellResult {
                byte: x,
                carry: false,
            },
            Mode::Sum => {
                let sum = u16::from(self.a) + u16::from(x) + u16::from(self.carry);
                CellResult {
                    byte: (sum % 256) as u8,
                    carry: sum >= 256,
                }
            }
            Mode::Zero => CellResult {
                byte: x,
                carry: self.carry && x == 0,
            },
        }
    }
}
