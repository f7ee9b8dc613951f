//! What words spell, and whether they spell what a fabric allows.

ghost use Rattle.std.specs.Prelude.{◌≡◌, ◌<◌, ◌^◌};
ghost use Rattle.pr_code.specs.Reading.{source_of, tap_of, c_of, next_of, carry_of, mode_of, pe_from};
ghost use Rattle.pr_code.specs.Rules.{is_tap, is_source, are_sources, is_choice_of_c, is_carry, are_choices, is_needless};

use crate::parts::{source_word, tap_word};
use pr_conf::{Bit, Carry, Mode, Next, Pe, Site, Source, Tap};

/// The source of sixteen bits.
fn source_of(half: u32) -> Source
    requires { half < 0x10000 }
    ensures { result ≡ source_of half }
{
    let col = (half / 16 % 256) as u8;
    match half / 0x1000 {
        1 => Source::Prev {
            col,
            reg: (half % 16) as u8,
        },
        2 => Source::Here(col),
        3 => Source::State(col),
        4 => Source::Bus((half % 256) as u8),
        _ => Source::Const((half % 256) as u8),
    }
}

/// The tap of a word.
pub fn tap_of(word: u32) -> Tap
    ensures { result ≡ tap_of word }
{
    if word / 0x1000 == 1 {
        Tap::Reg {
            col: (word / 16 % 256) as u8,
            reg: (word % 16) as u8,
        }
    } else {
        Tap::Const((word % 256) as u8)
    }
}

/// Whether a word is that of a tap that the fabric has.
pub fn is_tap(word: u32, columns: usize, registers: usize) -> bool
    ensures { result ≡ is_tap columns registers word }
{
    let tap = tap_of(word);
    tap_word(tap) == word && tap.is_lawful(columns, registers)
}

/// Whether sixteen bits are those of a source that is allowed at the site.
fn is_source(half: u32, site: Site) -> bool
    requires { half < 0x10000 }
    ensures { result ≡ is_source site half }
{
    let source = source_of(half);
    source_word(source) == half && source.is_lawful(site)
}

/// Whether both halves of a word are.
pub fn are_sources(word: u32, site: Site) -> bool
    ensures { result ≡ are_sources site word }
{
    is_source(word / 0x1_0000, site) && is_source(word % 0x1_0000, site)
}

/// Whether the second and the third word of a processing element agree on C.
pub fn is_choice_of_c(second: u32, third: u32) -> bool
    ensures { result ≡ is_choice_of_c second third }
{
    match third / 16 % 16 {
        1 => third % 16 < 8,
        0 | 2 => third % 16 == 0 && second % 0x1_0000 == 0,
        _ => false,
    }
}

/// Whether a carry-in of this number is allowed, where this is the third word.
fn is_carry(site: Site, third: u32, cin: u32) -> bool
    ensures { result ≡ is_carry site third cin }
{
    match cin {
        0 | 1 => true,
        2 => 0 < site.col,
        3 => third / 16 % 16 == 1,
        _ => false,
    }
}

/// Whether the fourth word of a processing element is spelled as the site allows.
pub fn are_choices(site: Site, third: u32, fourth: u32) -> bool
    ensures { result ≡ are_choices site third fourth }
{
    ((fourth / 0x1_0000) as usize) < site.registers
        && fourth / 0x1000 % 16 < 3
        && is_carry(site, third, fourth / 0x100 % 16)
        && fourth / 16 % 16 < 3
        && fourth % 16 < 8
}

/// Whether a stage with a map has the words of a processing element though all of them are 0.
pub fn is_needless(packed: bool, first: u32, second: u32, third: u32, fourth: u32) -> bool
    ensures { result ≡ is_needless packed first second third fourth }
{
    packed && first == 0 && second == 0 && third == 0 && fourth == 0
}

/// Where a processing element takes C from.
fn c_of(second: u32, third: u32) -> Bit
    ensures { result ≡ c_of second third }
{
    match third / 16 % 16 {
        1 => Bit::Of(source_of(second % 0x1_0000), (third % 16) as u8),
        2 => Bit::CarryIn,
        _ => Bit::None,
    }
}

fn next_of(n: u32) -> Next
    ensures { result ≡ next_of n }
{
    match n {
        1 => Next::Output,
        2 => Next::A,
        _ => Next::Keep,
    }
}

fn carry_of(n: u32) -> Carry
    ensures { result ≡ carry_of n }
{
    match n {
        1 => Carry::One,
        2 => Carry::Chain,
        3 => Carry::FromC,
        _ => Carry::Zero,
    }
}

fn mode_of(n: u32) -> Mode
    ensures { result ≡ mode_of n }
{
    match n {
        1 => Mode::Sum,
        2 => Mode::Zero,
        _ => Mode::Plain,
    }
}

/// The processing element of four words.
pub fn pe_from(first: u32, second: u32, third: u32, fourth: u32) -> Pe
    ensures { result ≡ pe_from first second third fourth }
{
    Pe {
        a: source_of(first / 0x1_0000),
        hi: source_of(first % 0x1_0000),
        lo: source_of(second / 0x1_0000),
        shift: (fourth % 16) as u8,
        c: c_of(second, third),
        table: (third / 0x100_0000) as u8,
        mode: mode_of(fourth / 16 % 16),
        cin: carry_of(fourth / 0x100 % 16),
        mask: (third / 0x1_0000 % 256) as u8,
        next: next_of(fourth / 0x1000 % 16),
        init: (third / 0x100 % 256) as u8,
        write: (fourth / 0x1_0000 % 256) as u8,
    }
}
