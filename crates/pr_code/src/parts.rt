//! The words of the parts of a configuration.

ghost use Rattle.std.specs.Prelude.{◌≡◌, ◌<◌, ◌≤◌, ◌∷◌, [], true};
ghost use Rattle.pr_code.specs.Spelling.{source_word, tap_word, c_source, c_choice, next_number, carry_number, mode_number, pe_words, has_small_choice, has_source_byte, has_c_byte, has_tap_byte, has_pe_bytes};

use pr_conf::{Bit, Carry, Mode, Next, Pe, Source, Tap};

/// The sixteen bits of a source.
pub fn source_word(source: Source) -> u32
    ensures word { result ≡ source_word source }
    ensures small { result < 0x5000 }
    ensures byte { has_source_byte source ≡ true }
{
    match source {
        Source::Const(k) => u32::from(k),
        Source::Prev { col, reg } => 0x1000 + u32::from(col) * 16 + u32::from(reg),
        Source::Here(col) => 0x2000 + u32::from(col) * 16,
        Source::State(col) => 0x3000 + u32::from(col) * 16,
        Source::Bus(place) => 0x4000 + u32::from(place),
    }
}

/// The word of a tap.
pub fn tap_word(tap: Tap) -> u32
    ensures word { result ≡ tap_word tap }
    ensures byte { has_tap_byte tap ≡ true }
{
    match tap {
        Tap::Const(k) => u32::from(k),
        Tap::Reg { col, reg } => 0x1000 + u32::from(col) * 16 + u32::from(reg),
    }
}

/// The source of C in sixteen bits, and its kind and bit.
fn c_words(c: Bit) -> (u32, u32)
    requires { c_choice c < 48 }
    ensures source { result.0 ≡ c_source c }
    ensures choice { result.1 ≡ c_choice c }
    ensures small { result.0 < 0x5000 }
    ensures byte { has_c_byte c ≡ true }
{
    match c {
        Bit::None => (0, 0),
        Bit::Of(source, place) => (source_word(source), 16 + u32::from(place)),
        Bit::CarryIn => (0, 32),
    }
}

fn next_number(next: Next) -> u32
    ensures number { result ≡ next_number next }
    ensures small { result < 3 }
{
    match next {
        Next::Keep => 0,
        Next::Output => 1,
        Next::A => 2,
    }
}

fn carry_number(cin: Carry) -> u32
    ensures number { result ≡ carry_number cin }
    ensures small { result < 4 }
{
    match cin {
        Carry::Zero => 0,
        Carry::One => 1,
        Carry::Chain => 2,
        Carry::FromC => 3,
    }
}

fn mode_number(mode: Mode) -> u32
    ensures number { result ≡ mode_number mode }
    ensures small { result < 3 }
{
    match mode {
        Mode::Plain => 0,
        Mode::Sum => 1,
        Mode::Zero => 2,
    }
}

/// The four words of a processing element.
#[tactic(auto, unfolding(crate::specs::Spelling::pe_words, crate::specs::Spelling::has_pe_bytes, crate::specs::Spelling::has_small_choice))]
pub fn pe_words(pe: &Pe) -> [u32; 4]
    requires { has_small_choice pe.now ≡ true }
    ensures words { result ≡ pe_words pe.now }
    ensures bytes { has_pe_bytes pe.now ≡ true }
{
    let (c_source, c_choice) = c_words(pe.c);
    let (table, mask, init) = (u32::from(pe.table), u32::from(pe.mask), u32::from(pe.init));
    let (next, cin, mode) = (
        next_number(pe.next),
        carry_number(pe.cin),
        mode_number(pe.mode),
    );
    [
        source_word(pe.a) * 0x1_0000 + source_word(pe.hi),
        source_word(pe.lo) * 0x1_0000 + c_source,
        table * 0x100_0000 + mask * 0x1_0000 + init * 0x100 + c_choice,
        u32::from(pe.write) * 0x1_0000
            + next * 0x1000
            + cin * 0x100
            + mode * 0x10
            + u32::from(pe.shift),
    ]
}
