//! Rows that are made of the elements of a stage.

ghost use Rattle.std.specs.Prelude.{true, false, ◌≡◌, ◌+◌, ◌<◌, ◌≤◌, ◌^◌, ℕ, length, slice_index, slice_index_or, if◌then◌else◌, ◌==◌, nat_lt, ◌-◌, ◌%◌, bit_xor};
ghost use Rattle.pr_base.specs.Pe.{carry_in, next_state};
ghost use Rattle.pr_conf.specs.declared.pes.Pe.{Pe};
ghost use Rattle.pr_conf.specs.declared.pes.Source.{Source};
ghost use Rattle.pr_lanes.specs.Rows.{ones_where, half};
ghost use Rattle.pr_stripe_prepared.specs.Elements.{sum_mark, c_source, c_bit, c_carry, is_read_bit, from_c, low_mask, zero_mask, takes_carry, is_chain, goes_on, table_of, bit_of, carry_bit_of, from_c_of, carry_of, shift_of, output_of, a_of, both_source, rest_source, EachColumn, IsSuited};
ghost use Rattle.pr_stripe_prepared.specs.Rows.{IsRow};
ghost use Rattle.pr_stripe_prepared.specs.Tables.{HasTable};

use crate::places::suits;
use crate::rows::made_of;
use crate::stages::Table;
use pr_conf::{Bit, Carry, Mode, Next, Pe, Source};

/// The source of the byte that C is a bit of.
fn source_of(c: Bit) -> Source
    ensures { result ≡ c_source c }
{
    match c {
        Bit::Of(source, _) => source,
        Bit::None | Bit::CarryIn => Source::Const(0),
    }
}

/// The bit that C is, by its weight; 0 where it is none.
fn bit_byte(c: Bit) -> u8
    requires { is_read_bit c ≡ true }
    ensures { result ≡ c_bit c }
{
    match c {
        Bit::Of(_, place) => 1 << place,
        Bit::None | Bit::CarryIn => 0,
    }
}

/// 1 where C is the carry-in.
fn carry_bit(c: Bit) -> u8
    ensures { result ≡ c_carry c }
{
    match c {
        Bit::CarryIn => 1,
        Bit::None | Bit::Of(_, _) => 0,
    }
}

/// Whether a column takes a carry.
fn needs_carry(mode: Mode, c: Bit) -> bool
    ensures { result ≡ takes_carry mode c }
{
    match mode {
        Mode::Plain => carry_bit(c) == 1,
        Mode::Sum | Mode::Zero => true,
    }
}

/// All ones where the table has a one for these bits of A and B, and for C.
fn table_byte(table: u8, c: u8, bit: u8) -> u8
    ensures { result ≡ ones_where (half table c) bit }
{
    let chosen = if c & 1 == 0 { table } else { table >> 4 };
    if chosen & bit == 0 { 0 } else { 255 }
}

/// Ones where a column sums.
fn sum_byte(mode: Mode) -> u8
    ensures { result ≡ sum_mark mode }
{
    match mode {
        Mode::Sum => 255,
        Mode::Plain | Mode::Zero => 0,
    }
}

/// The carry-in of a column, but for that of the column below and for C.
fn carry_byte(carry: Carry) -> u8
    ensures { result ≡ carry_in carry 0 0 }
{
    match carry {
        Carry::One => 1,
        Carry::Zero | Carry::Chain | Carry::FromC => 0,
    }
}

/// 1 where the carry-in is C.
fn from_c_byte(carry: Carry) -> u8
    ensures { result ≡ from_c carry }
{
    match carry {
        Carry::FromC => 1,
        Carry::Zero | Carry::One | Carry::Chain => 0,
    }
}

fn output_byte(next: Next) -> u8
    ensures { result ≡ next_state next 0 255 0 }
{
    match next {
        Next::Output => 255,
        Next::Keep | Next::A => 0,
    }
}

fn a_byte(next: Next) -> u8
    ensures { result ≡ next_state next 0 0 255 }
{
    match next {
        Next::A => 255,
        Next::Keep | Next::Output => 0,
    }
}

fn low_byte(mode: Mode, on: bool) -> u8
    ensures { result ≡ low_mask mode on }
{
    match mode {
        Mode::Sum => if on { 255 } else { 127 },
        Mode::Plain | Mode::Zero => 0,
    }
}

/// All ones in a column that tests for 0, where the next column sees the carry.
fn zero_byte(mode: Mode, on: bool) -> u8
    ensures { result ≡ zero_mask mode on }
{
    match mode {
        Mode::Zero => if on { 255 } else { 0 },
        Mode::Plain | Mode::Sum => 0,
    }
}

fn shift_word(shift: u8) -> u16
    requires { shift < 8 }
    ensures { result ≡ 2 ^ shift }
{
    1 << shift
}

pub(crate) fn chains(carry: Carry) -> bool
    ensures { result ≡ is_chain carry }
{
    matches!(carry, Carry::Chain)
}

/// Whether the column above takes the carry-out.
fn goes_up(pes: &[Pe], k: usize) -> bool
    requires pes { length pes.now ≡ 16 }
    requires at { k < 16 }
    ensures { (d : Pe) → result ≡ goes_on pes.now k d }
{
    if k + 1 == 16 {
        return false;
    }
    chains(pes[k + 1].cin)
}

/// Whether C is a bit of a byte, the carry-in, or none.
fn is_read(c: Bit) -> bool
    ensures { result ≡ is_read_bit c }
{
    match c {
        Bit::None | Bit::CarryIn => true,
        Bit::Of(_, place) => place < 8,
    }
}

/// Whether whole rows give an element.
fn is_given(pe: &Pe, registers: usize) -> bool
    requires { registers ≤ 16 }
    ensures { result ≡ true → IsSuited registers pe.now }
{
    suits(registers, pe.a)
        && suits(registers, pe.hi)
        && suits(registers, pe.lo)
        && suits(registers, source_of(pe.c))
        && is_read(pe.c)
        && pe.shift < 8
}

/// Whether whole rows give all elements.
pub(crate) fn are_given(pes: &[Pe], registers: usize) -> bool
    requires few { registers ≤ 16 }
    requires pes { length pes.now ≡ 16 }
    ensures { result ≡ true → (k : ℕ) (d : Pe) → k < 16 → IsSuited registers (slice_index_or pes.now k d) }
{
    for k in 0..16 {
        if !is_given(&pes[k], registers) {
            return false;
        }
    }
    true
}

fn table_row(pes: &[Pe], c: u8, bit: u8) -> [u8; 16]
    requires pes { length pes.now ≡ 16 }
    ensures { IsRow 16 (λ _. table_of c bit) pes.now result }
{
    made_of(pes, |_, pe| table_byte(pe.table, c, bit))
}

/// The bits in which two rows differ.
fn between(one: &[u8], other: &[u8]) -> [u8; 16]
    requires one { length one.now ≡ 16 }
    requires other { length other.now ≡ 16 }
    ensures { (k : ℕ) → k < 16 → slice_index other.now k ≡ bit_xor (slice_index one.now k) (slice_index result k) }
{
    let mut row = [0; 16];
    for k in 0..16 {
        row[k] = one[k] ^ other[k];
    }
    row
}

/// Whether these are the bits in which two rows differ.
fn are_between(one: &[u8; 16], other: &[u8; 16], bits: &[u8; 16]) -> bool
    ensures { result ≡ true → (k : ℕ) → k < 16
        → slice_index other.now k ≡ bit_xor (slice_index one.now k) (slice_index bits.now k) }
{
    for k in 0..16 {
        if other[k] != one[k] ^ bits[k] {
            return false;
        }
    }
    true
}

/// The tables of all columns, for one value of C.
pub(crate) fn tables(pes: &[Pe], c: u8) -> Table
    requires pes { length pes.now ≡ 16 }
    ensures { (k : ℕ) (d : Pe) → k < 16 → HasTable result k c (slice_index_or pes.now k d).table }
{
    let t1 = table_row(pes, c, 1);
    let t2 = table_row(pes, c, 2);
    let t4 = table_row(pes, c, 4);
    let t8 = table_row(pes, c, 8);
    let by_a = between(&t1, &t2);
    let by_b = between(&t1, &t4);
    let is_even = are_between(&t4, &t8, &by_a);
    Table {
        t1,
        t2,
        t4,
        t8,
        by_a,
        by_b,
        is_even,
    }
}

pub(crate) fn c_row(pes: &[Pe]) -> [u8; 16]
    requires pes { length pes.now ≡ 16 }
    requires read { EachColumn pes.now (λ _ pe. is_read_bit pe.c ≡ true) }
    ensures { IsRow 16 (λ _. bit_of) pes.now result }
{
    made_of(pes, |_, pe| bit_byte(pe.c))
}

pub(crate) fn c_carry_row(pes: &[Pe]) -> [u8; 16]
    requires pes { length pes.now ≡ 16 }
    ensures { IsRow 16 (λ _. carry_bit_of) pes.now result }
{
    made_of(pes, |_, pe| carry_bit(pe.c))
}

pub(crate) fn from_c_row(pes: &[Pe]) -> [u8; 16]
    requires pes { length pes.now ≡ 16 }
    ensures { IsRow 16 (λ _. from_c_of) pes.now result }
{
    made_of(pes, |_, pe| from_c_byte(pe.cin))
}

pub(crate) fn sum_row(pes: &[Pe]) -> [u8; 16]
    requires pes { length pes.now ≡ 16 }
    ensures { IsRow 16 (λ _ pe. sum_mark pe.mode) pes.now result }
{
    made_of(pes, |_, pe| sum_byte(pe.mode))
}

pub(crate) fn carry_row(pes: &[Pe]) -> [u8; 16]
    requires pes { length pes.now ≡ 16 }
    ensures { IsRow 16 (λ _. carry_of) pes.now result }
{
    made_of(pes, |_, pe| carry_byte(pe.cin))
}

pub(crate) fn mask_row(pes: &[Pe]) -> [u8; 16]
    requires pes { length pes.now ≡ 16 }
    ensures { IsRow 16 (λ _ pe. pe.mask) pes.now result }
{
    made_of(pes, |_, pe| pe.mask)
}

pub(crate) fn output_row(pes: &[Pe]) -> [u8; 16]
    requires pes { length pes.now ≡ 16 }
    ensures { IsRow 16 (λ _. output_of) pes.now result }
{
    made_of(pes, |_, pe| output_byte(pe.next))
}

pub(crate) fn a_row(pes: &[Pe]) -> [u8; 16]
    requires pes { length pes.now ≡ 16 }
    ensures { IsRow 16 (λ _. a_of) pes.now result }
{
    made_of(pes, |_, pe| a_byte(pe.next))
}

pub(crate) fn shift_row(pes: &[Pe]) -> [u16; 16]
    requires pes { length pes.now ≡ 16 }
    requires few { EachColumn pes.now (λ _ pe. pe.shift < 8) }
    ensures { IsRow 16 (λ _. shift_of) pes.now result }
{
    made_of(pes, |_, pe| shift_word(pe.shift))
}

pub(crate) fn low_row(pes: &[Pe]) -> [u8; 16]
    requires pes { length pes.now ≡ 16 }
    ensures { (e : Pe) → IsRow 16 (λ k pe. low_mask pe.mode (goes_on pes.now k e)) pes.now result }
{
    made_of(pes, |k, pe| low_byte(pe.mode, goes_up(pes, k)))
}

pub(crate) fn zero_row(pes: &[Pe]) -> [u8; 16]
    requires pes { length pes.now ≡ 16 }
    ensures { (e : Pe) → IsRow 16 (λ k pe. zero_mask pe.mode (goes_on pes.now k e)) pes.now result }
{
    made_of(pes, |k, pe| zero_byte(pe.mode, goes_up(pes, k)))
}

/// Whether a column moves B, or has C that is a bit of a byte.
pub(crate) fn any_rest(pes: &[Pe]) -> bool
    requires pes { length pes.now ≡ 16 }
    requires read { EachColumn pes.now (λ _ pe. is_read_bit pe.c ≡ true) }
    ensures { result ≡ false → EachColumn pes.now (λ k pe. (pe.shift ≡ 0) × (c_bit pe.c ≡ 0)) }
{
    for k in 0..16 {
        if pes[k].shift != 0 || bit_byte(pes[k].c) != 0 {
            return true;
        }
    }
    false
}

/// Whether a column has C.
pub(crate) fn any_c(pes: &[Pe]) -> bool
    requires pes { length pes.now ≡ 16 }
    requires read { EachColumn pes.now (λ _ pe. is_read_bit pe.c ≡ true) }
    ensures { result ≡ false → EachColumn pes.now (λ k pe. (c_bit pe.c ≡ 0) × (c_carry pe.c ≡ 0)) }
{
    for k in 0..16 {
        if bit_byte(pes[k].c) != 0 || carry_bit(pes[k].c) != 0 {
            return true;
        }
    }
    false
}

/// Whether C is the carry-in in a column.
pub(crate) fn any_carry(pes: &[Pe]) -> bool
    requires pes { length pes.now ≡ 16 }
    ensures { result ≡ false → EachColumn pes.now (λ k pe. c_carry pe.c ≡ 0) }
{
    for k in 0..16 {
        if carry_bit(pes[k].c) != 0 {
            return true;
        }
    }
    false
}

/// Whether a column takes a carry.
pub(crate) fn any_sum(pes: &[Pe]) -> bool
    requires pes { length pes.now ≡ 16 }
    ensures { result ≡ false → EachColumn pes.now (λ k pe. takes_carry pe.mode pe.c ≡ false) }
{
    for k in 0..16 {
        if needs_carry(pes[k].mode, pes[k].c) {
            return true;
        }
    }
    false
}

/// Whether a column changes its state.
pub(crate) fn any_state(pes: &[Pe]) -> bool
    requires pes { length pes.now ≡ 16 }
    ensures { result ≡ false → EachColumn pes.now (λ k pe. (output_of pe ≡ 0) × (a_of pe ≡ 0)) }
{
    for k in 0..16 {
        if output_byte(pes[k].next) != 0 || a_byte(pes[k].next) != 0 {
            return true;
        }
    }
    false
}

/// The sources of A, and then those of the bytes that B begins with.
pub(crate) fn both_sources(pes: &[Pe]) -> [Source; 32]
    requires pes { length pes.now ≡ 16 }
    ensures { (k : ℕ) (d : Source) (e : Pe) → k < 32 → slice_index_or result k d ≡ both_source pes.now k e }
{
    let mut sources = [Source::Const(0); 32];
    for k in 0..32 {
        sources[k] = if k < 16 { pes[k].a } else { pes[k - 16].hi };
    }
    sources
}

/// The sources of the bytes that B ends with, and then those of C.
pub(crate) fn rest_sources(pes: &[Pe]) -> [Source; 32]
    requires pes { length pes.now ≡ 16 }
    ensures { (k : ℕ) (d : Source) (e : Pe) → k < 32 → slice_index_or result k d ≡ rest_source pes.now k e }
{
    let mut sources = [Source::Const(0); 32];
    for k in 0..32 {
        sources[k] = if k < 16 {
            pes[k].lo
        } else {
            source_of(pes[k - 16].c)
        };
    }
    sources
}
