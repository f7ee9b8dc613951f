//! Rows of 16 bytes, one or two at a time, lane by lane.

ghost use Rattle.std.specs.Prelude.{true, ◌≡◌, ℕ, ◌+◌, ◌*◌, ◌/◌, ◌%◌, ◌^◌, ◌<◌, ◌≤◌, length, slice_index, ◌==◌, if◌then◌else◌, nat_le, nat_lt, bit_or, bit_and, bit_xor};
ghost use Rattle.std.specs.Simd.Lanes.{number_l, digits_l};
ghost use Rattle.pr_base.specs.Pe.{shifted};
ghost use Rattle.pr_lanes.specs.Rows.{chosen, ones_where};
ghost use Rattle.pr_lanes.specs.Sums.{carry_from};
ghost use Rattle.pr_lanes.specs.Lanes.{HasLanes, is_place};

use std::simd::prelude::*;

/// The bytes of a slice.
#[inline(always)]
pub fn loaded(bytes: &[u8]) -> u8x16
    requires { length bytes.now ≡ 16 }
    ensures is { result ≡ bytes.now }
    ensures long { length result ≡ 16 }
{
    u8x16::from_slice(bytes)
}

/// Makes a slice the bytes of a row.
#[inline(always)]
pub fn store(into: &mut [u8], row: u8x16)
    requires into { length into.old ≡ 16 }
    requires row { length row ≡ 16 }
    ensures { into.new ≡ row }
{
    row.copy_to_slice(into);
}

/// The bytes of a row.
#[inline(always)]
pub fn row_of(bytes: &[u8; 16]) -> u8x16
    ensures is { result ≡ bytes.now }
    ensures long { length result ≡ 16 }
{
    u8x16::from_array(*bytes)
}

/// The words of a row.
#[inline(always)]
pub fn words_of(words: &[u16; 16]) -> u16x16
    ensures is { result ≡ words.now }
    ensures long { length result ≡ 16 }
{
    u16x16::from_array(*words)
}

/// The first of two rows.
#[inline(always)]
pub fn low_half(both: u8x32) -> u8x16
    requires { length both ≡ 32 }
    ensures { HasLanes 16 result (λ k. slice_index both k) }
{
    both.extract::<0, 16>()
}

/// The second of two rows.
#[inline(always)]
pub fn high_half(both: u8x32) -> u8x16
    requires { length both ≡ 32 }
    ensures { HasLanes 16 result (λ k. slice_index both (16 + k)) }
{
    both.extract::<16, 16>()
}

/// All ones where a byte is 0, and 0 elsewhere.
#[inline(always)]
pub fn none_in(row: u8x16) -> u8x16
    requires { length row ≡ 16 }
    ensures { HasLanes 16 result (λ k. if slice_index row k == 0 then 255 else 0) }
{
    row.simd_eq(u8x16::splat(0))
        .select(u8x16::splat(255), u8x16::splat(0))
}

/// The bits that one row or the other has.
#[inline(always)]
pub fn joined(a: u8x16, b: u8x16) -> u8x16
    requires a { length a ≡ 16 }
    requires b { length b ≡ 16 }
    ensures { HasLanes 16 result (λ k. bit_or (slice_index a k) (slice_index b k)) }
{
    a | b
}

/// The bits that the mask keeps.
#[inline(always)]
pub fn masked(row: u8x16, mask: u8x16) -> u8x16
    requires row { length row ≡ 16 }
    requires mask { length mask ≡ 16 }
    ensures { HasLanes 16 result (λ k. bit_and (slice_index row k) (slice_index mask k)) }
{
    row & mask
}

/// All ones where a byte has one of these bits, and 0 elsewhere.
#[inline(always)]
pub fn ones_in(row: u8x16, bits: u8x16) -> u8x16
    requires row { length row ≡ 16 }
    requires bits { length bits ≡ 16 }
    ensures { HasLanes 16 result (λ k. ones_where (slice_index row k) (slice_index bits k)) }
{
    let none = (row & bits).simd_eq(u8x16::splat(0));
    none.select(u8x16::splat(0), u8x16::splat(255))
}

/// The sums of two rows, which wrap.
#[inline(always)]
pub fn added(a: u8x16, b: u8x16) -> u8x16
    requires a { length a ≡ 16 }
    requires b { length b ≡ 16 }
    ensures { HasLanes 16 result (λ k. (slice_index a k + slice_index b k) % 256) }
{
    a + b
}

/// A row, twice.
#[inline(always)]
pub fn twice(row: u8x16) -> u8x32
    requires { length row ≡ 16 }
    ensures { HasLanes 32 result (λ k. slice_index row (k % 16)) }
{
    row.swizzle([
        0, 1, 2, 3, 4, 5, 6, 7, 8, 9, 10, 11, 12, 13, 14, 15, 0, 1, 2, 3, 4, 5, 6, 7, 8, 9, 10, 11,
        12, 13, 14, 15,
    ])
}

/// The bits of `on` where `by` has a one, and those of `off` elsewhere.
#[inline(always)]
pub fn choose(off: u8x16, on: u8x16, by: u8x16) -> u8x16
    requires off { length off ≡ 16 }
    requires on { length on ≡ 16 }
    requires by { length by ≡ 16 }
    ensures lanes { HasLanes 16 result (λ k. chosen (slice_index off k) (slice_index on k) (slice_index by k)) }
    ensures bytes { (k : ℕ) → k < 16 → (slice_index off k < 256) × (slice_index on k < 256) }
{
    (off & !by) | (on & by)
}

/// The bytes of `on` where that of `by` is above 127, and those of `off` elsewhere.
#[inline(always)]
pub fn blended(off: u8x16, on: u8x16, by: u8x16) -> u8x16
    requires off { length off ≡ 16 }
    requires on { length on ≡ 16 }
    requires by { length by ≡ 16 }
    ensures { HasLanes 16 result
        (λ k. if nat_lt 127 (slice_index by k) then slice_index on k else slice_index off k) }
{
    u8x16::splat(127).simd_lt(by).select(on, off)
}

/// A row in which the bits that two others both have are turned round.
#[inline(always)]
pub fn turned(row: u8x16, by: u8x16, mask: u8x16) -> u8x16
    requires row { length row ≡ 16 }
    requires by { length by ≡ 16 }
    requires mask { length mask ≡ 16 }
    ensures lanes { HasLanes 16 result
        (λ k. bit_xor (slice_index row k) (bit_and (slice_index by k) (slice_index mask k))) }
    ensures bytes { (k : ℕ) → k < 16 →
        (slice_index row k < 256) × (slice_index by k < 256) × (slice_index mask k < 256) }
{
    row ^ (by & mask)
}

/// The bits that one or the other has.
#[inline(always)]
pub fn either(a: u8x32, b: u8x32) -> u8x32
    requires a { length a ≡ 32 }
    requires b { length b ≡ 32 }
    ensures { HasLanes 32 result (λ k. bit_or (slice_index a k) (slice_index b k)) }
{
    a | b
}

/// B of all columns: each high byte moved up, with the highest bits of the low byte below it.
#[inline(always)]
pub fn shifted_row(hi: u8x16, lo: u8x16, by: u16x16) -> u8x16
    requires hi { length hi ≡ 16 }
    requires lo { length lo ≡ 16 }
    requires by { length by ≡ 16 }
    ensures words { HasLanes 16 result (λ k.
        (slice_index hi k * 256 + slice_index lo k) * slice_index by k % 65536 / 256) }
    ensures bytes { (k s : ℕ) → k < 16 → slice_index by k ≡ 2 ^ s → s < 8
        → slice_index result k ≡ shifted (slice_index hi k) (slice_index lo k) s }
{
    let both = hi.cast::<u16>() * u16x16::splat(256) + lo.cast::<u16>();
    ((both * by) >> u16x16::splat(8)).cast::<u8>()
}

/// The number whose bytes these are, the least first.
#[inline(always)]
fn number_of(row: u8x16) -> u128
    requires { length row ≡ 16 }
    ensures { result ≡ number_l 256 row }
{
    let words = u64x2::from_le_bytes(row).to_array();
    u128::from(words[0]) + u128::from(words[1]) * 0x1_0000_0000_0000_0000
}

/// The bytes of a number, the least first.
#[inline(always)]
fn row_with(n: u128) -> u8x16
    ensures { result ≡ digits_l 256 16 n }
{
    let low = (n % 0x1_0000_0000_0000_0000) as u64;
    u64x2::from_array([low, (n >> 64) as u64]).to_le_bytes()
}

/// The carries of the sums of two rows and of what is given: what goes on into each column, and what is given there.
#[inline(always)]
pub fn carries_of(first: u8x16, second: u8x16, given: u8x16) -> u8x16
    requires first { length first ≡ 16 }
    requires second { length second ≡ 16 }
    requires given { length given ≡ 16 }
    ensures { HasLanes 16 result
        (λ k. (slice_index given k
        + carry_from 0 (λ j. slice_index first j + slice_index second j + slice_index given j) k) % 256) }
{
    let sum = number_of(first)
        .wrapping_add(number_of(second))
        .wrapping_add(number_of(given));
    row_with(sum) - first - second
}

/// The bytes of a row at these places, in each half. From 128 on a place is none, and gives 0.
#[inline(always)]
pub fn look_up(row: u8x16, places: u8x32) -> u8x32
    requires row { length row ≡ 16 }
    requires long { length places ≡ 32 }
    requires places { (k : ℕ) → k < 32 → is_place (slice_index places k) ≡ true }
    ensures { HasLanes 32 result (λ k.
        if nat_le 128 (slice_index places k) then 0 else slice_index row (slice_index places k)) }
{
    twice(row).swizzle_dyn_within::<16>(places)
}
