//! Reading the inputs and the outputs of a configuration.

ghost use Rattle.std.specs.Prelude.{◌≡◌, ◌<◌, ◌≤◌, ◌^◌, ◌+◌, ◌*◌, ◌∷◌, [], drop, take, map, replicate, slice_index, vec_len};
ghost use Rattle.pr_base.specs.Numbers.{slices_of};
ghost use Rattle.pr_conf.specs.Shape.{output_shape};
ghost use Rattle.pr_code.specs.Reading.{words_of_bytes, tap_of, output_of, output_length, outputs_of, outputs_length};
ghost use Rattle.pr_code.specs.Rules.{is_tap, count_rule, tap_rule, first_broken, width_rules, input_rules, output_rules, outputs_rules, all_output_rules};
ghost use Rattle.pr_code.specs.Outcome.{Reads};

use crate::faults::{CodeFault, demand};
use crate::formats::Format;
use crate::spelled::{is_tap, tap_of};
use crate::words::word_at;
use pr_base::slices;
use pr_conf::{Output, Tap};
use std::alloc::Global;

/// A count from 1 on, which breaks rule 4 above the most.
pub fn count_at(bytes: &[u8], place: usize, most: u32) -> Result<u32, CodeFault>
    requires { place < 2 ^ 30 }
    ensures { let words = drop place (words_of_bytes bytes.now) in
        Reads result (first_broken (count_rule most ∷ []) place words)
        (λ n. (words ≡ n ∷ drop (place + 1) (words_of_bytes bytes.now)) × (n ≤ most)) }
{
    let word = word_at(bytes, place)?;
    demand(0 < word && word <= most, 4, place)?;
    Ok(word)
}

/// The widths of so many inputs, whose bytes break rule 4 where they pass the columns.
fn widths_at(
    alloc: Global,
    bytes: &[u8],
    place: usize,
    count: usize,
    widest: u32,
    columns: usize,
) -> Result<Vec<u8>, CodeFault>
    requires place { place < 2 ^ 20 }
    requires count { count ≤ 64 }
    requires widest { widest ≤ 128 }
    requires columns { columns ≤ 64 }
    ensures { let words = drop place (words_of_bytes bytes.now) in
        Reads result (first_broken (width_rules widest columns count 0 words) place words)
        (λ widths. (widths.items ≡ take count words) × (vec_len widths ≡ count)) }
{
    let mut widths = Vec::new(alloc);
    let mut used = 0;
    let mut at = place;
    for _ in 0..count {
        let width = count_at(bytes, at, widest)? as u8;
        used += slices(width);
        demand(used <= columns, 4, at)?;
        widths.push(width)?;
        at += 1;
    }
    Ok(widths)
}

/// So many taps.
fn taps_at(
    alloc: Global,
    bytes: &[u8],
    place: usize,
    count: usize,
    columns: usize,
    registers: usize,
) -> Result<Vec<Tap>, CodeFault>
    requires place { place < 2 ^ 20 }
    requires count { count ≤ 16 }
    ensures { let words = drop place (words_of_bytes bytes.now) in
        Reads result (first_broken (replicate count (tap_rule columns registers)) place words)
        (λ taps. (taps.items ≡ map tap_of (take count words)) × (vec_len taps ≡ count)) }
{
    let mut taps = Vec::new(alloc);
    let mut at = place;
    for _ in 0..count {
        let word = word_at(bytes, at)?;
        demand(is_tap(word, columns, registers), 5, at)?;
        taps.push(tap_of(word))?;
        at += 1;
    }
    Ok(taps)
}

/// The greatest width of an output, and the columns and registers that its taps can read.
#[derive(Clone, Copy)]
struct Bounds {
    widest: u32,
    columns: usize,
    registers: usize,
}

/// An output: its width, and a tap for each byte.
fn output_at(alloc: Global, bytes: &[u8], place: usize, bounds: Bounds) -> Result<Output, CodeFault>
    requires place { place < 2 ^ 19 }
    requires widest { bounds.widest ≤ 128 }
    ensures { let words = drop place (words_of_bytes bytes.now) in
        Reads result (first_broken (output_rules bounds.widest bounds.columns bounds.registers words) place words)
        (λ output. (output_shape output ≡ output_of words)
        × (1 + vec_len output.taps ≡ output_length words) × (vec_len output.taps ≤ 16)) }
{
    let width = count_at(bytes, place, bounds.widest)? as u8;
    let taps = taps_at(
        alloc,
        bytes,
        place + 1,
        slices(width),
        bounds.columns,
        bounds.registers,
    )?;
    Ok(Output { width, taps })
}

/// So many outputs, and the place after them.
fn outputs_at(
    alloc: Global,
    bytes: &[u8],
    place: usize,
    count: usize,
    bounds: Bounds,
) -> Result<(Vec<Output>, usize), CodeFault>
    requires place { place < 2 ^ 18 }
    requires count { count ≤ 64 }
    requires widest { bounds.widest ≤ 128 }
    ensures { let words = drop place (words_of_bytes bytes.now) in
        Reads result (first_broken (outputs_rules bounds.widest bounds.columns bounds.registers count words) place words)
        (λ found. (map output_shape found.0.items ≡ outputs_of count words)
        × (found.1 ≡ place + outputs_length count words) × (found.1 ≤ place + 17 * count)) }
{
    let mut outputs = Vec::new(alloc);
    let mut at = place;
    for _ in 0..count {
        let output = output_at(alloc, bytes, at, bounds)?;
        at += 1 + output.taps.len();
        outputs.push(output)?;
    }
    Ok((outputs, at))
}

/// The inputs, their number first.
pub fn inputs_at(
    alloc: Global,
    bytes: &[u8],
    place: usize,
    format: Format,
    columns: usize,
) -> Result<Vec<u8>, CodeFault>
    requires place { place < 2 ^ 18 }
    requires widest { format.widest ≤ 128 }
    requires columns { columns ≤ 64 }
    ensures { let words = drop place (words_of_bytes bytes.now) in
        Reads result (first_broken (input_rules format columns words) place words)
        (λ widths. (widths.items ≡ take (slice_index words 0) (drop 1 words))
        × (vec_len widths ≡ slice_index words 0) × (slice_index words 0 ≤ 64)) }
{
    let count = count_at(bytes, place, columns as u32)? as usize;
    widths_at(alloc, bytes, place + 1, count, format.widest, columns)
}

/// The outputs, their number first, and the place after them.
pub fn all_outputs_at(
    alloc: Global,
    bytes: &[u8],
    place: usize,
    format: Format,
    columns: usize,
    registers: usize,
) -> Result<(Vec<Output>, usize), CodeFault>
    requires place { place < 2 ^ 17 }
    requires widest { format.widest ≤ 128 }
    ensures { let words = drop place (words_of_bytes bytes.now) in
        let count = slice_index words 0 in
        Reads result (first_broken (all_output_rules format columns registers words) place words)
        (λ found. (map output_shape found.0.items ≡ outputs_of count (drop 1 words))
        × (found.1 ≡ place + (1 + outputs_length count (drop 1 words))) × (found.1 ≤ place + 1089)) }
{
    let count = count_at(bytes, place, 64)? as usize;
    let bounds = Bounds {
        widest: format.widest,
        columns,
        registers,
    };
    outputs_at(alloc, bytes, place + 1, count, bounds)
}
