//! Reading configurations and checkpoints.

ghost use Rattle.std.specs.Prelude.{◌≡◌, ◌<◌, ◌≤◌, ◌^◌, ◌+◌, ◌∷◌, IfOk, drop, length, slice_index};
ghost use Rattle.pr_conf.specs.Configuration.{shape_of};
ghost use Rattle.pr_conf.specs.Rules.{bytes_in};
ghost use Rattle.pr_code.specs.Spelling.{IsFile};
ghost use Rattle.pr_code.specs.Reading.{words_of_bytes, shape_in};
ghost use Rattle.pr_code.specs.Rules.{first_broken, head_rules, bad_from, bad_word, format_of, shape_read};
ghost use Rattle.pr_code.specs.Marks.{mark_rules, bad_mark, count_of, count_read, shape_marked, IsMark};
ghost use Rattle.pr_code.specs.Outcome.{Reads};

use crate::faults::{CodeFault, demand};
use crate::formats::{FORMAT_1, FORMAT_2, Format};
use crate::marking::CHECKPOINT;
use crate::reading::{all_outputs_at, count_at, inputs_at};
use crate::stages::stages_at;
use crate::words::word_at;
use pr_base::slices;
use pr_conf::Configuration;
use std::alloc::Global;

/// The number of stages, behind the first word of the format and the numbers of columns and registers.
fn head_at<const N: usize, const P: usize>(
    bytes: &[u8],
    place: usize,
    format: Format,
) -> Result<u32, CodeFault>
    requires place { place < 2 ^ 10 }
    requires columns { N ≤ 64 }
    requires registers { P ≤ 16 }
    ensures { let words = drop place (words_of_bytes bytes.now) in
        Reads result (first_broken (head_rules format N P) place words) (λ n. (n ≡ slice_index words 2) × (n ≤ 32768)) }
{
    let mark = word_at(bytes, place)?;
    demand(mark == format.mark, 2, place)?;
    let sizes = word_at(bytes, place + 1)?;
    demand(sizes as usize == N * 0x1_0000 + P, 3, place + 1)?;
    count_at(bytes, place + 2, 32768)
}

/// The bytes of numbers of these widths together.
fn bytes_of(widths: &[u8]) -> usize
    requires { length widths.now ≤ 64 }
    ensures { result ≡ bytes_in widths.now }
{
    widths.iter().map(|width| slices(*width)).sum()
}

/// The configuration whose words stand from a place to the end.
fn configuration_at<const N: usize, const P: usize>(
    alloc: Global,
    bytes: &[u8],
    place: usize,
    format: Format,
) -> Result<Configuration<N, P>, CodeFault>
    requires place { place < 2 ^ 10 }
    requires widest { format.widest ≤ 128 }
    requires columns { 1 ≤ N }
    requires most_columns { N ≤ 64 }
    requires registers { 2 ≤ P }
    requires most_registers { P ≤ 16 }
    ensures { Reads result (bad_from format N P place bytes.now)
        (λ c. shape_of c ≡ shape_in format.packed N (drop place (words_of_bytes bytes.now))) }
{
    let count = head_at::<N, P>(bytes, place, format)? as usize;
    let inputs = inputs_at(alloc, bytes, place + 3, format, N)?;
    let at = place + 3 + (1 + inputs.len());
    let (outputs, next) = all_outputs_at(alloc, bytes, at, format, N, P)?;
    let bus = bytes_of(&inputs);
    let (stages, end) = stages_at::<N, P>(alloc, bytes, next, count, bus, format.packed)?;
    demand(bytes.len() == 4 * end, 7, end)?;
    Ok(Configuration {
        inputs,
        outputs,
        stages,
    })
}

/// The format that a file is read by.
fn format_of(bytes: &[u8]) -> Format
    ensures format { result ≡ format_of bytes.now }
    ensures widest { result.widest ≤ 128 }
{
    let Ok(word) = word_at(bytes, 0) else {
        return FORMAT_2;
    };
    if word == FORMAT_1.mark {
        FORMAT_1
    } else {
        FORMAT_2
    }
}

/// The configuration of a file in either format, where no word of it breaks a rule; else the first word that does.
pub fn decode<const N: usize, const P: usize>(
    alloc: Global,
    bytes: &[u8],
) -> Result<Configuration<N, P>, CodeFault>
    requires columns { 1 ≤ N }
    requires most_columns { N ≤ 64 }
    requires registers { 2 ≤ P }
    requires most_registers { P ≤ 16 }
    ensures reads { Reads result (bad_word N P bytes.now) (λ c. IsFile N P (shape_of c) bytes.now) }
    ensures shape { IfOk result (λ c. shape_of c ≡ shape_read N bytes.now) }
{
    configuration_at(alloc, bytes, 0, format_of(bytes))
}
/// The count of a checkpoint: the second and the third word.
fn count_of_mark(bytes: &[u8]) -> Result<u64, CodeFault>
    ensures { let words = words_of_bytes bytes.now in
        Reads result (first_broken (mark_rules words) 0 words) (λ n. n ≡ count_of words) }
{
    let mark = word_at(bytes, 0)?;
    demand(mark == CHECKPOINT, 9, 0)?;
    let high = word_at(bytes, 1)?;
    let low = word_at(bytes, 2)?;
    let count = u64::from(high) * (1 << 32) + u64::from(low);
    demand(count <= 1 << 40, 10, 2)?;
    Ok(count)
}

/// The count and the configuration of a checkpoint, where no word of it breaks a rule; else the first word that does.
pub fn read_mark<const N: usize, const P: usize>(
    alloc: Global,
    bytes: &[u8],
) -> Result<(u64, Configuration<N, P>), CodeFault>
    requires columns { 1 ≤ N }
    requires most_columns { N ≤ 64 }
    requires registers { 2 ≤ P }
    requires most_registers { P ≤ 16 }
    ensures reads { Reads result (bad_mark N P bytes.now) (λ mark. IsMark N P mark.0 (shape_of mark.1) bytes.now) }
    ensures count { IfOk result (λ mark. mark.0 ≡ count_read bytes.now) }
    ensures shape { IfOk result (λ mark. shape_of mark.1 ≡ shape_marked N bytes.now) }
{
    let count = count_of_mark(bytes)?;
    let conf = configuration_at(alloc, bytes, 3, FORMAT_2)?;
    Ok((count, conf))
}
