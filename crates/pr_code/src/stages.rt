//! Reading the stages of a configuration.

ghost use Rattle.std.specs.Prelude.{◌≡◌, ◌<◌, ◌≤◌, ◌^◌, ◌+◌, ◌*◌, drop, map, vec_len, ◌∷◌, [], slice_index};
ghost use Rattle.pr_conf.specs.Configuration.{pes_of};
ghost use Rattle.pr_conf.specs.Rules.{site_of};
ghost use Rattle.pr_code.specs.Reading.{words_of_bytes, pe_of, pe_from, flags_of, marks_of, map_length, pes_of as pes_from_words, pes_length, column_of, column_length, stage_flags, before_pes, stage_of, stage_length, stages_of, stages_length};
ghost use Rattle.pr_code.specs.Rules.{first_broken, sources_rule, choice_rule, last_rule, pe_rules, column_rules, pes_rules, map_rules, before_rules, stage_rules, stages_rules};
ghost use Rattle.pr_code.specs.Outcome.{Reads};

use crate::faults::{CodeFault, demand};
use crate::spelled::{are_choices, are_sources, is_choice_of_c, is_needless, pe_from};
use crate::words::word_at;
use pr_conf::{Pe, Site, Stage};
use std::alloc::Global;

/// A word of two sources, which breaks rule 6 where one of them is not allowed at the site.
fn sources_at(bytes: &[u8], place: usize, site: Site) -> Result<u32, CodeFault>
    requires { place < 2 ^ 31 }
    ensures { let words = drop place (words_of_bytes bytes.now) in
        Reads result (first_broken (sources_rule site ∷ []) place words)
        (λ w. words ≡ w ∷ drop (place + 1) (words_of_bytes bytes.now)) }
{
    let word = word_at(bytes, place)?;
    demand(are_sources(word, site), 6, place)?;
    Ok(word)
}

/// The third word of a processing element, which breaks rule 6 where it does not agree with the second.
fn choice_at(bytes: &[u8], place: usize, second: u32) -> Result<u32, CodeFault>
    requires { place < 2 ^ 31 }
    ensures { let words = drop place (words_of_bytes bytes.now) in
        Reads result (first_broken (choice_rule second ∷ []) place words)
        (λ w. words ≡ w ∷ drop (place + 1) (words_of_bytes bytes.now)) }
{
    let word = word_at(bytes, place)?;
    demand(is_choice_of_c(second, word), 6, place)?;
    Ok(word)
}

/// The last word of a processing element. Where the stage has a map, it breaks rule 8 if all four are 0.
fn last_at(
    bytes: &[u8],
    place: usize,
    site: Site,
    packed: bool,
    before: [u32; 3],
) -> Result<u32, CodeFault>
    requires { place < 2 ^ 31 }
    ensures { let words = drop place (words_of_bytes bytes.now) in
        let rule = last_rule packed site (slice_index before 0) (slice_index before 1) (slice_index before 2) in
        Reads result (first_broken (rule ∷ []) place words)
        (λ w. words ≡ w ∷ drop (place + 1) (words_of_bytes bytes.now)) }
{
    let word = word_at(bytes, place)?;
    demand(are_choices(site, before[2], word), 6, place)?;
    demand(
        !is_needless(packed, before[0], before[1], before[2], word),
        8,
        place,
    )?;
    Ok(word)
}

/// The processing element of the four words at a place.
fn pe_at(bytes: &[u8], place: usize, site: Site, packed: bool) -> Result<Pe, CodeFault>
    requires { place < 2 ^ 30 }
    ensures { let words = drop place (words_of_bytes bytes.now) in
        Reads result (first_broken (pe_rules packed site words) place words) (λ pe. pe ≡ pe_of words) }
{
    let first = sources_at(bytes, place, site)?;
    let second = sources_at(bytes, place + 1, site)?;
    let third = choice_at(bytes, place + 2, second)?;
    let fourth = last_at(bytes, place + 3, site, packed, [first, second, third])?;
    Ok(pe_from(first, second, third, fourth))
}

/// The processing element of a column, and the place after it. Where its words are left out, they are 0.
fn column_at(
    bytes: &[u8],
    place: usize,
    site: Site,
    packed: bool,
    stands: bool,
) -> Result<(Pe, usize), CodeFault>
    requires { place < 2 ^ 30 }
    ensures { let words = drop place (words_of_bytes bytes.now) in
        Reads result (first_broken (column_rules packed site stands words) place words)
        (λ found. (found.0 ≡ column_of stands words) × (found.1 ≡ place + column_length stands)) }
{
    if !stands {
        return Ok((pe_from(0, 0, 0, 0), place));
    }
    Ok((pe_at(bytes, place, site, packed)?, place + 4))
}

/// The processing elements of a stage, and the place after them. The words of column i stand there where bit i of the
/// marks is set.
fn pes_at(
    alloc: Global,
    bytes: &[u8],
    place: usize,
    site: Site,
    packed: bool,
    marks: u64,
) -> Result<(Vec<Pe>, usize), CodeFault>
    requires place { place < 2 ^ 29 }
    requires columns { site.columns ≤ 64 }
    requires col { site.col ≡ 0 }
    ensures { let words = drop place (words_of_bytes bytes.now) in
        let flags = flags_of site.columns marks in
        Reads result (first_broken (pes_rules packed site flags words) place words)
        (λ found. (found.0.items ≡ pes_from_words flags words) × (vec_len found.0 ≡ site.columns)
        × (found.1 ≡ place + pes_length flags) × (found.1 ≤ place + 4 * site.columns)) }
{
    let mut pes = Vec::with_capacity(alloc, site.columns)?;
    let mut here = site;
    let mut left = marks;
    let mut at = place;
    for _ in 0..site.columns {
        let (pe, next) = column_at(bytes, at, here, packed, left % 2 == 1)?;
        pes.push(pe)?;
        here.col += 1;
        left /= 2;
        at = next;
    }
    Ok((pes, at))
}

/// A map of two words: the bits of the columns from 0 and from 32 on.
fn long_map_at(bytes: &[u8], place: usize, columns: usize) -> Result<u64, CodeFault>
    requires place { place < 2 ^ 29 }
    requires long { 32 < columns }
    requires columns { columns ≤ 64 }
    ensures { let words = drop place (words_of_bytes bytes.now) in
        Reads result (first_broken (map_rules columns) place words) (λ marks. marks ≡ marks_of columns words) }
{
    let low = u64::from(word_at(bytes, place)?);
    let high = u64::from(word_at(bytes, place + 1)?);
    demand(high < 1 << (columns - 32), 8, place + 1)?;
    Ok(low + (high << 32))
}

/// The map of a stage, which breaks rule 8 with a bit of a column that the fabric has not.
fn map_at(bytes: &[u8], place: usize, columns: usize) -> Result<u64, CodeFault>
    requires place { place < 2 ^ 29 }
    requires columns { columns ≤ 64 }
    ensures { let words = drop place (words_of_bytes bytes.now) in
        Reads result (first_broken (map_rules columns) place words) (λ marks. marks ≡ marks_of columns words) }
{
    if 32 < columns {
        return long_map_at(bytes, place, columns);
    }
    let marks = u64::from(word_at(bytes, place)?);
    demand(marks < 1 << columns, 8, place)?;
    Ok(marks)
}

/// The marks of the columns whose words stand in a stage, and the place after its map.
fn marks_at(
    bytes: &[u8],
    place: usize,
    columns: usize,
    packed: bool,
) -> Result<(u64, usize), CodeFault>
    requires place { place < 2 ^ 29 }
    requires columns { columns ≤ 64 }
    ensures { let words = drop place (words_of_bytes bytes.now) in
        Reads result (first_broken (before_rules packed columns) place words)
        (λ found. (flags_of columns found.0 ≡ stage_flags packed columns words)
        × (found.1 ≡ place + before_pes packed columns)) }
{
    if !packed {
        return Ok((u64::MAX, place));
    }
    let marks = map_at(bytes, place, columns)?;
    let next = if columns <= 32 { place + 1 } else { place + 2 };
    Ok((marks, next))
}

/// A stage, and the place after it.
fn stage_at<const N: usize>(
    alloc: Global,
    bytes: &[u8],
    place: usize,
    site: Site,
    packed: bool,
) -> Result<(Stage<N>, usize), CodeFault>
    requires place { place < 2 ^ 28 }
    requires columns { N ≤ 64 }
    requires site { site.columns ≡ N }
    requires col { site.col ≡ 0 }
    ensures { let words = drop place (words_of_bytes bytes.now) in
        Reads result (first_broken (stage_rules packed N site words) place words)
        (λ found. (pes_of found.0 ≡ stage_of packed N words)
        × (found.1 ≡ place + stage_length packed N words) × (found.1 ≤ place + 258)) }
{
    let (marks, next) = marks_at(bytes, place, N, packed)?;
    let (pes, end) = pes_at(alloc, bytes, next, site, packed, marks)?;
    Ok((Stage { pes }, end))
}

/// So many stages, and the place after them. A sample has so many bytes on the bus.
pub fn stages_at<const N: usize, const P: usize>(
    alloc: Global,
    bytes: &[u8],
    place: usize,
    count: usize,
    bus: usize,
    packed: bool,
) -> Result<(Vec<Stage<N>>, usize), CodeFault>
    requires place { place < 2 ^ 20 }
    requires count { count ≤ 32768 }
    requires columns { N ≤ 64 }
    ensures { let words = drop place (words_of_bytes bytes.now) in
        Reads result (first_broken (stages_rules packed N P bus 0 count words) place words)
        (λ found. (map pes_of found.0.items ≡ stages_of packed N count words) × (vec_len found.0 ≡ count)
        × (found.1 ≡ place + stages_length packed N count words) × (found.1 < 2 ^ 30)) }
{
    let mut stages = Vec::new(alloc);
    let mut at = place;
    for number in 0..count {
        let site = Site {
            columns: N,
            registers: P,
            first: number == 0,
            bus,
            col: 0,
        };
        let (stage, next) = stage_at(alloc, bytes, at, site, packed)?;
        stages.push(stage)?;
        at = next;
    }
    Ok((stages, at))
}
