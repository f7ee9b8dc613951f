//! Stages, prepared.

ghost use Rattle.std.specs.Prelude.{true, ◌≡◌, ◌+◌, ◌*◌, ◌<◌, ◌≤◌, ℕ, List, All, IfOk, IfSome, length, vec_len, slice_index, slice_index_or, ◌/◌, ◌%◌, ◌==◌, if◌then◌else◌};
ghost use Rattle.pr_conf.specs.declared.pes.Pe.{Pe};
ghost use Rattle.pr_conf.specs.declared.pes.Source.{Source};
ghost use Rattle.pr_stripe_prepared.specs.Gather.{Gathers};
ghost use Rattle.pr_stripe_prepared.specs.Elements.{AreMarks};
ghost use Rattle.pr_stripe_prepared.specs.Places.{is_suited};
ghost use Rattle.pr_stripe_prepared.specs.Prepared.{IsPrepared};

use crate::elements::{
    a_row, any_c, any_carry, any_rest, any_state, any_sum, are_given, both_sources, c_carry_row,
    c_row, carry_row, from_c_row, low_row, mask_row, output_row, rest_sources, shift_row, sum_row,
    tables, zero_row,
};
use crate::levels::{are_ordered, levels_of, rounds_of};
use crate::places::{any_here, here_row, known_row, row_row, state_row};
use crate::stages::{Gather, Prepared};
use crate::terms::{is_any, terms_of};
use pr_conf::{Pe, Source};
use std::alloc::{AllocError, Global};

fn ones(holds: bool) -> u8
    ensures { result ≡ (if holds then 255 else 0) }
{
    if holds { 255 } else { 0 }
}

fn marks_of(alloc: Global, pes: &[Pe], registers: usize) -> Result<Vec<u8>, AllocError>
    requires few { registers ≤ 16 }
    requires pes { length pes.now ≡ 16 }
    ensures long { IfOk result (λ v. vec_len v ≡ registers * 16) }
    ensures each { IfOk result (λ v. AreMarks registers pes.now v.items) }
{
    let mut marks = Vec::new(alloc);
    for reg in 0..registers {
        for pe in pes {
            marks.push(ones(usize::from(pe.write) == reg + 1))?;
        }
    }
    Ok(marks)
}

/// What gathers these sources, from rows of so many registers.
fn gather_of(alloc: Global, sources: &[Source; 32], registers: usize) -> Result<Gather, AllocError>
    requires few { registers ≤ 16 }
    requires suited { (k : ℕ) (d : Source) → k < 32 → is_suited registers (slice_index_or sources.now k d) ≡ true }
    ensures gives { IfOk result (λ g. Gathers g sources.now) }
    ensures inside { IfOk result (λ g. All (λ t. t.from + 16 ≤ registers * 16) g.terms.items) }
{
    let terms = terms_of(alloc, &row_row(sources), registers)?;
    let states = state_row(sources);
    let reads_state = is_any(&states);
    Ok(Gather {
        known: known_row(sources),
        states,
        heres: here_row(sources),
        terms,
        reads_state,
        has_here: any_here(sources),
    })
}

/// A stage of 16 columns and so many registers but the state; none where a column needs more than whole rows give.
pub fn prepare(alloc: Global, pes: &[Pe], registers: usize) -> Result<Option<Prepared>, AllocError>
    requires few { registers ≤ 16 }
    requires pes { length pes.now ≡ 16 }
    ensures { IfOk result (λ o. IfSome o (λ q. IsPrepared q pes.now registers)) }
{
    if !are_given(pes, registers) {
        return Ok(None);
    }
    let levels = levels_of(pes);
    let rounds = rounds_of(&levels);
    if !are_ordered(&levels, rounds, pes) {
        return Ok(None);
    }
    let marks = marks_of(alloc, pes, registers)?;
    let both = gather_of(alloc, &both_sources(pes), registers)?;
    let rest = gather_of(alloc, &rest_sources(pes), registers)?;
    Ok(Some(Prepared {
        both,
        rest,
        off: tables(pes, 0),
        on: tables(pes, 1),
        c_bits: c_row(pes),
        c_carry: c_carry_row(pes),
        from_c: from_c_row(pes),
        shifts: shift_row(pes),
        low: low_row(pes),
        zeros: zero_row(pes),
        cin: carry_row(pes),
        sums: sum_row(pes),
        mask: mask_row(pes),
        to_output: output_row(pes),
        to_a: a_row(pes),
        levels,
        marks,
        rounds,
        has_rest: any_rest(pes),
        has_c: any_c(pes),
        has_carry: any_carry(pes),
        has_sums: any_sum(pes),
        has_state: any_state(pes),
        reach: registers * 16,
    }))
}
