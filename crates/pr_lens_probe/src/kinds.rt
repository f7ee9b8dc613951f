//! Which instances are signed, asked for some at a time.

ghost use Rattle.std.specs.Prelude.{◌≡◌, ◌<◌, ◌≤◌, ◌+◌, ◌*◌, ◌++◌, true, List, IfOk, get_or, length, map, vec_len};
ghost use Rattle.pr_scope.specs.Walk.{program_walk, turns_after};
ghost use Rattle.pr_scope_names.specs.declared.streams.Instance.{Instance};
ghost use Rattle.pr_flat.specs.declared.equations.Operand.{Operand};
ghost use Rattle.pr_flat.specs.Flats.{equations_of as flat_equations};
ghost use Rattle.pr_flat.specs.Widths.{AreWidths};
ghost use Rattle.pr_expand_spec.specs.Programs.{equations_of};
ghost use Rattle.pr_lens_probe.specs.Asked.{CanAsk, CanAskAll, IsPart};
ghost use Rattle.pr_lens_probe.specs.Given.{AreKinds, HaveKinds};
ghost use Rattle.pr_lens_probe.specs.Kinds.{has_room, is_wide, last_of};

use crate::asking::{Want, answered};
use crate::passes::solved;
use pr_flat::Flat;
use pr_lang::Program;
use pr_scope_names::Instance;
use pr_width::{Widths, operand_width};
use std::alloc::{AllocError, Global};

/// What is asked of the instances of a program.
#[derive(Clone, Copy, PartialEq, Eq, Debug)]
pub enum Detail {
    /// Their streams.
    Streams,
    /// Their streams, and which are signed.
    Kinds,
}

/// A program as it was given, and which of some instances are signed.
#[derive(Drop)]
pub struct Told {
    pub program: Program,
    pub kinds: Vec<bool>,
}

/// Whether the output at a place is wider than 1 bit.
fn is_wide(flat: &Flat, widths: &Widths, place: usize) -> bool
    requires widths { AreWidths (flat_equations flat.now) widths.now }
    requires within { place < vec_len flat.now.outputs }
    ensures { (d : Operand) → result ≡ is_wide widths.now (get_or flat.now.outputs.items place d) }
{
    1 < operand_width(flat.outputs[place], &widths.of)
}

/// Which of the last outputs, so many, are wider than 1 bit.
fn wide_outputs(
    alloc: Global,
    flat: &Flat,
    widths: &Widths,
    count: usize,
) -> Result<Vec<bool>, AllocError>
    requires widths { AreWidths (flat_equations flat.now) widths.now }
    requires count { count ≤ vec_len flat.now.outputs }
    ensures { IfOk result (λ v. v.items ≡ map (is_wide widths.now) (last_of count flat.now.outputs.items)) }
{
    let mut kinds = Vec::new(alloc);
    for place in flat.outputs.len() - count..flat.outputs.len() {
        kinds.push(is_wide(flat, widths, place))?;
    }
    Ok(kinds)
}

/// Which of some instances are signed. And the program as it was given.
fn kinds_of(
    alloc: Global,
    program: Program,
    most: usize,
    some: &[Instance],
) -> Result<Told, AllocError>
    requires able { CanAsk program most some.now }
    requires room { has_room program ≡ true }
    requires few { length (equations_of program).equations + 2 * length some.now ≤ 16384 }
    ensures items { IfOk result (λ t. t.program.items.items ≡ program.items.items) }
    ensures kinds { IfOk result (λ t. HaveKinds program some.now t.kinds.items) }
{
    let asked = answered(alloc, program, Want::Kind, most, some)?;
    let widths = solved(alloc, &asked.flat)?;
    let kinds = wide_outputs(alloc, &asked.flat, &widths, some.len())?;
    Ok(Told {
        program: asked.program,
        kinds,
    })
}

/// Adds which of further instances are signed.
fn tell_more(alloc: Global, told: Told, most: usize, some: &[Instance]) -> Result<Told, AllocError>
    requires able { CanAsk told.program most some.now }
    requires room { has_room told.program ≡ true }
    requires few { length (equations_of told.program).equations + 2 * length some.now ≤ 16384 }
    ensures items { IfOk result (λ t. t.program.items.items ≡ told.program.items.items) }
    ensures kinds { (is : List Instance) → HaveKinds told.program is told.kinds.items →
        IfOk result (λ t. HaveKinds told.program (is ++ some.now) t.kinds.items) }
{
    let Told { program, mut kinds } = told;
    let more = kinds_of(alloc, program, most, some)?;
    kinds.extend_from_slice(&more.kinds)?;
    Ok(Told {
        program: more.program,
        kinds,
    })
}

/// Which instances are signed. They are asked for so many at a time.
fn tell_by(
    alloc: Global,
    program: Program,
    most: usize,
    instances: &[Instance],
    size: usize,
) -> Result<Told, AllocError>
    requires able { CanAskAll program most instances.now size }
    requires room { has_room program ≡ true }
    requires few { length (equations_of program).equations + 2 * size ≤ 16384 }
    ensures items { IfOk result (λ t. t.program.items.items ≡ program.items.items) }
    ensures kinds { IfOk result (λ t. HaveKinds program instances.now t.kinds.items) }
{
    let mut told = Told {
        program,
        kinds: Vec::new(alloc),
    };
    let mut at = 0;
    'parts: while at < instances.len() {
        let end = instances.len().min(at + size);
        told = tell_more(alloc, told, most, &instances[at..end])?;
        at = end;
    }
    Ok(told)
}

/// Which instances are signed; none where the program has too many equations to tell.
fn told_of(
    alloc: Global,
    program: Program,
    most: usize,
    instances: &[Instance],
    part: Option<usize>,
) -> Result<Told, AllocError>
    requires able { CanAskAll program most instances.now 1 }
    requires part { IsPart (turns_after (program_walk program)) (length (equations_of program).equations) part }
    ensures items { IfOk result (λ t. t.program.items.items ≡ program.items.items) }
    ensures kinds { IfOk result (λ t. HaveKinds program instances.now t.kinds.items) }
{
    match part {
        None => {
            let kinds = vec![in alloc; false; instances.len()]?;
            return Ok(Told { program, kinds });
        }
        Some(size) => {
            return tell_by(alloc, program, most, instances, size);
        }
    }
}

/// Which instances are signed, where that is asked. And the program as it was given.
pub fn tell_all(
    alloc: Global,
    program: Program,
    most: usize,
    instances: &[Instance],
    part: Option<usize>,
    detail: Detail,
) -> Result<Told, AllocError>
    requires able { CanAskAll program most instances.now 1 }
    requires part { IsPart (turns_after (program_walk program)) (length (equations_of program).equations) part }
    ensures items { IfOk result (λ t. t.program.items.items ≡ program.items.items) }
    ensures kinds { IfOk result (λ t. AreKinds detail program instances.now t.kinds.items) }
{
    match detail {
        Detail::Streams => {
            let kinds = Vec::new(alloc);
            return Ok(Told { program, kinds });
        }
        Detail::Kinds => {
            return told_of(alloc, program, most, instances, part);
        }
    }
}
