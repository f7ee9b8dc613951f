//! The equations of programs that end earlier.

ghost use Rattle.std.specs.Prelude.{◌<◌, ◌≤◌, length, min, IfOk, IsFalse, IsTrue};
ghost use Rattle.pr_lens_source.specs.Tokens.{front_text};
ghost use Rattle.pr_lens_find.specs.Fronts.{spot_of};
ghost use Rattle.pr_lens_find.specs.Made.{IsMadeOf, IsMade, IsMadeIn, IsMadeCut, HasMoreIn, HasNoMoreIn, IsManyWith, values_cut};

use crate::counts::short;
use crate::fronts::{Part, cut_front, front_of, with_ends};
use crate::halves::{Question, item_with};
use pr_expand::{ExpandFault, expand};
use pr_flat::Flat;
use pr_lang::Program;
use pr_lens_items::Cut;
use pr_lens_source::Source;
use pr_scope::{ScopeFault, Scoped, check};
use std::alloc::{AllocError, Global};

/// The equations of a program, where it has any.
#[derive(Drop)]
pub enum Equations {
    Flat(Flat),
    TooMany,
    Refused,
}

/// The equations of a program that keeps the rules of scope.
fn made_of(alloc: Global, scoped: &Scoped) -> Result<Equations, AllocError>
    ensures { IfOk result (IsMadeOf scoped.now.program) }
{
    match expand(alloc, scoped) {
        Ok(flat) => Ok(Equations::Flat(flat)),
        Err(ExpandFault::Limit(_)) => Ok(Equations::TooMany),
        Err(ExpandFault::Memory(error)) => Err(error),
    }
}

/// The equations of a program with an input and an output behind its items, where it has none.
fn equations_of(alloc: Global, program: Program) -> Result<Equations, AllocError>
    ensures { IfOk result (IsMade program) }
{
    let ended = with_ends(alloc, program)?;
    match check(alloc, ended) {
        Ok(scoped) => made_of(alloc, &scoped),
        Err(ScopeFault::Scope { rule: _, item: _ }) => Ok(Equations::Refused),
        Err(ScopeFault::Limit(_)) => Ok(Equations::Refused),
        Err(ScopeFault::Memory(error)) => Err(error),
    }
}

/// The equations of the items before this one.
fn made_before(alloc: Global, source: &Source, item: usize) -> Result<Equations, AllocError>
    requires { length source.now.text.now ≤ 1048576 }
    ensures { let front = front_text source.now.text.now source.now.tokens.now source.now.spans.now item in
        IfOk result (IsMadeIn front) }
{
    match front_of(alloc, source, item)? {
        None => Ok(Equations::Refused),
        Some(program) => equations_of(alloc, program),
    }
}

/// The equations of the items before this one and of so many points of its expressions.
pub fn made_with(alloc: Global, part: &Part, values: usize) -> Result<Equations, AllocError>
    requires { length part.now.source.text.now ≤ 1048576 }
    ensures { IfOk result (IsMadeCut (spot_of part.now) (values_cut values)) }
{
    let cut = Cut {
        values: short(values),
        frames: u32::MAX,
        fixeds: u32::MAX,
    };
    match cut_front(alloc, part, cut)? {
        None => Ok(Equations::Refused),
        Some(program) => equations_of(alloc, program),
    }
}

/// Whether the items before this one have more than so many equations, or than are allowed.
fn has_more(alloc: Global, source: &Source, item: usize, count: usize) -> Result<bool, AllocError>
    requires { length source.now.text.now ≤ 1048576 }
    ensures more { let front = front_text source.now.text.now source.now.tokens.now source.now.spans.now item in
        IfOk result (λ more. IsTrue more → HasMoreIn front (min count 16384)) }
    ensures few { let front = front_text source.now.text.now source.now.tokens.now source.now.spans.now item in
        IfOk result (λ more. IsFalse more → HasNoMoreIn front count) }
{
    match made_before(alloc, source, item)? {
        Equations::Flat(flat) => Ok(flat.equations.len() > count),
        Equations::TooMany => Ok(true),
        Equations::Refused => Ok(false),
    }
}

/// Whether so many items have more equations than a number, or than are allowed.
#[derive(Clone, Copy)]
struct Counts<'a> {
    source: Source<'a>,
    equation: usize,
}

impl<'a> Question for Counts<'a> {
    ghost can_ask = { λ s. length s.source.text.now ≤ 1048576 };

    ghost yes = { λ s count. HasMoreIn
        (front_text s.source.text.now s.source.tokens.now s.source.spans.now count) (min s.equation 16384) };

    ghost no = { λ s count. 0 < count → HasNoMoreIn
        (front_text s.source.text.now s.source.tokens.now s.source.spans.now count) s.equation };

    fn ask(&self, alloc: Global, count: usize) -> Result<bool, AllocError> {
        has_more(alloc, &self.source, count, self.equation)
    }
}

/// The item that makes the equation of this number; the number of items where none does.
pub fn equations_item(alloc: Global, source: &Source, equation: usize) -> Result<usize, AllocError>
    requires { length source.now.text.now ≤ 1048576 }
    ensures { IfOk result (IsManyWith source.now.text.now source.now.tokens.now source.now.spans.now equation) }
{
    let counts = Counts {
        source: *source,
        equation,
    };
    item_with(alloc, &counts, source.spans.len())
}
