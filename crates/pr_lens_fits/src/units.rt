//! Units that are too many.

ghost use Rattle.std.specs.Prelude.{◌≡◌, ◌<◌, ◌↔◌, IfOk, IsFalse, IsTrue, ⊤};
ghost use Rattle.pr_base.specs.declared.caps.Cap.{Cap};
ghost use Rattle.pr_lens_fits.specs.Targets.{HasFewUnits, HasFewUnitsBefore, HasManyUnits, IsManyUnitsWith};
ghost use Rattle.pr_lens_fits.specs.Unfits.{PassesLimit};

use crate::ready::ready_in;
use crate::targets::with_output;
use pr_base::Cap;
use pr_cut_plan::{CutFault, plan_of};
use pr_lens_find::{Question, item_with};
use pr_lens_source::Source;
use std::alloc::{AllocError, Global};

/// Whether a limit is that of units.
fn is_units(cap: Cap) -> bool
    ensures { IsTrue result ↔ (cap ≡ Cap.Units) }
{
    match cap {
        Cap::Units => true,
        _ => false,
    }
}

/// Whether the net of a text has too many units.
fn has_many_units(alloc: Global, text: &[u8], narrowed: bool) -> Result<bool, AllocError>
    ensures many { IfOk result (λ many. IsTrue many → PassesLimit 64 narrowed text.now Cap.Units) }
    ensures few { IfOk result (λ many. IsFalse many → HasFewUnits narrowed text.now) }
{
    if text.len() > Cap::MOST_PROGRAM_BYTES {
        return Ok(false);
    }
    let Some((flat, widths)) = ready_in(alloc, text, narrowed)? else {
        return Ok(false);
    };
    match plan_of(alloc, &flat, &widths, 64) {
        Ok(_) => Ok(false),
        Err(CutFault::Limit(cap)) => Ok(is_units(cap)),
        Err(CutFault::Memory(error)) => Err(error),
    }
}

/// Whether so many items have too many units, with what the last of them assigns as an output more.
fn has_many_before(
    alloc: Global,
    source: &Source,
    narrowed: bool,
    items: usize,
) -> Result<bool, AllocError>
    ensures many { let source = source.now in IfOk result (λ many. IsTrue many →
        HasManyUnits narrowed source.text.now source.tokens.now source.spans.now items) }
    ensures few { let source = source.now in IfOk result (λ many. IsFalse many →
        HasFewUnitsBefore narrowed source.text.now source.tokens.now source.spans.now items) }
{
    let text = with_output(alloc, source, items)?;
    has_many_units(alloc, &text, narrowed)
}

/// Whether so many items have too many units.
#[derive(Clone, Copy)]
struct Crowds<'a> {
    source: Source<'a>,
    narrowed: bool,
}

impl<'a> Question for Crowds<'a> {
    ghost can_ask = { λ s. ⊤ };

    ghost yes = { λ s count.
        HasManyUnits s.narrowed s.source.text.now s.source.tokens.now s.source.spans.now count };

    ghost no = { λ s count. 0 < count →
        HasFewUnitsBefore s.narrowed s.source.text.now s.source.tokens.now s.source.spans.now count };

    fn ask(&self, alloc: Global, count: usize) -> Result<bool, AllocError> {
        has_many_before(alloc, &self.source, self.narrowed, count)
    }
}

/// An item with which the program has too many units, where it has not without it and those behind it; the number of
/// items where it has not.
pub fn units_item(alloc: Global, source: &Source, narrowed: bool) -> Result<usize, AllocError>
    ensures { IfOk result
        (IsManyUnitsWith narrowed source.now.text.now source.now.tokens.now source.now.spans.now) }
{
    let crowds = Crowds {
        source: *source,
        narrowed,
    };
    item_with(alloc, &crowds, source.spans.len())
}
