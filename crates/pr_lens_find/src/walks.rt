//! Walks that are too long.

ghost use Rattle.std.specs.Prelude.{◌<◌, ◌≤◌, length, IfOk, IsFalse, IsTrue};
ghost use Rattle.pr_scope.specs.Walk.{too_long};
ghost use Rattle.pr_compile_front.specs.Refusals.{HasOffence};
ghost use Rattle.pr_lens_source.specs.Tokens.{front_text};
ghost use Rattle.pr_lens_find.specs.Fronts.{IsNotLong, IsLongWith};

use crate::fronts::{Seen, front_of, see};
use crate::halves::{Question, item_with};
use pr_lens_source::Source;
use std::alloc::{AllocError, Global};

/// Whether the walk over the items before this one is too long.
fn is_too_long(alloc: Global, source: &Source, item: usize) -> Result<bool, AllocError>
    requires { length source.now.text.now ≤ 1048576 }
    ensures long { let front = front_text source.now.text.now source.now.tokens.now source.now.spans.now item in
        IfOk result (λ long. IsTrue long → HasOffence front too_long) }
    ensures short { let front = front_text source.now.text.now source.now.tokens.now source.now.spans.now item in
        IfOk result (λ long. IsFalse long → IsNotLong front) }
{
    match front_of(alloc, source, item)? {
        None => Ok(false),
        Some(program) => match see(alloc, program)? {
            Seen::TooLong => Ok(true),
            Seen::Kept => Ok(false),
            Seen::Broken { rule: _, item: _ } => Ok(false),
        },
    }
}

/// Whether the walk over so many items is too long.
#[derive(Clone, Copy)]
struct Walks<'a> {
    source: Source<'a>,
}

impl<'a> Question for Walks<'a> {
    ghost can_ask = { λ s. length s.source.text.now ≤ 1048576 };

    ghost yes = { λ s count.
        HasOffence (front_text s.source.text.now s.source.tokens.now s.source.spans.now count) too_long };

    ghost no = { λ s count. 0 < count →
        IsNotLong (front_text s.source.text.now s.source.tokens.now s.source.spans.now count) };

    fn ask(&self, alloc: Global, count: usize) -> Result<bool, AllocError> {
        is_too_long(alloc, &self.source, count)
    }
}

/// The item with which the walk over a program becomes too long; the number of items where it does not.
pub fn turns_item(alloc: Global, source: &Source) -> Result<usize, AllocError>
    requires { length source.now.text.now ≤ 1048576 }
    ensures { IfOk result (IsLongWith source.now.text.now source.now.tokens.now source.now.spans.now) }
{
    let walks = Walks { source: *source };
    item_with(alloc, &walks, source.spans.len())
}
