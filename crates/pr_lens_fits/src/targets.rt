//! Texts that end earlier, with what their last item assigns as an output.

ghost use Rattle.std.specs.Prelude.{◌≡◌, ◌≤◌, ℕ, IfOk, All};
ghost use Rattle.pr_lens_source.specs.Tokens.{first_of};
ghost use Rattle.pr_lens_fits.specs.Targets.{IsShort, IsTarget, IsTargetEnd, IsWithOutput, ends_target};

use pr_lang::{Kind, Symbol};
use pr_lens_source::{Source, is_assigning};
use std::alloc::{AllocError, Global};

/// The bytes of the longest token of a text.
fn longest_token(source: &Source) -> usize
    ensures all { All (IsShort result) source.now.tokens.now }
    ensures least { (n : ℕ) → All (IsShort n) source.now.tokens.now → result ≤ n }
{
    let mut longest = 0;
    for token in source.tokens {
        longest = longest.max((token.end as usize).saturating_sub(token.start as usize));
    }
    longest
}

/// Whether a target ends before this token.
fn ends_target(kind: Kind) -> bool
    ensures { result ≡ ends_target kind }
{
    matches!(
        kind,
        Kind::Mark(Symbol::Colon) | Kind::Mark(Symbol::Assign) | Kind::End
    )
}

/// The first token from this one on before which a target ends.
fn target_end(source: &Source, first: usize) -> usize
    ensures { IsTargetEnd source.now.tokens.now first result }
{
    let mut end = first;
    while end < source.tokens.len() && !ends_target(source.kind(end)) {
        end += 1;
    }
    end
}

/// The text of the target of an assignment or a recurrence; none of another item.
fn target_of<'a>(source: &Source<'a>, item: usize) -> &'a [u8]
    ensures { let source = source.now in
        IsTarget source.text.now source.tokens.now (first_of source.tokens.now source.spans.now item) result.now }
{
    let first = source.first(item);
    if !is_assigning(source.kind(first)) {
        return &[];
    }
    let from = source.start(first.saturating_add(1));
    let to = source.start(target_end(source, first));
    if from <= to {
        &source.text[from..to]
    } else {
        &[]
    }
}

/// The text of so many items, with what the last of them assigns as an output more, under a name that has one letter more
/// than the longest token.
pub fn with_output(alloc: Global, source: &Source, items: usize) -> Result<Vec<u8>, AllocError>
    ensures { let source = source.now in IfOk result (λ whole.
        IsWithOutput source.text.now source.tokens.now source.spans.now items whole.items) }
{
    let mut text = Vec::new(alloc);
    text.extend_from_slice(source.front(items))?;
    let target = target_of(source, items.saturating_sub(1));
    if target.is_empty() {
        return Ok(text);
    }
    let letters = vec![in alloc; b'p'; longest_token(source)]?;
    text.extend_from_slice(b"\noutput ")?;
    text.extend_from_slice(&letters)?;
    text.extend_from_slice(b"p = ")?;
    text.extend_from_slice(target)?;
    text.push(b';')?;
    Ok(text)
}
