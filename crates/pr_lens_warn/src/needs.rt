//! Names that a result needs.

ghost use Rattle.std.specs.Prelude.{◌≡◌, ◌+◌, ◌<◌, ◌≤◌, ℕ, true, false, length, map, IfOk, IsFalse, IsTrue};
ghost use Rattle.pr_lens_source.specs.Introduced.{is_same_name};
ghost use Rattle.pr_lens_source.specs.Kinds.{yields};
ghost use Rattle.pr_lens_source.specs.Ranges.{one_where};
ghost use Rattle.pr_lens_warn.specs.Needs.{AreNeeded, AreSettled, AreSound, IsSettled, IsUnusedBetween, IsUsed, Uses, is_assigned, is_marked, is_use, scope_of, unmarked};

use pr_lang::Token;
use pr_lens_source::{Source, assigns, is_fn, is_name, is_semi, yields};
use std::alloc::{AllocError, Global};

/// Whether a name is assigned at this token, or read from a sample.
pub fn is_assigned(source: &Source, at: usize) -> bool
    ensures { result ≡ is_assigned source.now.tokens.now at }
{
    is_name(source.kind(at)) && assigns(source.kind(at.saturating_sub(1)))
}

/// The first token of the function in which a token stands, and the number of tokens outside of all.
pub fn scope_of(source: &Source, at: usize) -> usize
    ensures { result ≡ scope_of source.now.tokens.now source.now.spans.now at }
{
    let first = source.first(source.item_at(at));
    if is_fn(source.kind(first)) {
        first
    } else {
        source.tokens.len()
    }
}

/// Whether a token is a name, and the same one as another token.
#[tactic(auto, unfolding(pr_lens_source::specs::Introduced::is_same_name))]
fn is_same_name(source: &Source, at: usize, other: usize) -> bool
    ensures { result ≡ is_same_name source.now.text.now source.now.tokens.now at other }
{
    is_name(source.kind(at)) && source.bytes(at) == source.bytes(other)
}

/// Whether a token is the name that is assigned at another one.
#[tactic(auto, unfolding(crate::specs::Needs::is_use))]
pub fn is_use(source: &Source, assigned: usize, at: usize) -> bool
    ensures { result
        ≡ is_use source.now.text.now source.now.tokens.now source.now.spans.now assigned at }
{
    is_same_name(source, at, assigned) && scope_of(source, at) == scope_of(source, assigned)
}

/// Whether the statement of one token uses the name that is assigned at another one.
fn uses(source: &Source, statement: usize, assigned: usize) -> bool
    requires { statement < length source.now.tokens.now }
    ensures yes { let source = source.now in
        IsTrue result → Uses source.text.now source.tokens.now source.spans.now statement assigned }
    ensures no { let source = source.now in IsFalse result
        → Uses source.text.now source.tokens.now source.spans.now statement assigned → ⊥ }
{
    for at in statement + 1..source.tokens.len() {
        if is_semi(source.kind(at)) {
            return false;
        }
        if is_use(source, assigned, at) {
            return true;
        }
    }
    false
}

/// Whether a marked statement from one token up to before another uses the name that is assigned at a token.
fn is_used_between(source: &Source, marks: &[bool], from: usize, to: usize, assigned: usize) -> bool
    requires count { length marks.now ≡ length source.now.tokens.now }
    requires within { to ≤ length marks.now }
    ensures yes { let source = source.now in IsTrue result
        → IsUsed source.text.now source.tokens.now source.spans.now marks.now assigned }
    ensures no { let source = source.now in IsFalse result
        → IsUnusedBetween source.text.now source.tokens.now source.spans.now marks.now from to assigned }
{
    for statement in from..to {
        if marks[statement] && uses(source, statement, assigned) {
            return true;
        }
    }
    false
}

/// Whether a marked statement uses the name that is assigned at a token. Mostly one does that stands soon behind it, so
/// these come first.
#[tactic(auto, using(crate::proofs::NeedLemmas::used_nowhere))]
fn is_used(source: &Source, marks: &[bool], assigned: usize) -> bool
    requires count { length marks.now ≡ length source.now.tokens.now }
    requires within { assigned < length marks.now }
    ensures yes { let source = source.now in IsTrue result
        → IsUsed source.text.now source.tokens.now source.spans.now marks.now assigned }
    ensures no { let source = source.now in IsFalse result
        → IsUsed source.text.now source.tokens.now source.spans.now marks.now assigned → ⊥ }
{
    is_used_between(source, marks, assigned, marks.len(), assigned)
        || is_used_between(source, marks, 0, assigned, assigned)
}

/// Whether the name that is assigned at a token is to be marked: it is not, and a marked statement uses it.
fn is_new(source: &Source, marks: &[bool], at: usize) -> bool
    requires count { length marks.now ≡ length source.now.tokens.now }
    requires within { at < length marks.now }
    ensures unmarked { IsTrue result → is_marked marks.now at ≡ false }
    ensures assigned { IsTrue result → is_assigned source.now.tokens.now at ≡ true }
    ensures used { let source = source.now in IsTrue result
        → IsUsed source.text.now source.tokens.now source.spans.now marks.now at }
    ensures settled { let source = source.now in IsFalse result
        → IsSettled source.text.now source.tokens.now source.spans.now marks.now at }
{
    if marks[at] || !is_assigned(source, at) {
        return false;
    }
    is_used(source, marks, at)
}

/// Marks names that marked statements use, from the last one on; whether one was marked anew.
fn mark_used(source: &Source, marks: &mut [bool]) -> bool
    requires count { length marks.old ≡ length source.now.tokens.now }
    requires sound { AreSound source.now.text.now source.now.tokens.now source.now.spans.now marks.old }
    ensures sound { AreSound source.now.text.now source.now.tokens.now source.now.spans.now marks.new }
    ensures kept { (k : ℕ) → is_marked marks.old k ≡ true → is_marked marks.new k ≡ true }
    ensures fewer { unmarked marks.new + one_where result ≤ unmarked marks.old }
    ensures settled { let source = source.now in IsFalse result
        → AreSettled source.text.now source.tokens.now source.spans.now marks.new 0 }
{
    let mut more = false;
    let mut at = marks.len();
    while 0 < at {
        at -= 1;
        if is_new(source, marks, at) {
            marks[at] = true;
            more = true;
        }
    }
    more
}

/// Marks all names that marked statements use, directly or through others.
fn mark_all(source: &Source, marks: &mut [bool])
    requires count { length marks.old ≡ length source.now.tokens.now }
    requires sound { AreSound source.now.text.now source.now.tokens.now source.now.spans.now marks.old }
    ensures sound { AreSound source.now.text.now source.now.tokens.now source.now.spans.now marks.new }
    ensures kept { (k : ℕ) → is_marked marks.old k ≡ true → is_marked marks.new k ≡ true }
    ensures settled { AreSettled source.now.text.now source.now.tokens.now source.now.spans.now marks.new 0 }
{
    let mut more = true;
    while more {
        more = mark_used(source, marks);
    }
}

/// Marks of the words before results.
fn results(alloc: Global, tokens: &[Token]) -> Result<Vec<bool>, AllocError>
    ensures { IfOk result (λ marks. marks.items ≡ map (λ t. yields t.kind) tokens.now) }
{
    tokens.iter().map(|token| yields(token.kind)).collect(alloc)
}

/// Marks of the statements that a result needs: of the words before results, and of the names that are assigned in
/// others.
pub fn needed(alloc: Global, source: &Source) -> Result<Vec<bool>, AllocError>
    ensures { let source = source.now in IfOk result (λ marks.
        AreNeeded source.text.now source.tokens.now source.spans.now marks.items) }
{
    let mut marks = results(alloc, source.tokens)?;
    mark_all(source, &mut marks);
    Ok(marks)
}
