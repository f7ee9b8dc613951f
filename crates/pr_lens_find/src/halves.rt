//! Searches by halves.

ghost use Rattle.std.specs.Prelude.{ℕ, ◌<◌, ◌≤◌, ◌⊎◌, IfNone, IfOk, IfSome, IsFalse, IsTrue};
ghost use Rattle.pr_lens_find.specs.Turns.{IsTurn, IsItemWith};

use std::alloc::{AllocError, Global};

/// What is asked of counts. Where the answer is yes it mostly is for all greater counts too, and then there is one turn.
pub trait Question {
    ghost can_ask: { Self → Type 0 };

    ghost yes: { Self → ℕ → Type 0 };

    ghost no: { Self → ℕ → Type 0 };

    /// Whether the answer is yes.
    fn ask(&self, alloc: Global, count: usize) -> Result<bool, AllocError>
        requires { can_ask self.now }
        ensures when_yes { IfOk result (λ answer. IsTrue answer → yes self.now count) }
        ensures when_no { IfOk result (λ answer. IsFalse answer → no self.now count) };
}

/// A turn between two counts, where the answers differ.
fn turn<Q: Question>(
    alloc: Global,
    question: &Q,
    low: usize,
    high: usize,
) -> Result<usize, AllocError>
    requires can { Q.can_ask question.now }
    requires order { low < high }
    requires no { Q.no question.now low }
    requires yes { Q.yes question.now high }
    ensures { IfOk result (IsTurn (Q.no question.now) (Q.yes question.now) low high) }
{
    let mut below = low;
    let mut above = high;
    'halves: while above - below > 1 {
        let middle = below + (above - below) / 2;
        if question.ask(alloc, middle)? {
            above = middle;
        } else {
            below = middle;
        }
    }
    Ok(above)
}

/// A turn above a count of which the answer is no, where it is yes of a greater one.
pub fn turn_above<Q: Question>(
    alloc: Global,
    question: &Q,
    low: usize,
    high: usize,
) -> Result<Option<usize>, AllocError>
    requires can { Q.can_ask question.now }
    requires no { Q.no question.now low }
    ensures some { IfOk result (λ found. IfSome found
        (IsTurn (Q.no question.now) (Q.yes question.now) low high)) }
    ensures none { IfOk result (λ found. IfNone found ((high ≤ low) ⊎ Q.no question.now high)) }
{
    if high <= low {
        return Ok(None);
    }
    if !question.ask(alloc, high)? {
        return Ok(None);
    }
    let count = turn(alloc, question, low, high)?;
    Ok(Some(count))
}

/// A turn between two counts, where the answer is no of the lesser one and yes of the greater one.
pub fn turn_between<Q: Question>(
    alloc: Global,
    question: &Q,
    low: usize,
    high: usize,
) -> Result<Option<usize>, AllocError>
    requires { Q.can_ask question.now }
    ensures some { IfOk result (λ found. IfSome found
        (IsTurn (Q.no question.now) (Q.yes question.now) low high)) }
    ensures none { IfOk result (λ found. IfNone found
        (Q.yes question.now low ⊎ ((high ≤ low) ⊎ Q.no question.now high))) }
{
    if question.ask(alloc, low)? {
        return Ok(None);
    }
    turn_above(alloc, question, low, high)
}

/// The item with which the answer becomes yes of so many items, from the first on; their number where it is no of them
/// all.
pub fn item_with<Q: Question>(
    alloc: Global,
    question: &Q,
    items: usize,
) -> Result<usize, AllocError>
    requires can { Q.can_ask question.now }
    requires no { Q.no question.now 0 }
    ensures { IfOk result (IsItemWith (Q.no question.now) (Q.yes question.now) items) }
{
    match turn_above(alloc, question, 0, items)? {
        None => Ok(items),
        Some(count) => Ok(count.saturating_sub(1)),
    }
}
