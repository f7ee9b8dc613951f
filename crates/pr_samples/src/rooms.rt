//! Lists that have room for what they hold, and for no more.
ghost use Rattle.std.specs.Prelude.{◌≡◌, IfOk, replicate, vec_capacity, vec_len};

use std::alloc::{AllocError, Global};

/// A list that holds a value so many times, and has room for no more.
#[tactic(auto, using(std::proofs::lemmas::List::replicate_more))]
pub fn filled<T: Copy>(alloc: Global, value: T, count: usize) -> Result<Vec<T>, AllocError>
    ensures items { IfOk result (λ v. v.items ≡ replicate count value) }
    ensures length { IfOk result (λ v. vec_len v ≡ count) }
    ensures room { IfOk result (λ v. vec_capacity v ≡ count) }
{
    let mut list = Vec::with_capacity(alloc, count)?;
    for _ in 0..count {
        list.push_reserved(value);
    }
    Ok(list)
}
