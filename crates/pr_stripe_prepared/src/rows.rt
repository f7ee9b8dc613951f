//! Rows that are made item by item.

ghost use Rattle.std.specs.Prelude.{ℕ, ◌≡◌, length, slice_index_or};
ghost use Rattle.pr_stripe_prepared.specs.Rows.{EachItem};

/// A row of what `f` makes of each item, by its place.
pub(crate) fn made_of<X: Copy, T: Copy + Default, const N: usize, F: Fn(usize, X) -> T>(
    items: &[X],
    f: F,
) -> [T; N]
    requires items { length items.now ≡ N }
    requires calls { EachItem N items.now (λ k x. F.pre f k x) }
    ensures long { length result ≡ N }
    ensures each { (e : T) → EachItem N items.now (λ k x. F.post f k x (slice_index_or result k e)) }
{
    let mut row = [T::default(); N];
    for k in 0..N {
        row[k] = f(k, items[k]);
    }
    row
}
