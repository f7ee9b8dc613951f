//! Lists of numbers, one after the other.

ghost use Rattle.std.specs.Prelude.{◌≡◌, ◌<◌, ◌≤◌, ◌+◌, ℕ, length, slice_index};

/// Lists of numbers, one after the other.
#[derive(Drop)]
pub struct Lists {
    /// Where each list begins, and last where the last one ends.
    pub starts: Vec<usize>,
    /// The numbers of all lists.
    pub items: Vec<usize>,
    ghost some: { 0 < length starts.items },
    ghost order: { (g : ℕ) → g + 1 < length starts.items
        → slice_index starts.items g ≤ slice_index starts.items (g + 1) },
    ghost inside: { (g : ℕ) → g < length starts.items → slice_index starts.items g ≤ length items.items },
}

impl Lists {
    ghost use Rattle.std.specs.Prelude.{[], slice_index_or};
    ghost use Rattle.pr_place.specs.Lists.{pieces};

    /// How many lists there are.
    pub fn len(&self) -> usize
        ensures { result + 1 ≡ length self.now.starts.items }
    {
        self.starts.len() - 1
    }

    /// One of the lists.
    pub fn of(&self, list: usize) -> &[usize]
        requires { list + 1 < length self.now.starts.items }
        ensures { result.now ≡ slice_index_or (pieces self.now.starts.items self.now.items.items) list [] }
    {
        let from = self.starts[list];
        let to = self.starts[list + 1];
        &self.items[from..to]
    }
}
