//! The rows of the last samples.

ghost use Rattle.std.specs.Prelude.{◌≡◌, ◌==◌, ◌<◌, ◌≤◌, ◌+◌, ℕ, [], ◌∷◌, Some, List, length, slice_get, take, All, IfOk};
ghost use Rattle.pr_flat.specs.Values.{number_before};

use pr_base::Num;
use std::alloc::{AllocError, Global};
use std::collections::VecDeque;
use std::marker::Model;
use std::mem;

/// One number for each equation.
#[derive(Drop)]
pub struct Row {
    pub numbers: Vec<Num>,
}

impl Model for Row {
    ghost Value = { List ℕ };

    ghost view = { λ r. r.numbers.items };
}

/// A row of so many zeros.
pub fn zeros(alloc: Global, size: usize) -> Result<Row, AllocError>
    ensures { IfOk result (λ r. length r ≡ size) }
{
    let numbers = vec![in alloc; 0; size]?;
    Ok(Row { numbers })
}

/// The rows of the last samples, so many as are looked back on.
#[derive(Drop)]
pub struct Recent {
    // The latest row stands first. Behind the rows of samples there is room for more.
    rows: VecDeque<Row>,
    // How many of them are rows of samples.
    filled: usize,
    pub ghost within: { filled ≤ length rows.items },
    pub ghost some: { 1 ≤ length rows.items },
}

impl Recent {
    ghost use Rattle.pr_source.specs.Keeping.{kept, slots, HaveSize};

    /// Room for so many rows of so many numbers each.
    pub fn new(alloc: Global, count: usize, size: usize) -> Result<Recent, AllocError>
        requires { 1 ≤ count }
        ensures slots { IfOk result (λ r. slots r ≡ count) }
        ensures kept { IfOk result (λ r. kept r ≡ []) }
        ensures size { IfOk result (λ r. HaveSize size r) }
    {
        let mut rows = VecDeque::with_capacity(alloc, count)?;
        for _ in 0..count {
            rows.push_back(zeros(alloc, size)?)?;
        }
        Ok(Recent { rows, filled: 0 })
    }

    /// The number of an equation so many rows before; this one where there are not so many.
    pub fn number(&self, equation: usize, back: usize, initial: Num) -> Num
        requires back { 1 ≤ back }
        requires equation { All (λ row. equation < length row) (kept self.now) }
        ensures { result ≡ number_before (kept self.now) equation back initial }
    {
        if back > self.filled {
            return initial;
        }
        self.rows[back - 1].numbers[equation]
    }

    /// Whether there is no row of a sample.
    pub fn is_empty(&self) -> bool
        ensures { result ≡ (length (kept self.now) == 0) }
    {
        self.filled == 0
    }

    /// Keeps a row as the latest, and puts the room of the one that is looked back on no more in its place.
    pub fn keep(&mut self, row: &mut Row)
        ensures kept { kept self.new ≡ take (slots self.old) (row.old ∷ kept self.old) }
        ensures slots { slots self.new ≡ slots self.old }
        ensures size { (size : ℕ) → HaveSize size self.old → length row.old ≡ size → HaveSize size self.new }
        ensures room { (size : ℕ) → HaveSize size self.old → length row.new ≡ size }
    {
        self.rows.rotate_right(1);
        mem::swap(&mut self.rows[0], row);
        self.filled = (self.filled + 1).min(self.rows.len());
    }
}
