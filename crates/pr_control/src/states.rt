//! The states of all stages, one row of bytes for each.

ghost use Rattle.std.specs.Prelude.{ℕ, ◌≡◌, ◌≢◌, ◌+◌, ◌*◌, ◌%◌, ◌<◌, ◌≤◌, IfOk, Some, List, length, slice_get, slice_set};
ghost use Rattle.pr_control.specs.StateRows.{row_in, rows_in};

use std::alloc::{AllocError, Global};
use std::marker::Model;

/// Row `at` of rows of `size` bytes.
fn row_at(bytes: &[u8], size: usize, at: usize) -> &[u8]
    requires { (at + 1) * size ≤ length bytes.now }
    ensures { result.now ≡ row_in size bytes.now at }
{
    let start = at * size;
    &bytes[start..start + size]
}

/// Puts row `at` of rows that are as long as this one.
fn put_row(bytes: &mut [u8], at: usize, row: &[u8])
    requires { (at + 1) * length row.now ≤ length bytes.old }
    ensures put { row_in (length row.now) bytes.new at ≡ row.now }
    ensures others { (k : ℕ) → k ≢ at → row_in (length row.now) bytes.new k ≡ row_in (length row.now) bytes.old k }
{
    let start = at * row.len();
    bytes[start..start + row.len()].copy_from_slice(row);
}

/// A row of N state bytes for each stage, kept in one piece of memory. Contracts see the list of rows.
#[derive(Drop)]
pub struct Store<const N: usize> {
    bytes: Vec<u8>,
}

impl<const N: usize> Model for Store<N> {
    ghost use Rattle.std.specs.Prelude.{ℕ, List};
    ghost use Rattle.pr_control.specs.StateRows.{rows_in};

    ghost Value = { List (List ℕ) };

    ghost view = { λ s. rows_in N s.bytes.items };
}

impl<const N: usize> Store<N> {
    /// A store of these rows, which lie one after the other.
    pub fn make(alloc: Global, rows: &[u8]) -> Result<Store<N>, AllocError>
        requires { length rows.now % N ≡ 0 }
        ensures rows { IfOk result (λ s. s ≡ rows_in N rows.now) }
        ensures count { IfOk result (λ s. length s * N ≡ length rows.now) }
    {
        let bytes = Vec::from_slice(alloc, rows)?;
        Ok(Store { bytes })
    }

    /// The state row of a stage.
    pub fn row(&self, stage: u32) -> &[u8]
        requires { stage < length self.now }
        ensures row { slice_get self.now stage ≡ Some result.now }
        ensures size { length result.now ≡ N }
    {
        row_at(&self.bytes, N, stage as usize)
    }

    /// Puts the state row of a stage. Every other row stays.
    pub fn put(&mut self, stage: u32, row: &[u8])
        requires stage { stage < length self.old }
        requires size { length row.now ≡ N }
        ensures { self.new ≡ slice_set self.old stage row.now }
    {
        put_row(&mut self.bytes, stage as usize, row);
    }
}
