//! Files that are read from any place.
ghost use Rattle.std.specs.Prelude.{◌≡◌, ◌≢◌, ℕ, ◌^◌, ◌<◌, ◌≤◌, ◌+◌, ◌⊎◌, List, length, Option, IfOk, OnOk, OnErr, IsErr, IsErrOf};
ghost use Rattle.pr_edge.specs.Files.{View, OfFile, IsMissing, IsPart, HasReadCause, reach_after, IsReadOnce, IsReadThrough};

use crate::Failed;
use std::alloc::{AllocError, Global};
use thiserror::Error;

/// Files by their names.
///
/// A shelf may tell the bytes of its files. It may also tell how many bytes of each were read in order, from its start
/// on: this is the reach of the file. A read that gives bytes from any other place leaves the file without a reach. A
/// shelf over a real file system tells neither.
pub trait Shelf {
    ghost view: { Self → View };

    /// Reads bytes of a file from a place on, as many as it likes up to the buffer's length, and says how many.
    fn read_at(&mut self, name: &str, place: u64, buf: &mut [u8]) -> Result<usize, Failed>
        ensures bound { IfOk result (λ k. k ≤ length buf.new) }
        ensures part { IfOk result (λ k. OfFile (view self.old).told name.now (λ file. IsPart file place k buf.new)) }

        // A file that is told not to be there is no fault.
        ensures missing { IsMissing (view self.old).told name.now → IsErr result
            × ((view self.new).faults ≡ (view self.old).faults) }
        ensures cause { OnErr result
            (HasReadCause (view self.old).told name.now (view self.old).faults (view self.new).faults) }
        ensures later { (view self.old).faults ≤ (view self.new).faults }
        ensures steady { OnOk result ((view self.new).faults ≡ (view self.old).faults) }

        ensures same { (view self.new).told ≡ (view self.old).told }
        ensures reached { (view self.new).reach name.now ≡ reach_after result ((view self.old).reach name.now) place }
        ensures others { (q : List ℕ) → q ≢ name.now → (view self.new).reach q ≡ (view self.old).reach q };

    ghost counted: { (s : Self) → (view s).faults < 2 ^ 64 };
}

/// Why a file could not be read whole.
#[derive(Debug, Drop, Error)]
pub enum ReadAll {
    #[error("a read failed")]
    ReadFault,
    #[error("the file is too long")]
    TooLong,
    #[error("out of memory")]
    Memory(AllocError),
}

/// Reads a file whole, if it has at most `limit` bytes.
///
/// It ends as soon as it has read a byte after these.
pub fn read_all<S: Shelf>(
    alloc: Global,
    shelf: &mut S,
    name: &str,
    limit: usize,
) -> Result<Vec<u8>, ReadAll>
    ensures bytes { IfOk result (λ v. OfFile (S.view shelf.old).told name.now (λ file. v.items ≡ file)) }
    ensures short { IfOk result (λ v. length v.items ≤ limit) }
    ensures long { IsErrOf result ReadAll.TooLong
        → OfFile (S.view shelf.old).told name.now (λ file. limit < length file) }

    ensures missing { IsMissing (S.view shelf.old).told name.now →
        IsErrOf result ReadAll.ReadFault × ((S.view shelf.new).faults ≡ (S.view shelf.old).faults) }
    ensures cause { IsErrOf result ReadAll.ReadFault →
        HasReadCause (S.view shelf.old).told name.now (S.view shelf.old).faults (S.view shelf.new).faults }
    ensures later { (S.view shelf.old).faults ≤ (S.view shelf.new).faults }

    // A read that fails is not tried again: it ends with ReadFault.
    ensures steady { IsErrOf result ReadAll.ReadFault ⊎ (S.view shelf.new).faults ≡ (S.view shelf.old).faults }

    // It reads the bytes in order and each of them once, at most 4,096 past the limit.
    ensures once { IsReadOnce (limit + 4096) ((S.view shelf.old).reach name.now) ((S.view shelf.new).reach name.now) }
    ensures all { IfOk result
        (λ v. IsReadThrough (length v.items) ((S.view shelf.old).reach name.now) ((S.view shelf.new).reach name.now)) }

    ensures same { (S.view shelf.new).told ≡ (S.view shelf.old).told }
    ensures others { (q : List ℕ) → q ≢ name.now → (S.view shelf.new).reach q ≡ (S.view shelf.old).reach q }
{
    let mut bytes = Vec::new(alloc);
    let mut chunk = [0u8; 4096];
    while bytes.len() <= limit {
        match shelf.read_at(name, bytes.len() as u64, &mut chunk) {
            Err(_) => return Err(ReadAll::ReadFault),
            Ok(count) => {
                if count == 0 {
                    return Ok(bytes);
                }
                bytes
                    .extend_from_slice(&chunk[..count])
                    .map_err(ReadAll::Memory)?;
            }
        }
    }
    Err(ReadAll::TooLong)
}
