//! A sink in memory that never fails.
ghost use Rattle.std.proofs.Common.{arith};
ghost use Rattle.std.specs.Prelude.{◌≡◌, ℕ, ◌^◌, ◌<◌, ◌≤◌, ◌+◌, ◌++◌, ◌||◌, nat_lt, length, take, vec_len, vec_capacity, [], false, IfOk, IsOk, OnOk, OnErr};
ghost use Rattle.pr_edge.specs.Count.{Rose};
ghost use Rattle.pr_edge.specs.Tape.{Appends};

use crate::{Failed, Sink};
use std::alloc::{AllocError, Global};

/// Bytes in memory with room for a number of them. What does not fit is dropped, and it does not tell its bytes
/// from then on.
#[derive(Drop)]
pub struct SureSink {
    kept: Vec<u8>,
    room: usize,
    dropped: bool,
    ghost within: { vec_len kept ≤ room },
    ghost reserved: { room ≤ vec_capacity kept },
}

impl SureSink {
    ghost use Rattle.pr_edge.specs.SureSink.{bytes_of, room_of, has_dropped};

    /// An empty sink with room for this many bytes.
    pub fn make(alloc: Global, room: usize) -> Result<SureSink, AllocError>
        ensures bytes { IfOk result (λ s. bytes_of s ≡ []) }
        ensures room { IfOk result (λ s. room_of s ≡ room) }
        ensures dropped { IfOk result (λ s. has_dropped s ≡ false) }
    {
        let kept = Vec::with_capacity(alloc, room)?;
        Ok(SureSink {
            kept,
            room,
            dropped: false,
        })
    }

    /// The bytes that are kept: the first ones written, as many as there is room for.
    pub fn bytes(&self) -> &[u8]
        ensures { result.now ≡ bytes_of self.now }
    {
        &self.kept
    }
}

impl Sink for SureSink {
    ghost use Rattle.pr_edge.specs.SureSink.{bytes_of, room_of, has_dropped, view_of, told_of, faults_of};

    ghost view = { view_of };

    ghost counted = { λ _. Prim.omega arith };

    fn write(&mut self, bytes: &[u8]) -> Result<usize, Failed>
        ensures bound { IfOk result (λ k. k ≤ length bytes.now) }
        ensures some { IfOk result (λ k. 0 < length bytes.now → 0 < k) }
        ensures empty { length bytes.now ≡ 0 → IsOk result }
        ensures appended { IfOk result (λ k. Appends (told_of self.old) (told_of self.new) (take k bytes.now)) }
        ensures unchanged { OnErr result (told_of self.new ≡ told_of self.old) }
        ensures cause { OnErr result (Rose (faults_of self.old) (faults_of self.new)) }
        ensures later { faults_of self.old ≤ faults_of self.new }
        ensures steady { OnOk result (faults_of self.new ≡ faults_of self.old) }

        // Each piece is taken whole, and what does not fit of it is dropped.
        ensures answer { result ≡ Ok (length bytes.now) }
        ensures kept { bytes_of self.new ≡ take (room_of self.old) (bytes_of self.old ++ bytes.now) }
        ensures dropped { has_dropped self.new ≡
            (has_dropped self.old || nat_lt (room_of self.old) (length (bytes_of self.old) + length bytes.now)) }
    {
        let fitting = bytes.len().min(self.room - self.kept.len());
        self.kept.extend_from_slice(&bytes[..fitting]).unwrap();
        if fitting < bytes.len() {
            self.dropped = true;
        }
        Ok(bytes.len())
    }
}
