//! A sink in memory that tells all that was written, and whose calls fail as it was told.
ghost use Rattle.std.specs.Prelude.{◌≡◌, ℕ, ◌^◌, ◌<◌, ◌≤◌, length, take, vec_len, vec_capacity, [], Some, None, IfOk, IsOk, OnOk, OnErr, if◌then◌else◌};
ghost use Rattle.std.specs.Result.{result_ok};
ghost use Rattle.pr_edge.specs.Count.{Rose, next_count};
ghost use Rattle.pr_edge.specs.Tape.{Appends};

use crate::{Failed, Sink};
use std::alloc::{AllocError, Global};

/// Bytes in memory with room for a number of them, and the numbers of the calls that fail. Calls are counted from 1.
#[derive(Drop)]
pub struct MemSink {
    kept: Vec<u8>,
    room: usize,
    failing: Vec<u64>,
    calls: u64,
    faults: u64,
    ghost within: { vec_len kept ≤ room },
    ghost reserved: { room ≤ vec_capacity kept },
    ghost in_range: { faults < 2 ^ 64 },
}

impl MemSink {
    ghost use Rattle.pr_edge.specs.MemSink.{bytes_of, room_of, failing_of, calls_of, faults_of};

    /// An empty sink with room for this many bytes. `faults` has the numbers of the calls that are to fail.
    ///
    /// A write past the room fails too, and each failure is counted.
    pub fn make(alloc: Global, room: usize, faults: Vec<u64>) -> Result<MemSink, AllocError>
        ensures bytes { IfOk result (λ s. bytes_of s ≡ []) }
        ensures room { IfOk result (λ s. room_of s ≡ room) }
        ensures failing { IfOk result (λ s. failing_of s ≡ faults.items) }
        ensures calls { IfOk result (λ s. calls_of s ≡ 0) }
        ensures faults { IfOk result (λ s. faults_of s ≡ 0) }
    {
        let kept = Vec::with_capacity(alloc, room)?;
        Ok(MemSink {
            kept,
            room,
            failing: faults,
            calls: 0,
            faults: 0,
        })
    }

    /// The bytes that were written.
    pub fn bytes(&self) -> &[u8]
        ensures { result.now ≡ bytes_of self.now }
    {
        &self.kept
    }
}

impl Sink for MemSink {
    ghost use Rattle.pr_edge.specs.MemSink.{view_of, told_of, failing_of, calls_of, faults_of, refuses_next, faults_after};

    ghost view = { view_of };

    ghost counted = { λ s. s.in_range };

    fn write(&mut self, bytes: &[u8]) -> Result<usize, Failed>
        ensures bound { IfOk result (λ k. k ≤ length bytes.now) }
        ensures some { IfOk result (λ k. 0 < length bytes.now → 0 < k) }
        ensures empty { length bytes.now ≡ 0 → IsOk result }
        ensures appended { IfOk result (λ k. Appends (told_of self.old) (told_of self.new) (take k bytes.now)) }
        ensures unchanged { OnErr result (told_of self.new ≡ told_of self.old) }
        ensures cause { OnErr result (Rose (faults_of self.old) (faults_of self.new)) }
        ensures later { faults_of self.old ≤ faults_of self.new }
        ensures steady { OnOk result (faults_of self.new ≡ faults_of self.old) }

        // Each piece is taken whole or refused.
        ensures answer { result_ok result ≡
            (if refuses_next self.old bytes.now then None else Some (length bytes.now)) }
        ensures count { faults_of self.new ≡ faults_after self.old bytes.now }
        ensures calls { calls_of self.new ≡ next_count (calls_of self.old) }
        ensures failing { failing_of self.new ≡ failing_of self.old }
    {
        self.calls = self.calls.saturating_add(1);
        if bytes.is_empty() {
            return Ok(0);
        }
        if self.failing.contains(&self.calls) || bytes.len() > self.room - self.kept.len() {
            self.faults = self.faults.saturating_add(1);
            return Err(Failed);
        }
        self.kept.extend_from_slice(bytes).unwrap();
        Ok(bytes.len())
    }
}
