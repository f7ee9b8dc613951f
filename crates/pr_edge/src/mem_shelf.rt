//! A shelf in memory that tells all it holds, and whose calls fail as it was told.
ghost use Rattle.std.specs.Prelude.{◌≡◌, ◌≢◌, ℕ, ◌^◌, ◌<◌, ◌≤◌, List, length, vec_len, Some, IfOk, OnOk, OnErr, IsErr};
ghost use Rattle.std.specs.Result.{result_ok};
ghost use Rattle.pr_edge.specs.Count.{next_count};
ghost use Rattle.pr_edge.specs.Files.{OfFile, IsMissing, IsPart, HasReadCause, reach_after};

use crate::finding::find;
use crate::parts::{copy_part, raise};
use crate::{Failed, Shelf};
use std::alloc::{AllocError, Global};

/// Files in memory, and the numbers of the calls that fail. Calls are counted from 1 over all files.
#[derive(Drop)]
pub struct MemShelf {
    files: Vec<(String, Vec<u8>)>,
    reached: Vec<Option<u64>>,
    failing: Vec<u64>,
    calls: u64,
    faults: u64,
    ghost same_len: { vec_len reached ≡ vec_len files },
    ghost in_range: { faults < 2 ^ 64 },
}

impl MemShelf {
    ghost use Rattle.pr_edge.specs.MemShelf.{files_of, failing_of, calls_of, faults_of, reach_of};

    /// A shelf with these files, of which no call was made yet. Of two files with one name the first counts.
    ///
    /// `faults` has the numbers of the calls that are to fail. Where memory is wanting, both lists are given up.
    pub fn make(
        alloc: Global,
        files: Vec<(String, Vec<u8>)>,
        faults: Vec<u64>,
    ) -> Result<MemShelf, AllocError>
        ensures files { IfOk result (λ s. files_of s ≡ files.items) }
        ensures failing { IfOk result (λ s. failing_of s ≡ faults.items) }
        ensures calls { IfOk result (λ s. calls_of s ≡ 0) }
        ensures faults { IfOk result (λ s. faults_of s ≡ 0) }
        ensures unread { IfOk result (λ s. (name : List ℕ) → reach_of s name ≡ Some 0) }
    {
        let reached = vec![in alloc; Some(0u64); files.len()]?;
        Ok(MemShelf {
            files,
            reached,
            failing: faults,
            calls: 0,
            faults: 0,
        })
    }
}

impl Shelf for MemShelf {
    ghost use Rattle.pr_edge.specs.MemShelf.{view_of, told_of, reach_of, failing_of, calls_of, faults_of, answer_of, faults_after};

    ghost view = { view_of };

    ghost counted = { λ s. s.in_range };

    fn read_at(&mut self, name: &str, place: u64, buf: &mut [u8]) -> Result<usize, Failed>
        ensures bound { IfOk result (λ k. k ≤ length buf.new) }
        ensures part { IfOk result (λ k. OfFile (told_of self.old) name.now (λ file. IsPart file place k buf.new)) }
        ensures missing { IsMissing (told_of self.old) name.now →
            IsErr result × (faults_of self.new ≡ faults_of self.old) }
        ensures cause { OnErr result
            (HasReadCause (told_of self.old) name.now (faults_of self.old) (faults_of self.new)) }
        ensures later { faults_of self.old ≤ faults_of self.new }
        ensures steady { OnOk result (faults_of self.new ≡ faults_of self.old) }
        ensures same { told_of self.new ≡ told_of self.old }
        ensures reached { reach_of self.new name.now ≡ reach_after result (reach_of self.old name.now) place }
        ensures others { (q : List ℕ) → q ≢ name.now → reach_of self.new q ≡ reach_of self.old q }

        // It reads as many bytes as there are and fit.
        ensures answer { result_ok result ≡ answer_of self.old name.now place (length buf.new) }
        ensures count { faults_of self.new ≡ faults_after self.old name.now }
        ensures calls { calls_of self.new ≡ next_count (calls_of self.old) }
        ensures failing { failing_of self.new ≡ failing_of self.old }
    {
        self.calls = self.calls.saturating_add(1);
        let Some((i, bytes)) = find(&self.files, name) else {
            return Err(Failed);
        };
        if self.failing.contains(&self.calls) {
            self.faults = self.faults.saturating_add(1);
            return Err(Failed);
        }
        let count = copy_part(bytes, place, buf);
        raise(&mut self.reached, i, place, count);
        Ok(count)
    }
}
