//! A shelf in memory that never fails.
ghost use Rattle.std.proofs.Common.{arith};
ghost use Rattle.std.specs.Prelude.{◌≡◌, ◌≢◌, ℕ, ◌^◌, ◌<◌, ◌≤◌, List, length, drop, min, Some, None, IfOk, OnOk, OnErr, IsErr};
ghost use Rattle.pr_edge.specs.Files.{OfFile, IsMissing, IsPart, HasReadCause, reach_after};

use crate::finding::bytes_of;
use crate::parts::copy_part;
use crate::{Failed, Shelf};

/// Files in memory. A name that it was not made with has an empty file.
#[derive(Drop)]
pub struct SureShelf {
    files: Vec<(String, Vec<u8>)>,
}

impl SureShelf {
    ghost use Rattle.pr_edge.specs.SureShelf.{files_of};

    /// A shelf with these files. Of two files with one name the first counts.
    pub fn make(files: Vec<(String, Vec<u8>)>) -> SureShelf
        ensures { files_of result ≡ files.items }
    {
        SureShelf { files }
    }
}

impl Shelf for SureShelf {
    ghost use Rattle.pr_edge.specs.Named.{sure_file};
    ghost use Rattle.pr_edge.specs.SureShelf.{files_of, view_of, told_of, reach_of, faults_of};

    ghost view = { view_of };

    ghost counted = { λ _. Prim.omega arith };

    fn read_at(&mut self, name: &str, place: u64, buf: &mut [u8]) -> Result<usize, Failed>
        ensures bound { IfOk result (λ k. k ≤ length buf.new) }
        ensures part { IfOk result (λ k. OfFile (told_of self.old) name.now (λ file. IsPart file place k buf.new)) }
        ensures missing { IsMissing (told_of self.old) name.now →
            IsErr result × (faults_of self.new ≡ faults_of self.old) }
        ensures cause { OnErr result
            (HasReadCause (told_of self.old) name.now (faults_of self.old) (faults_of self.new)) }
        ensures later { faults_of self.old ≤ faults_of self.new }
        ensures steady { OnOk result (faults_of self.new ≡ faults_of self.old) }
        ensures same { told_of self.new ≡ told_of self.old }
        ensures reached { reach_of self.new name.now ≡ reach_after result (reach_of self.old name.now) place }
        ensures others { (q : List ℕ) → q ≢ name.now → reach_of self.new q ≡ reach_of self.old q }

        // It reads as many bytes as there are and fit.
        ensures answer { result ≡ Ok
            (min (length buf.new) (length (drop place (sure_file (files_of self.old) name.now)))) }
    {
        Ok(copy_part(bytes_of(&self.files, name), place, buf))
    }
}
