//! How placing begins.

ghost use Rattle.std.specs.Prelude.{◌≡◌, ◌≤◌, ◌<◌, ◌*◌, ◌^◌, ℕ, IfOk, if◌then◌else◌, ◌==◌, [], length, slice_index, slice_index_or};
ghost use Rattle.pr_net.specs.Whole.{shape_of};
ghost use Rattle.pr_place.specs.Candidates.{HasSets, IsCovered};
ghost use Rattle.pr_place.specs.Plans.{lists_of, count_of_lists};
ghost use Rattle.pr_place.specs.Tables.{AreTables, IsStart};

use crate::candidates::{NONE, PART, SETS, note_class};
use crate::lists::Lists;
use crate::lookups::Tables;
use crate::progress::Progress;
use pr_net::Net;
use std::alloc::{AllocError, Global};

/// The counts, the candidates and the columns with which the first stripe begins.
#[derive(Drop)]
pub struct Start {
    /// What is placed: nothing.
    pub progress: Progress,
    /// How many readings each group waits for.
    pub waits: Vec<usize>,
    /// The class of each candidate, and 255 for other groups.
    pub ready: Vec<u8>,
    /// For each part of the groups, and each block in it, a set of classes that has those of its candidates.
    pub summary: Vec<u64>,
}

/// How many readings each group waits for: all.
fn waits(alloc: Global, reads: &Lists) -> Result<Vec<usize>, AllocError>
    ensures long { IfOk result (λ waits. length waits.items ≡ count_of_lists reads.now) }
    ensures waits { IfOk result (λ waits. (g : ℕ) → g < count_of_lists reads.now
        → slice_index waits.items g ≡ length (slice_index_or (lists_of reads.now) g [])) }
{
    let mut waits = Vec::with_capacity(alloc, reads.len())?;
    for group in 0..reads.len() {
        waits.push(reads.of(group).len())?;
    }
    Ok(waits)
}

/// The class of each group that waits for nothing, and 255 for other groups.
fn candidates(alloc: Global, waits: &[usize], class: &[u8]) -> Result<Vec<u8>, AllocError>
    requires { length class.now ≡ length waits.now }
    ensures long { IfOk result (λ ready. length ready.items ≡ length waits.now) }
    ensures ready { IfOk result (λ ready. (g : ℕ) → g < length waits.now
        → slice_index ready.items g ≡ (if slice_index waits.now g == 0 then slice_index class.now g else 255)) }
{
    let mut ready = Vec::with_capacity(alloc, waits.len())?;
    for group in 0..waits.len() {
        let own = if waits[group] == 0 {
            class[group]
        } else {
            NONE
        };
        ready.push(own)?;
    }
    Ok(ready)
}

/// For each part of the groups and each block in it the classes of its candidates.
fn summary(alloc: Global, ready: &[u8]) -> Result<Vec<u64>, AllocError>
    requires { length ready.now < 2 ^ 32 }
    ensures blocks { IfOk result (λ summary. HasSets ready.now summary.items) }
    ensures covered { IfOk result (λ summary. IsCovered ready.now summary.items) }
{
    let mut summary = vec![in alloc; 0; ready.len() / PART * SETS + SETS]?;
    for group in 0..ready.len() {
        if ready[group] < 64 {
            note_class(&mut summary, group, ready[group]);
        }
    }
    Ok(summary)
}

impl Start {
    /// Placing begins with nothing placed.
    pub fn of<const N: usize, const P: usize>(
        alloc: Global,
        net: &Net,
        tables: &Tables,
    ) -> Result<Start, AllocError>
        requires tables { AreTables N P (shape_of net.now) tables.now }
        requires registers { 2 ≤ P }
        ensures { IfOk result (λ start. IsStart N P (shape_of net.now) tables.now start) }
    {
        let uses = Vec::from_slice(alloc, &tables.cells.uses)?;
        let progress = Progress::new::<N, P>(alloc, uses)?;
        let waits = waits(alloc, &tables.plans.reads)?;
        let ready = candidates(alloc, &waits, &tables.class)?;
        let summary = summary(alloc, &ready)?;
        Ok(Start {
            progress,
            waits,
            ready,
            summary,
        })
    }
}
