//! The course of placing, stripe after stripe.

ghost use Rattle.std.specs.Prelude.{◌≡◌, ◌≤◌, ◌<◌, true, false, None, IfOk, length, replicate};
ghost use Rattle.pr_net.specs.Whole.{shape_of};
ghost use Rattle.pr_place.specs.Courses.{Opens, Filled, IsStuck};
ghost use Rattle.pr_place.specs.Tables.{AreTables};

use crate::candidates::Candidates;
use crate::fills::fill;
use crate::lookups::Tables;
use crate::opening::{note, wake};
use crate::progress::Progress;
use crate::starts::Start;
use pr_net::Net;
use std::alloc::{AllocError, Global};

/// How far a net is placed.
#[derive(Drop)]
pub struct Course {
    /// The stripe that is filled next.
    pub stage: u32,
    /// How many groups are not placed.
    pub left: usize,
    /// What is placed.
    pub progress: Progress,
    /// The groups that may be placed.
    pub candidates: Candidates,
    /// How many readings of groups that are not placed each group waits for.
    pub waits: Vec<usize>,
    /// The stage of each group that is placed.
    pub stages: Vec<Option<u32>>,
}

/// No group has a stage.
fn no_stages(alloc: Global, groups: usize) -> Result<Vec<Option<u32>>, AllocError>
    ensures { IfOk result (λ stages. stages.items ≡ replicate groups None) }
{
    let mut stages = Vec::with_capacity(alloc, groups)?;
    for group in 0..groups {
        stages.push(None)?;
    }
    Ok(stages)
}

/// Nothing is placed.
pub fn begin<const N: usize, const P: usize>(
    alloc: Global,
    net: &Net,
    tables: &Tables,
) -> Result<Course, AllocError>
    requires tables { AreTables N P (shape_of net.now) tables.now }
    requires registers { 2 ≤ P }
    ensures { IfOk result (λ course. Opens N P (shape_of net.now) tables.now course) }
{
    let stages = no_stages(alloc, net.groups.len())?;
    let start = Start::of::<N, P>(alloc, net, tables)?;
    Ok(Course {
        stage: 0,
        left: net.groups.len(),
        progress: start.progress,
        candidates: Candidates {
            ready: start.ready,
            summary: start.summary,
        },
        waits: start.waits,
        stages,
    })
}

/// Opens the stripe after one that has received these groups.
fn open_next<const N: usize, const P: usize>(
    net: &Net,
    tables: &Tables,
    course: &mut Course,
    groups: &[u32],
)
    requires tables { AreTables N P (shape_of net.now) tables.now }
    requires filled { Filled N P (shape_of net.now) tables.now course.old groups.now }
    requires some { 0 < length groups.now }
    ensures opens { Opens N P (shape_of net.now) tables.now course.new }
    ensures left { course.new.left < course.old.left }
{
    note(&mut course.stages, groups, course.stage);
    course.candidates.tighten_all(groups);
    wake(tables, &mut course.waits, &mut course.candidates, groups);
    course.progress.open();
    course.left -= groups.len();
    course.stage += 1;
}

/// Fills a stripe, and says whether it received a group; then the next one opens. The list holds the groups that it
/// received.
pub fn advance<const N: usize, const P: usize>(
    net: &Net,
    tables: &Tables,
    course: &mut Course,
    received: &mut Vec<u32>,
) -> Result<bool, AllocError>
    requires tables { AreTables N P (shape_of net.now) tables.now }
    requires opens { Opens N P (shape_of net.now) tables.now course.old }
    requires some { 0 < course.old.left }
    ensures opens { IfOk result (λ more. more ≡ true → Opens N P (shape_of net.now) tables.now course.new) }
    ensures left { IfOk result (λ more. more ≡ true → course.new.left < course.old.left) }
    ensures stuck { IfOk result (λ more. more ≡ false → IsStuck N P (shape_of net.now) course.new.stages.items) }
{
    received.clear();
    let stage = course.stage;
    fill::<N, P>(
        net,
        tables,
        &mut course.candidates,
        &mut course.progress,
        received,
        stage,
    )?;
    if received.is_empty() {
        return Ok(false);
    }
    open_next::<N, P>(net, tables, course, received);
    Ok(true)
}

/// Places the groups stripe by stripe as long as one fits, and says whether all are placed.
pub fn place_groups<const N: usize, const P: usize>(
    alloc: Global,
    net: &Net,
    tables: &Tables,
    course: &mut Course,
) -> Result<bool, AllocError>
    requires tables { AreTables N P (shape_of net.now) tables.now }
    requires opens { Opens N P (shape_of net.now) tables.now course.old }
    ensures opens { IfOk result (λ all. all ≡ true → Opens N P (shape_of net.now) tables.now course.new) }
    ensures none { IfOk result (λ all. all ≡ true → course.new.left ≡ 0) }
    ensures stuck { IfOk result (λ all. all ≡ false → IsStuck N P (shape_of net.now) course.new.stages.items) }
{
    let mut received = Vec::new(alloc);
    while course.left > 0 {
        if !advance::<N, P>(net, tables, course, &mut received)? {
            return Ok(false);
        }
    }
    Ok(true)
}
