//! Stages of processing elements, and what is written to them.

ghost use Rattle.std.specs.Prelude.{◌≡◌, ◌<◌, ◌≤◌, ◌==◌, ◌&&◌, ℕ, length, map, replicate, vec_len, IfOk, if◌then◌else◌};
ghost use Rattle.pr_conf.specs.Configuration.{pes_of};
ghost use Rattle.pr_place.specs.Placements.{shape_of};
ghost use Rattle.pr_route.specs.Conf.{idle_pe};
ghost use Rattle.pr_route.specs.Written.{element, over, IsWritable};

use crate::sources::{home_of, pe_of};
use pr_conf::{Pe, Stage};
use pr_net::Cell;
use pr_place::Placement;
use std::alloc::{AllocError, Global};

/// So many stages in which no cell stands.
pub fn idle_stages<const N: usize>(alloc: Global, count: u32) -> Result<Vec<Stage<N>>, AllocError>
    ensures { IfOk result (λ v. map pes_of v.items ≡ replicate count (replicate N idle_pe)) }
{
    let mut stages = Vec::new(alloc);
    while stages.len() < count as usize {
        let pes = vec![in alloc; Pe::IDLE; N]?;
        stages.push(Stage { pes })?;
    }
    Ok(stages)
}

/// Writes one processing element.
fn put_pe<const N: usize>(stages: &mut [Stage<N>], stage: usize, col: usize, pe: Pe)
    requires stage { stage < length stages.old }
    requires col { col < N }
    ensures { (s c : ℕ) → element (map pes_of stages.new) s c
        ≡ (if (stage == s) && (c == col) then pe else element (map pes_of stages.old) s c) }
{
    let row = &mut stages[stage];
    row.pes[col] = pe;
}

/// Writes the cells of a unit to the columns where it stands.
pub fn put_unit<const N: usize>(
    stages: &mut [Stage<N>],
    placement: &Placement,
    unit: usize,
    cells: &[Cell],
)
    requires { IsWritable N (length stages.old) (shape_of placement.now) unit cells.now }
    ensures { (s c : ℕ) → element (map pes_of stages.new) s c
        ≡ over (shape_of placement.now) unit cells.now s c (element (map pes_of stages.old) s c) }
{
    let home = home_of(placement, unit);
    let stage = home.stage as usize;
    for place in 0..cells.len() {
        let pe = pe_of(placement, home.stage, &cells[place], home.regs[place]);
        put_pe(stages, stage, usize::from(home.col) + place, pe);
    }
}
