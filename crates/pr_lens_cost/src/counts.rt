//! What a stage has in use.

ghost use Rattle.std.specs.Prelude.{◌≡◌, IfOk, map};
ghost use Rattle.pr_conf.specs.Configuration.{pes_of};
ghost use Rattle.pr_lens_cost.specs.Costs.{stage_cost};

use pr_code_show::{cells, states, writes};
use pr_conf::{Pe, Stage};
use std::alloc::{AllocError, Global};

/// What a stage has in use.
#[derive(Clone, Copy)]
pub struct StageCost {
    /// Processing elements that do anything.
    pub cells: usize,
    /// Registers that are written.
    pub writes: usize,
    /// States that change.
    pub states: usize,
}

/// What these processing elements have in use.
fn stage_cost(pes: &[Pe]) -> StageCost
    ensures { result ≡ stage_cost pes.now }
{
    StageCost {
        cells: cells(pes),
        writes: writes(pes),
        states: states(pes),
    }
}

/// What each stage has in use.
pub fn stage_costs<const N: usize>(
    alloc: Global,
    stages: &[Stage<N>],
) -> Result<Vec<StageCost>, AllocError>
    ensures { IfOk result (λ costs. costs.items ≡ map (λ s. stage_cost (pes_of s)) stages.now) }
{
    let mut costs = Vec::new(alloc);
    for stage in stages {
        costs.push(stage_cost(&stage.pes))?;
    }
    Ok(costs)
}
