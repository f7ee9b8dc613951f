//! The cost of a program.

ghost use Rattle.std.specs.Prelude.{◌≤◌, length, IfOk, IfErr};
ghost use Rattle.pr_compile.specs.Refusals.{IsCompileAnswer};
ghost use Rattle.pr_lens_cost.specs.Costs.{IsCost};

use crate::amounts::Cost;
use crate::counts::stage_costs;
use pr_compile::{CompileFault, compile_front};
use pr_compile_front::read_program;
use pr_lens_origins::spots_of;
use pr_lens_shares::most_shares;
use std::alloc::Global;

/// How many streams are told of, at most.
const MOST_STREAMS: usize = 10;

/// What the program of a text costs on N columns and P registers, with its equations narrowed where that is asked for;
/// else why it has no configuration there.
pub fn cost_of<const N: usize, const P: usize>(
    alloc: Global,
    text: &[u8],
    narrowed: bool,
) -> Result<Cost, CompileFault>
    requires short { length text.now ≤ 1048576 }
    requires columns { 1 ≤ N }
    requires most_columns { N ≤ 64 }
    requires registers { 2 ≤ P }
    requires most_registers { P ≤ 16 }
    ensures cost { IfOk result (IsCost N P narrowed text.now) }
    ensures refused { IfErr result (IsCompileAnswer N P narrowed text.now) }
{
    let front = read_program(alloc, text)?;
    let compiled = compile_front::<N, P>(alloc, &front, narrowed)?;
    let stages = stage_costs(alloc, &compiled.conf.stages)?;
    let equations = front.flat.equations.len();
    let spots = spots_of(alloc, text, &front.scoped.program)?;
    let shares = most_shares(alloc, front, narrowed, N, MOST_STREAMS)?;
    Ok(Cost {
        equations,
        units: compiled.units,
        shares,
        spots,
        stages,
    })
}
