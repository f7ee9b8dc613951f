//! Flat equations of a program that keeps the rules of scope.
ghost use Rattle.std.specs.Prelude.{◌≡◌, IfErr, IfOk, None, true};
ghost use Rattle.std.specs.List.{list_all};
ghost use Rattle.pr_flat.specs.Shape.{shapes_of};
ghost use Rattle.pr_scope.specs.Walk.{offence};
ghost use Rattle.pr_expand_spec.specs.Programs.{equations_of};
ghost use Rattle.pr_scope_facts.specs.Numbers.{is_number};
ghost use Rattle.pr_expand.specs.Worlds.{IsLimit, flattened};

use crate::items::equations;
use crate::ledgers::Expansion;
use crate::stops::Stop;
use pr_base::Cap;
use pr_flat::{Equation, Flat, Operand};
use pr_lang::Program;
use pr_scope::Scoped;
use std::alloc::{AllocError, Global};
use thiserror::Error;

/// Why a program has no flat equations.
#[derive(Debug, Drop, Error)]
pub enum ExpandFault {
    /// There are more equations than there may be.
    #[error("the program has too many equations")]
    Limit(Cap),
    #[error("out of memory")]
    Memory(AllocError),
}

/// A constant has 64 bits.
fn fits(operand: Operand)
    ensures { is_number operand ≡ true }
{
    match operand {
        Operand::Const(_) => {}
        Operand::Eq(_) => {}
        Operand::Past { rec: _, k: _ } => {}
    }
}

/// Each constant has 64 bits.
fn all_fit(operands: &[Operand])
    ensures { list_all is_number operands.now ≡ true }
{
    for operand in operands {
        fits(*operand);
    }
}

/// Each constant that an equation reads has 64 bits.
fn equations_fit(equations: &[Equation])
    ensures { list_all (λ e. list_all is_number e.args) (shapes_of equations.now) ≡ true }
{
    for equation in equations {
        all_fit(&equation.args);
    }
}

/// The equations of a program that keeps the rules of scope are flat.
fn flatten(program: &Program, expansion: Expansion) -> Flat
    requires kept { offence program.now ≡ None }
    requires made { flattened expansion ≡ equations_of program.now }
    ensures equations { shapes_of result.equations.items ≡ (equations_of program.now).equations }
    ensures outputs { result.outputs.items ≡ (equations_of program.now).outputs }
{
    let Expansion { equations, outputs } = expansion;
    equations_fit(&equations);
    all_fit(&outputs);
    Flat { equations, outputs }
}

/// The flat equations of a program that keeps the rules of scope, where they are at most 16,384.
pub fn expand(alloc: Global, scoped: &Scoped) -> Result<Flat, ExpandFault>
    ensures equations { IfOk result (λ f. shapes_of f.equations.items ≡ (equations_of scoped.now.program).equations) }
    ensures outputs { IfOk result (λ f. f.outputs.items ≡ (equations_of scoped.now.program).outputs) }
    ensures limit { IfErr result (λ fault. IsLimit fault (equations_of scoped.now.program).equations) }
{
    let _turns = scoped.turns;
    match equations(alloc, &scoped.program) {
        Err(Stop::Limit) => Err(ExpandFault::Limit(Cap::Equations)),
        Err(Stop::Memory(error)) => Err(ExpandFault::Memory(error)),
        Ok(expansion) => Ok(flatten(&scoped.program, expansion)),
    }
}
