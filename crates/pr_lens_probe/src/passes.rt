//! Passes that cannot refuse a program.

ghost use Rattle.std.specs.Prelude.{◌≡◌, ◌≤◌, ℕ, List, None, IfOk, length};
ghost use Rattle.pr_scope.specs.Walk.{offence};
ghost use Rattle.pr_flat.specs.Flats.{equations_of as flat_equations};
ghost use Rattle.pr_flat.specs.Shape.{shapes_of};
ghost use Rattle.pr_flat.specs.Widths.{AreWidths};
ghost use Rattle.pr_expand_spec.specs.Programs.{equations_of};

use pr_expand::{ExpandFault, expand};
use pr_flat::Flat;
use pr_lang::Program;
use pr_scope::{ScopeFault, Scoped, check};
use pr_width::{WidthFault, Widths, solve};
use std::alloc::{AllocError, Global};

/// A program that keeps the rules of scope, walked once more.
pub fn checked(alloc: Global, program: Program) -> Result<Scoped, AllocError>
    requires { offence program ≡ None }
    ensures { IfOk result (λ s. s.program ≡ program) }
{
    match check(alloc, program) {
        Ok(scoped) => Ok(scoped),
        Err(ScopeFault::Memory(error)) => Err(error),
        Err(ScopeFault::Scope { .. }) => unreachable!(),
        Err(ScopeFault::Limit(_)) => unreachable!(),
    }
}

/// The equations of a program that has few enough.
pub fn expanded(alloc: Global, scoped: &Scoped) -> Result<Flat, AllocError>
    requires { length (equations_of scoped.now.program).equations ≤ 16384 }
    ensures equations { IfOk result (λ f. shapes_of f.equations.items ≡ (equations_of scoped.now.program).equations) }
    ensures outputs { IfOk result (λ f. f.outputs.items ≡ (equations_of scoped.now.program).outputs) }
{
    match expand(alloc, scoped) {
        Ok(flat) => Ok(flat),
        Err(ExpandFault::Memory(error)) => Err(error),
        Err(ExpandFault::Limit(_)) => unreachable!(),
    }
}

/// The widths of equations that have widths.
pub fn solved(alloc: Global, flat: &Flat) -> Result<Widths, AllocError>
    requires { (widths : List ℕ) × AreWidths (flat_equations flat.now) widths }
    ensures { IfOk result (λ w. AreWidths (flat_equations flat.now) w) }
{
    match solve(alloc, flat) {
        Ok(widths) => Ok(widths),
        Err(WidthFault::Memory(error)) => Err(error),
        Err(WidthFault::NoWidth { .. }) => unreachable!(),
    }
}
