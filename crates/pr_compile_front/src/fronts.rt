//! The steps from a text to the widths of its equations.

ghost use Rattle.std.specs.Prelude.{◌≡◌, ◌≤◌, length, IfOk, IfErr};
ghost use Rattle.pr_compile_front.specs.Refusals.{IsRead, IsAnswer};
ghost use Rattle.pr_compile_front.specs.Passed.{IsPassed};

use crate::faults::FrontFault;
use pr_expand::expand;
use pr_flat::Flat;
use pr_lang::Program;
use pr_parse::{parse, tokens};
use pr_scope::{Scoped, check};
use pr_width::{Widths, solve};
use std::alloc::Global;

/// A program that is refused at no point up to the widths of its equations.
#[derive(Debug, Drop)]
pub struct Front {
    /// The program.
    pub scoped: Scoped,
    /// Its equations.
    pub flat: Flat,
    /// Their widths, each recurrence's the least.
    pub widths: Widths,
}

/// The program of a text.
fn parse_text(alloc: Global, text: &[u8]) -> Result<Program, FrontFault>
    requires { length text.now ≤ 1048576 }
    ensures read { IfOk result (λ q. IsRead text.now q) }
    ensures refused { IfErr result (λ e. IsAnswer text.now e) }
{
    let found = tokens(alloc, text)?;
    let program = parse(alloc, text, &found)?;
    Ok(program)
}

/// The program of a text, with its equations and their widths; else the first point that refuses the text: a token that is
/// nested too deep or breaks the grammar, a broken rule of scope or too many turns, too many equations, an equation without
/// a width.
pub fn read_program(alloc: Global, text: &[u8]) -> Result<Front, FrontFault>
    requires { length text.now ≤ 1048576 }
    ensures passed { IfOk result (λ f. IsPassed text.now f) }
    ensures refused { IfErr result (λ e. IsAnswer text.now e) }
{
    let program = parse_text(alloc, text)?;
    let scoped = check(alloc, program)?;
    let flat = expand(alloc, &scoped)?;
    let widths = solve(alloc, &flat)?;
    Ok(Front {
        scoped,
        flat,
        widths,
    })
}
