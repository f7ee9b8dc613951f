//! Programs that are read and compiled.

ghost use Rattle.std.specs.Prelude.{◌≤◌, length, IfOk, IfErr};
ghost use Rattle.pr_conf.specs.Configuration.{shape_of};
ghost use Rattle.pr_compile.specs.Refusals.{IsCompileAnswer};
ghost use Rattle.pr_compile_front.specs.Passed.{IsPassed};
ghost use Rattle.pr_lens_tool.specs.Modules.{IsCompilation};

use pr_compile::{CompileFault, compile_front};
use pr_compile_front::{Front, read_program};
use pr_conf::Configuration;
use std::alloc::Global;

/// A program, and its configuration.
#[derive(Drop)]
pub struct Compilation<const N: usize, const P: usize> {
    pub front: Front,
    pub conf: Configuration<N, P>,
}

/// The program of a text, and its configuration; else why it has none.
pub fn compilation_of<const N: usize, const P: usize>(
    alloc: Global,
    text: &[u8],
    narrowed: bool,
) -> Result<Compilation<N, P>, CompileFault>
    requires short { length text.now ≤ 1048576 }
    requires columns { 1 ≤ N }
    requires most_columns { N ≤ 64 }
    requires registers { 2 ≤ P }
    requires most_registers { P ≤ 16 }
    ensures compiled { IfOk result (λ c.
        IsCompilation N P narrowed text.now c.front.scoped.program (shape_of c.conf)) }
    ensures passed { IfOk result (λ c. IsPassed text.now c.front) }
    ensures refused { IfErr result (IsCompileAnswer N P narrowed text.now) }
{
    let front = read_program(alloc, text)?;
    let compiled = compile_front::<N, P>(alloc, &front, narrowed)?;
    Ok(Compilation {
        front,
        conf: compiled.conf,
    })
}
