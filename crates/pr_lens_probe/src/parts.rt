//! The streams of a program's instances, some at a time.

ghost use Rattle.std.specs.Prelude.{◌≡◌, ◌≤◌, ◌++◌, List, IfOk, length};
ghost use Rattle.pr_scope_names.specs.declared.streams.Instance.{Instance};
ghost use Rattle.pr_expand_spec.specs.Programs.{equations_of};
ghost use Rattle.pr_lens_probe.specs.Asked.{CanAsk, CanAskAll};
ghost use Rattle.pr_lens_probe.specs.Given.{AreGiven};

use crate::asking::{Want, answered};
use pr_flat::Operand;
use pr_lang::Program;
use pr_scope_names::Instance;
use std::alloc::{AllocError, Global};

/// A program as it was given, and what gives the streams of some instances.
#[derive(Drop)]
pub struct Shown {
    pub program: Program,
    pub operands: Vec<Operand>,
}

/// What gives the streams of some instances.
fn streams_of(
    alloc: Global,
    program: Program,
    most: usize,
    some: &[Instance],
) -> Result<Shown, AllocError>
    requires able { CanAsk program most some.now }
    requires few { length (equations_of program).equations ≤ 16384 }
    ensures items { IfOk result (λ s. s.program.items.items ≡ program.items.items) }
    ensures given { IfOk result (λ s. AreGiven program some.now s.operands.items) }
{
    let asked = answered(alloc, program, Want::Stream, most, some)?;
    let first = asked.flat.outputs.len() - some.len();
    let mut operands = Vec::new(alloc);
    operands.extend_from_slice(&asked.flat.outputs[first..])?;
    Ok(Shown {
        program: asked.program,
        operands,
    })
}

/// Adds what gives the streams of further instances.
fn show_more(
    alloc: Global,
    shown: Shown,
    most: usize,
    some: &[Instance],
) -> Result<Shown, AllocError>
    requires able { CanAsk shown.program most some.now }
    requires few { length (equations_of shown.program).equations ≤ 16384 }
    ensures items { IfOk result (λ s. s.program.items.items ≡ shown.program.items.items) }
    ensures given { (is : List Instance) → AreGiven shown.program is shown.operands.items →
        IfOk result (λ s. AreGiven shown.program (is ++ some.now) s.operands.items) }
{
    let Shown {
        program,
        mut operands,
    } = shown;
    let more = streams_of(alloc, program, most, some)?;
    operands.extend_from_slice(&more.operands)?;
    Ok(Shown {
        program: more.program,
        operands,
    })
}

/// What gives the streams of all instances. They are asked for so many at a time.
pub fn show_all(
    alloc: Global,
    program: Program,
    most: usize,
    instances: &[Instance],
    size: usize,
) -> Result<Shown, AllocError>
    requires able { CanAskAll program most instances.now size }
    ensures items { IfOk result (λ s. s.program.items.items ≡ program.items.items) }
    ensures given { IfOk result (λ s. AreGiven program instances.now s.operands.items) }
{
    let mut shown = Shown {
        program,
        operands: Vec::new(alloc),
    };
    let mut at = 0;
    'parts: while at < instances.len() {
        let end = instances.len().min(at + size);
        shown = show_more(alloc, shown, most, &instances[at..end])?;
        at = end;
    }
    Ok(shown)
}
