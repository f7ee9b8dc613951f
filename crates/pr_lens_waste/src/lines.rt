//! The last instances of each name.

ghost use Rattle.std.specs.Prelude.{◌≡◌, None, OnOk, IfOk};
ghost use Rattle.pr_flat.specs.Flats.{equations_of};
ghost use Rattle.pr_scope_names.specs.Names.{instances_in, placed};
ghost use Rattle.pr_lens_waste.specs.Lines.{line_of, lines_in, lines_over, longer, no_lines, tail_at, with_idle, with_next};

use crate::delays::idle_index;
use pr_flat::{Flat, Operand};
use pr_lang::Name;
use pr_scope_names::{Instance, Instances};
use std::alloc::{AllocError, Global};

/// The last instances of a name, which are delays that no output needs: the indices of the first and the last one.
#[derive(Clone, Copy, PartialEq, Eq, Debug)]
pub struct Tail {
    pub first: u64,
    pub last: u64,
}

/// What is known of names that have an instance that is needed, or no delay: those that stand behind it.
#[derive(Drop)]
pub struct Lines {
    tails: Instances<Option<Tail>>,
}

/// No name.
pub fn no_lines(alloc: Global) -> Lines
    ensures { lines_in result ≡ no_lines }
{
    Lines {
        tails: Instances::new(alloc),
    }
}

/// What is known of a name.
fn line_of(lines: &Lines, name: &Name) -> Option<Option<Tail>>
    ensures { result ≡ line_of name.now (lines_in lines.now) }
{
    lines.tails.get(name, None).copied()
}

/// The last instances of a name that no output needs, where there are any.
pub fn tail_of(lines: &Lines, name: &Name) -> Option<Tail>
    ensures { result ≡ tail_at name.now (lines_in lines.now) }
{
    match line_of(lines, name) {
        None => None,
        Some(tail) => tail,
    }
}

/// One instance more.
fn longer(tail: Option<Tail>, index: u64) -> Tail
    ensures { result ≡ longer tail index }
{
    match tail {
        None => Tail {
            first: index,
            last: index,
        },
        Some(tail) => Tail {
            first: tail.first,
            last: index,
        },
    }
}

/// One instance more that no output needs; it counts only behind one that is needed, or is no delay.
fn put_idle(alloc: Global, lines: &mut Lines, name: &Name, index: u64) -> Result<(), AllocError>
    ensures { OnOk result (lines_in lines.new
        ≡ with_idle (line_of name.now (lines_in lines.old)) name.now index (lines_in lines.old)) }
{
    match line_of(lines, name) {
        None => Ok(()),
        Some(tail) => lines
            .tails
            .set(alloc, name, None, Some(longer(tail, index))),
    }
}

/// One instance more, which no output needs where it has an index here.
fn put_next(
    alloc: Global,
    lines: &mut Lines,
    name: &Name,
    idle: Option<u64>,
) -> Result<(), AllocError>
    ensures { OnOk result (lines_in lines.new ≡ with_next name.now idle (lines_in lines.old)) }
{
    match idle {
        None => lines.tails.set(alloc, name, None, None),
        Some(index) => put_idle(alloc, lines, name, index),
    }
}

/// What is known of the names of instances that these operands give, one for each.
pub fn lines_over(
    alloc: Global,
    flat: &Flat,
    needed: &[bool],
    instances: &[Instance],
    operands: &[Operand],
) -> Result<Lines, AllocError>
    ensures { IfOk result (λ lines. lines_in lines
        ≡ lines_over (equations_of flat.now) needed.now instances.now operands.now no_lines) }
{
    let mut lines = no_lines(alloc);
    for at in 0..instances.len().min(operands.len()) {
        let instance = &instances[at];
        let idle = idle_index(flat, needed, instance.index, operands[at]);
        put_next(alloc, &mut lines, &instance.name, idle)?;
    }
    Ok(lines)
}
