//! Outputs behind the items of a program, which ask for something of its instances.
//!
//! For its stream an instance `s` gets an output `s`. For its kind it gets an output `(s >> 127) & 0`. A shift keeps the kind,
//! and beside a signed operand an unsigned one counts one bit more. So this output is 2 bits wide where `s` is signed, and
//! else 1.

ghost use Rattle.std.specs.Prelude.{◌≡◌, ◌+◌, ◌*◌, ◌<◌, ◌≤◌, IfOk, length};
ghost use Rattle.pr_expand_spec.specs.Programs.{equations_of};
ghost use Rattle.pr_lens_probe.specs.Fresh.{probe_at, probes_from};
ghost use Rattle.pr_lens_probe.specs.Kinds.{TellsKind};
ghost use Rattle.pr_lens_probe.specs.Asked.{AreAsked, CanAsk, Gives, IsAnswered, IsAsking, cost_of};

use crate::fresh::{fresh_name, reference};
use crate::passes::{checked, expanded};
use pr_flat::Flat;
use pr_lang::{BinOp, Expr, Item, Program};
use pr_scope_names::Instance;
use std::alloc::{AllocError, Global};

/// What is asked for.
#[derive(Clone, Copy, PartialEq, Eq, Debug)]
pub enum Want {
    /// The stream of an instance.
    Stream,
    /// Whether it is signed.
    Kind,
}

/// A program as it was given, and its equations with an output more for each of some instances.
#[derive(Drop)]
pub struct Extended {
    pub program: Program,
    pub flat: Flat,
}

/// An expression that is 2 bits wide where an instance is signed, and else 1.
fn kind_value(alloc: Global, instance: &Instance) -> Result<Expr, AllocError>
    ensures { IfOk result (λ e. TellsKind instance.now.name instance.now.index e) }
{
    let shown = Box::new(alloc, reference(alloc, instance)?)?;
    let amount = Box::new(alloc, Expr::Number(127))?;
    let top = Box::new(alloc, Expr::Binary(BinOp::Right, shown, amount))?;
    let nothing = Box::new(alloc, Expr::Number(0))?;
    Ok(Expr::Binary(BinOp::And, top, nothing))
}

/// An expression that gives what is asked for.
fn value_of(alloc: Global, want: Want, instance: &Instance) -> Result<Expr, AllocError>
    ensures { IfOk result (λ e. Gives want instance.now.name instance.now.index e) }
{
    match want {
        Want::Stream => {
            let value = reference(alloc, instance)?;
            Ok(value)
        }
        Want::Kind => {
            let value = kind_value(alloc, instance)?;
            Ok(value)
        }
    }
}

/// The output of this number, which asks for something of an instance.
fn output_of(
    alloc: Global,
    want: Want,
    most: usize,
    number: usize,
    instance: &Instance,
) -> Result<Item, AllocError>
    requires { number < 65536 }
    ensures { IfOk result (λ item. IsAsking want (probe_at most number instance.now) item) }
{
    let name = fresh_name(alloc, most, number)?;
    let value = value_of(alloc, want, instance)?;
    Ok(Item::Output {
        name,
        width: None,
        value,
    })
}

/// Adds an output for each instance, under a name that is longer than so many bytes.
fn push_outputs(
    alloc: Global,
    items: Vec<Item>,
    want: Want,
    most: usize,
    instances: &[Instance],
) -> Result<Vec<Item>, AllocError>
    requires { length instances.now ≤ 65536 }
    ensures { IfOk result (λ v. AreAsked want items.items (probes_from most 0 instances.now) v.items) }
{
    let mut items = items;
    let mut number = 0;
    for instance in instances {
        items.push(output_of(alloc, want, most, number, instance)?)?;
        number += 1;
    }
    Ok(items)
}

/// The equations of a program with an output more for each of some instances, and the program as it was given.
pub fn answered(
    alloc: Global,
    program: Program,
    want: Want,
    most: usize,
    some: &[Instance],
) -> Result<Extended, AllocError>
    requires able { CanAsk program most some.now }
    requires few { length (equations_of program).equations + cost_of want * length some.now ≤ 16384 }
    ensures items { IfOk result (λ a. a.program.items.items ≡ program.items.items) }
    ensures answered { IfOk result (λ a. IsAnswered want program most some.now a.flat) }
{
    let Program { items } = program;
    let count = items.len();
    let asked = push_outputs(alloc, items, want, most, some)?;
    let scoped = checked(alloc, Program { items: asked })?;
    let flat = expanded(alloc, &scoped)?;
    let Program { mut items } = scoped.program;
    items.truncate(count);
    Ok(Extended {
        program: Program { items },
        flat,
    })
}
