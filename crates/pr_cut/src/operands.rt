//! The slices of operands.

ghost use Rattle.std.specs.Prelude.{◌≡◌, vec_len, IfOk};
ghost use Rattle.std.specs.Cow.{cow_slice_items};
ghost use Rattle.pr_net.specs.declared.cells.Slice.{Slice};
ghost use Rattle.pr_cut_units.specs.Equations.{number_slices, operand_slices, arguments};
ghost use Rattle.pr_cut_cells.specs.Arguments.{argument_of};
ghost use Rattle.pr_cut.specs.Operators.{arguments_of};
ghost use Rattle.pr_cut.specs.Sources.{plan_in, read_operand, IsPlanned, IsNamed, IsReady, AreReady};

use crate::sources::{PlannedEquations, Value};
use pr_base::{byte_of, slices};
use pr_cut_cells::{Argument, same};
use pr_cut_ops::past_slices;
use pr_flat::{Equation, Operand};
use pr_flat_ops::number_width;
use pr_net::Slice;
use pr_width::operand_width;
use std::alloc::{AllocError, Global};
use std::borrow::CowSlice;

/// The slices of a number.
#[tactic(auto, using(pr_cut_units::proofs::EachLemmas::each_more))]
fn number_slices(alloc: Global, c: u64) -> Result<Vec<Slice>, AllocError>
    ensures { IfOk result (λ s. s.items ≡ number_slices c) }
{
    let count = slices(number_width(c).get());
    let mut all = Vec::with_capacity(alloc, count)?;
    for i in 0..count {
        all.push(Slice::Const(byte_of(u128::from(c), i)))?;
    }
    Ok(all)
}

/// The slices of an operand, where the equations before have these.
pub fn operand_slices(
    alloc: Global,
    source: &PlannedEquations,
    values: &[Value],
    a: Operand,
) -> Result<Vec<Slice>, AllocError>
    requires planned { IsPlanned source.now }
    requires named { IsNamed (plan_in source.now) values.now a }
    ensures { IfOk result (λ s. s.items ≡ operand_slices (plan_in source.now) values.now a) }
{
    match a {
        Operand::Const(c) => number_slices(alloc, c),
        Operand::Eq(i) => {
            let value = &values[i as usize];
            same(alloc, &value.slices)
        }
        Operand::Past { rec, k } => {
            let first = source.plan.hold_units[rec as usize];
            past_slices(alloc, source.widths[rec as usize], first + (k - 1))
        }
    }
}

/// The slices of an operand, read where they stand.
fn slices_read<'a>(
    alloc: Global,
    source: &PlannedEquations,
    values: &'a [Value],
    a: Operand,
) -> Result<CowSlice<'a, Slice, Global>, AllocError>
    requires planned { IsPlanned source.now }
    requires named { IsNamed (plan_in source.now) values.now a }
    ensures { IfOk result (λ s. cow_slice_items s ≡ operand_slices (plan_in source.now) values.now a) }
{
    if let Operand::Eq(i) = a {
        let value = &values[i as usize];
        return Ok(CowSlice::Borrowed(&value.slices));
    }
    let made = operand_slices(alloc, source, values, a)?;
    Ok(CowSlice::Owned(made))
}

/// An operand as it is read.
fn argument<'a>(
    alloc: Global,
    source: &PlannedEquations,
    values: &'a [Value],
    a: Operand,
    signed: bool,
) -> Result<Argument<'a>, AllocError>
    requires planned { IsPlanned source.now }
    requires ready { IsReady (plan_in source.now) values.now a }
    ensures { IfOk result (λ x. argument_of x ≡ read_operand source.now values.now a signed) }
{
    let width = operand_width(a, source.widths);
    let slices = slices_read(alloc, source, values, a)?;
    Ok(Argument {
        slices,
        signed,
        width,
    })
}

/// The operands of an equation as they are read.
pub fn arguments<'a>(
    alloc: Global,
    source: &PlannedEquations,
    values: &'a [Value],
    equation: &Equation,
) -> Result<Vec<Argument<'a>>, AllocError>
    requires planned { IsPlanned source.now }
    requires ready { AreReady (plan_in source.now) values.now equation.now.args.items }
    requires kinds { vec_len equation.now.args ≡ vec_len equation.now.kinds }
    ensures { IfOk result (λ all. arguments_of all.items ≡
        arguments (plan_in source.now) values.now equation.now.args.items equation.now.kinds.items) }
{
    let mut all = Vec::with_capacity(alloc, equation.args.len())?;
    for i in 0..equation.args.len() {
        all.push(argument(alloc, source, values, equation.args[i], equation.kinds[i])?)?;
    }
    Ok(all)
}
