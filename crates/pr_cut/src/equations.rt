//! The units of one equation.

ghost use Rattle.std.specs.Prelude.{ℕ, ◌≡◌, ◌≤◌, ◌<◌, ◌+◌, ◌^◌, true, slice_index, length, IfOk};
ghost use Rattle.pr_flat.specs.Facts.{arity, is_rec};
ghost use Rattle.pr_flat.specs.Rows.{takes};
ghost use Rattle.pr_flat.specs.Shape.{equation_shape};
ghost use Rattle.pr_cut_units.specs.Parts.{units_after, slices_after};
ghost use Rattle.pr_cut_units.specs.States.{held};
ghost use Rattle.pr_cut_units.specs.Table.{argument_forms};
ghost use Rattle.pr_cut_units.specs.Equations.{has_units};
ghost use Rattle.pr_cut_cells.specs.Arguments.{argument_of};
ghost use Rattle.pr_cut.specs.Operators.{arguments_of, is_operator};
ghost use Rattle.pr_cut.specs.Sources.{plan_in, turn_units, turn_next, IsPlanned, IsTurn, IsCutTo};

use crate::operands::arguments;
use crate::operators::units_at;
use crate::sources::{NextEquation, PlannedEquations, Value};
use pr_base::slices;
use pr_cut_cells::{Argument, slices_of_unit, widened};
use pr_cut_ops::{delayed, hold_units};
use pr_flat::Op;
use pr_net::{Slice, Unit};
use std::alloc::{AllocError, Global};

/// A recurrence with `k` hold units, of a body that is widened first.
#[tactic(auto, using(pr_cut_units::proofs::JoinLemmas::then_units, pr_cut_units::proofs::JoinLemmas::then_slices))]
fn held(
    alloc: Global,
    units: &mut Vec<Unit>,
    w: u8,
    init: u64,
    k: u32,
    body: &Argument,
) -> Result<Vec<Slice>, AllocError>
    requires some { 1 ≤ k }
    requires fits { length units.old.items + k + 1 < 2 ^ 32 }
    ensures units { IfOk result (λ s. units.new.items ≡
        units_after units.old.items (held w init k (argument_of body.now))) }
    ensures slices { IfOk result (λ s. s.items ≡ slices_after units.old.items (held w init k (argument_of body.now))) }
{
    let x = widened(alloc, units, &body.slices, body.signed, body.width, w)?;
    let all = hold_units(alloc, units, w, init, k, &x)?;
    Ok(all)
}

/// The units of an equation on these operands.
fn equation_units(
    alloc: Global,
    source: &PlannedEquations,
    units: &mut Vec<Unit>,
    turn: &NextEquation,
    args: &[Argument],
) -> Result<Vec<Slice>, AllocError>
    requires planned { IsPlanned source.now }
    requires turn { IsTurn source.now turn.now }
    requires count { length args.now ≡ arity turn.now.equation.now.op }
    requires takes { is_operator turn.now.equation.now.op ≡ true →
        takes turn.now.equation.now.op (argument_forms (arguments_of args.now)) ≡ true }
    requires holds { is_rec turn.now.equation.now.op ≡ true →
        slice_index source.now.plan.now.hold_counts.items turn.now.number ≤ 32768 }
    requires few { length units.old.items ≤ 32768 }
    ensures units { IfOk result (λ s. units.new.items ≡
        units_after units.old.items (turn_units source.now turn.now (arguments_of args.now))) }
    ensures slices { IfOk result (λ s. s.items ≡
        slices_after units.old.items (turn_units source.now turn.now (arguments_of args.now))) }
{
    let w = source.widths[turn.number];
    match turn.equation.op {
        Op::Input => slices_of_unit(alloc, turn.inputs, slices(w)),
        Op::Delay(c) => delayed(alloc, units, w, c, &args[0].slices),
        Op::Rec { init, .. } => {
            let k = source.plan.hold_counts[turn.number];
            held(alloc, units, w, init, k, &args[0])
        }
        op => units_at(alloc, units, w, op, args),
    }
}

/// Whether an equation is an input, or an output can be reached from it.
fn has_units(source: &PlannedEquations, turn: &NextEquation) -> bool
    requires planned { IsPlanned source.now }
    requires turn { IsTurn source.now turn.now }
    ensures { result ≡ has_units (plan_in source.now) turn.now.number (equation_shape turn.now.equation.now) }
{
    turn.equation.op == Op::Input || source.plan.reached[turn.number]
}

/// The units of an equation, where it is an input or an output can be reached from it.
#[tactic(auto, using(crate::proofs::EquationLemmas::next_made, crate::proofs::EquationLemmas::next_slices, crate::proofs::EquationLemmas::next_none))]
pub fn next_units(
    alloc: Global,
    source: &PlannedEquations,
    units: &mut Vec<Unit>,
    values: &[Value],
    turn: &NextEquation,
) -> Result<Vec<Slice>, AllocError>
    requires planned { IsPlanned source.now }
    requires turn { IsTurn source.now turn.now }
    requires cut { IsCutTo (plan_in source.now) turn.now.number units.old.items values.now }
    ensures units { IfOk result (λ s. units.new.items ≡
        units_after units.old.items (turn_next source.now turn.now units.old.items values.now)) }
    ensures slices { IfOk result (λ s. s.items ≡
        slices_after units.old.items (turn_next source.now turn.now units.old.items values.now)) }
{
    if has_units(source, turn) {
        let args = arguments(alloc, source, values, turn.equation)?;
        let all = equation_units(alloc, source, units, turn, &args)?;
        return Ok(all);
    }
    Ok(Vec::new(alloc))
}
