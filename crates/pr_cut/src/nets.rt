//! The net of flat equations.

ghost use Rattle.std.specs.Prelude.{◌≡◌, ◌≢◌, ◌≤◌, None, Some, Err, cond, map, vec_len, length, drop, take, IfOk, IfErr, OnOk};
ghost use Rattle.std.specs.List.{sum_by};
ghost use Rattle.pr_base.specs.Numbers.{slices_of};
ghost use Rattle.pr_base.specs.declared.caps.Cap.{Cap};
ghost use Rattle.pr_flat.specs.Flats.{equations_of};
ghost use Rattle.pr_flat.specs.Facts.{is_input};
ghost use Rattle.pr_flat.specs.Values.{input_widths};
ghost use Rattle.pr_flat.specs.Widths.{AreWidths};
ghost use Rattle.pr_net.specs.Whole.{shape_of};
ghost use Rattle.pr_cut_units.specs.Equations.{input_units, cut_whole};
ghost use Rattle.pr_cut_units.specs.Flats.{flat_net};
ghost use Rattle.pr_cut_units.specs.Nets.{output_of, limit_passed};
ghost use Rattle.pr_cut.specs.Sources.{plan_in, equations_in, IsPlanned, AreReady};

use crate::equations::next_units;
use crate::operands::operand_slices;
use crate::sources::{NextEquation, PlannedEquations, Value};
use pr_base::slices;
use pr_cut_ops::input_unit;
use pr_cut_plan::{CutFault, groups_of, holds_of, plan_of};
use pr_flat::{Flat, Op};
use pr_net::{Net, NetOutput, Unit};
use pr_width::{Widths, operand_width};
use std::alloc::{AllocError, Global};

/// The units of all equations, and the slices of each equation.
#[derive(Drop)]
struct CutEquations {
    units: Vec<Unit>,
    values: Vec<Value>,
}

/// The width of each input.
fn input_widths(alloc: Global, flat: &Flat) -> Result<Vec<u8>, AllocError>
    ensures { IfOk result (λ all. all.items ≡ input_widths (equations_of flat.now)) }
{
    let mut all = Vec::new(alloc);
    for equation in &flat.equations {
        if equation.op == Op::Input {
            all.push(equation.declared.unwrap_or(0))?;
        }
    }
    Ok(all)
}

/// A unit for each input.
fn input_units(alloc: Global, widths: &[u8]) -> Result<Vec<Unit>, AllocError>
    requires room { sum_by slices_of widths.now ≤ 64 }
    requires few { length widths.now ≤ 16384 }
    ensures { IfOk result (λ units. units.items ≡ input_units 0 widths.now) }
{
    let mut units = Vec::new(alloc);
    let mut offset = 0;
    for i in 0..widths.len() {
        input_unit(alloc, &mut units, widths[i], offset)?;
        offset += slices(widths[i]) as u8;
    }
    Ok(units)
}

fn is_input(op: Op) -> bool
    ensures { result ≡ is_input op }
{
    op == Op::Input
}

/// How many inputs one equation of this operation is.
fn input_count(op: Op) -> u32
    ensures { result ≡ cond (is_input op) 1 0 }
{
    if is_input(op) { 1 } else { 0 }
}

/// The units of all equations, after those of inputs of these widths.
#[tactic(auto, using(crate::proofs::StepLemmas::cut_more, crate::proofs::StepLemmas::cut_units, crate::proofs::StepLemmas::cut_values, crate::proofs::StepLemmas::inputs_few))]
fn all_units(
    alloc: Global,
    source: &PlannedEquations,
    inputs: &[u8],
) -> Result<CutEquations, AllocError>
    requires planned { IsPlanned source.now }
    requires inputs { inputs.now ≡ input_widths (equations_in source.now) }
    requires room { sum_by slices_of inputs.now ≤ 64 }
    ensures units { IfOk result (λ made. made.units.items ≡ (cut_whole (plan_in source.now)).units) }
    ensures values { IfOk result (λ made. made.values.items ≡ (cut_whole (plan_in source.now)).values) }
{
    let mut units = input_units(alloc, inputs)?;
    let mut values = Vec::new(alloc);
    let mut before = 0;
    for number in 0..source.flat.equations.len() {
        let equation = &source.flat.equations[number];
        let turn = NextEquation {
            number,
            equation,
            inputs: before,
        };
        let slices = next_units(alloc, source, &mut units, &values, &turn)?;
        values.push(Value { slices })?;
        before += input_count(equation.op);
    }
    Ok(CutEquations { units, values })
}

/// What the outputs give, where the equations have these slices.
fn outputs(
    alloc: Global,
    source: &PlannedEquations,
    values: &[Value],
) -> Result<Vec<NetOutput>, AllocError>
    requires planned { IsPlanned source.now }
    requires ready { AreReady (plan_in source.now) values.now source.now.flat.now.outputs.items }
    ensures { IfOk result (λ all. all.items ≡
        map (output_of (plan_in source.now) values.now) source.now.flat.now.outputs.items) }
{
    let mut all = Vec::new(alloc);
    for i in 0..source.flat.outputs.len() {
        let output = source.flat.outputs[i];
        let slices = operand_slices(alloc, source, values, output)?;
        all.push(NetOutput {
            width: operand_width(output, source.widths),
            slices,
        })?;
    }
    Ok(all)
}

/// The net of equations by their plan.
fn net_with(alloc: Global, source: &PlannedEquations) -> Result<Net, AllocError>
    requires planned { IsPlanned source.now }
    requires room { sum_by slices_of (input_widths (equations_in source.now)) ≤ 64 }
    ensures { IfOk result (λ net. shape_of net ≡ flat_net source.now.flat.now source.now.widths.now) }
{
    let inputs = input_widths(alloc, source.flat)?;
    let made = all_units(alloc, source, &inputs)?;
    let CutEquations { units, values } = made;
    let outputs = outputs(alloc, source, &values)?;
    let holds = holds_of(alloc, source.flat, source.plan)?;
    let groups = groups_of(alloc, &units, &holds)?;
    Ok(Net {
        units,
        groups,
        inputs,
        outputs,
    })
}

/// The net of equations with these widths, for a fabric of so many columns.
///
/// # Errors
///
/// `Limit` with the first limit that the net passes: bytes of inputs, outputs, units. `Memory` where memory is wanting.
pub fn cut(alloc: Global, flat: &Flat, widths: &Widths, columns: usize) -> Result<Net, CutFault>
    requires widths { AreWidths (equations_of flat.now) widths.now }
    requires columns { (1 ≤ columns) × (columns ≤ 64) }
    ensures net { IfOk result (λ net. shape_of net ≡ flat_net flat.now widths.now) }
    ensures within { OnOk result (limit_passed columns (flat_net flat.now widths.now) ≡ None) }
    ensures refused { (cap : Cap) → result ≡ Err (CutFault.Limit cap) →
        limit_passed columns (flat_net flat.now widths.now) ≡ Some cap }

    // The bytes of the inputs and the outputs are counted before any memory is asked for.
    ensures passed { (cap : Cap) → limit_passed columns (flat_net flat.now widths.now) ≡ Some cap → cap ≢ Cap.Units →
        result ≡ Err (CutFault.Limit cap) }
{
    let plan = plan_of(alloc, flat, widths, columns)?;
    let source = PlannedEquations {
        flat,
        widths: &widths.of,
        plan: &plan,
    };
    let net = net_with(alloc, &source)?;
    Ok(net)
}
