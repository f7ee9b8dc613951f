//! Equations cut to the bits that are demanded of them.

ghost use Rattle.std.specs.Prelude.{◌≡◌, ◌<◌, ◌≤◌, ◌^◌, ◌%◌, ℕ, true, length, vec_len, slice_index, slice_get, List, [], ◌∷◌, Some, IfOk};
ghost use Rattle.std.specs.List.{list_all};
ghost use Rattle.pr_flat.specs.declared.equations.Operand.{Operand};
ghost use Rattle.pr_flat.specs.Facts.{IsFlat, arity, has_lawful_ends};
ghost use Rattle.pr_flat.specs.Flats.{equations_of};
ghost use Rattle.pr_flat.specs.Shape.{shapes_of, equation_shape};
ghost use Rattle.pr_flat.specs.Widths.{AreWidths};
ghost use Rattle.pr_width.specs.Reads.{is_within};
ghost use Rattle.pr_narrow.specs.Known.{number_shape};
ghost use Rattle.pr_narrow.specs.Narrowed.{AreNarrowed, new_width, new_widths, delayed_width, narrowed_op, narrowed_shape, narrowed_by};
ghost use Rattle.pr_narrow.specs.Passes.{CanNarrow};

use crate::demand::demands;
use crate::known::fold;
use pr_base::bits_of;
use pr_flat::{Equation, Flat, Op, Operand};
use pr_width::Widths;
use std::alloc::{AllocError, Global};

/// The new width of what a delay reads.
fn delayed_width(operand: Operand, demand: &[u8], news: &[u8]) -> u8
    requires demand { (rec k : ℕ) → operand ≡ Operand.Past rec k → rec < length demand.now }
    requires news { (i : ℕ) → operand ≡ Operand.Eq i → i < length news.now }
    ensures { result ≡ delayed_width demand.now news.now (operand ∷ []) }
{
    match operand {
        Operand::Const(c) => bits_of(u128::from(c)).get(),
        Operand::Eq(i) => news[i as usize],
        Operand::Past { rec, .. } => demand[rec as usize],
    }
}

/// The new width of an equation of which so many bits are demanded.
fn new_width(equation: &Equation, width: u8, bits: u8, demand: &[u8], news: &[u8]) -> u8
    requires args { vec_len equation.now.args ≡ arity equation.now.op }
    requires demand { list_all (is_within (length demand.now)) equation.now.args.items ≡ true }
    requires news { (i : ℕ) → slice_get equation.now.args.items 0 ≡ Some (Operand.Eq i) → i < length news.now }
    ensures { result ≡ new_width demand.now news.now width bits (equation_shape equation.now) }
{
    let op = equation.op;
    match op {
        Op::Input => width,
        Op::Delay(_) if bits > 0 => delayed_width(equation.args[0], demand, news),
        _ => bits.max(1),
    }
}

/// The new widths of all equations.
fn new_widths(
    alloc: Global,
    flat: &Flat,
    widths: &[u8],
    demand: &[u8],
) -> Result<Vec<u8>, AllocError>
    requires widths { length widths.now ≡ vec_len flat.now.equations }
    requires demand { length demand.now ≡ vec_len flat.now.equations }
    ensures { IfOk result (λ v. v.items ≡ new_widths (equations_of flat.now) widths.now demand.now) }
{
    let mut news = Vec::with_capacity(alloc, flat.equations.len())?;
    for i in 0..flat.equations.len() {
        let width = new_width(&flat.equations[i], widths[i], demand[i], demand, &news);
        news.push(width)?;
    }
    Ok(news)
}

/// A number, reduced to so many bits.
fn reduced(number: u64, width: u8) -> u64
    ensures { result ≡ number % 2 ^ width }
{
    if width < 64 {
        number % (1 << width)
    } else {
        number
    }
}

/// An operation at a new width.
fn narrowed_op(op: Op, width: u8) -> Op
    requires some { 1 ≤ width }
    requires ends { has_lawful_ends op ≡ true }
    ensures { result ≡ narrowed_op width op }
{
    match op {
        Op::Slice(high, low) => Op::Slice(low + (high - low).min(u64::from(width) - 1), low),
        Op::Rec { init, first } => Op::Rec {
            init: reduced(init, width),
            first,
        },
        Op::Delay(c) => Op::Delay(reduced(c, width)),
        op => op,
    }
}

/// Makes an equation the number 0, one bit wide.
fn put_zero(equation: &mut Equation)
    requires args { 1 ≤ vec_len equation.old.args }
    requires kinds { 1 ≤ vec_len equation.old.kinds }
    ensures { equation_shape equation.new ≡ number_shape 0 1 }
{
    equation.op = Op::Fit;
    equation.args.truncate(1);
    equation.args[0] = Operand::Const(0);
    equation.declared = Some(1);
    equation.kinds.truncate(1);
    equation.kinds[0] = false;
}

/// Cuts an equation of which so many bits are demanded to its new width.
fn narrow_equation(equation: &mut Equation, bits: u8, width: u8)
    requires args { vec_len equation.old.args ≡ arity equation.old.op }
    requires kinds { vec_len equation.old.kinds ≡ arity equation.old.op }
    requires ends { has_lawful_ends equation.old.op ≡ true }
    requires some { 1 ≤ width }
    ensures { equation_shape equation.new ≡ narrowed_shape bits width (equation_shape equation.old) }
{
    if let Op::Input = equation.op {
        return;
    }
    if bits == 0 {
        put_zero(equation);
        return;
    }
    equation.declared = match equation.op {
        Op::Delay(_) => None,
        _ => Some(width),
    };
    equation.op = narrowed_op(equation.op, width);
}

/// Cuts each equation to its new width.
fn narrow_all(equations: &mut [Equation], demand: &[u8], news: &[u8])
    requires demand { length demand.now ≡ length equations.old }
    requires news { length news.now ≡ length equations.old }
    requires can { CanNarrow (shapes_of equations.old) }
    requires some { (i : ℕ) → i < length equations.old → 1 ≤ slice_index news.now i }
    ensures { shapes_of equations.new ≡ narrowed_by demand.now news.now (shapes_of equations.old) }
{
    for i in 0..equations.len() {
        narrow_equation(&mut equations[i], demand[i], news[i]);
    }
}

/// The equations at their new widths.
fn narrowed(folded: Flat, demand: &[u8], news: &[u8]) -> Flat
    requires demand { length demand.now ≡ vec_len folded.equations }
    requires news { length news.now ≡ vec_len folded.equations }
    requires some { (i : ℕ) → i < vec_len folded.equations → 1 ≤ slice_index news.now i }
    requires flat { IsFlat (narrowed_by demand.now news.now (equations_of folded)) folded.outputs.items }
    ensures equations { equations_of result ≡ narrowed_by demand.now news.now (equations_of folded) }
    ensures outputs { result.outputs.items ≡ folded.outputs.items }
{
    let Flat {
        mut equations,
        outputs,
    } = folded;
    narrow_all(&mut equations, demand, news);
    Flat { equations, outputs }
}

/// The equations, folded and cut to the bits that outputs demand, with their widths.
///
/// # Errors
///
/// Memory is wanting.
pub fn narrow(alloc: Global, flat: &Flat, widths: &Widths) -> Result<(Flat, Widths), AllocError>
    requires { AreWidths (equations_of flat.now) widths.now }
    ensures narrowed { IfOk result (λ r. AreNarrowed
        (equations_of flat.now) flat.now.outputs.items widths.now (equations_of r.0) r.1) }
    ensures outputs { IfOk result (λ r. r.0.outputs.items ≡ flat.now.outputs.items) }
    ensures widths { IfOk result (λ r. AreWidths (equations_of r.0) r.1) }
{
    let folded = fold(alloc, flat, &widths.of)?;
    let demand = demands(alloc, &folded, &widths.of)?;
    let news = new_widths(alloc, &folded, &widths.of, &demand)?;
    let narrowed = narrowed(folded, &demand, &news);
    Ok((narrowed, Widths { of: news }))
}
