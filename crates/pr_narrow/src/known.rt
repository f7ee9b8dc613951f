//! Equations whose numbers are known without a sample, and numbers in their places.

ghost use Rattle.std.specs.Prelude.{◌≡◌, ◌<◌, ◌≤◌, ◌^◌, ℕ, true, length, vec_len, IfOk, IfSome};
ghost use Rattle.std.specs.List.{list_all};
ghost use Rattle.pr_flat.specs.Facts.{arity};
ghost use Rattle.pr_flat.specs.Forms.{IsPoint};
ghost use Rattle.pr_flat.specs.Rows.{takes};
ghost use Rattle.pr_flat.specs.Flats.{equations_of};
ghost use Rattle.pr_flat.specs.Shape.{shapes_of, equation_shape};
ghost use Rattle.pr_flat.specs.Widths.{forms_in, AreWidths};
ghost use Rattle.pr_width.specs.Reads.{is_within};
ghost use Rattle.pr_narrow.specs.Known.{IsPointAt, is_steady, known_operand, number_known, known_number, known_of, short, number_shape, folded_shape, folded_by, folded};
ghost use Rattle.pr_narrow.specs.Passes.{AreWide, HaveBits};

use pr_base::{Num, Width};
use pr_flat::{Equation, Flat, Form, Op, Operand, Point};
use pr_flat_ops::operate;
use pr_width::operand_width;
use std::alloc::{AllocError, Global};

/// Whether an operation makes the same number of the same operands at each sample.
fn is_steady(op: Op) -> bool
    ensures { result ≡ is_steady op }
{
    match op {
        Op::Input | Op::Delay(_) | Op::Rec { .. } => false,
        _ => true,
    }
}

/// The number of an operand, where it is known.
fn number_of(operand: Operand, known: &[Option<u64>]) -> Option<u64>
    ensures { result ≡ known_operand known.now operand }
{
    match operand {
        Operand::Const(c) => Some(c),
        Operand::Eq(i) => match known.get(i as usize) {
            Some(number) => *number,
            None => None,
        },
        Operand::Past { .. } => None,
    }
}

/// The operand at a place as it is read, where its number is known.
fn point_at(
    equation: &Equation,
    place: usize,
    widths: &[u8],
    known: &[Option<u64>],
) -> Option<Point>
    requires args { place < vec_len equation.now.args }
    requires kinds { place < vec_len equation.now.kinds }
    requires within { list_all (is_within (length widths.now)) equation.now.args.items ≡ true }
    requires wide { AreWide widths.now }
    requires bits { HaveBits widths.now known.now }
    ensures point { IsPointAt widths.now known.now (equation_shape equation.now) place result }
    ensures lawful { IfSome result IsPoint }
{
    let operand = equation.args[place];
    let number = number_of(operand, known)?;
    Some(Point {
        form: Form {
            signed: equation.kinds[place],
            width: u16::from(operand_width(operand, widths)),
        },
        number: Num::from(number),
    })
}

/// The number that a steady equation of this width makes, where its operands are known.
fn number_by(equation: &Equation, width: Width, widths: &[u8], known: &[Option<u64>]) -> Option<Num>
    requires steady { is_steady equation.now.op ≡ true }
    requires args { vec_len equation.now.args ≡ arity equation.now.op }
    requires kinds { vec_len equation.now.kinds ≡ arity equation.now.op }
    requires within { list_all (is_within (length widths.now)) equation.now.args.items ≡ true }
    requires takes { takes equation.now.op (forms_in widths.now (equation_shape equation.now)) ≡ true }
    requires wide { AreWide widths.now }
    requires bits { HaveBits widths.now known.now }
    ensures { result ≡ number_known widths.now known.now width.bits (equation_shape equation.now) }
{
    let first = point_at(equation, 0, widths, known)?;
    if equation.args.len() == 1 {
        return Some(operate(equation.op, &[first], width));
    }
    let second = point_at(equation, 1, widths, known)?;
    if equation.args.len() == 2 {
        return Some(operate(equation.op, &[first, second], width));
    }
    let third = point_at(equation, 2, widths, known)?;
    Some(operate(equation.op, &[first, second, third], width))
}

/// A number, where it has 64 bits at most.
fn short(number: Num) -> Option<u64>
    ensures { result ≡ short number }
{
    if number < 1 << 64 {
        Some(number as u64)
    } else {
        None
    }
}

/// The number of an equation of this width, where it is known.
fn known_number(equation: &Equation, width: u8, widths: &[u8], known: &[Option<u64>]) -> Option<u64>
    requires least { 1 ≤ width }
    requires most { width ≤ 128 }
    requires args { vec_len equation.now.args ≡ arity equation.now.op }
    requires kinds { vec_len equation.now.kinds ≡ arity equation.now.op }
    requires within { list_all (is_within (length widths.now)) equation.now.args.items ≡ true }
    requires takes { is_steady equation.now.op ≡ true →
        takes equation.now.op (forms_in widths.now (equation_shape equation.now)) ≡ true }
    requires wide { AreWide widths.now }
    requires bits { HaveBits widths.now known.now }
    ensures { result ≡ known_number widths.now known.now width (equation_shape equation.now) }
{
    if !is_steady(equation.op) {
        return None;
    }
    let bits = Width::of(width)?;
    let number = number_by(equation, bits, widths, known)?;
    short(number)
}

/// The numbers of all equations, where they are known.
fn known_numbers(alloc: Global, flat: &Flat, widths: &[u8]) -> Result<Vec<Option<u64>>, AllocError>
    requires { AreWidths (equations_of flat.now) widths.now }
    ensures { IfOk result (λ v. v.items ≡ known_of (equations_of flat.now) widths.now) }
{
    let mut known = Vec::with_capacity(alloc, flat.equations.len())?;
    for i in 0..flat.equations.len() {
        let number = known_number(&flat.equations[i], widths[i], widths, &known);
        known.push(number)?;
    }
    Ok(known)
}

/// A number in the place of an equation of this width.
fn number_equation(alloc: Global, number: u64, width: u8) -> Result<Equation, AllocError>
    ensures { IfOk result (λ e. equation_shape e ≡ number_shape number width) }
{
    Ok(Equation {
        op: Op::Fit,
        args: vec![in alloc; Operand::Const(number)]?,
        declared: Some(width),
        kinds: vec![in alloc; false]?,
    })
}

/// The same operands again.
fn copy_operands(alloc: Global, operands: &[Operand]) -> Result<Vec<Operand>, AllocError>
    ensures { IfOk result (λ v. v.items ≡ operands.now) }
{
    operands.iter().copied().collect(alloc)
}

/// The same equation again.
fn copy_of(alloc: Global, equation: &Equation) -> Result<Equation, AllocError>
    ensures { IfOk result (λ e. equation_shape e ≡ equation_shape equation.now) }
{
    Ok(Equation {
        op: equation.op,
        args: copy_operands(alloc, &equation.args)?,
        declared: equation.declared,
        kinds: equation.kinds.iter().copied().collect(alloc)?,
    })
}

/// The equation again, or its number in its place where that is known.
fn fold_one(
    alloc: Global,
    equation: &Equation,
    number: Option<u64>,
    width: u8,
) -> Result<Equation, AllocError>
    ensures { IfOk result (λ e. equation_shape e ≡ folded_shape number width (equation_shape equation.now)) }
{
    match number {
        Some(number) => number_equation(alloc, number, width),
        None => copy_of(alloc, equation),
    }
}

/// The equations again, each with its number in its place where that is known.
fn fold_known(
    alloc: Global,
    equations: &[Equation],
    widths: &[u8],
    known: &[Option<u64>],
) -> Result<Vec<Equation>, AllocError>
    requires widths { length widths.now ≡ length equations.now }
    requires known { length known.now ≡ length equations.now }
    ensures { IfOk result (λ v. shapes_of v.items ≡ folded_by known.now widths.now (shapes_of equations.now)) }
{
    let mut folded = Vec::with_capacity(alloc, equations.len())?;
    for i in 0..equations.len() {
        let equation = fold_one(alloc, &equations[i], known[i], widths[i])?;
        folded.push(equation)?;
    }
    Ok(folded)
}

/// The equations, folded: a number in the place of each equation that has the same one at each sample.
pub fn fold(alloc: Global, flat: &Flat, widths: &[u8]) -> Result<Flat, AllocError>
    requires { AreWidths (equations_of flat.now) widths.now }
    ensures folded { IfOk result (λ f. equations_of f ≡ folded (equations_of flat.now) widths.now) }
    ensures outputs { IfOk result (λ f. f.outputs.items ≡ flat.now.outputs.items) }
{
    let known = known_numbers(alloc, flat, widths)?;
    let equations = fold_known(alloc, &flat.equations, widths, &known)?;
    let outputs = copy_operands(alloc, &flat.outputs)?;
    Ok(Flat { equations, outputs })
}
