//! Equations made by hand, and their widths.

ghost use Rattle.std.specs.Prelude.{◌≡◌, [], ◌∷◌, IfOk};
ghost use Rattle.pr_flat.specs.declared.equations.Operand.TheVariants.{Eq};
ghost use Rattle.pr_flat.specs.Shape.{equation_shape, shapes_of};
ghost use Rattle.pr_flat.specs.Facts.{IsFlat};
ghost use Rattle.pr_front_tests.specs.Made.{shape_made, input_made, recurrence_made};

use pr_flat::{Equation, Flat, Op, Operand};
use pr_width::{WidthFault, solve};
use std::alloc::{AllocError, Global};
use std::test::Fail;

const X: Operand = Operand::Eq(0);

const MADE: Operand = Operand::Eq(1);

const PAST: Operand = Operand::Past { rec: 2, k: 1 };

/// An equation whose operands are read as unsigned.
fn equation(
    alloc: Global,
    op: Op,
    args: &[Operand],
    declared: Option<u8>,
) -> Result<Equation, AllocError>
    ensures { IfOk result (λ e. equation_shape e ≡ shape_made op args.now declared) }
{
    let kinds = vec![in alloc; false; args.len()]?;
    let args = args.iter().copied().collect(alloc)?;
    Ok(Equation {
        op,
        args,
        declared,
        kinds,
    })
}

/// An input of this width, and an operation.
fn operation(
    alloc: Global,
    width: u8,
    op: Op,
    args: &[Operand],
    declared: Option<u8>,
) -> Result<Vec<Equation>, AllocError>
    ensures { IfOk result (λ v. shapes_of v.items ≡ input_made width ∷ shape_made op args.now declared ∷ []) }
{
    let input = equation(alloc, Op::Input, &[], Some(width))?;
    let made = equation(alloc, op, args, declared)?;
    Ok(vec![in alloc; input, made]?)
}

/// The same without a declared width, and a recurrence with this initial value that goes on by the operation.
fn recurrence(
    alloc: Global,
    width: u8,
    op: Op,
    args: &[Operand],
    init: u64,
    declared: Option<u8>,
) -> Result<Vec<Equation>, AllocError>
    ensures { IfOk result (λ v. shapes_of v.items ≡ recurrence_made width op args.now init declared) }
{
    let mut equations = operation(alloc, width, op, args, None)?;
    equations.push(equation(alloc, Op::Rec { init, first: 1 }, &[MADE], declared)?)?;
    Ok(equations)
}

/// Whether equations, of which the first is an output, have these widths, or the equation of this number has none.
fn are_solved(
    alloc: Global,
    equations: Vec<Equation>,
    wanted: Result<&[u8], u32>,
) -> Result<bool, AllocError>
    requires { IsFlat (shapes_of equations.items) (Eq 0 ∷ []) }
{
    let outputs = vec![in alloc; X]?;
    let flat = Flat { equations, outputs };
    Ok(match solve(alloc, &flat) {
        Ok(found) => wanted == Ok(found.of.as_slice()),
        Err(WidthFault::NoWidth { equation }) => wanted == Err(equation),
        Err(WidthFault::Memory(error)) => return Err(error),
    })
}

/// Whether an operation on an input of this width is solved so.
fn is_solved(
    alloc: Global,
    width: u8,
    op: Op,
    args: &[Operand],
    declared: Option<u8>,
    wanted: Result<&[u8], u32>,
) -> Result<bool, AllocError>
    requires { IsFlat (input_made width ∷ shape_made op args.now declared ∷ []) (Eq 0 ∷ []) }
{
    are_solved(alloc, operation(alloc, width, op, args, declared)?, wanted)
}

/// Whether a recurrence that goes on by such an operation is solved so.
fn recurs(
    alloc: Global,
    width: u8,
    op: Op,
    args: &[Operand],
    init: u64,
    declared: Option<u8>,
    wanted: Result<&[u8], u32>,
) -> Result<bool, AllocError>
    requires { IsFlat (recurrence_made width op args.now init declared) (Eq 0 ∷ []) }
{
    let equations = recurrence(alloc, width, op, args, init, declared)?;
    are_solved(alloc, equations, wanted)
}

#[test]
fn a_recurrence_has_the_least_width(rt: HostRuntime) -> Result<(), Fail> {
    let alloc = rt.alloc();
    let args = [PAST, X];
    assert!(rt; recurs(alloc, 8, Op::Add, &args, 0, None, Err(2))?);
    assert!(rt; recurs(alloc, 8, Op::Xor, &args, 0, None, Ok(&[8, 8, 8]))?);
    assert!(rt; recurs(alloc, 8, Op::And, &args, 300, None, Ok(&[8, 9, 9]))?);
    Ok(())
}

#[test]
fn what_a_body_lacks_counts_at_an_open_recurrence(rt: HostRuntime) -> Result<(), Fail> {
    let alloc = rt.alloc();
    let args = [X, PAST, X];
    assert!(rt; recurs(alloc, 2, Op::Choose, &args, 0, None, Err(2))?);
    assert!(rt; recurs(alloc, 2, Op::Choose, &args, 0, Some(8), Err(1))?);
    Ok(())
}

#[test]
fn operations_without_width(rt: HostRuntime) -> Result<(), Fail> {
    let alloc = rt.alloc();
    assert!(rt; is_solved(alloc, 2, Op::Choose, &[X, X, X], Some(8), Err(1))?);
    assert!(rt; is_solved(alloc, 8, Op::Slice(8, 0), &[X], None, Err(1))?);
    assert!(rt; is_solved(alloc, 128, Op::Add, &[X, X], None, Err(1))?);
    assert!(rt; is_solved(alloc, 128, Op::Add, &[X, X], Some(128), Ok(&[128, 128]))?);
    Ok(())
}
