//! For which stream each unit is made.

ghost use Rattle.std.specs.Prelude.{◌≡◌, ◌++◌, Some, IfOk, OnOk, position, replicate};
ghost use Rattle.pr_flat.specs.Facts.{is_input};
ghost use Rattle.pr_flat.specs.Flats.{equations_of};
ghost use Rattle.pr_lens_shares.specs.Owners.{input_owner, input_owners, is_equation, owned};

use pr_flat::{Flat, Op, Operand};
use std::alloc::{AllocError, Global};

/// Whether an operand is the stream of this equation.
fn is_equation(number: usize, operand: Operand) -> bool
    ensures { result ≡ is_equation number operand }
{
    match operand {
        Operand::Const(_) => false,
        Operand::Eq(equation) => equation as usize == number,
        Operand::Past { rec: _, k: _ } => false,
    }
}

/// The place of the first operand that is the stream of this equation.
fn first_of(operands: &[Operand], number: usize) -> Option<usize>
    ensures { result ≡ position (λ o. is_equation number o) operands.now }
{
    operands
        .iter()
        .position(|operand| is_equation(number, *operand))
}

fn is_input(op: Op) -> bool
    ensures { result ≡ is_input op }
{
    matches!(op, Op::Input)
}

/// Adds the place of the stream for which the unit of an equation is made, where that is an input.
fn put_input(
    owners: &mut Vec<Option<usize>>,
    operands: &[Operand],
    number: usize,
    op: Op,
) -> Result<(), AllocError>
    ensures { OnOk result (owners.new.items ≡ owners.old.items ++ input_owner operands.now number op) }
{
    if is_input(op) {
        owners.push(first_of(operands, number))?;
    }
    Ok(())
}

/// Adds the places of the streams for which the units of the inputs are made.
fn put_inputs(
    owners: &mut Vec<Option<usize>>,
    operands: &[Operand],
    flat: &Flat,
) -> Result<(), AllocError>
    ensures { OnOk result (owners.new.items ≡ owners.old.items ++ input_owners operands.now 0 (equations_of flat.now)) }
{
    for (number, equation) in flat.equations.iter().enumerate() {
        put_input(owners, operands, number, equation.op)?;
    }
    Ok(())
}

/// Adds the place of a stream for each of so many units.
#[tactic(auto, using(std::proofs::lemmas::List::replicate_more))]
fn put_many(owners: &mut Vec<Option<usize>>, place: usize, count: usize) -> Result<(), AllocError>
    ensures { OnOk result (owners.new.items ≡ owners.old.items ++ replicate count (Some place)) }
{
    for _ in 0..count {
        owners.push(Some(place))?;
    }
    Ok(())
}

/// Adds the place of each stream for its units, of which there are so many.
fn put_owned(owners: &mut Vec<Option<usize>>, counts: &[usize]) -> Result<(), AllocError>
    ensures { OnOk result (owners.new.items ≡ owners.old.items ++ owned 0 counts.now) }
{
    for (place, count) in counts.iter().enumerate() {
        put_many(owners, place, *count)?;
    }
    Ok(())
}

/// For each unit of a net the place of its stream, by the units of each stream.
pub fn unit_owners(
    alloc: Global,
    flat: &Flat,
    operands: &[Operand],
    counts: &[usize],
) -> Result<Vec<Option<usize>>, AllocError>
    ensures { IfOk result (λ owners. owners.items
        ≡ input_owners operands.now 0 (equations_of flat.now) ++ owned 0 counts.now) }
{
    let mut owners = Vec::new(alloc);
    put_inputs(&mut owners, operands, flat)?;
    put_owned(&mut owners, counts)?;
    Ok(owners)
}
