//! Which streams are delays, and which of these no output needs.

ghost use Rattle.std.specs.Prelude.{◌≡◌, option_map};
ghost use Rattle.pr_flat.specs.Flats.{equations_of};
ghost use Rattle.pr_flat.specs.Shape.{equation_shape};
ghost use Rattle.pr_lens_waste.specs.Delays.{equation_at, idle_index, is_delay, is_delayed, is_fit, is_idle, is_needed, unfitted};

use pr_flat::{Equation, Flat, Op, Operand};

fn is_delay(op: Op) -> bool
    ensures { result ≡ is_delay op }
{
    matches!(op, Op::Delay(_))
}

fn is_fit(op: Op) -> bool
    ensures { result ≡ is_fit op }
{
    matches!(op, Op::Fit)
}

/// The equation of an operand.
fn equation_at(flat: &Flat, operand: Operand) -> Option<&Equation>
    ensures { option_map (λ e. equation_shape e.now) result ≡ equation_at (equations_of flat.now) operand }
{
    match operand {
        Operand::Eq(number) => flat.equations.get(number as usize),
        Operand::Const(_) => None,
        Operand::Past { rec: _, k: _ } => None,
    }
}

/// What an equation fits to a width; the operand itself where its equation is of another kind.
fn unfitted(flat: &Flat, operand: Operand) -> Operand
    ensures { result ≡ unfitted (equations_of flat.now) operand }
{
    match equation_at(flat, operand) {
        None => operand,
        Some(equation) => {
            if is_fit(equation.op) {
                return equation.args.first().copied().unwrap_or(operand);
            }
            operand
        }
    }
}

/// Whether an operand is a delay.
fn is_delayed(flat: &Flat, operand: Operand) -> bool
    ensures { result ≡ is_delayed (equations_of flat.now) operand }
{
    match equation_at(flat, operand) {
        None => false,
        Some(equation) => is_delay(equation.op),
    }
}

/// Whether an output can be reached from an operand, by such a flag for each equation.
fn is_needed(needed: &[bool], operand: Operand) -> bool
    ensures { result ≡ is_needed needed.now operand }
{
    match operand {
        Operand::Eq(number) => needed.get(number as usize).copied().unwrap_or(false),
        _ => true,
    }
}

/// Whether an operand is a delay, at its own width or a declared one, that no output needs.
fn is_idle(flat: &Flat, needed: &[bool], operand: Operand) -> bool
    ensures { result ≡ is_idle (equations_of flat.now) needed.now operand }
{
    is_delayed(flat, unfitted(flat, operand)) && !is_needed(needed, operand)
}

/// The index of an instance that is such a delay.
pub fn idle_index(flat: &Flat, needed: &[bool], index: Option<u64>, operand: Operand) -> Option<u64>
    ensures { result ≡ idle_index (equations_of flat.now) needed.now index operand }
{
    if is_idle(flat, needed, operand) {
        index
    } else {
        None
    }
}
