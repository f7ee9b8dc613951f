//! How many units each equation has.

ghost use Rattle.std.specs.Prelude.{◌≡◌, ◌<◌, ◌≤◌, ◌+◌, ◌*◌, ◌^◌, ℕ, true, Some, All, List, [], ◌∷◌, length, count_by, vec_len, take, slice_index, IfOk};
ghost use Rattle.std.specs.List.{slice_get, list_all, sum, sum_by};
ghost use Rattle.pr_base.specs.Numbers.{slices_of};
ghost use Rattle.pr_flat.specs.Forms.{IsForm};
ghost use Rattle.pr_flat.specs.Flats.{equations_of};
ghost use Rattle.pr_flat.specs.Shape.{EquationShape, equation_shape};
ghost use Rattle.pr_flat.specs.Facts.{arity, is_input, has_lawful_ends};
ghost use Rattle.pr_flat.specs.Rows.{takes};
ghost use Rattle.pr_flat.specs.Widths.{AreWidths, forms_in};
ghost use Rattle.pr_flat.specs.Values.{input_widths};
ghost use Rattle.pr_width.specs.Reads.{is_within};
ghost use Rattle.pr_cut_units.specs.Counts.{count_at, body_count};
ghost use Rattle.pr_cut_plan.specs.Plans.{IsHoldCount, IsOwnCount};

use crate::counts::{count_at, widening_count};
use pr_base::slices;
use pr_flat::{Equation, Flat, Form, Op};
use pr_width::operand_width;

fn is_input(op: Op) -> bool
    ensures { result ≡ is_input op }
{
    matches!(op, Op::Input)
}

/// How many of the equations are inputs.
#[tactic(auto, using(crate::proofs::EquationLemmas::inputs_rest))]
pub fn input_count(flat: &Flat) -> usize
    ensures is { result ≡ count_by (λ (e : EquationShape). is_input e.op) (equations_of flat.now) }
    ensures few { result ≤ vec_len flat.now.equations }
{
    let mut count = 0;
    for equation in &flat.equations {
        if is_input(equation.op) {
            count += 1;
        }
    }
    count
}

/// The bytes of all inputs together.
#[tactic(auto, using(crate::proofs::EquationLemmas::bytes_rest))]
pub fn input_bytes(flat: &Flat) -> usize
    ensures { result ≡ sum_by slices_of (input_widths (equations_of flat.now)) }
{
    let mut bytes = 0;
    for equation in &flat.equations {
        if is_input(equation.op) {
            bytes += slices(equation.declared.unwrap_or(0));
        }
    }
    bytes
}

/// How the operand at a place is read.
fn form_at(equation: &Equation, place: usize, widths: &[u8]) -> Form
    requires args { place < vec_len equation.now.args }
    requires kinds { place < vec_len equation.now.kinds }
    requires within { list_all (is_within (length widths.now)) equation.now.args.items ≡ true }
    ensures { slice_get (forms_in widths.now (equation_shape equation.now)) place ≡ Some result }
{
    Form {
        signed: equation.kinds[place],
        width: u16::from(operand_width(equation.args[place], widths)),
    }
}

/// The units of the body of a recurrence of width `w` that is widened to it.
pub fn body_count(equation: &Equation, w: u8, widths: &[u8]) -> u32
    requires args { vec_len equation.now.args ≡ arity equation.now.op }
    requires kinds { vec_len equation.now.kinds ≡ arity equation.now.op }
    requires within { list_all (is_within (length widths.now)) equation.now.args.items ≡ true }
    ensures is { result ≡ body_count w (forms_in widths.now (equation_shape equation.now)) }
    ensures few { result ≤ 1 }
{
    if equation.args.len() != 1 {
        return 0;
    }
    widening_count(form_at(equation, 0, widths), u16::from(w))
}

/// The units of an operator at width `w`.
fn operator_count(equation: &Equation, w: u8, widths: &[u8]) -> u32
    requires w { w ≤ 128 }
    requires args { vec_len equation.now.args ≡ arity equation.now.op }
    requires kinds { vec_len equation.now.kinds ≡ arity equation.now.op }
    requires within { list_all (is_within (length widths.now)) equation.now.args.items ≡ true }
    requires forms { All IsForm (forms_in widths.now (equation_shape equation.now)) }
    requires takes { takes equation.now.op (forms_in widths.now (equation_shape equation.now)) ≡ true }
    requires ends { has_lawful_ends equation.now.op ≡ true }
    ensures is { result ≡ count_at w equation.now.op (forms_in widths.now (equation_shape equation.now)) }
    ensures few { result ≤ 13001 }
{
    match equation.args.len() {
        0 => count_at(w, equation.op, &[]),
        1 => count_at(w, equation.op, &[form_at(equation, 0, widths)]),
        2 => {
            let forms = [form_at(equation, 0, widths), form_at(equation, 1, widths)];
            count_at(w, equation.op, &forms)
        }
        _ => {
            let c = form_at(equation, 0, widths);
            let a = form_at(equation, 1, widths);
            let b = form_at(equation, 2, widths);
            count_at(w, equation.op, &[c, a, b])
        }
    }
}

/// The units of equation `i`, beside those of the inputs; a recurrence has so many hold units.
pub fn own_count(flat: &Flat, widths: &[u8], i: usize, holds: u32) -> u64
    requires there { i < vec_len flat.now.equations }
    requires widths { AreWidths (equations_of flat.now) widths.now }
    requires holds { IsHoldCount (equations_of flat.now) i holds }
    ensures is { IsOwnCount (equations_of flat.now) widths.now i result }
    ensures few { result ≤ 2 ^ 33 }
{
    let equation = &flat.equations[i];
    match equation.op {
        Op::Input => 0,
        Op::Delay(_) => 1,
        Op::Rec { .. } => u64::from(body_count(equation, widths[i], widths)) + u64::from(holds),
        _ => u64::from(operator_count(equation, widths[i], widths)),
    }
}
