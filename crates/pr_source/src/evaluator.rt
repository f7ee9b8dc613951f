//! Equations that are given one sample after the other.

ghost use Rattle.std.specs.Prelude.{◌≡◌, ◌≤◌, ◌++◌, [], ◌∷◌, true, ℕ, List, length, vec_len, IfOk};
ghost use Rattle.std.specs.List.{list_all};
ghost use Rattle.pr_base.specs.Rows.{IsRow};
ghost use Rattle.pr_flat.specs.Facts.{is_lawful_output};
ghost use Rattle.pr_flat.specs.Flats.{equations_of};
ghost use Rattle.pr_flat.specs.Shape.{EquationShape};
ghost use Rattle.pr_flat.specs.Widths.{AreWidths};
ghost use Rattle.pr_flat.specs.Values.{input_widths, operand_number, row_of};
ghost use Rattle.pr_source.specs.Keeping.{is_near, AreNear, kept};
ghost use Rattle.pr_source.specs.Outputs.{given, given_next};
ghost use Rattle.pr_source.specs.Reading.{IsPast};

use crate::reader::{Reader, is_input};
use crate::recent::{Recent, Row, zeros};
use pr_base::Num;
use pr_flat::{Flat, Operand};
use pr_width::Widths;
use std::alloc::{AllocError, Global};

/// How many rows an operand looks back on, and one more.
fn slots_of_operand(operand: Operand) -> usize
    ensures some { 1 ≤ result }
    ensures near { (slots : ℕ) → result ≤ slots → is_near slots operand ≡ true }
    ensures least { (slots : ℕ) → 1 ≤ slots → is_near slots operand ≡ true → result ≤ slots }
{
    match operand {
        Operand::Past { k, .. } => k as usize + 1,
        _ => 1,
    }
}

/// The most of these operands.
fn slots_of_operands(operands: &[Operand]) -> usize
    ensures some { 1 ≤ result }
    ensures near { (slots : ℕ) → result ≤ slots → list_all (is_near slots) operands.now ≡ true }
    ensures least { (slots : ℕ) → 1 ≤ slots → list_all (is_near slots) operands.now ≡ true → result ≤ slots }
{
    let mut slots = 1;
    for operand in operands {
        slots = slots.max(slots_of_operand(*operand));
    }
    slots
}

/// How many rows equations look back on, and one more.
fn slots_of(flat: &Flat) -> usize
    ensures some { 1 ≤ result }
    ensures near { AreNear result (equations_of flat.now) }
    ensures least { (slots : ℕ) → 1 ≤ slots → AreNear slots (equations_of flat.now) → result ≤ slots }
{
    let mut slots = 1;
    for equation in &flat.equations {
        slots = slots.max(slots_of_operands(&equation.args));
    }
    slots
}

/// The row of a sample after these rows.
fn fill(flat: &Flat, widths: &Widths, recent: &Recent, sample: &[Num], row: &mut Row)
    requires widths { AreWidths (equations_of flat.now) widths.now }
    requires sample { IsRow (input_widths (equations_of flat.now)) sample.now }
    requires before { IsPast (equations_of flat.now) widths.now (kept recent.now) }
    requires room { length row.old ≡ vec_len flat.now.equations }
    ensures { row.new ≡ row_of (equations_of flat.now) widths.now (kept recent.now) sample.now }
{
    let numbers = &mut row.numbers;
    let mut input = 0;
    for i in 0..flat.equations.len() {
        let reader = Reader {
            flat,
            widths,
            recent,
            row: &numbers[..i],
        };
        let number = reader.next(sample, input);
        input += usize::from(is_input(flat.equations[i].op));
        numbers[i] = number;
    }
}

/// The number of an output in a row.
fn number_of(output: Operand, row: &[Num]) -> Num
    requires { is_lawful_output (length row.now) output ≡ true }
    ensures { (equations : List EquationShape) → result ≡ operand_number equations [] row.now output }
{
    match output {
        Operand::Const(c) => Num::from(c),
        Operand::Eq(i) => row[i as usize],
        Operand::Past { .. } => 0,
    }
}

/// The numbers of the outputs in a row.
fn give(flat: &Flat, row: &Row, into: &mut [Num])
    requires row { length row.now ≡ vec_len flat.now.equations }
    requires into { length into.old ≡ vec_len flat.now.outputs }
    ensures { into.new ≡ given (equations_of flat.now) flat.now.outputs.items row.now }
{
    let numbers = &row.numbers;
    for i in 0..into.len() {
        into[i] = number_of(flat.outputs[i], numbers);
    }
}

/// Evaluates equations sample by sample. It keeps as many rows as they look back on, and takes no memory once it is made.
#[derive(Drop)]
pub struct Evaluator {
    recent: Recent,
    // The room for the next row.
    row: Row,
}

impl Evaluator {
    ghost use Rattle.pr_source.specs.Standing.{HasStood, Stands};

    /// An evaluator of these equations that was given no sample.
    pub fn new(alloc: Global, flat: &Flat) -> Result<Evaluator, AllocError>
        ensures { IfOk result (λ v. (widths : List ℕ) → Stands (equations_of flat.now) widths [] v) }
    {
        let size = flat.equations.len();
        let recent = Recent::new(alloc, slots_of(flat), size)?;
        let row = zeros(alloc, size)?;
        Ok(Evaluator { recent, row })
    }

    /// The numbers of the outputs at the next sample.
    pub fn next(&mut self, flat: &Flat, widths: &Widths, sample: &[Num], into: &mut [Num])
        requires widths { AreWidths (equations_of flat.now) widths.now }
        requires sample { IsRow (input_widths (equations_of flat.now)) sample.now }
        requires stands { HasStood (equations_of flat.now) widths.now self.old }
        requires into { length into.old ≡ vec_len flat.now.outputs }
        ensures stands { (samples : List (List ℕ)) → Stands (equations_of flat.now) widths.now samples self.old →
            Stands (equations_of flat.now) widths.now (samples ++ sample.now ∷ []) self.new }
        ensures given { (samples : List (List ℕ)) → Stands (equations_of flat.now) widths.now samples self.old →
            into.new ≡ given_next (equations_of flat.now) flat.now.outputs.items widths.now samples sample.now }
    {
        fill(flat, widths, &self.recent, sample, &mut self.row);
        give(flat, &self.row, into);
        self.recent.keep(&mut self.row);
    }
}
