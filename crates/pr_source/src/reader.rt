//! What equations read.

ghost use Rattle.std.specs.Prelude.{IfSome, ◌≡◌, ◌<◌, ◌≤◌, ℕ, ◌^◌, true, false, Some, List, length, slice_get, slice_index, vec_len};
ghost use Rattle.pr_base.specs.Rows.{IsRow};
ghost use Rattle.pr_flat.specs.Flats.{equations_of};
ghost use Rattle.pr_flat.specs.Shape.{EquationShape, equation_shape};
ghost use Rattle.pr_flat.specs.Facts.{arity, is_input};
ghost use Rattle.pr_flat.specs.Forms.{IsPoint};
ghost use Rattle.pr_flat.specs.Widths.{operand_width};
ghost use Rattle.pr_flat.specs.Values.{delayed_number, initial_of, input_widths, operand_number};
ghost use Rattle.pr_source.specs.Keeping.{kept};
ghost use Rattle.pr_source.specs.Reading.{CanRead, IsNext, IsPlain, IsReady, inputs_before, next_number, operates, points_of};

use crate::recent::Recent;
use pr_base::{Num, Width, cut};
use pr_flat::{Equation, Flat, Form, Op, Operand, Point};
use pr_flat_ops::{fit, number_width, operate};
use pr_width::Widths;

/// Whether an operation takes a number of the sample.
pub fn is_input(op: Op) -> bool
    ensures { result ≡ is_input op }
{
    matches!(op, Op::Input)
}

/// The sum or the product of two numbers, modulo 2 to the power of 128; none for another operation.
fn plain_number(op: Op, a: Num, b: Num) -> Option<Num>
    ensures { IfSome result (λ n. IsPlain op a b n) }
{
    match op {
        Op::Add => Some(a.wrapping_add(b)),
        Op::Mul => Some(a.wrapping_mul(b)),
        _ => None,
    }
}

/// The number that a recurrence begins with.
fn initial_of(flat: &Flat, rec: u32) -> Num
    requires { rec < vec_len flat.now.equations }
    ensures { result ≡ initial_of (equations_of flat.now) rec }
{
    match flat.equations[rec as usize].op {
        Op::Rec { init, .. } => Num::from(init),
        _ => 0,
    }
}

/// What the next equation reads: the rows before, and the numbers of its own row so far.
#[derive(Drop)]
pub struct Reader<'a> {
    pub flat: &'a Flat,
    pub widths: &'a Widths,
    pub recent: &'a Recent,
    pub row: &'a [Num],
}

impl<'a> Reader<'a> {
    /// The number of an operand.
    fn number(&self, operand: Operand) -> Num
        requires ready { IsReady self.now }
        requires operand { CanRead self.now operand }
        ensures { result ≡ operand_number (equations_of self.now.flat.now)
            (kept self.now.recent.now) self.now.row.now operand }
    {
        match operand {
            Operand::Const(c) => Num::from(c),
            Operand::Eq(i) => self.row[i as usize],
            Operand::Past { rec, k } => {
                self.recent
                    .number(rec as usize, k as usize, initial_of(self.flat, rec))
            }
        }
    }

    /// The number of an operand one row earlier, and this one in the first row.
    fn earlier(&self, operand: Operand, constant: u64) -> Num
        requires ready { IsReady self.now }
        requires operand { CanRead self.now operand }
        requires within { length self.now.row.now < vec_len self.now.flat.now.equations }
        ensures { result ≡ delayed_number (equations_of self.now.flat.now) (kept self.now.recent.now) operand constant }
    {
        if self.recent.is_empty() {
            return Num::from(constant);
        }
        match operand {
            Operand::Const(c) => Num::from(c),
            Operand::Eq(i) => self.recent.number(i as usize, 1, 0),
            Operand::Past { rec, k } => {
                self.recent
                    .number(rec as usize, k as usize + 1, initial_of(self.flat, rec))
            }
        }
    }

    /// The width of an operand.
    fn width(&self, operand: Operand) -> Width
        requires ready { IsReady self.now }
        requires operand { CanRead self.now operand }
        requires within { length self.now.row.now < vec_len self.now.flat.now.equations }
        ensures { result.bits ≡ operand_width self.now.widths.now operand }
    {
        match operand {
            Operand::Const(c) => number_width(c),
            Operand::Eq(i) => self.width_at(i as usize),
            Operand::Past { rec, .. } => self.width_at(rec as usize),
        }
    }

    /// The width of an equation.
    fn width_at(&self, equation: usize) -> Width
        requires ready { IsReady self.now }
        requires within { equation < vec_len self.now.flat.now.equations }
        ensures { result.bits ≡ slice_index self.now.widths.now equation }
    {
        let widths = self.widths;
        Width::of(widths.of[equation]).unwrap()
    }

    /// An operand as it is read.
    fn point(&self, equation: &Equation, place: usize) -> Point
        requires ready { IsReady self.now }
        requires next { IsNext self.now (equation_shape equation.now) }
        requires args { place < vec_len equation.now.args }
        requires kinds { place < vec_len equation.now.kinds }
        ensures point { (sample : List ℕ) →
            slice_get (points_of self.now sample (equation_shape equation.now)) place ≡ Some result }
        ensures lawful { IsPoint result }
    {
        let operand = equation.args[place];
        Point {
            form: Form {
                signed: equation.kinds[place],
                width: u16::from(self.width(operand).get()),
            },
            number: self.number(operand),
        }
    }

    /// The number that the operator of the next equation makes.
    #[tactic(auto, using(crate::proofs::Points::arity_some, crate::proofs::Points::arity_few))]
    fn operated(&self, equation: &Equation) -> Num
        requires ready { IsReady self.now }
        requires next { IsNext self.now (equation_shape equation.now) }
        requires operator { operates equation.now.op ≡ true }
        requires args { vec_len equation.now.args ≡ arity equation.now.op }
        requires kinds { vec_len equation.now.kinds ≡ arity equation.now.op }
        ensures { (sample : List ℕ) → result ≡ next_number self.now sample (equation_shape equation.now) }
    {
        let width = self.width_at(self.row.len());
        let first = self.point(equation, 0);
        if equation.args.len() == 1 {
            return operate(equation.op, &[first], width);
        }
        let second = self.point(equation, 1);
        if equation.args.len() == 2 {
            return operate(equation.op, &[first, second], width);
        }
        let third = self.point(equation, 2);
        operate(equation.op, &[first, second, third], width)
    }

    /// The number of the next equation where it is a sum or a product of unsigned operands: it takes no widths but its own.
    fn plain(&self, equation: &Equation) -> Option<Num>
        requires ready { IsReady self.now }
        requires next { IsNext self.now (equation_shape equation.now) }
        requires args { vec_len equation.now.args ≡ arity equation.now.op }
        requires kinds { vec_len equation.now.kinds ≡ arity equation.now.op }
        ensures { IfSome result (λ n. (sample : List ℕ) → n ≡
            next_number self.now sample (equation_shape equation.now)) }
    {
        if equation.args.len() != 2 || equation.kinds[0] || equation.kinds[1] {
            return None;
        }
        let a = self.number(equation.args[0]);
        let b = self.number(equation.args[1]);
        match plain_number(equation.op, a, b) {
            None => None,
            Some(number) => Some(cut(number, self.width_at(self.row.len()))),
        }
    }

    /// The number of the next equation; an input takes the sample's number at this place.
    pub fn next(&self, sample: &[Num], input: usize) -> Num
        requires ready { IsReady self.now }
        requires within { length self.now.row.now < vec_len self.now.flat.now.equations }
        requires sample { IsRow (input_widths (equations_of self.now.flat.now)) sample.now }
        requires input { input ≡ inputs_before self.now }
        ensures { (e : EquationShape) → IsNext self.now e → result ≡ next_number self.now sample.now e }
    {
        let at = self.row.len();
        let equation = &self.flat.equations[at];
        match equation.op {
            Op::Input => sample[input],
            Op::Delay(constant) => self.earlier(equation.args[0], constant),
            Op::Rec { .. } => fit(self.point(equation, 0), self.width_at(at)),
            _ => match self.plain(equation) {
                Some(number) => number,
                None => self.operated(equation),
            },
        }
    }
}
