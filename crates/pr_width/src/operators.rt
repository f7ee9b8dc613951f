//! The width of one equation, where those of its operands are known.

ghost use Rattle.std.specs.Prelude.{◌≡◌, ◌<◌, ◌≤◌, [], ◌∷◌, true, false, not, cond, ◌&&◌, ◌||◌, length, vec_len, max, slice_get, Some};
ghost use Rattle.std.specs.List.{list_all};
ghost use Rattle.pr_flat.specs.Forms.{signed_width};
ghost use Rattle.pr_flat.specs.Rows.{natural_width, takes};
ghost use Rattle.pr_flat.specs.Facts.{arity, has_lawful_ends};
ghost use Rattle.pr_flat.specs.Shape.{equation_shape};
ghost use Rattle.pr_flat.specs.Widths.{operand_width, forms_in, width_in};
ghost use Rattle.pr_width.specs.Reads.{form_of, is_within};

use pr_base::{GREATEST, bits_of};
use pr_flat::{Equation, Op, Operand};

/// How an operand is read: whether as signed, and its width in bits.
#[derive(Clone, Copy, Debug)]
struct Read {
    signed: bool,
    width: u8,
}

/// The width of an operand.
pub fn operand_width(operand: Operand, widths: &[u8]) -> u8
    requires { is_within (length widths.now) operand ≡ true }
    ensures { result ≡ operand_width widths.now operand }
{
    match operand {
        Operand::Const(c) => bits_of(u128::from(c)).get(),
        Operand::Eq(i) => widths[i as usize],
        Operand::Past { rec, .. } => widths[rec as usize],
    }
}

/// How the operand at a place is read.
fn read_at(equation: &Equation, place: usize, widths: &[u8]) -> Read
    requires args { place < vec_len equation.now.args }
    requires kinds { place < vec_len equation.now.kinds }
    requires within { list_all (is_within (length widths.now)) equation.now.args.items ≡ true }
    ensures { slice_get (forms_in widths.now (equation_shape equation.now)) place ≡ Some (form_of result) }
{
    Read {
        signed: equation.kinds[place],
        width: operand_width(equation.args[place], widths),
    }
}

/// The width that an operand takes beside these: one bit more where it is unsigned among signed ones.
fn width_among(read: Read, signed: bool) -> u16
    ensures { result ≡ cond signed (signed_width (form_of read)) read.width }
{
    if signed && !read.signed {
        u16::from(read.width) + 1
    } else {
        u16::from(read.width)
    }
}

/// The natural width of an operation with one operand, and 0 for any other.
fn width_of_one(op: Op, a: Read) -> u16
    requires ends { has_lawful_ends op ≡ true }
    requires taken { takes op (form_of a ∷ []) ≡ true }
    ensures { result ≡ natural_width op (form_of a ∷ []) }
{
    let width = u16::from(a.width);
    match op {
        Op::Not | Op::Fit | Op::Delay(_) => width,
        Op::Left(k) => width + u16::from(k),
        Op::Right(k) => width.saturating_sub(u16::from(k)).max(1),
        Op::Slice(high, low) => (high - low) as u16 + 1,
        _ => 0,
    }
}

/// The natural width of an operation with two operands, and 0 for any other.
fn width_of_two(op: Op, a: Read, b: Read) -> u16
    ensures { result ≡ natural_width op (form_of a ∷ form_of b ∷ []) }
{
    let signed = a.signed || b.signed;
    let greater = width_among(a, signed).max(width_among(b, signed));
    match op {
        Op::Add => greater + 1,
        Op::Sub => greater + u16::from(signed),
        Op::Mul => width_among(a, signed) + width_among(b, signed),
        Op::And | Op::Or | Op::Xor => greater,
        Op::Equal | Op::NotEqual | Op::Less | Op::LessEqual | Op::Greater | Op::GreaterEqual => 1,
        Op::LeftBy | Op::RightBy => u16::from(a.width),
        Op::Cat => u16::from(a.width) + u16::from(b.width),
        _ => 0,
    }
}

/// The natural width of a choice between two operands.
fn width_of_choice(a: Read, b: Read) -> u16
    ensures { result ≡ cond (a.signed || b.signed) (max (signed_width (form_of a)) (signed_width (form_of b)))
        (max a.width b.width) }
{
    let signed = a.signed || b.signed;
    width_among(a, signed).max(width_among(b, signed))
}

/// Whether the operands are such as the operation takes: a condition is one bit wide, and a slice lies in its operand.
fn has_lawful_operands(equation: &Equation, widths: &[u8]) -> bool
    requires args { vec_len equation.now.args ≡ arity equation.now.op }
    requires kinds { vec_len equation.now.kinds ≡ arity equation.now.op }
    requires within { list_all (is_within (length widths.now)) equation.now.args.items ≡ true }
    ensures { result ≡ takes equation.now.op (forms_in widths.now (equation_shape equation.now)) }
{
    match equation.op {
        Op::Choose => operand_width(equation.args[0], widths) == 1,
        Op::Slice(high, _) => high < u64::from(operand_width(equation.args[0], widths)),
        _ => true,
    }
}

/// The natural width of an equation.
fn natural_width(equation: &Equation, widths: &[u8]) -> u16
    requires args { vec_len equation.now.args ≡ arity equation.now.op }
    requires kinds { vec_len equation.now.kinds ≡ arity equation.now.op }
    requires ends { has_lawful_ends equation.now.op ≡ true }
    requires within { list_all (is_within (length widths.now)) equation.now.args.items ≡ true }
    requires taken { takes equation.now.op (forms_in widths.now (equation_shape equation.now)) ≡ true }
    ensures { result ≡ natural_width equation.now.op (forms_in widths.now (equation_shape equation.now)) }
{
    match equation.args.len() {
        0 => 0,
        1 => width_of_one(equation.op, read_at(equation, 0, widths)),
        2 => width_of_two(
            equation.op,
            read_at(equation, 0, widths),
            read_at(equation, 1, widths),
        ),
        _ => width_of_choice(read_at(equation, 1, widths), read_at(equation, 2, widths)),
    }
}

/// The width of an equation that is no recurrence without declared width, if it has one.
pub fn width_of(equation: &Equation, widths: &[u8]) -> Option<u8>
    requires args { vec_len equation.now.args ≡ arity equation.now.op }
    requires kinds { vec_len equation.now.kinds ≡ arity equation.now.op }
    requires ends { has_lawful_ends equation.now.op ≡ true }
    requires within { list_all (is_within (length widths.now)) equation.now.args.items ≡ true }
    ensures { result ≡ width_in widths.now (equation_shape equation.now) }
{
    if !has_lawful_operands(equation, widths) {
        return None;
    }
    if equation.declared.is_some() {
        return equation.declared;
    }
    let natural = natural_width(equation, widths);
    if natural > u16::from(GREATEST) {
        return None;
    }
    Some(natural as u8)
}
