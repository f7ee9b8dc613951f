//! How many units an operator has, from widths and kinds alone.

ghost use Rattle.std.specs.Prelude.{◌≡◌, ◌<◌, ◌≤◌, ◌+◌, ◌-◌, ◌*◌, ◌/◌, ◌||◌, ℕ, Bool, true, false, cond, [], ◌∷◌, List, All, length};
ghost use Rattle.pr_base.specs.Numbers.{slices_of};
ghost use Rattle.pr_flat.specs.Facts.{arity, has_lawful_ends};
ghost use Rattle.pr_flat.specs.Forms.{IsForm, wider, wider_signed, signed_width};
ghost use Rattle.pr_flat.specs.Rows.{takes};
ghost use Rattle.pr_cut_units.specs.Operators.{ends_whole};
ghost use Rattle.pr_cut_units.specs.Products.{row_width};
ghost use Rattle.pr_cut_units.specs.Table.{factor_width};
ghost use Rattle.pr_cut_units.specs.Counts.{one_where, widening_count, both_count, chain_count, less_count, equal_count, left_count, extract_count, right_count, product_count, operator_count, count_at};

use pr_base::GREATEST;
use pr_cutmul::{chain_count, product_count, slice_count};
use pr_flat::{Form, Op};
use pr_flat_ops::natural;

/// A unit where one is needed.
fn one_where(needed: bool) -> u32
    ensures is { result ≡ one_where needed }
    ensures few { result ≤ 1 }
{
    u32::from(needed)
}

/// The unit of an operand that is widened to `t` bits, where it is signed and has fewer.
pub fn widening_count(f: Form, t: u16) -> u32
    ensures is { result ≡ widening_count f t }
    ensures few { result ≤ 1 }
{
    one_where(f.signed && f.width < t)
}

/// The units of two operands that are widened.
fn both_count(t: u16, f: Form, g: Form) -> u32
    ensures is { result ≡ both_count t f g }
    ensures few { result ≤ 2 }
{
    widening_count(f, t) + widening_count(g, t)
}

/// The width of an operand among signed ones.
fn signed_width(f: Form) -> u16
    requires { IsForm f }
    ensures { result ≡ signed_width f }
{
    if f.signed { f.width } else { f.width + 1 }
}

/// The units of Less and of GreaterEqual.
fn less_count(f: Form, g: Form) -> u32
    requires f { IsForm f }
    requires g { IsForm g }
    ensures is { result ≡ less_count f g }
    ensures few { result ≤ 1000 }
{
    if f.signed || g.signed {
        let bits = signed_width(f).max(signed_width(g)) + 1;
        both_count(bits, f, g) + chain_count(slice_count(bits)) + 1
    } else {
        chain_count(slice_count(f.width.max(g.width)))
    }
}

/// The units of Equal and of NotEqual.
fn equal_count(f: Form, g: Form) -> u32
    requires f { IsForm f }
    requires g { IsForm g }
    ensures is { result ≡ equal_count f g }
    ensures few { result ≤ 1000 }
{
    let bits = if f.signed || g.signed {
        signed_width(f).max(signed_width(g))
    } else {
        f.width.max(g.width)
    };
    both_count(bits, f, g) + chain_count(slice_count(bits))
}

/// Whether the last of `e` of `u` bits ends a byte, or is the last of all.
fn ends_whole(e: u16, u: u16) -> bool
    ensures { result ≡ ends_whole e u }
{
    e == u || e % 8 == 0
}

/// The unit of a shift to the left by a constant, where whole bytes do not do.
fn left_count(e: u16, w: u16, k: u16) -> u32
    requires { w + k ≤ 1000 }
    ensures is { result ≡ left_count e w k }
    ensures few { result ≤ 1 }
{
    one_where(!(k % 8 == 0 && ends_whole(e, w + k)))
}

/// The unit of the bits from place `l` on, where whole bytes do not do.
fn extract_count(e: u16, w: u16, l: u16) -> u32
    requires { l + e ≤ 1000 }
    ensures is { result ≡ extract_count e w l }
    ensures few { result ≤ 1 }
{
    one_where(!(l % 8 == 0 && ends_whole(l + e, w)))
}

/// The unit of a shift to the right by a constant.
fn right_count(e: u16, k: u16, f: Form) -> u32
    requires f { IsForm f }
    requires e { e ≤ 128 }
    ensures is { result ≡ right_count e k f }
    ensures few { result ≤ 1 }
{
    if f.signed {
        extract_count(e, f.width, k.min(f.width - 1))
    } else if k < f.width {
        extract_count(e, f.width, k)
    } else {
        0
    }
}

/// The width of a factor as the rows see it, where one of both is signed, or none.
fn factor_width(signed: bool, e: u16, f: Form) -> u16
    requires { IsForm f }
    ensures is { result ≡ factor_width signed e f }
    ensures few { result ≤ 128 }
{
    if signed {
        e.max(signed_width(f)).min(u16::from(GREATEST))
    } else {
        f.width
    }
}

/// The units of a product, with those of widened factors.
fn factors_count(e: u16, f: Form, g: Form) -> u32
    requires f { IsForm f }
    requires g { IsForm g }
    ensures is { result ≡ operator_count e Op.Mul (f ∷ g ∷ []) }
    ensures few { result ≤ 13000 }
{
    let signed = f.signed || g.signed;
    both_count(e, f, g) + product_count(e, factor_width(signed, e, f), factor_width(signed, e, g))
}

/// The units of `e` bits of an operator on one operand.
fn count_one(e: u16, op: Op, f: Form) -> u32
    requires e { e ≤ 128 }
    requires form { IsForm f }
    requires takes { takes op (f ∷ []) ≡ true }
    requires ends { has_lawful_ends op ≡ true }
    ensures is { result ≡ operator_count e op (f ∷ []) }
    ensures few { result ≤ 13000 }
{
    match op {
        Op::Not => 1,
        Op::Left(k) => left_count(e, f.width, u16::from(k)),
        Op::Right(k) => right_count(e, u16::from(k), f),
        Op::Slice(_, low) => extract_count(e, f.width, low as u16),
        Op::Fit => extract_count(e, f.width, 0),
        _ => 0,
    }
}

/// The units of `e` bits of an operator on two operands.
fn count_two(e: u16, op: Op, f: Form, g: Form) -> u32
    requires e { e ≤ 128 }
    requires f { IsForm f }
    requires g { IsForm g }
    ensures is { result ≡ operator_count e op (f ∷ g ∷ []) }
    ensures few { result ≤ 13000 }
{
    match op {
        Op::And | Op::Or | Op::Xor => both_count(e, f, g) + 1,
        Op::Add | Op::Sub => both_count(e, f, g) + chain_count(slice_count(e)),
        Op::Mul => factors_count(e, f, g),
        Op::Less | Op::GreaterEqual => less_count(f, g),
        Op::Greater | Op::LessEqual => less_count(g, f),
        Op::Equal | Op::NotEqual => equal_count(f, g),
        Op::Cat => left_count(e, f.width, g.width),
        Op::LeftBy => u32::from(g.width) + extract_count(e, f.width, 0),
        Op::RightBy => {
            2 * one_where(f.signed) + u32::from(g.width) + extract_count(e, f.width, 0)
        }
        _ => 0,
    }
}

/// The units of `e` bits of an operator's result.
fn operator_count(e: u16, op: Op, operands: &[Form]) -> u32
    requires e { e ≤ 128 }
    requires forms { All IsForm operands.now }
    requires count { length operands.now ≡ arity op }
    requires takes { takes op operands.now ≡ true }
    requires ends { has_lawful_ends op ≡ true }
    ensures is { result ≡ operator_count e op operands.now }
    ensures few { result ≤ 13000 }
{
    match operands {
        [f] => count_one(e, op, *f),
        [f, g] => count_two(e, op, *f, *g),
        [_, f, g] => both_count(e, *f, *g) + 1,
        _ => 0,
    }
}

/// The units of an operator at width `w`.
pub fn count_at(w: u8, op: Op, operands: &[Form]) -> u32
    requires w { w ≤ 128 }
    requires forms { All IsForm operands.now }
    requires count { length operands.now ≡ arity op }
    requires takes { takes op operands.now ≡ true }
    requires ends { has_lawful_ends op ≡ true }
    ensures is { result ≡ count_at w op operands.now }
    ensures few { result ≤ 13001 }
{
    let natural = natural(op, operands).unwrap();
    let width = natural.width.min(u16::from(w));
    let result = Form {
        signed: natural.signed,
        width,
    };
    operator_count(width, op, operands) + widening_count(result, u16::from(w))
}
