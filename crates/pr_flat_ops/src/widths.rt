//! Kinds and widths that hold an operator's result.

ghost use Rattle.std.specs.Prelude.{◌≡◌, ◌<◌, ℕ, ◌^◌, Bool, true, false, cond, ◌||◌, List, [], ◌∷◌};
ghost use Rattle.pr_flat.specs.Forms.{IsForm, number_width, signed_width, wider, wider_signed};
ghost use Rattle.pr_flat.specs.Rows.{takes, gives_signed, natural_form, natural_width};
ghost use Rattle.pr_flat_ops.specs.Naturals.{IsNatural};

use pr_base::{Num, Width, bits_of};
use pr_flat::{Form, Op};

/// The kind and the width that hold the result of an operator on one operand, which is 1 to 128 bits wide; none where the
/// operator does not take it: a slice's high end has to lie in it.
pub fn natural_one(op: Op, a: Form) -> Option<Form>
    requires { IsForm a }
    ensures { IsNatural op (a ∷ []) result }
{
    if let Op::Slice(high, _) = op {
        if high >= u64::from(a.width) {
            return None;
        }
    }
    Some(form_one(op, a))
}

/// The kind and the width that hold the result of an operator on an operand that it takes.
pub fn form_one(op: Op, a: Form) -> Form
    requires form { IsForm a }
    requires takes { takes op (a ∷ []) ≡ true }
    ensures { result ≡ natural_form op (a ∷ []) }
{
    Form {
        signed: signed_one(op, a),
        width: width_one(op, a),
    }
}

/// The kind and the width that hold the result of an operator on two operands of 1 to 128 bits, which it takes in any case.
pub fn natural_two(op: Op, a: Form, b: Form) -> Form
    requires a { IsForm a }
    requires b { IsForm b }
    ensures form { result ≡ natural_form op (a ∷ b ∷ []) }
    ensures takes { takes op (a ∷ b ∷ []) ≡ true }
{
    Form {
        signed: signed_two(op, a, b),
        width: width_two(op, a, b),
    }
}

/// The kind and the width that hold either branch of a choice, which is 1 to 128 bits wide; none where the condition is not
/// one bit wide.
pub fn natural_choice(c: Form, a: Form, b: Form) -> Option<Form>
    requires a { IsForm a }
    requires b { IsForm b }
    ensures { IsNatural Op.Choose (c ∷ a ∷ b ∷ []) result }
{
    if c.width != 1 {
        return None;
    }
    Some(form_of_branches(c, a, b))
}

/// The kind and the width that hold either branch of a choice.
pub fn form_of_branches(c: Form, a: Form, b: Form) -> Form
    requires a { IsForm a }
    requires b { IsForm b }
    ensures { result ≡ natural_form Op.Choose (c ∷ a ∷ b ∷ []) }
{
    Form {
        signed: a.signed || b.signed,
        width: wider(a, b),
    }
}

/// The least width that holds `n`.
pub fn number_width(n: u64) -> Width
    ensures width { result.bits ≡ number_width n }
    ensures holds { n < 2 ^ result.bits }
{
    bits_of(Num::from(n))
}

// the width of the operand among signed ones
fn signed_width(a: Form) -> u16
    requires { IsForm a }
    ensures { result ≡ signed_width a }
{
    if a.signed { a.width } else { a.width + 1 }
}

/// The greater width of two operands, or of both among signed ones where one is signed.
pub fn wider(a: Form, b: Form) -> u16
    requires a { IsForm a }
    requires b { IsForm b }
    ensures { result ≡ cond (a.signed || b.signed) (wider_signed a b) (wider a b) }
{
    if a.signed || b.signed {
        signed_width(a).max(signed_width(b))
    } else {
        a.width.max(b.width)
    }
}

/// Whether the result of an operator on one operand is signed; how wide the operand is does not matter.
pub fn signed_one(op: Op, a: Form) -> bool
    ensures { result ≡ gives_signed op (a ∷ []) }
{
    match op {
        Op::Not | Op::Left(_) | Op::Right(_) | Op::Fit | Op::Delay(_) => a.signed,
        _ => false,
    }
}

/// Whether the result of an operator on two operands is signed; how wide these are does not matter.
pub fn signed_two(op: Op, a: Form, b: Form) -> bool
    ensures { result ≡ gives_signed op (a ∷ b ∷ []) }
{
    match op {
        Op::Add | Op::Sub | Op::Mul | Op::And | Op::Or | Op::Xor => a.signed || b.signed,
        Op::LeftBy | Op::RightBy => a.signed,
        _ => false,
    }
}

/// The width that holds the result of an operator on one operand, and 0 for what is none.
pub fn width_one(op: Op, a: Form) -> u16
    requires form { IsForm a }
    requires takes { takes op (a ∷ []) ≡ true }
    ensures { result ≡ natural_width op (a ∷ []) }
{
    match op {
        Op::Not | Op::Fit | Op::Delay(_) => a.width,
        Op::Left(k) => a.width + u16::from(k),
        Op::Right(k) => a.width.saturating_sub(u16::from(k)).max(1),
        Op::Slice(high, low) => high.saturating_sub(low) as u16 + 1,
        _ => 0,
    }
}

/// The width that holds the result of an operator on two operands, and 0 for what is none.
pub fn width_two(op: Op, a: Form, b: Form) -> u16
    requires a { IsForm a }
    requires b { IsForm b }
    ensures { result ≡ natural_width op (a ∷ b ∷ []) }
{
    match op {
        Op::Add => wider(a, b) + 1,
        Op::Sub => width_of_difference(a, b),
        Op::Mul => width_of_product(a, b),
        Op::And | Op::Or | Op::Xor => wider(a, b),
        Op::Equal | Op::NotEqual | Op::Less | Op::LessEqual | Op::Greater | Op::GreaterEqual => 1,
        Op::LeftBy | Op::RightBy => a.width,
        Op::Cat => a.width + b.width,
        _ => 0,
    }
}

// a difference of unsigned operands has no bit more than they have
fn width_of_difference(a: Form, b: Form) -> u16
    requires a { IsForm a }
    requires b { IsForm b }
    ensures { result ≡ natural_width Op.Sub (a ∷ b ∷ []) }
{
    if a.signed || b.signed {
        wider(a, b) + 1
    } else {
        wider(a, b)
    }
}

// a product has as many bits as both operands together
fn width_of_product(a: Form, b: Form) -> u16
    requires a { IsForm a }
    requires b { IsForm b }
    ensures { result ≡ natural_width Op.Mul (a ∷ b ∷ []) }
{
    if a.signed || b.signed {
        signed_width(a) + signed_width(b)
    } else {
        a.width + b.width
    }
}
