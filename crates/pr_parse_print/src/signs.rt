//! The signs of operators.

ghost use Rattle.std.specs.Prelude.{◌≡◌};
ghost use Rattle.pr_lang.specs.Shape.{sign_of as sign, fixed_sign_of as fixed_sign};

use pr_lang::{BinOp, FixedOp, Symbol};

/// How an operator is written.
pub fn sign_of(op: BinOp) -> Symbol
    ensures { result ≡ sign op }
{
    match op {
        BinOp::Add => Symbol::Plus,
        BinOp::Sub => Symbol::Minus,
        BinOp::Mul => Symbol::Star,
        BinOp::And => Symbol::Amp,
        BinOp::Or => Symbol::Bar,
        BinOp::Xor => Symbol::Caret,
        BinOp::Equal => Symbol::Equal,
        BinOp::NotEqual => Symbol::NotEqual,
        BinOp::Less => Symbol::Less,
        BinOp::LessEqual => Symbol::LessEqual,
        BinOp::Greater => Symbol::Greater,
        BinOp::GreaterEqual => Symbol::GreaterEqual,
        BinOp::Left => Symbol::ShiftLeft,
        BinOp::Right => Symbol::ShiftRight,
    }
}

/// How an operator of constant expressions is written.
pub fn fixed_sign_of(op: FixedOp) -> Symbol
    ensures { result ≡ fixed_sign op }
{
    match op {
        FixedOp::Add => Symbol::Plus,
        FixedOp::Sub => Symbol::Minus,
        FixedOp::Mul => Symbol::Star,
        FixedOp::Div => Symbol::Slash,
        FixedOp::Mod => Symbol::Percent,
    }
}
