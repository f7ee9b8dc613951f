//! The levels of operators in expressions.

ghost use Rattle.std.specs.Prelude.{◌≡◌, map};
ghost use Rattle.pr_lang.specs.Grammar.{signs};
ghost use Rattle.pr_lang.specs.Shape.{sign_of};
ghost use Rattle.pr_parse.specs.Levels.{level_seen};

use pr_lang::BinOp;

/// Levels whose operators are repeated.
#[derive(Clone, Copy, Debug, PartialEq, Eq)]
pub enum Level {
    Ors,
    Xors,
    Ands,
    Shifts,
    Sums,
    Products,
}

const ORS: [BinOp; 1] = [BinOp::Or];

const XORS: [BinOp; 1] = [BinOp::Xor];

const ANDS: [BinOp; 1] = [BinOp::And];

const SHIFTS: [BinOp; 2] = [BinOp::Left, BinOp::Right];

const SUMS: [BinOp; 2] = [BinOp::Add, BinOp::Sub];

const PRODUCTS: [BinOp; 1] = [BinOp::Mul];

pub const COMPARISONS: [BinOp; 6] = [
    BinOp::Equal,
    BinOp::NotEqual,
    BinOp::Less,
    BinOp::LessEqual,
    BinOp::Greater,
    BinOp::GreaterEqual,
];

/// The operators of a level.
pub fn operators(level: Level) -> &'static [BinOp]
    ensures { map sign_of result.now ≡ signs (level_seen level) }
{
    match level {
        Level::Ors => &ORS,
        Level::Xors => &XORS,
        Level::Ands => &ANDS,
        Level::Shifts => &SHIFTS,
        Level::Sums => &SUMS,
        Level::Products => &PRODUCTS,
    }
}
