//! The amounts of constant shifts.
ghost use Rattle.std.specs.Prelude.{◌≡◌, Some, None};
ghost use Rattle.pr_scope_names.specs.Outcomes.{and_then};
ghost use Rattle.pr_scope_names.specs.Names.{Known, known_in};
ghost use Rattle.pr_scope_names.specs.Constants.{applied, constant_of, read};
ghost use Rattle.pr_scope_names.specs.Amounts.{amount_of, fixed_op, named_amount};

use crate::constants::{apply, constant, read_static};
use crate::names::{Static, Statics};
use crate::rules::Offence;
use pr_lang::{BinOp, Expr, Fixed, FixedOp, Ref};

fn constant_op(op: BinOp) -> Option<FixedOp>
    ensures { result ≡ fixed_op op }
{
    match op {
        BinOp::Add => Some(FixedOp::Add),
        BinOp::Sub => Some(FixedOp::Sub),
        BinOp::Mul => Some(FixedOp::Mul),
        BinOp::And => None,
        BinOp::Or => None,
        BinOp::Xor => None,
        BinOp::Equal => None,
        BinOp::NotEqual => None,
        BinOp::Less => None,
        BinOp::LessEqual => None,
        BinOp::Greater => None,
        BinOp::GreaterEqual => None,
        BinOp::Left => None,
        BinOp::Right => None,
    }
}

/// One step, where both parts have a value.
fn combine(op: FixedOp, a: Result<u64, Offence>, b: Result<u64, Offence>) -> Result<u64, Offence>
    ensures { result ≡ and_then a (λ x. and_then b (λ y. applied op x y)) }
{
    let a = a?;
    let b = b?;
    apply(op, a, b)
}

fn entry_amount(statics: &Statics, known: &Static, index: &Fixed) -> Option<Result<u64, Offence>>
    ensures { result ≡ named_amount (Some known.now) (Some index.now) (known_in statics.now) }
{
    match known {
        Static::Constant(_) => None,
        Static::Index(_) => None,
        Static::Table(_) => Some(entry_value(statics, known, index)),
        Static::Function(_) => None,
    }
}

fn entry_value(statics: &Statics, known: &Static, index: &Fixed) -> Result<u64, Offence>
    ensures { result
        ≡ and_then (constant_of index.now (known_in statics.now)) (λ place. read (Some known.now) (Some place)) }
{
    let place = constant(statics, index)?;
    read_static(known, Some(place))
}

fn plain_amount(known: &Static) -> Option<Result<u64, Offence>>
    ensures { (all : Known) → result ≡ named_amount (Some known.now) None all }
{
    match known {
        Static::Constant(number) => Some(Ok(*number)),
        Static::Index(number) => Some(Ok(*number)),
        Static::Table(_) => None,
        Static::Function(_) => None,
    }
}

fn name_amount(statics: &Statics, target: &Ref) -> Option<Result<u64, Offence>>
    ensures { result ≡ named_amount (known_in statics.now target.now.name) target.now.index (known_in statics.now) }
{
    let known = statics.get(&target.name)?;
    match &target.index {
        None => plain_amount(known),
        Some(index) => entry_amount(statics, known, index),
    }
}

/// The value of an expression as the amount of a constant shift, where it can be one.
pub fn amount(statics: &Statics, expr: &Expr) -> Option<Result<u64, Offence>>
    ensures { result ≡ amount_of expr.now (known_in statics.now) }
{
    match expr {
        Expr::Number(number) => Some(Ok(*number)),
        Expr::Refer(target) => name_amount(statics, target),
        Expr::Delay(_, _) => None,
        Expr::Slice(_, _, _) => None,
        Expr::Not(_) => None,
        Expr::Binary(op, left, right) => {
            let op = constant_op(*op)?;
            let a = amount(statics, left)?;
            let b = amount(statics, right)?;
            Some(combine(op, a, b))
        }
        Expr::Choose(_, _, _) => None,
        Expr::Call(_, _) => None,
        Expr::Cat(_) => None,
        Expr::Paren(inner) => amount(statics, inner),
    }
}
