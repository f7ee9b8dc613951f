//! What numbers, names and operators give.
ghost use Rattle.std.specs.Prelude.{◌≡◌, ℕ, IfErr, IfOk, None, Option};
ghost use Rattle.pr_scope_names.specs.Names.{known_in};
ghost use Rattle.pr_lang_meaning.specs.Expressions as meaning;
ghost use Rattle.pr_lang_meaning.specs.Expressions.{constant_shift, operator};
ghost use Rattle.pr_expand_spec.specs.Making.{constant, lawful, made};
ghost use Rattle.pr_expand_spec.specs.Expressions as expressions;
ghost use Rattle.pr_expand_spec.specs.Expressions.{beside, concatenated, earlier, place, referred};
ghost use Rattle.pr_expand.specs.Code.{IsPast, made_of, shapes_in};
ghost use Rattle.pr_expand.specs.Parts.{earlier_made, standing_in};

use crate::delays::delay;
use crate::environment::Environment;
use crate::ledgers::{AllExpanded, Expanded, Ledger};
use crate::making::two;
use crate::stops::Stop;
use pr_expand_spec::{Given, Standing};
use pr_flat::{Op, Operand};
use pr_lang::{BinOp, Fixed, Name, Ref};
use pr_scope_names::{Offence, Static, Statics, read_static};
use std::alloc::Global;

/// An operand, with no equation more.
pub fn gives(ledger: Ledger, operand: Operand, signed: bool) -> Expanded
    ensures { made_of result ≡ made (shapes_in ledger) operand signed }
{
    Expanded {
        ledger,
        given: Given { operand, signed },
    }
}

/// The value of a constant expression; 0 where it has none.
pub fn value_of(statics: &Statics, value: &Fixed) -> u64
    ensures { result ≡ constant value.now (known_in statics.now) }
{
    pr_scope_names::constant(statics, value).unwrap_or(0)
}

/// The index that stands after a name, if there is one.
pub fn place_at(statics: &Statics, target: &Ref) -> Option<u64>
    ensures { result ≡ place target.now (known_in statics.now) }
{
    pr_scope_names::place(statics, target).unwrap_or(None)
}

/// What is not known before the samples.
fn refer_stream(ledger: Ledger, standing: Option<Standing>) -> Expanded
    ensures { (at : Option ℕ) → made_of result ≡ referred None at standing (shapes_in ledger) }
{
    match standing {
        None => gives(ledger, Operand::Const(0), false),
        Some(standing) => match standing {
            Standing::Stream { given, init: _ } => gives(ledger, given.operand, given.signed),
            Standing::Own(_) => gives(ledger, Operand::Const(0), false),
        },
    }
}

/// A name, alone or with an index.
pub fn refer(statics: &Statics, env: &Environment, ledger: Ledger, target: &Ref) -> Expanded
    ensures { made_of result ≡ referred (known_in statics.now target.now.name) (place target.now (known_in statics.now))
        (standing_in statics.now env.now target.now) (shapes_in ledger) }
{
    let at = place_at(statics, target);
    match statics.get(&target.name) {
        Some(known) => {
            let number = read_static(known, at).unwrap_or(0);
            gives(ledger, Operand::Const(number), false)
        }
        None => refer_stream(ledger, env.get(&target.name, at)),
    }
}

/// The past of a recurrence in its own body, so many samples earlier.
fn own_past(rec: u32, samples: u64) -> Operand
    ensures { result ≡ expressions.own_past rec samples }
{
    if samples >= 1 && samples <= 256 {
        let k = samples as u32;
        return Operand::Past { rec, k };
    }
    Operand::Const(0)
}

/// What stands for a name, so many samples earlier.
fn delay_standing(
    alloc: Global,
    ledger: Ledger,
    standing: Option<Standing>,
    samples: u64,
) -> Result<Expanded, Stop>
    ensures value { IfOk result (λ m. made_of m ≡ earlier samples standing (shapes_in ledger)) }
    ensures limit { IfErr result (λ s. IsPast s (earlier samples standing (shapes_in ledger)).equations) }
{
    match standing {
        None => Ok(gives(ledger, Operand::Const(0), false)),
        Some(standing) => match standing {
            Standing::Stream { given, init } => delay(alloc, ledger, given, init, samples),
            Standing::Own(rec) => Ok(gives(ledger, own_past(rec, samples), false)),
        },
    }
}

/// A name before `@`.
pub fn refer_earlier(
    alloc: Global,
    statics: &Statics,
    env: &Environment,
    ledger: Ledger,
    target: &Ref,
    back: &Fixed,
) -> Result<Expanded, Stop>
    ensures value { IfOk result (λ m. made_of m ≡ earlier_made back.now statics.now
        (standing_in statics.now env.now target.now) ledger) }
    ensures limit { IfErr result (λ s. IsPast s (earlier_made back.now statics.now
        (standing_in statics.now env.now target.now) ledger).equations) }
{
    let samples = value_of(statics, back);
    let standing = env.get(&target.name, place_at(statics, target));
    delay_standing(alloc, ledger, standing, samples)
}

/// The operation of an operator on two streams.
pub fn op_of(op: BinOp) -> Op
    ensures { result ≡ operator op }
{
    match op {
        BinOp::Add => Op::Add,
        BinOp::Sub => Op::Sub,
        BinOp::Mul => Op::Mul,
        BinOp::And => Op::And,
        BinOp::Or => Op::Or,
        BinOp::Xor => Op::Xor,
        BinOp::Equal => Op::Equal,
        BinOp::NotEqual => Op::NotEqual,
        BinOp::Less => Op::Less,
        BinOp::LessEqual => Op::LessEqual,
        BinOp::Greater => Op::Greater,
        BinOp::GreaterEqual => Op::GreaterEqual,
        BinOp::Left => Op::LeftBy,
        BinOp::Right => Op::RightBy,
    }
}

/// The shift by so many bits, where the operator is a shift and they are at most 128.
fn shift_by(op: BinOp, bits: u64) -> Option<Op>
    ensures { result ≡ meaning.shift_by op bits }
{
    match op {
        BinOp::Add => None,
        BinOp::Sub => None,
        BinOp::Mul => None,
        BinOp::And => None,
        BinOp::Or => None,
        BinOp::Xor => None,
        BinOp::Equal => None,
        BinOp::NotEqual => None,
        BinOp::Less => None,
        BinOp::LessEqual => None,
        BinOp::Greater => None,
        BinOp::GreaterEqual => None,
        BinOp::Left => (bits <= 128).then(|| Op::Left(bits as u8)),
        BinOp::Right => (bits <= 128).then(|| Op::Right(bits as u8)),
    }
}

/// The shift by a constant, where the operator is a shift.
pub fn shift(op: BinOp, amount: Option<Result<u64, Offence>>) -> Option<Op>
    ensures { result ≡ constant_shift op amount }
{
    match amount {
        None => None,
        Some(amount) => match amount {
            Err(_) => None,
            Ok(bits) => shift_by(op, bits),
        },
    }
}

/// Parts beside what stands above them.
fn beside_all(alloc: Global, above: Expanded, parts: &[Given]) -> Result<Expanded, Stop>
    ensures value { IfOk result (λ m. made_of m ≡ beside (made_of above) parts.now) }
    ensures limit { IfErr result (λ s. IsPast s (beside (made_of above) parts.now).equations) }
{
    let mut above = above;
    for part in parts {
        let given = above.given;
        above = two(alloc, above.ledger, Op::Cat, given, *part)?;
    }
    Ok(above)
}

/// The first part highest.
pub fn concatenate(alloc: Global, all: AllExpanded) -> Result<Expanded, Stop>
    ensures value { IfOk result (λ m. made_of m ≡ concatenated all.given.items (shapes_in all.ledger)) }
    ensures limit { IfErr result (λ s. IsPast s (concatenated all.given.items (shapes_in all.ledger)).equations) }
{
    let AllExpanded { ledger, given } = all;
    match given.as_slice() {
        [] => Ok(gives(ledger, Operand::Const(0), false)),
        [first, rest @ ..] => {
            let above = gives(ledger, first.operand, false);
            beside_all(alloc, above, rest)
        }
    }
}

/// A declared width, which is none outside 1 to 128.
pub fn declared(width: Option<u64>) -> Option<u8>
    ensures { result ≡ lawful width }
{
    match width {
        None => None,
        Some(bits) => {
            if bits >= 1 && bits <= 128 {
                return Some(bits as u8);
            }
            None
        }
    }
}
