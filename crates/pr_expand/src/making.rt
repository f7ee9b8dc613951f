//! Equations that are made one after the other.
ghost use Rattle.std.specs.Prelude.{◌≡◌, ◌++◌, [], ◌∷◌, false, IfErr, IfOk, None};
ghost use Rattle.pr_flat.specs.Shape.{equation_shape};
ghost use Rattle.pr_expand_spec.specs.Making.{declare_last, delay_step, fitted, form_of_kind};
ghost use Rattle.pr_expand_spec.specs.Making.{is_signed, kinds_read, with_equation};
ghost use Rattle.pr_expand.specs.Code.{IsPast, made_of, shapes_in};
ghost use Rattle.pr_expand.specs.Keys.{delay_key, key_in};
ghost use Rattle.pr_expand.specs.Parts.{added};

use crate::keys::{key_of, noted};
use crate::ledgers::{Expanded, Ledger};
use crate::stops::Stop;
use pr_base::Cap;
use pr_expand_spec::Given;
use pr_flat::{Equation, Form, Op, Operand};
use pr_flat_ops::{signed_one, signed_two};
use std::alloc::{AllocError, Global};

/// One equation more, with its key if it is a delay.
fn push_keyed(
    ledger: Ledger,
    equation: Equation,
    key: Option<[u64; 4]>,
    signed: bool,
) -> Result<Expanded, Stop>
    requires { key ≡ key_in equation.op equation.args.items }
    ensures value { IfOk result (λ m. made_of m ≡ added (equation_shape equation) signed (shapes_in ledger)) }
    ensures limit { IfErr result (λ s. IsPast s (shapes_in ledger ++ equation_shape equation ∷ [])) }
{
    let Ledger {
        mut equations,
        delays,
    } = ledger;
    let number = equations.len();
    if number >= Cap::MOST_EQUATIONS {
        return Err(Stop::Limit);
    }
    let delays = noted(delays, key, number as u32)?;
    match equations.push(equation) {
        Err(failed) => Err(Stop::Memory(failed.into())),
        Ok(()) => Ok(Expanded {
            ledger: Ledger { equations, delays },
            given: Given {
                operand: Operand::Eq(number as u32),
                signed,
            },
        }),
    }
}

/// One equation more.
fn push(ledger: Ledger, equation: Equation, signed: bool) -> Result<Expanded, Stop>
    ensures value { IfOk result (λ m. made_of m ≡ added (equation_shape equation) signed (shapes_in ledger)) }
    ensures limit { IfErr result (λ s. IsPast s (shapes_in ledger ++ equation_shape equation ∷ [])) }
{
    let key = key_of(&equation);
    push_keyed(ledger, equation, key, signed)
}

/// An equation on one operand.
fn on_one(
    alloc: Global,
    op: Op,
    a: Operand,
    declared: Option<u8>,
    kind: bool,
) -> Result<Equation, AllocError>
    ensures { IfOk result (λ e. equation_shape e
        ≡ record { op = op; args = a ∷ []; declared = declared; kinds = kind ∷ [] }) }
{
    Ok(Equation {
        op,
        args: vec![in alloc; a]?,
        declared,
        kinds: vec![in alloc; kind]?,
    })
}

/// An equation on two operands.
fn on_two(
    alloc: Global,
    op: Op,
    a: Operand,
    b: Operand,
    first: bool,
    second: bool,
) -> Result<Equation, AllocError>
    ensures { IfOk result (λ e. equation_shape e
        ≡ record { op = op; args = a ∷ b ∷ []; declared = None; kinds = first ∷ second ∷ [] }) }
{
    Ok(Equation {
        op,
        args: vec![in alloc; a, b]?,
        declared: None,
        kinds: vec![in alloc; first, second]?,
    })
}

/// A choice of two operands.
fn on_three(
    alloc: Global,
    c: Operand,
    a: Operand,
    b: Operand,
    first: bool,
    second: bool,
) -> Result<Equation, AllocError>
    ensures { IfOk result (λ e. equation_shape e
        ≡ record { op = Op.Choose; args = c ∷ a ∷ b ∷ []; declared = None; kinds = false ∷ first ∷ second ∷ [] }) }
{
    Ok(Equation {
        op: Op::Choose,
        args: vec![in alloc; c, a, b]?,
        declared: None,
        kinds: vec![in alloc; false, first, second]?,
    })
}

/// How an operation reads its one operand.
fn kind_of_one(op: Op, a: bool) -> bool
    ensures { kinds_read op (a ∷ []) ≡ result ∷ [] }
{
    match op {
        Op::Choose | Op::Slice(_, _) | Op::Cat | Op::Delay(_) => false,
        _ => a,
    }
}

// the form of an operand of which only the kind is known
fn form_of(kind: bool) -> Form
    ensures { result ≡ form_of_kind kind }
{
    Form {
        signed: kind,
        width: 0,
    }
}

/// Whether an operation on one operand gives a signed result.
fn signed_of_one(op: Op, a: bool) -> bool
    ensures { is_signed op (a ∷ []) ≡ result }
{
    signed_one(op, form_of(a))
}

/// An input.
pub fn input(alloc: Global, ledger: Ledger, width: u8) -> Result<Expanded, Stop>
    ensures value { IfOk result (λ m. made_of m ≡ with_equation Op.Input [] (Some width) (shapes_in ledger)) }
    ensures limit { IfErr result (λ s. IsPast s (with_equation Op.Input [] (Some width) (shapes_in ledger)).equations) }
{
    let equation = Equation {
        op: Op::Input,
        args: Vec::new(alloc),
        declared: Some(width),
        kinds: Vec::new(alloc),
    };
    push(ledger, equation, false)
}

/// An operation on one operand.
pub fn one(
    alloc: Global,
    ledger: Ledger,
    op: Op,
    a: Given,
    declared: Option<u8>,
) -> Result<Expanded, Stop>
    ensures value { IfOk result (λ m. made_of m ≡ with_equation op (a ∷ []) declared (shapes_in ledger)) }
    ensures limit { IfErr result (λ s. IsPast s (with_equation op (a ∷ []) declared (shapes_in ledger)).equations) }
{
    let kind = kind_of_one(op, a.signed);
    let equation = on_one(alloc, op, a.operand, declared, kind)?;
    push(ledger, equation, signed_of_one(op, kind))
}

/// A delay of an operand after a number, of which this is the key.
pub fn delay_of(
    alloc: Global,
    ledger: Ledger,
    operand: Operand,
    init: u64,
    key: [u64; 4],
) -> Result<Expanded, Stop>
    requires { key ≡ delay_key operand init }
    ensures value { IfOk result (λ m. made_of m ≡ delay_step None operand init (shapes_in ledger)) }
    ensures limit { IfErr result (λ s. IsPast s (delay_step None operand init (shapes_in ledger)).equations) }
{
    let equation = on_one(alloc, Op::Delay(init), operand, None, false)?;
    push_keyed(ledger, equation, Some(key), false)
}

/// How an operation reads its two operands.
fn kinds_of_two(op: Op, a: bool, b: bool) -> (bool, bool)
    ensures { kinds_read op (a ∷ b ∷ []) ≡ result.0 ∷ result.1 ∷ [] }
{
    match op {
        Op::Choose => (false, b),
        Op::LeftBy | Op::RightBy => (a, false),
        Op::Slice(_, _) | Op::Cat | Op::Delay(_) => (false, false),
        _ => (a, b),
    }
}

/// Whether an operation on two operands gives a signed result.
fn signed_of_two(op: Op, a: bool, b: bool) -> bool
    ensures { is_signed op (a ∷ b ∷ []) ≡ result }
{
    signed_two(op, form_of(a), form_of(b))
}

/// An operation on two operands.
pub fn two(alloc: Global, ledger: Ledger, op: Op, a: Given, b: Given) -> Result<Expanded, Stop>
    ensures value { IfOk result (λ m. made_of m ≡ with_equation op (a ∷ b ∷ []) None (shapes_in ledger)) }
    ensures limit { IfErr result (λ s. IsPast s (with_equation op (a ∷ b ∷ []) None (shapes_in ledger)).equations) }
{
    let (first, second) = kinds_of_two(op, a.signed, b.signed);
    let equation = on_two(alloc, op, a.operand, b.operand, first, second)?;
    push(ledger, equation, signed_of_two(op, first, second))
}

/// The first of two operands where the condition is 1, and else the second.
pub fn choose(alloc: Global, ledger: Ledger, c: Given, a: Given, b: Given) -> Result<Expanded, Stop>
    ensures value { IfOk result (λ m. made_of m ≡ with_equation Op.Choose (c ∷ a ∷ b ∷ []) None (shapes_in ledger)) }
    ensures limit { IfErr result (λ s. IsPast s
        (with_equation Op.Choose (c ∷ a ∷ b ∷ []) None (shapes_in ledger)).equations) }
{
    let equation = on_three(alloc, c.operand, a.operand, b.operand, a.signed, b.signed)?;
    push(ledger, equation, a.signed || b.signed)
}

/// The same operand, under a declared width.
pub fn fit(alloc: Global, ledger: Ledger, a: Given, width: u8) -> Result<Expanded, Stop>
    ensures value { IfOk result (λ m. made_of m ≡ fitted width a (shapes_in ledger)) }
    ensures limit { IfErr result (λ s. IsPast s (fitted width a (shapes_in ledger)).equations) }
{
    one(alloc, ledger, Op::Fit, a, Some(width))
}

/// The last equation gets a declared width.
pub fn with_width(ledger: Ledger, width: u8) -> Ledger
    ensures { shapes_in result ≡ declare_last width (shapes_in ledger) }
{
    let Ledger {
        mut equations,
        delays,
    } = ledger;
    let count = equations.len();
    if count == 0 {
        return Ledger { equations, delays };
    }
    equations[count - 1].declared = Some(width);
    Ledger { equations, delays }
}
