//! The equations so far.
ghost use Rattle.std.specs.Prelude.{◌≡◌, ℕ, ◌≤◌, ◌-◌, [], vec_len, take};
ghost use Rattle.std.proofs.Props.{props};
ghost use Rattle.pr_flat.specs.declared.equations.Operand.{Operand};
ghost use Rattle.pr_flat.specs.Shape.{shapes_of};
ghost use Rattle.pr_expand_spec.specs.Making.{delay_from};
ghost use Rattle.pr_expand.specs.Keys.{delay_key, found_in};

use crate::environment::Environment;
use crate::keys::{forgotten, key_of};
use pr_expand_spec::Given;
use pr_flat::{Equation, Operand};
use std::alloc::Global;
use std::collections::HashMap;

/// The equations so far, in order, and the first delay of each operand after each number.
#[derive(Drop)]
pub struct Ledger {
    pub equations: Vec<Equation>,
    pub delays: HashMap<[u64; 4], u32>,
    pub ghost few: { vec_len equations ≤ 16384 },
    pub ghost found: { (q : Operand) (c : ℕ)
        → found_in delays (delay_key q c) ≡ delay_from 0 (shapes_of equations.items) q c } by { Prim.hlevel props },
}

/// What comes of an expression: the equations with its own, and its operand.
#[derive(Drop)]
pub struct Expanded {
    pub ledger: Ledger,
    pub given: Given,
}

/// What comes of several expressions.
#[derive(Drop)]
pub struct AllExpanded {
    pub ledger: Ledger,
    pub given: Vec<Given>,
}

/// The streams that are assigned, and the equations so far.
#[derive(Drop)]
pub struct Progress {
    pub env: Environment,
    pub ledger: Ledger,
}

/// The equations of a program, and what each of its outputs gives.
#[derive(Debug, Drop)]
pub struct Expansion {
    pub equations: Vec<Equation>,
    pub outputs: Vec<Operand>,
    pub ghost few: { vec_len equations ≤ 16384 },
}

/// No equations.
pub fn no_equations(alloc: Global) -> Ledger
    ensures { result.equations.items ≡ [] }
{
    Ledger {
        equations: Vec::new(alloc),
        delays: HashMap::new(alloc),
    }
}

/// The equations but for the last one.
fn without_last(ledger: Ledger) -> Ledger
    ensures equations { result.equations.items ≡ take (vec_len ledger.equations - 1) ledger.equations.items }
    ensures count { vec_len result.equations ≡ vec_len ledger.equations - 1 }
{
    let Ledger {
        mut equations,
        delays,
    } = ledger;
    match equations.pop() {
        None => {
            return Ledger { equations, delays };
        }
        Some(last) => {
            let number = equations.len() as u32;
            let delays = forgotten(delays, key_of(&last), number);
            return Ledger { equations, delays };
        }
    }
}

/// The first equations, so many.
pub fn cut(ledger: Ledger, count: usize) -> Ledger
    ensures { result.equations.items ≡ take count ledger.equations.items }
{
    let mut ledger = ledger;
    'shorter: while ledger.equations.len() > count {
        ledger = without_last(ledger);
    }
    ledger
}
