//! Delays, each of which stands once.
ghost use Rattle.std.specs.Prelude.{◌≡◌, IfErr, IfOk};
ghost use Rattle.pr_expand_spec.specs.Making.{delay_from, delayed, delayed_once};
ghost use Rattle.pr_expand.specs.Code.{IsPast, made_of, shapes_in};
ghost use Rattle.pr_expand.specs.Keys.{delay_key};

use crate::keys::key_numbers;
use crate::ledgers::{Expanded, Ledger};
use crate::making::delay_of;
use crate::stops::Stop;
use pr_expand_spec::Given;
use pr_flat::Operand;
use std::alloc::Global;

/// The number of the first delay of an operand after this number, and its key.
fn find(ledger: &Ledger, operand: Operand, init: u64) -> (Option<u32>, [u64; 4])
    ensures number { result.0 ≡ delay_from 0 (shapes_in ledger.now) operand init }
    ensures key { result.1 ≡ delay_key operand init }
{
    let key = key_numbers(operand, init);
    let number = ledger.delays.get(&key).copied();
    (number, key)
}

/// One sample earlier.
fn delay_once(alloc: Global, ledger: Ledger, operand: Operand, init: u64) -> Result<Expanded, Stop>
    ensures value { IfOk result (λ m. made_of m ≡ delayed_once operand init (shapes_in ledger)) }
    ensures limit { IfErr result (λ s. IsPast s (delayed_once operand init (shapes_in ledger)).equations) }
{
    let (found, key) = find(&ledger, operand, init);
    match found {
        Some(number) => Ok(Expanded {
            ledger,
            given: Given {
                operand: Operand::Eq(number),
                signed: false,
            },
        }),
        None => delay_of(alloc, ledger, operand, init, key),
    }
}

/// So many samples earlier.
pub fn delay(
    alloc: Global,
    ledger: Ledger,
    given: Given,
    init: u64,
    samples: u64,
) -> Result<Expanded, Stop>
    ensures value { IfOk result (λ m. made_of m ≡ delayed samples given init (shapes_in ledger)) }
    ensures limit { IfErr result (λ s. IsPast s (delayed samples given init (shapes_in ledger)).equations) }
{
    let signed = given.signed;
    let mut ledger = ledger;
    let mut operand = given.operand;
    for _k in 0..samples {
        let once = delay_once(alloc, ledger, operand, init)?;
        ledger = once.ledger;
        operand = once.given.operand;
    }
    Ok(Expanded {
        ledger,
        given: Given { operand, signed },
    })
}
