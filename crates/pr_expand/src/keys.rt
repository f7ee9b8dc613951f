//! The keys by which delays are found.
ghost use Rattle.std.specs.Prelude.{◌≡◌, IfOk};
ghost use Rattle.pr_expand.specs.Keys.{delay_key, found_in, is_number, key_in, with_key, without_key};

use pr_flat::{Equation, Op, Operand};
use std::alloc::AllocError;
use std::collections::HashMap;

/// The key of the delay of an operand after a number.
pub fn key_numbers(operand: Operand, init: u64) -> [u64; 4]
    ensures { result ≡ delay_key operand init }
{
    match operand {
        Operand::Const(number) => [0, number, 0, init],
        Operand::Eq(number) => [1, u64::from(number), 0, init],
        Operand::Past { rec, k } => [2, u64::from(rec), u64::from(k), init],
    }
}

/// The key of a delay after this number, by its operands.
fn key_on(args: &[Operand], init: u64) -> Option<[u64; 4]>
    ensures { result ≡ key_in (Op.Delay init) args.now }
{
    match args {
        [] => None,
        [arg] => Some(key_numbers(*arg, init)),
        [_, _, ..] => None,
    }
}

/// The key of an equation that is a delay.
pub fn key_of(equation: &Equation) -> Option<[u64; 4]>
    ensures { result ≡ key_in equation.now.op equation.now.args.items }
{
    match equation.op {
        Op::Input => None,
        Op::Add => None,
        Op::Sub => None,
        Op::Mul => None,
        Op::And => None,
        Op::Or => None,
        Op::Xor => None,
        Op::Not => None,
        Op::Equal => None,
        Op::NotEqual => None,
        Op::Less => None,
        Op::LessEqual => None,
        Op::Greater => None,
        Op::GreaterEqual => None,
        Op::Choose => None,
        Op::Left(_) => None,
        Op::Right(_) => None,
        Op::LeftBy => None,
        Op::RightBy => None,
        Op::Slice(_, _) => None,
        Op::Cat => None,
        Op::Fit => None,
        Op::Delay(init) => key_on(&equation.args, init),
        Op::Rec { init: _, first: _ } => None,
    }
}

/// The delays with one more, unless one of this key is there.
pub fn noted(
    delays: HashMap<[u64; 4], u32>,
    key: Option<[u64; 4]>,
    number: u32,
) -> Result<HashMap<[u64; 4], u32>, AllocError>
    ensures { IfOk result (λ m. found_in m ≡ with_key key number (found_in delays)) }
{
    match key {
        None => Ok(delays),
        Some(key) => {
            if delays.contains_key(&key) {
                return Ok(delays);
            }
            let mut delays = delays;
            delays.insert(key, number)?;
            Ok(delays)
        }
    }
}

/// Whether the delay of this key has this number.
fn is_there(delays: &HashMap<[u64; 4], u32>, key: &[u64; 4], number: u32) -> bool
    ensures { result ≡ is_number number (found_in delays.now key.now) }
{
    match delays.get(key) {
        None => false,
        Some(found) => *found == number,
    }
}

/// The delays without the one of this key, if it has this number.
pub fn forgotten(
    delays: HashMap<[u64; 4], u32>,
    key: Option<[u64; 4]>,
    number: u32,
) -> HashMap<[u64; 4], u32>
    ensures { found_in result ≡ without_key key number (found_in delays) }
{
    match key {
        None => delays,
        Some(key) => {
            if !is_there(&delays, &key, number) {
                return delays;
            }
            let mut delays = delays;
            let _was = delays.remove(&key);
            delays
        }
    }
}
