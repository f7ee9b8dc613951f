//! Constant expressions.
ghost use Rattle.std.specs.Prelude.{◌≡◌, Some, ok_or};
ghost use Rattle.pr_scope_names.specs.Names.{known_in};
ghost use Rattle.pr_scope_names.specs.Constants.{applied, constant_of, place_of, read};

use crate::names::{Static, Statics};
use crate::rules::{Offence, Rule};
use pr_lang::{Fixed, FixedOp, Name, Ref};

/// The value of a constant expression, or the first step that has none.
pub fn constant(statics: &Statics, value: &Fixed) -> Result<u64, Offence>
    ensures { result ≡ constant_of value.now (known_in statics.now) }
{
    match value {
        Fixed::Number(number) => Ok(*number),
        Fixed::Refer(name, index) => match index {
            None => read_name(statics, name, None),
            Some(index) => {
                let place = constant(statics, index)?;
                read_name(statics, name, Some(place))
            }
        },
        Fixed::Binary(op, left, right) => {
            let a = constant(statics, left)?;
            let b = constant(statics, right)?;
            apply(*op, a, b)
        }
        Fixed::Paren(inner) => constant(statics, inner),
    }
}

/// The index that stands after a name, if there is one.
pub fn place(statics: &Statics, target: &Ref) -> Result<Option<u64>, Offence>
    ensures { result ≡ place_of target.now (known_in statics.now) }
{
    match &target.index {
        None => Ok(None),
        Some(index) => {
            let value = constant(statics, index)?;
            Ok(Some(value))
        }
    }
}

/// The number that a name stands for, alone or with an index.
pub fn read_name(statics: &Statics, name: &Name, place: Option<u64>) -> Result<u64, Offence>
    ensures { result ≡ read (known_in statics.now name.now) place }
{
    match statics.get(name) {
        None => Err(Offence::Breaks(Rule::Kinds)),
        Some(known) => read_static(known, place),
    }
}

/// The number that is known, alone or with an index.
pub fn read_static(known: &Static, place: Option<u64>) -> Result<u64, Offence>
    ensures { result ≡ read (Some known.now) place }
{
    match place {
        None => match known {
            Static::Constant(number) => Ok(*number),
            Static::Index(number) => Ok(*number),
            Static::Table(_) => Err(Offence::Breaks(Rule::Kinds)),
            Static::Function(_) => Err(Offence::Breaks(Rule::Kinds)),
        },
        Some(place) => match known {
            Static::Constant(_) => Err(Offence::Breaks(Rule::Kinds)),
            Static::Index(_) => Err(Offence::Breaks(Rule::Kinds)),
            Static::Table(entries) => match entries.get(place) {
                None => Err(Offence::Breaks(Rule::Entries)),
                Some(number) => Ok(number),
            },
            Static::Function(_) => Err(Offence::Breaks(Rule::Kinds)),
        },
    }
}

/// One step.
pub fn apply(op: FixedOp, a: u64, b: u64) -> Result<u64, Offence>
    ensures { result ≡ applied op a b }
{
    match op {
        FixedOp::Add => within(a.checked_add(b)),
        FixedOp::Sub => within(a.checked_sub(b)),
        FixedOp::Mul => within(a.checked_mul(b)),
        FixedOp::Div => {
            if b == 0 {
                return Err(Offence::Breaks(Rule::Divisors));
            }
            Ok(a / b)
        }
        FixedOp::Mod => {
            if b == 0 {
                return Err(Offence::Breaks(Rule::Divisors));
            }
            Ok(a % b)
        }
    }
}

/// The step, where it is in 64 bits.
fn within(step: Option<u64>) -> Result<u64, Offence>
    ensures { result ≡ ok_or step (Offence.Breaks Rule.Steps) }
{
    step.ok_or(Offence::Breaks(Rule::Steps))
}
