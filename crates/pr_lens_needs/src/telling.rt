//! What is told of a program for which columns ran out.

ghost use Rattle.std.specs.Prelude.{◌≡◌, ◌++◌, OnOk};
ghost use Rattle.std.specs.List.{list_any};
ghost use Rattle.pr_lens_needs.specs.Texts.{advice_text, amount_text, bits_text, bits_word, columns_text, columns_word, counted_text, fewer_text, helps, is_fewer, narrow_text, narrowed_text, narrower_text, op_word, operator_text, part_text, parts_text, recurrence_text, saving_text, stage_text, take_text, takes_text, wide_by_text, wide_text, widths_text};

use crate::needs::{Needs, Parts};
use crate::smaller::Narrower;
use crate::takes::Take;
use pr_flat::Op;
use pr_lens_text::{put, put_counted, put_number};
use std::alloc::AllocError;

fn columns_word(columns: usize) -> &'static str
    ensures { result.now ≡ columns_word columns }
{
    if columns == 1 { " column" } else { " columns" }
}

/// Adds how many columns these are.
#[tactic(auto, unfolding(crate::specs::Texts::counted_text))]
fn put_columns(message: &mut Vec<u8>, columns: usize) -> Result<(), AllocError>
    ensures { OnOk result (message.new.items ≡ message.old.items ++ counted_text columns) }
{
    put_number(message, columns)?;
    put(message, columns_word(columns))
}

fn bits_word(bits: u8) -> &'static str
    ensures { result.now ≡ bits_word bits }
{
    if bits == 1 { " bit" } else { " bits" }
}

/// Adds how many bits these are.
#[tactic(auto, unfolding(crate::specs::Texts::wide_by_text))]
fn put_bits(message: &mut Vec<u8>, bits: u8) -> Result<(), AllocError>
    ensures { OnOk result (message.new.items ≡ message.old.items ++ wide_by_text bits) }
{
    put_number(message, usize::from(bits))?;
    put(message, bits_word(bits))
}

/// How many columns a stage of the wide fabric has, where one of this fabric has fewer.
fn wide_text(columns: usize) -> &'static str
    ensures { result.now ≡ wide_text columns }
{
    if columns < 32 {
        ", and one of the wide fabric 32.\n"
    } else {
        ".\n"
    }
}

/// Adds how many columns are needed, and how many a stage has.
#[tactic(auto, unfolding(crate::specs::Texts::stage_text))]
fn put_stage(message: &mut Vec<u8>, needed: usize, columns: usize) -> Result<(), AllocError>
    ensures { OnOk result (message.new.items ≡ message.old.items ++ stage_text needed columns) }
{
    put_number(message, needed)?;
    put_counted(message, " columns, where a stage has ", columns)?;
    put(message, wide_text(columns))
}

/// How an operator is written.
#[tactic(auto, unfolding(crate::specs::Texts::op_word))]
fn op_word(op: Op) -> &'static str
    ensures { result.now ≡ op_word op }
{
    match op {
        Op::Add => "`+`",
        Op::Sub => "`-`",
        Op::Mul => "`*`",
        Op::And => "`&`",
        Op::Or => "`|`",
        Op::Xor => "`^`",
        Op::Not => "`~`",
        Op::Equal => "`==`",
        Op::NotEqual => "`!=`",
        Op::Less => "`<`",
        Op::LessEqual => "`<=`",
        Op::Greater => "`>`",
        Op::GreaterEqual => "`>=`",
        Op::Choose => "`?`",
        Op::Left(_) | Op::LeftBy => "`<<`",
        Op::Right(_) | Op::RightBy => "`>>`",
        Op::Slice(_, _) => "a slice",
        Op::Cat => "`cat`",
        Op::Delay(_) => "`@`",
        Op::Fit => "a declared width",
        Op::Input | Op::Rec { init: _, first: _ } => "a stream",
    }
}

/// Adds how wide something is, and how many columns it takes.
#[tactic(auto, unfolding(crate::specs::Texts::amount_text))]
fn put_amount(message: &mut Vec<u8>, bits: u8, columns: usize) -> Result<(), AllocError>
    ensures { OnOk result (message.new.items ≡ message.old.items ++ amount_text bits columns) }
{
    put_bits(message, bits)?;
    put(message, ": ")?;
    put_columns(message, columns)?;
    put(message, "\n")
}

/// The same, with what it is.
#[tactic(auto, unfolding(crate::specs::Texts::part_text))]
fn put_part(message: &mut Vec<u8>, word: &str, bits: u8, columns: usize) -> Result<(), AllocError>
    ensures { OnOk result (message.new.items ≡ message.old.items ++ part_text word.now bits columns) }
{
    put(message, "- ")?;
    put(message, word)?;
    put(message, ", ")?;
    put_amount(message, bits, columns)
}

/// Adds an operator with its columns.
fn put_take(message: &mut Vec<u8>, one: Take) -> Result<(), AllocError>
    ensures { OnOk result (message.new.items ≡ message.old.items ++ take_text one) }
{
    put_part(message, op_word(one.op), one.width, one.columns)
}

/// Adds operators with their columns.
fn put_takes(message: &mut Vec<u8>, takes: &[Take]) -> Result<(), AllocError>
    ensures { OnOk result (message.new.items ≡ message.old.items ++ takes_text takes.now) }
{
    for one in takes {
        put_take(message, *one)?;
    }
    Ok(())
}

/// Tells which operators of a recurrence take columns, and how many the units take that keep it.
#[tactic(auto, unfolding(crate::specs::Texts::parts_text))]
fn tell_parts(message: &mut Vec<u8>, parts: &Parts) -> Result<(), AllocError>
    ensures { OnOk result (message.new.items ≡ message.old.items ++ parts_text parts.now) }
{
    put(
        message,
        "These read the recurrence, those with most columns first, and the last line keeps it for later samples:\n",
    )?;
    put_takes(message, &parts.takes)?;
    put_part(message, "what is kept", parts.width, parts.keeps)
}

/// Tells how many columns are needed with so many bits.
#[tactic(auto, unfolding(crate::specs::Texts::bits_text))]
fn tell_bits(message: &mut Vec<u8>, bits: u8, columns: usize) -> Result<(), AllocError>
    ensures { OnOk result (message.new.items ≡ message.old.items ++ bits_text bits columns) }
{
    put(message, "With ")?;
    put_bits(message, bits)?;
    put(message, " it takes ")?;
    put_columns(message, columns)?;
    put(message, ".\n")
}

/// The same, where it is known.
fn tell_narrower(message: &mut Vec<u8>, found: Narrower) -> Result<(), AllocError>
    ensures { OnOk result (message.new.items ≡ message.old.items ++ narrower_text found) }
{
    match found.columns {
        None => Ok(()),
        Some(columns) => tell_bits(message, found.width, columns),
    }
}

/// Tells how many columns are needed with smaller widths.
fn tell_widths(message: &mut Vec<u8>, narrower: &[Narrower]) -> Result<(), AllocError>
    ensures { OnOk result (message.new.items ≡ message.old.items ++ widths_text narrower.now) }
{
    for found in narrower {
        tell_narrower(message, *found)?;
    }
    Ok(())
}

/// Tells how many columns are needed with narrowed equations.
#[tactic(auto, unfolding(crate::specs::Texts::narrowed_text))]
fn tell_narrowed(message: &mut Vec<u8>, columns: usize) -> Result<(), AllocError>
    ensures { OnOk result (message.new.items ≡ message.old.items ++ narrowed_text columns) }
{
    put(message, "With `--narrow` it takes ")?;
    put_columns(message, columns)?;
    put(message, ".\n")
}

/// Tells how many that are, where they are fewer, and else that they are not.
fn tell_fewer(message: &mut Vec<u8>, needed: usize, columns: usize) -> Result<(), AllocError>
    ensures { OnOk result (message.new.items ≡ message.old.items ++ fewer_text needed columns) }
{
    if columns < needed {
        tell_narrowed(message, columns)
    } else {
        put(message, "With `--narrow` it takes no fewer.\n")
    }
}

/// The same, where it is known.
fn tell_narrow(
    message: &mut Vec<u8>,
    needed: usize,
    narrow: Option<usize>,
) -> Result<(), AllocError>
    ensures { OnOk result (message.new.items ≡ message.old.items ++ narrow_text needed narrow) }
{
    match narrow {
        None => Ok(()),
        Some(columns) => tell_fewer(message, needed, columns),
    }
}

/// Whether fewer columns are needed.
fn is_fewer(needed: usize, columns: Option<usize>) -> bool
    ensures { result ≡ is_fewer needed columns }
{
    match columns {
        None => false,
        Some(columns) => columns < needed,
    }
}

/// Whether fewer columns are needed with one of some smaller widths.
fn any_helps(needed: usize, narrower: &[Narrower]) -> bool
    ensures { result ≡ list_any (helps needed) narrower.now }
{
    narrower.iter().any(|found| is_fewer(needed, found.columns))
}

/// What to do where a recurrence needs too many columns, with a smaller width or in other ways.
#[tactic(auto, unfolding(crate::specs::Texts::advice_text))]
fn advice_text(smaller: bool) -> &'static str
    ensures { result.now ≡ advice_text smaller }
{
    if smaller {
        "Declare a smaller width, put together what does not read the recurrence, as in `s@1 + (a + b)`, or, where no bit looks at another, make it two of half the width.\n"
    } else {
        "Put together what does not read the recurrence, as in `s@1 + (a + b)`, or, where no bit looks at another, make it two of half the width.\n"
    }
}

/// Tells what smaller widths and narrowed equations save, and what to do.
#[tactic(auto, unfolding(crate::specs::Texts::saving_text))]
fn tell_saving(message: &mut Vec<u8>, needed: usize, needs: &Needs) -> Result<(), AllocError>
    ensures { OnOk result (message.new.items ≡ message.old.items ++ saving_text needed needs.now) }
{
    tell_widths(message, &needs.narrower)?;
    tell_narrow(message, needed, needs.narrow)?;
    put(message, advice_text(any_helps(needed, &needs.narrower)))
}

/// Tells what a recurrence needs, and what to do.
#[tactic(auto, unfolding(crate::specs::Texts::recurrence_text))]
fn tell_recurrence(
    message: &mut Vec<u8>,
    needed: usize,
    columns: usize,
    needs: &Needs,
) -> Result<(), AllocError>
    ensures { OnOk result (message.new.items ≡ message.old.items ++ recurrence_text needed columns needs.now) }
{
    put(
        message,
        "Columns ran out: what the recurrence goes on from is made within one stage, and takes ",
    )?;
    put_stage(message, needed, columns)?;
    tell_parts(message, &needs.parts)?;
    tell_saving(message, needed, needs)
}

/// Tells that a unit needs more columns than a stage has.
#[tactic(auto, unfolding(crate::specs::Texts::operator_text))]
fn tell_operator(message: &mut Vec<u8>, needed: usize, columns: usize) -> Result<(), AllocError>
    ensures { OnOk result (message.new.items ≡ message.old.items ++ operator_text needed columns) }
{
    put(
        message,
        "Columns ran out: a part of one operator is made within one stage, and takes ",
    )?;
    put_stage(message, needed, columns)
}

/// Tells that a group needs more columns than a stage has, and what to do.
pub fn tell_columns(
    message: &mut Vec<u8>,
    needed: usize,
    columns: usize,
    needs: Option<Needs>,
) -> Result<(), AllocError>
    ensures { OnOk result (message.new.items ≡ message.old.items ++ columns_text needed columns needs) }
{
    match needs {
        None => tell_operator(message, needed, columns),
        Some(needs) => tell_recurrence(message, needed, columns, &needs),
    }
}
