//! Equations without widths.

ghost use Rattle.std.specs.Prelude.{◌≡◌, ◌++◌, OnOk};
ghost use Rattle.std.specs.List.{list_any};
ghost use Rattle.pr_lens_why.specs.Widths.{comma_text, extent_text, extents_text, is_inside, missing_text, op_text, operands_text, other_text, slice_text};

use pr_flat::Op;
use pr_lens_find::{Extent, Missing};
use pr_lens_text::{put, put_counted, put_number};
use std::alloc::AllocError;

/// A comma before all but the first.
fn comma_text(number: usize) -> &'static str
    ensures { result.now ≡ comma_text number }
{
    if number == 0 { "" } else { ", " }
}

/// Adds a width.
fn put_extent(message: &mut Vec<u8>, extent: Extent) -> Result<(), AllocError>
    ensures { OnOk result (message.new.items ≡ message.old.items ++ extent_text extent) }
{
    match extent {
        Extent::Bits(bits) => put_number(message, bits as usize),
        Extent::Past | Extent::Inside => put(message, "its own past"),
    }
}

/// Adds widths, with commas between them.
#[tactic(auto, unfolding(crate::specs::Widths::extents_text))]
fn put_extents(message: &mut Vec<u8>, widths: &[Extent]) -> Result<(), AllocError>
    ensures { OnOk result (message.new.items ≡ message.old.items ++ extents_text 0 widths.now) }
{
    for (number, width) in widths.iter().enumerate() {
        put(message, comma_text(number))?;
        put_extent(message, *width)?;
    }
    Ok(())
}

/// Whether a width is not known.
fn has_inside(widths: &[Extent]) -> bool
    ensures { result ≡ list_any is_inside widths.now }
{
    widths.iter().any(|w| matches!(w, Extent::Inside))
}

/// Adds the widths of the operands, where all are known.
#[tactic(auto, unfolding(crate::specs::Widths::operands_text))]
fn put_operands(message: &mut Vec<u8>, widths: &[Extent]) -> Result<(), AllocError>
    ensures { OnOk result (message.new.items ≡ message.old.items ++ operands_text widths.now) }
{
    if widths.is_empty() || has_inside(widths) {
        return Ok(());
    }
    put(message, "Widths of the operands: ")?;
    put_extents(message, widths)?;
    put(message, ".\n")
}

/// Tells that a slice asks for a bit that is not there.
#[tactic(auto, unfolding(crate::specs::Widths::slice_text))]
fn tell_slice(message: &mut Vec<u8>) -> Result<(), AllocError>
    ensures { OnOk result (message.new.items ≡ message.old.items ++ slice_text) }
{
    put(
        message,
        ", which the value does not have: bits are counted from 0.\nDeclare a greater width where the value is assigned, or ask for lower bits.\n",
    )
}

#[tactic(auto, unfolding(crate::specs::Widths::other_text))]
fn other_text() -> &'static str
    ensures { result.now ≡ other_text }
{
    "The result has more than 128 bits, since no bit is lost without a declared width.\nDeclare a width for it, as in `let y:64 = ..`, or cut the operands by slices before.\n"
}

/// Tells what is wrong with an operation.
#[tactic(auto, unfolding(crate::specs::Widths::op_text))]
fn tell_op(message: &mut Vec<u8>, op: &Op) -> Result<(), AllocError>
    ensures { OnOk result (message.new.items ≡ message.old.items ++ op_text op.now) }
{
    match op {
        Op::Choose => put(
            message,
            "The condition of a choice is to be 1 bit wide, and this one is wider.\nCompare it, as in `c != 0 ? a : b`, or take one bit of it, as in `c{0..0}`.\n",
        ),
        Op::Slice(high, _) => {
            put_counted(message, "The slice asks for bit ", *high as usize)?;
            tell_slice(message)
        }
        Op::Rec { init: _, first: _ } => put(
            message,
            "No width up to 128 holds the recurrence: its body is always wider than what it goes on from, or an equation in it has no width.\nDeclare its width, as in `rec s:16 = 0 by ..`: the body is then cut to it at each sample.\n",
        ),
        _ => put(message, other_text()),
    }
}

/// Tells why there is no width, and what to do.
#[tactic(auto, unfolding(crate::specs::Widths::missing_text))]
pub fn tell(message: &mut Vec<u8>, missing: &Missing) -> Result<(), AllocError>
    ensures { OnOk result (message.new.items ≡ message.old.items ++ missing_text missing.now) }
{
    match &missing.op {
        None => put(message, "The equation has no width up to 128 bits.\n"),
        Some(op) => {
            tell_op(message, op)?;
            put_operands(message, &missing.widths)
        }
    }
}
