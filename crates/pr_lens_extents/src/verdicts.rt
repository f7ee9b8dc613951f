//! Comparisons that kinds and widths settle, declared widths that cut bits off, and calls that read
//! constants as negative.

ghost use Rattle.std.specs.Prelude.{◌≡◌, ◌≤◌, is_some, length};
ghost use Rattle.pr_lens_extents.specs.Verdicts.{agree, all_joined, answer, cut_by, cut_of, cut_to, decided, is_below, is_from, is_over, is_up_to, joined, joined_with, least, makes_room, most, negative_of, verdict_of, verdict_on};

use pr_flat::Form;
use pr_lang::BinOp;
use pr_lens_reach::{Extent, Reach, fits_at, greatest_of, signed_extent};

/// What is known of a comparison, or of a declared width.
#[derive(Clone, Copy, PartialEq, Eq, Debug)]
pub enum Verdict {
    /// It stands in a loop without turns, or nothing is to be said of it.
    Unseen,
    /// For all values it gives the same.
    Always {
        answer: bool,
        left: Extent,
        right: Extent,
    },
    Varies,
    /// A declared width cuts bits off, as it does not have all these values.
    Cut {
        /// The kind of what is assigned, and the declared width.
        form: Form,
        reach: Option<Reach>,
    },
    /// A call has a constant for an argument that the function reads by `signed`, and its highest bit is 1.
    Negative {
        /// The place of the argument, from 0.
        argument: u64,
        number: u64,
        width: u16,
        /// How far it is below 0.
        below: u128,
    },
}

/// The least value of a stream; none where it can be below 0.
fn least(extent: Extent) -> Option<u64>
    ensures { result ≡ least extent }
{
    match extent.number {
        Some(number) => Some(number),
        None => { if extent.form.signed { None } else { Some(0) } }
    }
}

/// The greatest value of an operand.
fn most(extent: Extent) -> u128
    requires width { extent.form.width ≤ 128 }
    ensures { result ≡ most extent }
{
    match extent.number {
        Some(number) => u128::from(number),
        None => greatest_of(extent.form.signed, extent.form.width),
    }
}

fn is_over(least: Option<u64>, number: u128) -> bool
    ensures { result ≡ is_over least number }
{
    match least {
        None => false,
        Some(least) => number < u128::from(least),
    }
}

fn is_from(least: Option<u64>, number: u128) -> bool
    ensures { result ≡ is_from least number }
{
    match least {
        None => false,
        Some(least) => number <= u128::from(least),
    }
}

/// Whether every value of one stream is below every value of another.
fn is_below(one: Extent, other: Extent) -> bool
    requires { one.form.width ≤ 128 }
    ensures { result ≡ is_below one other }
{
    is_over(least(other), most(one))
}

/// Whether no value of one stream is above a value of another.
fn is_up_to(one: Extent, other: Extent) -> bool
    requires { one.form.width ≤ 128 }
    ensures { result ≡ is_up_to one other }
{
    is_from(least(other), most(one))
}

fn decided(always: bool, never: bool) -> Option<bool>
    ensures { result ≡ decided always never }
{
    if always {
        return Some(true);
    }
    if never {
        return Some(false);
    }
    None
}

/// What a comparison gives for all values.
fn answer(op: BinOp, one: Extent, other: Extent) -> Option<bool>
    requires one { one.form.width ≤ 128 }
    requires other { other.form.width ≤ 128 }
    ensures { result ≡ answer op one other }
{
    match op {
        BinOp::Less => decided(is_below(one, other), is_up_to(other, one)),
        BinOp::LessEqual => decided(is_up_to(one, other), is_below(other, one)),
        BinOp::Greater => decided(is_below(other, one), is_up_to(one, other)),
        BinOp::GreaterEqual => decided(is_up_to(other, one), is_below(one, other)),
        BinOp::Equal => decided(false, is_below(one, other) || is_below(other, one)),
        BinOp::NotEqual => decided(is_below(one, other) || is_below(other, one), false),
        _ => None,
    }
}

fn is_constant(extent: Extent) -> bool
    ensures { result ≡ is_some extent.number }
{
    extent.number.is_some()
}

/// What is known of a comparison of two streams.
fn verdict_of(op: BinOp, left: Extent, right: Extent) -> Verdict
    requires left { left.form.width ≤ 128 }
    requires right { right.form.width ≤ 128 }
    ensures { result ≡ verdict_of op left right }
{
    if is_constant(left) && is_constant(right) {
        return Verdict::Varies;
    }
    match answer(op, left, right) {
        None => Verdict::Varies,
        Some(answer) => Verdict::Always {
            answer,
            left,
            right,
        },
    }
}

/// What is known of a comparison.
pub fn verdict_on(op: BinOp, left: Option<Extent>, right: Option<Extent>) -> Verdict
    ensures { result ≡ verdict_on op left right }
{
    let Some(left) = left else {
        return Verdict::Varies;
    };
    let Some(right) = right else {
        return Verdict::Varies;
    };
    if left.form.width > 128 || right.form.width > 128 {
        return Verdict::Varies;
    }
    verdict_of(op, left, right)
}

/// Whether an operator has room for every bit of what it gives: a difference has it among signed numbers alone.
fn makes_room(op: Option<BinOp>, signed: bool) -> bool
    ensures { result ≡ makes_room op signed }
{
    match op {
        None => false,
        Some(op) => match op {
            BinOp::Add | BinOp::Mul => true,
            BinOp::Sub => signed,
            _ => false,
        },
    }
}

/// Whether a kind and width cut bits off values.
fn cut_to(form: Form, reach: Option<Reach>) -> Verdict
    requires { form.width ≤ 128 }
    ensures { result ≡ cut_to form reach }
{
    if fits_at(form.signed, form.width, reach) {
        return Verdict::Unseen;
    }
    Verdict::Cut { form, reach }
}

fn cut_by(op: Option<BinOp>, width: u64, extent: Extent) -> Verdict
    ensures { result ≡ cut_by op width extent }
{
    if width < 1 || width > 128 || !makes_room(op, extent.form.signed) {
        return Verdict::Unseen;
    }
    let form = Form {
        signed: extent.form.signed,
        width: width as u16,
    };
    cut_to(form, extent.reach)
}

/// What a declared width makes of an expression with this operator outside of all others.
pub fn cut_of(op: Option<BinOp>, width: u64, extent: Option<Extent>) -> Verdict
    ensures { result ≡ cut_of op width extent }
{
    match extent {
        None => Verdict::Unseen,
        Some(extent) => cut_by(op, width, extent),
    }
}

/// Whether a constant at this place of the arguments has the highest bit 1.
pub fn negative_of(argument: u64, extent: Option<Extent>) -> Verdict
    ensures { result ≡ negative_of argument extent }
{
    let Some(extent) = extent else {
        return Verdict::Unseen;
    };
    let Some(number) = extent.number else {
        return Verdict::Unseen;
    };
    let Some(reach) = signed_extent(extent).reach else {
        return Verdict::Unseen;
    };
    if reach.least.below == 0 {
        return Verdict::Unseen;
    }
    Verdict::Negative {
        argument,
        number,
        width: extent.form.width,
        below: reach.least.below,
    }
}

fn agree(one: bool, other: bool) -> bool
    ensures { result ≡ agree one other }
{
    if one { other } else { !other }
}

/// A verdict with this answer, where this one comes of another turn.
fn joined_with(one: Verdict, answer: bool, other: Verdict) -> Verdict
    ensures { result ≡ joined_with one answer other }
{
    match other {
        Verdict::Unseen => one,
        Verdict::Varies => Verdict::Varies,
        Verdict::Always { answer: again, .. } => {
            if agree(answer, again) {
                return one;
            }
            Verdict::Varies
        }
        Verdict::Cut { .. } | Verdict::Negative { .. } => one,
    }
}

/// What is known of a comparison in two turns of a loop.
fn joined(one: Verdict, other: Verdict) -> Verdict
    ensures { result ≡ joined one other }
{
    match one {
        Verdict::Unseen => other,
        Verdict::Varies => Verdict::Varies,
        Verdict::Always { answer, .. } => joined_with(one, answer, other),
        Verdict::Cut { .. } | Verdict::Negative { .. } => one,
    }
}

/// Joins the verdicts of a turn to those of the turns before it.
pub fn join_all(joins: &mut [Verdict], turn: &[Verdict])
    ensures joined { joins.new ≡ all_joined joins.old turn.now }
    ensures count { length joins.new ≡ length joins.old }
{
    let common = joins.len().min(turn.len());
    for at in 0..common {
        joins[at] = joined(joins[at], turn[at]);
    }
}
