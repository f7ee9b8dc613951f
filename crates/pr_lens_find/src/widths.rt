//! Equations without widths.

ghost use Rattle.std.specs.Prelude.{◌≡◌, ◌<◌, ◌≤◌, ◌⊎◌, ◌↔◌, length, map, vec_len, IfOk, IfSome, IsFalse, IsTrue, MatchOption};
ghost use Rattle.pr_flat.specs.Flats.{equations_of};
ghost use Rattle.pr_flat.specs.Shape.{equation_shape};
ghost use Rattle.pr_flat.specs.Widths.{IsFirstWithout};
ghost use Rattle.pr_lens_find.specs.Widths.{HaveWidths, AreCommon, AreExtentsOf, AreSame, AreSameAt, AreUntold, IsEquation, IsUnknown, IsToldOf, HasFlatWith, HasNoFlatWith, LacksWidth, LacksNone, LacksNot, LacksFirst, IsToldCut, IsToldOfSpot, IsToldIn, extent_of, telling_of};
ghost use Rattle.pr_lens_find.specs.Fronts.{spot_of};
ghost use Rattle.pr_lens_source.specs.Spans.{StandsIn};

use crate::counts::{numbered, short};
use crate::equations::{Equations, equations_item, made_with};
use crate::fronts::{Part, item_of};
use crate::halves::{Question, turn_between};
use pr_flat::{Equation, Flat, Op, Operand};
use pr_lens_items::points_of;
use pr_lens_source::Source;
use pr_width::{WidthFault, Widths, operand_width, solve};
use std::alloc::{AllocError, Global};

/// The first equation without a width, where there is one.
fn first_without(alloc: Global, flat: &Flat) -> Result<Option<u32>, AllocError>
    ensures { let equations = equations_of flat.now in
        IfOk result (λ found. MatchOption found (HaveWidths equations) (IsFirstWithout equations)) }
{
    match solve(alloc, flat) {
        Ok(_widths) => {
            return Ok(None);
        }
        Err(WidthFault::NoWidth { equation }) => {
            return Ok(Some(equation));
        }
        Err(WidthFault::Memory(error)) => {
            return Err(error);
        }
    }
}

/// The equations with so many points of the item's expressions, where there are any.
fn flat_with(alloc: Global, part: &Part, count: usize) -> Result<Option<Flat>, AllocError>
    requires { length part.now.source.text.now ≤ 1048576 }
    ensures { let spot = spot_of part.now in
        IfOk result (λ found. MatchOption found (HasNoFlatWith spot count) (HasFlatWith spot count)) }
{
    match made_with(alloc, part, count)? {
        Equations::Flat(flat) => Ok(Some(flat)),
        Equations::TooMany | Equations::Refused => Ok(None),
    }
}

/// Whether some equation has no width with so many points of the item's expressions.
fn lacks(alloc: Global, part: &Part, count: usize) -> Result<bool, AllocError>
    requires { length part.now.source.text.now ≤ 1048576 }
    ensures yes { IfOk result (λ answer. IsTrue answer → LacksWidth (spot_of part.now) count) }
    ensures no { IfOk result (λ answer. IsFalse answer → LacksNone (spot_of part.now) count) }
{
    let Some(flat) = flat_with(alloc, part, count)? else {
        return Ok(false);
    };
    match first_without(alloc, &flat)? {
        None => Ok(false),
        Some(_equation) => Ok(true),
    }
}

/// Whether some equation has no width with so many points of an item's expressions.
#[derive(Clone, Copy)]
struct Lacking<'a> {
    part: Part<'a>,
}

impl<'a> Question for Lacking<'a> {
    ghost can_ask = { λ s. length s.part.source.text.now ≤ 1048576 };

    ghost yes = { λ s count. LacksWidth (spot_of s.part) count };

    ghost no = { λ s count. LacksNone (spot_of s.part) count };

    fn ask(&self, alloc: Global, count: usize) -> Result<bool, AllocError> {
        lacks(alloc, &self.part, count)
    }
}

/// A count of points with which some equation of the item has no width, and with one less none lacks one.
fn first_count(alloc: Global, part: &Part, most: usize) -> Result<Option<usize>, AllocError>
    requires { length part.now.source.text.now ≤ 1048576 }
    ensures { let spot = spot_of part.now in
        IfOk result (λ found. MatchOption found (LacksNot spot most) (LacksFirst spot)) }
{
    let lacking = Lacking { part: *part };
    turn_between(alloc, &lacking, 0, most)
}

/// How wide an operand is.
#[derive(Clone, Copy)]
pub enum Extent {
    Bits(u32),
    /// It is an earlier sample of the recurrence that is being made.
    Past,
    /// It is made inside a function that is called.
    Inside,
}

/// An equation without a width.
#[derive(Drop)]
pub struct Missing {
    /// The token at which it is made.
    pub token: usize,
    /// What it makes of its operands, where that is known.
    pub op: Option<Op>,
    /// How wide each operand is, of a recurrence each operand of its body's last operator.
    pub widths: Vec<Extent>,
}

/// An equation of which no more is known than the token at which it is made.
fn unknown(alloc: Global, token: usize) -> Missing
    ensures token { result.token ≡ token }
    ensures unknown { IsUnknown result }
{
    Missing {
        token,
        op: None,
        widths: Vec::new(alloc),
    }
}

/// Whether two operations are the same.
fn is_same_op(one: Op, other: Op) -> bool
    ensures { IsTrue result ↔ (one ≡ other) }
{
    one == other
}

/// Whether two operands are the same.
fn is_same_operand(one: Operand, other: Operand) -> bool
    ensures { IsTrue result ↔ (one ≡ other) }
{
    one == other
}

/// Whether these are the same operands.
fn are_same_operands(one: &[Operand], other: &[Operand]) -> bool
    ensures { IsTrue result ↔ (one.now ≡ other.now) }
{
    if one.len() != other.len() {
        return false;
    }
    for place in 0..one.len() {
        if !is_same_operand(one[place], other[place]) {
            return false;
        }
    }
    true
}

/// Whether two declared widths are the same.
fn is_same_width(one: Option<u8>, other: Option<u8>) -> bool
    ensures { IsTrue result ↔ (one ≡ other) }
{
    one == other
}

/// Whether both equations are made alike, whatever the kinds of their operands are.
fn is_same(one: &Equation, other: &Equation) -> bool
    ensures { IsTrue result ↔ AreSame (equation_shape one.now) (equation_shape other.now) }
{
    if !is_same_op(one.op, other.op) {
        return false;
    }
    if !is_same_width(one.declared, other.declared) {
        return false;
    }
    are_same_operands(&one.args, &other.args)
}

/// Whether the equations of this number are there, and are made alike.
fn is_same_at(one: &Flat, other: &Flat, number: usize) -> bool
    ensures same { IsTrue result ↔ AreSameAt (equations_of one.now) (equations_of other.now) number }
    ensures within { IsTrue result → number < vec_len one.now.equations }
{
    match one.equations.get(number) {
        None => false,
        Some(equation) => match other.equations.get(number) {
            None => false,
            Some(found) => is_same(equation, found),
        },
    }
}

/// How many equations both have in common, from the first on.
fn common(one: &Flat, other: &Flat) -> usize
    ensures within { result ≤ vec_len one.now.equations }
    ensures common { AreCommon (equations_of one.now) (equations_of other.now) result }
{
    let mut count = 0;
    while is_same_at(one, other, count) {
        count += 1;
    }
    count
}

/// How wide an operand is, where it is a number or one of the first equations.
fn width_of(widths: &Widths, operand: Operand, known: usize) -> Extent
    ensures { result ≡ extent_of widths.now known operand }
{
    match operand {
        Operand::Const(_) => Extent::Bits(u32::from(operand_width(operand, &widths.of))),
        Operand::Past { rec: _, k: _ } => Extent::Past,
        Operand::Eq(equation) => {
            let equation = equation as usize;
            match widths.of.get(equation) {
                Some(bits) if equation < known => Extent::Bits(u32::from(*bits)),
                _ => Extent::Inside,
            }
        }
    }
}

/// How wide operands are, where they are numbers or among the first equations.
fn widths_of(
    alloc: Global,
    widths: &Widths,
    operands: &[Operand],
    known: usize,
) -> Result<Vec<Extent>, AllocError>
    ensures count { IfOk result (λ all. vec_len all ≡ length operands.now) }
    ensures each { IfOk result (λ all. all.items ≡ map (extent_of widths.now known) operands.now) }
{
    let mut all = Vec::new(alloc);
    for operand in operands {
        all.push(width_of(widths, *operand, known))?;
    }
    Ok(all)
}

/// How wide operands are, where the equations have widths.
fn extents(
    alloc: Global,
    flat: &Flat,
    operands: &[Operand],
    known: usize,
) -> Result<Vec<Extent>, AllocError>
    ensures { IfOk result (λ all. AreUntold (equations_of flat.now) all.items ⊎
        AreExtentsOf (equations_of flat.now) known operands.now all.items) }
{
    match solve(alloc, flat) {
        Ok(widths) => widths_of(alloc, &widths, operands, known),
        Err(WidthFault::NoWidth { equation: _number }) => Ok(Vec::new(alloc)),
        Err(WidthFault::Memory(error)) => Err(error),
    }
}

/// The equation whose operands tell most of why this one has no width: of a recurrence the last one of its body.
fn telling<'a>(flat: &'a Flat, equation: &'a Equation) -> &'a Equation
    requires { IsEquation (equations_of flat.now) (equation_shape equation.now) }
    ensures equation { IsEquation (equations_of flat.now) (equation_shape result.now) }
    ensures telling { equation_shape result.now ≡ telling_of (equations_of flat.now) (equation_shape equation.now) }
{
    if let Op::Rec { init: _, first: _ } = equation.op {
        if let Some(Operand::Eq(body)) = equation.args.first() {
            if let Some(last) = flat.equations.get(*body as usize) {
                return last;
            }
        }
    }
    equation
}

/// What is known of the equation of this number, by the equations of one point less, which have widths.
fn told_by(
    alloc: Global,
    token: usize,
    flat: &Flat,
    number: u32,
    before: &Flat,
) -> Result<Missing, AllocError>
    requires { IsFirstWithout (equations_of flat.now) number }
    ensures token { IfOk result (λ missing. missing.token ≡ token) }
    ensures told { IfOk result (IsToldOf (equations_of flat.now) (equations_of before.now)) }
{
    let Some(equation) = flat.equations.get(number as usize) else {
        return Ok(unknown(alloc, token));
    };
    let told = telling(flat, equation);
    let widths = extents(alloc, before, &told.args, common(flat, before))?;
    Ok(Missing {
        token,
        op: Some(equation.op),
        widths,
    })
}

/// What is known of the first equation without a width, by the equations of one point less.
fn missing_in(
    alloc: Global,
    token: usize,
    flat: &Flat,
    before: &Flat,
) -> Result<Missing, AllocError>
    ensures token { IfOk result (λ missing. missing.token ≡ token) }
    ensures told { IfOk result (IsToldOf (equations_of flat.now) (equations_of before.now)) }
{
    match first_without(alloc, flat)? {
        None => Ok(unknown(alloc, token)),
        Some(equation) => told_by(alloc, token, flat, equation, before),
    }
}

/// What is known of the first equation without a width, with so many points of the item's expressions.
fn missing_at(alloc: Global, part: &Part, token: usize, count: usize) -> Result<Missing, AllocError>
    requires { length part.now.source.text.now ≤ 1048576 }
    ensures token { IfOk result (λ missing. missing.token ≡ token) }
    ensures told { IfOk result (IsToldCut (spot_of part.now) count) }
{
    let Some(flat) = flat_with(alloc, part, count)? else {
        return Ok(unknown(alloc, token));
    };
    let Some(before) = flat_with(alloc, part, count.saturating_sub(1))? else {
        return Ok(unknown(alloc, token));
    };
    missing_in(alloc, token, &flat, &before)
}

/// The same, at the first point with which an equation of the item has no width.
fn missing_of(alloc: Global, part: &Part) -> Result<Missing, AllocError>
    requires { length part.now.source.text.now ≤ 1048576 }
    ensures stands { let source = part.now.source in
        IfOk result (λ missing. StandsIn source.tokens.now source.spans.now part.now.number missing.token) }
    ensures told { IfOk result (IsToldOfSpot (spot_of part.now)) }
{
    let first = part.source.first(part.number);
    let points = points_of(alloc, short(first), part.item)?;
    match first_count(alloc, part, points.values.len())? {
        None => {
            let token = part.source.held(part.number, None);
            return Ok(unknown(alloc, token));
        }
        Some(count) => {
            let found = numbered(&points.values, count);
            let token = part.source.held(part.number, found);
            return missing_at(alloc, part, token, count);
        }
    }
}

/// Where the first equation without a width, which has this number, is made, and what is known of it: the token of the
/// first point with which it has none.
pub fn find_missing(alloc: Global, source: &Source, equation: usize) -> Result<Missing, AllocError>
    requires { length source.now.text.now ≤ 1048576 }
    ensures { IfOk result
        (IsToldIn source.now.text.now source.now.tokens.now source.now.spans.now equation) }
{
    let number = equations_item(alloc, source, equation)?;
    let first = source.held(number, None);
    let Some(item) = item_of(alloc, source, number)? else {
        return Ok(unknown(alloc, first));
    };
    let part = Part {
        source: *source,
        number,
        item: &item,
    };
    missing_of(alloc, &part)
}
