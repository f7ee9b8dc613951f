//! What is known of streams.

ghost use Rattle.std.specs.Prelude.{◌≡◌, ◌≤◌, IfSome};
ghost use Rattle.std.specs.Option.{option_and_then};
ghost use Rattle.pr_flat.specs.Forms.{IsForm};
ghost use Rattle.pr_lang_meaning.specs.Expressions.{operator, shift_by};
ghost use Rattle.pr_scope_names.specs.Amounts.{fixed_op};
ghost use Rattle.pr_lens_reach.specs.Extents.{all_ones, applied_to, below_zeros, beside, binary_of, bits_reach, both_beside, choice_of, complements, constant, either_by, fitted_in, fitted_to, held, is_zero, no_parts, not_of, number_of, numbered, of_branches, of_one, of_two, one_not, one_shifted, operated, past_of, plain, reach_beside, reach_by, reach_of, reach_on, reach_shifted, reach_shifted_by, recurrence_of, settled_as, shifted, shifted_by, signed_extent, signed_of, slice_of, stream_of, truth, two_numbered, unsigned_form, varied, width_form};
ghost use Rattle.pr_lens_reach.specs.Reaches.{whole, within};

use crate::reaches::{
    Bound, Reach, apart_of, common_of, difference_of, either_of, fits_at, greatest_of, lowered_of,
    only, over, product_of, raised_of, read_signed, sum_of, together_of, under, whole_of, within,
};
use pr_flat::{Form, Op};
use pr_flat_ops::{natural_choice, natural_one, natural_two, number_width};
use pr_lang::{BinOp, FixedOp};
use pr_scope_names::apply;

/// What is known of a stream.
#[derive(Clone, Copy, PartialEq, Eq, Debug)]
pub struct Extent {
    pub form: Form,
    /// Which number it is, where it is a constant.
    pub number: Option<u64>,
    /// Which number its bits always are, where they never change.
    pub still: Option<u64>,
    /// Between which values it stands; none where these are beyond 128 bits.
    pub reach: Option<Reach>,
}

/// The kind and width of an unsigned stream.
fn unsigned_form(width: u16) -> Form
    ensures { result ≡ unsigned_form width }
{
    Form {
        signed: false,
        width,
    }
}

/// All values of a kind and width.
fn whole(form: Form) -> Option<Reach>
    ensures { result ≡ whole form }
{
    whole_of(form.signed, form.width)
}

/// A stream that is not always one number.
fn varied(reach: Option<Reach>, form: Form) -> Extent
    ensures { result ≡ varied reach form }
{
    Extent {
        form,
        number: None,
        still: None,
        reach,
    }
}

/// A stream of which the kind and the width alone are known.
fn plain(form: Form) -> Extent
    ensures { result ≡ plain form }
{
    varied(whole(form), form)
}

/// A constant.
pub fn constant(number: u64) -> Extent
    ensures { result ≡ constant number }
{
    Extent {
        form: unsigned_form(u16::from(number_width(number).get())),
        number: Some(number),
        still: Some(number),
        reach: Some(only(over(u128::from(number)))),
    }
}

/// What a comparison gives.
pub fn truth() -> Extent
    ensures { result ≡ truth }
{
    plain(unsigned_form(1))
}

/// The kind and width of an operand, which is 1 to 128 bits wide.
fn held(operand: Option<Extent>) -> Option<Form>
    ensures held { result ≡ held operand }
    ensures form { IfSome result IsForm }
{
    let form = operand?.form;
    if form.width < 1 || form.width > 128 {
        return None;
    }
    Some(form)
}

/// What an operator makes of one operand.
fn of_one(op: Op, operand: Option<Form>) -> Option<Form>
    requires { IfSome operand IsForm }
    ensures { result ≡ of_one op operand }
{
    natural_one(op, operand?)
}

/// What an operator makes of two operands.
fn of_two(op: Op, one: Option<Form>, other: Option<Form>) -> Option<Form>
    requires one { IfSome one IsForm }
    requires other { IfSome other IsForm }
    ensures { result ≡ of_two op one other }
{
    let Some(one) = one else {
        return None;
    };
    let Some(other) = other else {
        return None;
    };
    Some(natural_two(op, one, other))
}

/// What holds either branch of a choice.
fn of_branches(one: Option<Form>, other: Option<Form>) -> Option<Form>
    requires one { IfSome one IsForm }
    requires other { IfSome other IsForm }
    ensures { result ≡ of_branches one other }
{
    let Some(one) = one else {
        return None;
    };
    let Some(other) = other else {
        return None;
    };
    natural_choice(unsigned_form(1), one, other)
}

/// Which number an expression is, where it is a constant.
pub fn number_of(extent: Option<Extent>) -> Option<u64>
    ensures { result ≡ number_of extent }
{
    match extent {
        None => None,
        Some(extent) => extent.number,
    }
}

/// The operator of constant expressions.
fn fixed_op(op: BinOp) -> Option<FixedOp>
    ensures { result ≡ fixed_op op }
{
    match op {
        BinOp::Add => Some(FixedOp::Add),
        BinOp::Sub => Some(FixedOp::Sub),
        BinOp::Mul => Some(FixedOp::Mul),
        _ => None,
    }
}

/// A sum, difference or product of constants.
fn applied_to(one: Option<u64>, other: Option<u64>, op: BinOp) -> Option<u64>
    ensures { result ≡ applied_to one other op }
{
    let Some(one) = one else {
        return None;
    };
    let Some(other) = other else {
        return None;
    };
    match fixed_op(op) {
        None => None,
        Some(op) => apply(op, one, other).ok(),
    }
}

/// The operation of an operator on streams.
fn operator(op: BinOp) -> Op
    ensures { result ≡ operator op }
{
    match op {
        BinOp::Add => Op::Add,
        BinOp::Sub => Op::Sub,
        BinOp::Mul => Op::Mul,
        BinOp::And => Op::And,
        BinOp::Or => Op::Or,
        BinOp::Xor => Op::Xor,
        BinOp::Equal => Op::Equal,
        BinOp::NotEqual => Op::NotEqual,
        BinOp::Less => Op::Less,
        BinOp::LessEqual => Op::LessEqual,
        BinOp::Greater => Op::Greater,
        BinOp::GreaterEqual => Op::GreaterEqual,
        BinOp::Left => Op::LeftBy,
        BinOp::Right => Op::RightBy,
    }
}

/// Between which values a stream stands.
fn reach_of(extent: Option<Extent>) -> Option<Reach>
    ensures { result ≡ reach_of extent }
{
    match extent {
        None => None,
        Some(extent) => extent.reach,
    }
}

/// What an operator gives of two operands with these values, where its kind and width are these.
fn reach_on(op: BinOp, form: Form, one: Reach, other: Reach) -> Option<Reach>
    ensures { result ≡ reach_on op form one other }
{
    match op {
        BinOp::Add => sum_of(one, other),
        BinOp::Mul => product_of(one, other),
        BinOp::Sub => within(whole(form), difference_of(one, other)),
        BinOp::And => within(whole(form), common_of(one, other)),
        BinOp::Or => within(whole(form), together_of(one, other)),
        BinOp::Xor => within(whole(form), apart_of(one, other)),
        _ => whole(form),
    }
}

/// The same, where the values of the operands can be beyond 128 bits.
fn reach_by(op: BinOp, form: Form, one: Option<Reach>, other: Option<Reach>) -> Option<Reach>
    ensures { result ≡ reach_by op form one other }
{
    let Some(one) = one else {
        return whole(form);
    };
    let Some(other) = other else {
        return whole(form);
    };
    reach_on(op, form, one, other)
}

/// A stream with these values, or the number that it is.
fn numbered(number: Option<u64>, reach: Option<Reach>, form: Form) -> Extent
    ensures { result ≡ numbered number reach form }
{
    match number {
        None => varied(reach, form),
        Some(number) => Extent {
            form,
            number: Some(number),
            still: Some(number),
            reach: Some(only(over(u128::from(number)))),
        },
    }
}

/// What an operator other than a comparison or a shift makes of two operands, where its kind and width are these.
fn two_numbered(op: BinOp, one: Option<Extent>, other: Option<Extent>, form: Form) -> Extent
    ensures { result ≡ two_numbered op one other form }
{
    let number = applied_to(number_of(one), number_of(other), op);
    numbered(
        number,
        reach_by(op, form, reach_of(one), reach_of(other)),
        form,
    )
}

/// What an operator other than a comparison or a shift makes of two operands.
fn operated(op: BinOp, one: Option<Extent>, other: Option<Extent>) -> Option<Extent>
    ensures { result ≡ operated op one other }
{
    match of_two(operator(op), held(one), held(other)) {
        None => None,
        Some(form) => Some(two_numbered(op, one, other, form)),
    }
}

/// The shift by a constant.
fn shift_by(op: BinOp, amount: Option<u64>) -> Option<Op>
    ensures { result ≡ option_and_then (shift_by op) amount }
{
    let amount = amount?;
    if amount > 128 {
        return None;
    }
    match op {
        BinOp::Left => Some(Op::Left(amount as u8)),
        BinOp::Right => Some(Op::Right(amount as u8)),
        _ => None,
    }
}

/// What a shift by a constant makes of these values.
fn reach_shifted(shift: Op, form: Form, reach: Reach) -> Option<Reach>
    ensures { result ≡ reach_shifted shift form reach }
{
    match shift {
        Op::Left(by) => raised_of(by, reach),
        Op::Right(by) => Some(lowered_of(by, reach)),
        _ => whole(form),
    }
}

/// The same, where the values of the operand can be beyond 128 bits.
fn reach_shifted_by(shift: Op, form: Form, reach: Option<Reach>) -> Option<Reach>
    ensures { result ≡ reach_shifted_by shift form reach }
{
    match reach {
        None => whole(form),
        Some(reach) => reach_shifted(shift, form, reach),
    }
}

fn one_shifted(shift: Op, operand: Option<Extent>, form: Form) -> Extent
    ensures { result ≡ one_shifted shift operand form }
{
    varied(reach_shifted_by(shift, form, reach_of(operand)), form)
}

/// What a shift by a constant makes of a stream, or one by a stream.
fn shifted_by(shift: Option<Op>, operand: Option<Extent>) -> Option<Extent>
    ensures { result ≡ shifted_by shift operand }
{
    match shift {
        None => held(operand).map(plain),
        Some(shift) => match of_one(shift, held(operand)) {
            None => None,
            Some(form) => Some(one_shifted(shift, operand, form)),
        },
    }
}

fn shifted(op: BinOp, one: Option<Extent>, other: Option<Extent>) -> Option<Extent>
    ensures { result ≡ shifted op one other }
{
    shifted_by(shift_by(op, number_of(other)), one)
}

/// What an operator makes of two operands.
pub fn binary_of(op: BinOp, one: Option<Extent>, other: Option<Extent>) -> Option<Extent>
    ensures { result ≡ binary_of op one other }
{
    match op {
        BinOp::Equal | BinOp::NotEqual => Some(truth()),
        BinOp::Less | BinOp::LessEqual => Some(truth()),
        BinOp::Greater | BinOp::GreaterEqual => Some(truth()),
        BinOp::Left | BinOp::Right => shifted(op, one, other),
        _ => operated(op, one, other),
    }
}

/// What a value and its complement are together.
fn all_ones(form: Form) -> Option<Bound>
    ensures { result ≡ all_ones form }
{
    if form.signed {
        return Some(under(1));
    }
    if form.width > 128 {
        return None;
    }
    Some(over(greatest_of(false, form.width)))
}

/// The complements of these values, where a value and its complement are this together.
fn complements(ones: Option<Bound>, reach: Option<Reach>) -> Option<Reach>
    ensures { result ≡ complements ones reach }
{
    let Some(ones) = ones else {
        return None;
    };
    let Some(reach) = reach else {
        return None;
    };
    difference_of(only(ones), reach)
}

/// The complement of a stream, of which the kind and width are these.
fn one_not(operand: Option<Extent>, form: Form) -> Extent
    ensures { result ≡ one_not operand form }
{
    let reach = complements(all_ones(form), reach_of(operand));
    varied(within(whole(form), reach), form)
}

/// The complement of a stream.
pub fn not_of(operand: Option<Extent>) -> Option<Extent>
    ensures { result ≡ not_of operand }
{
    match of_one(Op::Not, held(operand)) {
        None => None,
        Some(form) => Some(one_not(operand, form)),
    }
}

/// What one of two streams can be.
fn either_by(one: Option<Reach>, other: Option<Reach>) -> Option<Reach>
    ensures { result ≡ either_by one other }
{
    let Some(one) = one else {
        return None;
    };
    let Some(other) = other else {
        return None;
    };
    Some(either_of(one, other))
}

/// What holds either branch of a choice.
pub fn choice_of(one: Option<Extent>, other: Option<Extent>) -> Option<Extent>
    ensures { result ≡ choice_of one other }
{
    match of_branches(held(one), held(other)) {
        None => None,
        Some(form) => Some(varied(either_by(reach_of(one), reach_of(other)), form)),
    }
}

/// A slice between these bits, whatever it is cut out of.
pub fn slice_of(high: Option<u64>, low: Option<u64>) -> Option<Extent>
    ensures { result ≡ slice_of high low }
{
    let Some(high) = high else {
        return None;
    };
    let Some(low) = low else {
        return None;
    };
    if low <= high && high < 128 {
        let width = (high - low) as u16 + 1;
        return Some(plain(unsigned_form(width)));
    }
    None
}

/// The same under a name, where it is no constant.
pub fn stream_of(extent: Option<Extent>) -> Option<Extent>
    ensures { result ≡ stream_of extent }
{
    match extent {
        None => None,
        Some(extent) => Some(Extent {
            form: extent.form,
            number: None,
            still: extent.still,
            reach: extent.reach,
        }),
    }
}

/// The same some samples ago: before the first sample it was 0.
pub fn past_of(extent: Option<Extent>) -> Option<Extent>
    ensures { result ≡ past_of extent }
{
    match extent {
        None => None,
        Some(extent) => {
            let reach = either_by(extent.reach, Some(only(over(0))));
            Some(varied(reach, extent.form))
        }
    }
}

/// `signed` of a stream.
pub fn signed_extent(extent: Extent) -> Extent
    ensures { result ≡ signed_extent extent }
{
    let width = extent.form.width;
    Extent {
        form: Form {
            signed: true,
            width,
        },
        number: None,
        still: extent.still,
        reach: read_signed(width, extent.still, extent.reach),
    }
}

/// `signed` of what is known of a stream.
pub fn signed_of(extent: Option<Extent>) -> Option<Extent>
    ensures { result ≡ signed_of extent }
{
    match extent {
        None => None,
        Some(extent) => Some(signed_extent(extent)),
    }
}

/// No parts beside one another.
pub fn no_parts() -> Extent
    ensures { result ≡ no_parts }
{
    Extent {
        form: unsigned_form(0),
        number: None,
        still: Some(0),
        reach: Some(only(over(0))),
    }
}

/// The numbers of a stream, whatever they stand for.
fn bits_reach(extent: Extent) -> Option<Reach>
    ensures { result ≡ bits_reach extent }
{
    if extent.form.signed {
        return whole_of(false, extent.form.width);
    }
    extent.reach
}

/// The numbers of a part of this width beside what stands above it.
fn reach_beside(above: Option<Reach>, width: u16, part: Option<Reach>) -> Option<Reach>
    requires { width ≤ 128 }
    ensures { result ≡ reach_beside above width part }
{
    let Some(above) = above else {
        return None;
    };
    let Some(part) = part else {
        return None;
    };
    let Some(above) = raised_of(width as u8, above) else {
        return None;
    };
    sum_of(above, part)
}

/// A part below others that are all 0.
fn below_zeros(width: u16, extent: Extent) -> Extent
    ensures { result ≡ below_zeros width extent }
{
    Extent {
        form: unsigned_form(width),
        number: None,
        still: extent.still,
        reach: bits_reach(extent),
    }
}

fn is_zero(number: Option<u64>) -> bool
    ensures { result ≡ is_zero number }
{
    match number {
        None => false,
        Some(number) => number == 0,
    }
}

/// A part beside what stands above it.
fn both_beside(above: Extent, part: Extent) -> Extent
    requires above { above.form.width ≤ 128 }
    requires part { part.form.width ≤ 128 }
    ensures { result ≡ both_beside above part }
{
    let width = above.form.width + part.form.width;
    if is_zero(above.still) {
        return below_zeros(width, part);
    }
    let reach = reach_beside(bits_reach(above), part.form.width, bits_reach(part));
    varied(reach, unsigned_form(width))
}

/// A part beside what stands above it, where both have widths that parts can have.
pub fn beside(above: Option<Extent>, part: Option<Extent>) -> Option<Extent>
    ensures { result ≡ beside above part }
{
    let Some(above) = above else {
        return None;
    };
    let Some(part) = part else {
        return None;
    };
    if above.form.width > 128 || part.form.width < 1 || part.form.width > 128 {
        return None;
    }
    Some(both_beside(above, part))
}

/// A stream of this width, where that is one.
pub fn width_form(signed: bool, width: u64) -> Option<Extent>
    ensures { result ≡ width_form signed width }
{
    if width < 1 || width > 128 {
        return None;
    }
    Some(plain(Form {
        signed,
        width: width as u16,
    }))
}

/// What is left of a stream under a declared width.
fn fitted_in(form: Form, extent: Extent) -> Extent
    requires { form.width ≤ 128 }
    ensures { result ≡ fitted_in form extent }
{
    if !fits_at(form.signed, form.width, extent.reach) {
        return plain(form);
    }
    let still = if form.signed { None } else { extent.still };
    Extent {
        form,
        number: None,
        still,
        reach: extent.reach,
    }
}

/// The same, where that is a width.
fn fitted_to(width: u64, extent: Extent) -> Option<Extent>
    ensures { result ≡ fitted_to width extent }
{
    if width < 1 || width > 128 {
        return None;
    }
    let form = Form {
        signed: extent.form.signed,
        width: width as u16,
    };
    Some(fitted_in(form, extent))
}

/// What is assigned, under the declared width where there is one.
pub fn settled_as(width: Option<u64>, extent: Option<Extent>) -> Option<Extent>
    ensures { result ≡ settled_as width extent }
{
    match width {
        None => stream_of(extent),
        Some(width) => match extent {
            None => None,
            Some(extent) => fitted_to(width, extent),
        },
    }
}

/// What is known of a recurrence of this declared width.
pub fn recurrence_of(width: Option<u64>) -> Option<Extent>
    ensures { result ≡ recurrence_of width }
{
    match width {
        None => None,
        Some(width) => width_form(false, width),
    }
}
