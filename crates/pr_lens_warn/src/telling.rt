//! What is told of a warning.

ghost use Rattle.std.specs.Prelude.{◌≡◌, ◌++◌, OnOk, decimal};
ghost use Rattle.pr_lens_warn.specs.Texts.{amount_text, answer_text, argument_text, bound_text, code_of, function_text, heading_of, indices_text, line_text, long_text, message_of, minus_text, narrow_text, parameter_text, reach_text, settled_text, side_text, sides_text, slice_text, span_text, unneeded_text, sign_text, unsigned_text, values_text, width_text, wrap_text};

use crate::remarks::{Remark, Warning};
use itoa::Buffer;
use pr_flat::Form;
use pr_lens_names::put_quoted;
use pr_lens_products::put_cheap;
use pr_lens_reach::{Bound, Extent, Reach, whole_of};
use pr_lens_source::Source;
use pr_lens_text::{line_at, put, put_counted};
use std::alloc::AllocError;

/// The word for the kind of a remark.
pub fn code_of(remark: &Remark) -> &'static [u8]
    ensures { result.now ≡ code_of remark.now }
{
    match remark {
        Remark::Negative { .. } => b"signed-constant",
        Remark::Wrapping { .. } => b"wrapping-difference",
        Remark::Unneeded => b"unneeded",
        Remark::Long { .. } => b"long-delay",
        Remark::Amount { .. } => b"constant-shift",
        Remark::Product { .. } => b"cheap-product",
        Remark::Settled { .. } => b"constant-comparison",
        Remark::Narrow { .. } => b"cut-bits",
        Remark::Argument { .. } => b"signed-constant",
    }
}

/// What stands behind the place of a remark.
pub fn heading_of(remark: &Remark) -> &'static [u8]
    ensures { result.now ≡ heading_of remark.now }
{
    match remark {
        Remark::Negative { .. } => b"warning: signed-constant\n",
        Remark::Wrapping { .. } => b"warning: wrapping-difference\n",
        Remark::Unneeded => b"warning: unneeded\n",
        Remark::Long { .. } => b"warning: long-delay\n",
        Remark::Amount { .. } => b"warning: constant-shift\n",
        Remark::Product { .. } => b"warning: cheap-product\n",
        Remark::Settled { .. } => b"warning: constant-comparison\n",
        Remark::Narrow { .. } => b"warning: cut-bits\n",
        Remark::Argument { .. } => b"warning: signed-constant\n",
    }
}

/// Tells what `signed` makes of a constant.
#[tactic(auto, unfolding(crate::specs::Texts::sign_text))]
fn put_sign(message: &mut Vec<u8>, value: u64, width: u16, below: u128) -> Result<(), AllocError>
    ensures { OnOk result (message.new.items ≡ message.old.items ++ sign_text value width below) }
{
    put(message, "This is -")?;
    put_wide(message, below)?;
    put_counted(
        message,
        ": `signed` takes the highest bit of a number as its sign, and ",
        value as usize,
    )?;
    put_counted(message, " has the width ", usize::from(width))
}

/// Tells what to write in its place.
#[tactic(auto, unfolding(crate::specs::Texts::unsigned_text))]
fn put_unsigned(message: &mut Vec<u8>, value: u64) -> Result<(), AllocError>
    ensures { OnOk result (message.new.items ≡ message.old.items ++ unsigned_text value) }
{
    put_counted(message, ".\nWrite ", value as usize)?;
    put(
        message,
        " without `signed` for the number itself, which operators take as it is. A negative one has a declared width: with `let k:8 = 252;` `signed(k)` is -4.\n",
    )
}

/// Tells what a difference of constants is.
#[tactic(auto, unfolding(crate::specs::Texts::wrap_text))]
fn put_wrap(message: &mut Vec<u8>, by: u64, width: u8, left: u64) -> Result<(), AllocError>
    ensures { OnOk result (message.new.items ≡ message.old.items ++ wrap_text by width left) }
{
    put_counted(message, "This is ", left as usize)?;
    put_counted(message, ", and not -", by as usize)?;
    put_counted(
        message,
        ": a difference of unsigned numbers wraps around, here at the width ",
        usize::from(width),
    )
}

/// Tells what to write in its place.
#[tactic(auto, unfolding(crate::specs::Texts::minus_text))]
fn put_minus(message: &mut Vec<u8>, by: u64) -> Result<(), AllocError>
    ensures { OnOk result (message.new.items ≡ message.old.items ++ minus_text by) }
{
    put_counted(message, ".\nWrite `signed(0) - ", by as usize)?;
    put(message, "` for the negative number.\n")
}

/// Tells that no result needs a name.
#[tactic(auto, unfolding(crate::specs::Texts::unneeded_text))]
fn put_unneeded(message: &mut Vec<u8>, source: &Source, token: usize) -> Result<(), AllocError>
    ensures { OnOk result (message.new.items
        ≡ message.old.items ++ unneeded_text source.now.text.now source.now.tokens.now token) }
{
    put(message, "No result needs ")?;
    put_quoted(message, source, token)?;
    put(
        message,
        ": neither an output nor what a function returns is made of it.\nTake it out, or see whether it should stand in the place of another name.\n",
    )
}

/// Tells indices.
fn put_indices(message: &mut Vec<u8>, first: u64, last: u64) -> Result<(), AllocError>
    ensures { OnOk result (message.new.items ≡ message.old.items ++ indices_text first last) }
{
    if first == last {
        return put_counted(message, " with the index ", first as usize);
    }
    put_counted(message, " with the indices ", first as usize)?;
    put_counted(message, " to ", last as usize)?;
    put(message, " in the order of assignment")
}

/// Tells that no output needs the last instances of a name.
#[tactic(auto, unfolding(crate::specs::Texts::long_text))]
fn put_long(
    message: &mut Vec<u8>,
    source: &Source,
    token: usize,
    first: u64,
    last: u64,
) -> Result<(), AllocError>
    ensures { OnOk result (message.new.items ≡ message.old.items
        ++ long_text source.now.text.now source.now.tokens.now token first last) }
{
    put(message, "No output needs ")?;
    put_quoted(message, source, token)?;
    put_indices(message, first, last)?;
    put(
        message,
        ": the delay line is longer than what the outputs need.\nLet it end before, with what reads its end, or see whether an output should read on.\n",
    )
}

/// Tells that a shift's amount is one number.
#[tactic(auto, unfolding(crate::specs::Texts::amount_text))]
fn put_amount(
    message: &mut Vec<u8>,
    source: &Source,
    token: usize,
    number: u64,
) -> Result<(), AllocError>
    ensures { OnOk result (message.new.items
        ≡ message.old.items ++ amount_text source.now.text.now source.now.tokens.now token number) }
{
    put(
        message,
        "A shift by a stream takes more units than one by a constant, and ",
    )?;
    put_quoted(message, source, token)?;
    put_counted(message, " is always ", number as usize)?;
    put(
        message,
        ".\nIntroduce it by `const`, with this number and without a width, or shift by the number.\n",
    )
}

/// Tells what one side of a comparison is.
fn put_side(message: &mut Vec<u8>, side: Extent) -> Result<(), AllocError>
    ensures { OnOk result (message.new.items ≡ message.old.items ++ side_text side) }
{
    match side.number {
        Some(number) => put_counted(message, "the number ", number as usize),
        None => {
            let width = usize::from(side.form.width);
            if side.form.signed {
                return put_counted(message, "a signed stream of width ", width);
            }
            put_counted(message, "an unsigned stream of width ", width)
        }
    }
}

fn put_answer(message: &mut Vec<u8>, answer: bool) -> Result<(), AllocError>
    ensures { OnOk result (message.new.items ≡ message.old.items ++ answer_text answer) }
{
    if answer {
        return put(message, "This is always 1: on the left is ");
    }
    put(message, "This is always 0: on the left is ")
}

/// Tells what a comparison gives, and of what.
#[tactic(auto, unfolding(crate::specs::Texts::sides_text))]
fn put_sides(
    message: &mut Vec<u8>,
    answer: bool,
    left: Extent,
    right: Extent,
) -> Result<(), AllocError>
    ensures { OnOk result (message.new.items ≡ message.old.items ++ sides_text answer left right) }
{
    put_answer(message, answer)?;
    put_side(message, left)?;
    put(message, ", and on the right ")?;
    put_side(message, right)
}

/// Tells that a comparison gives the same for all values.
#[tactic(auto, unfolding(crate::specs::Texts::settled_text))]
fn put_settled(
    message: &mut Vec<u8>,
    answer: bool,
    left: Extent,
    right: Extent,
) -> Result<(), AllocError>
    ensures { OnOk result (message.new.items ≡ message.old.items ++ settled_text answer left right) }
{
    put_sides(message, answer, left, right)?;
    put(
        message,
        ".\nCompare with a number in reach, or take the comparison out. `signed(s)` reads the highest bit of `s` as its sign.\n",
    )
}

/// Adds a number in decimal digits.
fn put_wide(message: &mut Vec<u8>, number: u128) -> Result<(), AllocError>
    ensures { OnOk result (message.new.items ≡ message.old.items ++ decimal number) }
{
    let mut buffer = Buffer::new();
    message.extend_from_slice(buffer.format(number).as_bytes())
}

/// Tells a value.
fn put_bound(message: &mut Vec<u8>, bound: Bound) -> Result<(), AllocError>
    ensures { OnOk result (message.new.items ≡ message.old.items ++ bound_text bound) }
{
    if bound.below == 0 {
        return put_wide(message, bound.above);
    }
    put(message, "-")?;
    put_wide(message, bound.below)
}

/// Tells between which values a stream stands.
fn put_span(message: &mut Vec<u8>, reach: Reach) -> Result<(), AllocError>
    ensures { OnOk result (message.new.items ≡ message.old.items ++ span_text reach) }
{
    put(message, "from ")?;
    put_bound(message, reach.least)?;
    put(message, " to ")?;
    put_bound(message, reach.greatest)
}

/// The same, where the values can be beyond 128 bits.
fn put_reach(message: &mut Vec<u8>, reach: Option<Reach>) -> Result<(), AllocError>
    ensures { OnOk result (message.new.items ≡ message.old.items ++ reach_text reach) }
{
    match reach {
        None => put(message, "beyond 128 bits"),
        Some(reach) => put_span(message, reach),
    }
}

/// Tells what values an expression has.
#[tactic(auto, unfolding(crate::specs::Texts::values_text))]
fn put_values(message: &mut Vec<u8>, reach: Option<Reach>) -> Result<(), AllocError>
    ensures { OnOk result (message.new.items ≡ message.old.items ++ values_text reach) }
{
    put(
        message,
        "By what is known of the operands, the values here go ",
    )?;
    put_reach(message, reach)?;
    put(message, ", and the width ")
}

/// Tells what values a width has.
#[tactic(auto, unfolding(crate::specs::Texts::width_text))]
fn put_width(message: &mut Vec<u8>, form: Form) -> Result<(), AllocError>
    ensures { OnOk result (message.new.items ≡ message.old.items ++ width_text form) }
{
    put_wide(message, u128::from(form.width))?;
    put(message, " holds those ")?;
    put_reach(message, whole_of(form.signed, form.width))
}

/// Tells what to write in its place.
#[tactic(auto, unfolding(crate::specs::Texts::slice_text))]
fn put_slice(message: &mut Vec<u8>, width: u16) -> Result<(), AllocError>
    ensures { OnOk result (message.new.items ≡ message.old.items ++ slice_text width) }
{
    put_counted(
        message,
        ": the bits above are cut off.\nDeclare a greater width, of at most 128. Where these bits are not wanted, a slice says so: `(..){",
        usize::from(width.saturating_sub(1)),
    )?;
    put(
        message,
        "..0}`, and `signed` of it where the stream is signed.\n",
    )
}

/// Tells that a declared width cuts bits off.
#[tactic(auto, unfolding(crate::specs::Texts::narrow_text))]
fn put_narrow(message: &mut Vec<u8>, form: Form, reach: Option<Reach>) -> Result<(), AllocError>
    ensures { OnOk result (message.new.items ≡ message.old.items ++ narrow_text form reach) }
{
    put_values(message, reach)?;
    put_width(message, form)?;
    put_slice(message, form.width)
}

/// Tells which argument is which number.
#[tactic(auto, unfolding(crate::specs::Texts::argument_text))]
fn put_argument(
    message: &mut Vec<u8>,
    argument: u64,
    number: u64,
    width: u16,
) -> Result<(), AllocError>
    ensures { OnOk result (message.new.items ≡ message.old.items ++ argument_text argument number width) }
{
    put(message, "Argument ")?;
    put_wide(message, u128::from(argument) + 1)?;
    put_counted(message, " is ", number as usize)?;
    put_counted(message, ", which has the width ", usize::from(width))
}

/// Tells the line of a token.
#[tactic(auto, unfolding(crate::specs::Texts::line_text, pr_lens_names::specs::Pieces::line_of))]
fn put_line(message: &mut Vec<u8>, source: &Source, token: usize) -> Result<(), AllocError>
    ensures { OnOk result (message.new.items
        ≡ message.old.items ++ line_text source.now.text.now source.now.tokens.now token) }
{
    let line = line_at(source.text, source.start(token));
    put_counted(message, " of line ", line.number)
}

/// Tells which function reads it.
#[tactic(auto, unfolding(crate::specs::Texts::function_text))]
fn put_function(
    message: &mut Vec<u8>,
    source: &Source,
    token: usize,
    function: usize,
) -> Result<(), AllocError>
    ensures { OnOk result (message.new.items ≡ message.old.items
        ++ function_text source.now.text.now source.now.tokens.now token function) }
{
    put(message, ". ")?;
    put_quoted(message, source, token)?;
    put_line(message, source, function)?;
    put(message, " reads it by `signed`, ")
}

/// Tells what it is there, and what to do.
#[tactic(auto, unfolding(crate::specs::Texts::parameter_text))]
fn put_parameter(message: &mut Vec<u8>, below: u128) -> Result<(), AllocError>
    ensures { OnOk result (message.new.items ≡ message.old.items ++ parameter_text below) }
{
    put(message, "so it is -")?;
    put_wide(message, below)?;
    put(
        message,
        " there.\nDeclare a width for the parameter, as in `k:8`: the highest bit of this width is the sign.\n",
    )
}

/// Tells what is wrong, and what to do.
pub fn put_message(
    message: &mut Vec<u8>,
    source: &Source,
    warning: &Warning,
) -> Result<(), AllocError>
    ensures { OnOk result (message.new.items
        ≡ message.old.items ++ message_of source.now.text.now source.now.tokens.now warning.now) }
{
    match warning.remark {
        Remark::Negative {
            value,
            width,
            below,
        } => {
            put_sign(message, value, width, below)?;
            put_unsigned(message, value)
        }
        Remark::Wrapping { by, width, left } => {
            put_wrap(message, by, width, left)?;
            put_minus(message, by)
        }
        Remark::Unneeded => put_unneeded(message, source, warning.first),
        Remark::Long { first, last } => put_long(message, source, warning.first, first, last),
        Remark::Amount { number } => put_amount(message, source, warning.first, number),
        Remark::Product { cheap } => put_cheap(message, source, &cheap),
        Remark::Settled {
            answer,
            left,
            right,
        } => put_settled(message, answer, left, right),
        Remark::Narrow { form, reach } => put_narrow(message, form, reach),
        Remark::Argument {
            argument,
            number,
            width,
            below,
            function,
        } => {
            put_argument(message, argument, number, width)?;
            put_function(message, source, warning.first, function)?;
            put_parameter(message, below)
        }
    }
}
