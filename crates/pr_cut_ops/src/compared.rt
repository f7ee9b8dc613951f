//! Operators that widen their operands.

ghost use Rattle.std.specs.Prelude.{ℕ, ◌≡◌, ◌≤◌, ◌<◌, ◌+◌, ◌^◌, List, length, OnOk, IfOk};
ghost use Rattle.std.specs.Cow.{cow_slice_items};
ghost use Rattle.pr_flat.specs.Forms.{signed_width};
ghost use Rattle.pr_net.specs.declared.cells.Slice.{Slice};
ghost use Rattle.pr_cut_units.specs.Parts.{Making, units_after, slices_after};
ghost use Rattle.pr_cut_units.specs.Operators.{bitwise, chosen, added, subtracted, difference_sign, is_any_signed, signed_less, less, greater_equal, compared_width, equal_at, equal};
ghost use Rattle.pr_cut_units.specs.Products.{product};
ghost use Rattle.pr_cut_units.specs.Widening.{widened};
ghost use Rattle.pr_cut_units.specs.Table.{factor_width, multiplied};
ghost use Rattle.pr_cut_cells.specs.Arguments.{argument_of, both_at};
ghost use Rattle.pr_cut_ops.specs.Makes.{Makes};

use crate::operators::{bitwise, chosen};
use crate::sums::{added, carried_equal, carried_less, sign_unit, subtracted};
use pr_cut_cells::{Argument, widened};
use pr_cutmul::{Factors, product};
use pr_net::{Slice, Unit};
use std::alloc::{AllocError, Global};
use std::borrow::CowSlice;

/// Two operands at one width.
#[derive(Drop)]
pub struct Pair<'a> {
    pub a: CowSlice<'a, Slice, Global>,
    pub b: CowSlice<'a, Slice, Global>,
}

/// An operand at `t` bits: the slices that it has, where it is not made wider.
fn at_width<'a>(
    alloc: Global,
    units: &mut Vec<Unit>,
    t: u8,
    a: &'a Argument<'a>,
) -> Result<CowSlice<'a, Slice, Global>, AllocError>
    requires fits { length units.old.items < 2 ^ 32 }
    ensures grows { OnOk result (length units.new.items ≤ length units.old.items + 1) }
    ensures units { OnOk result (units.new.items ≡ units_after units.old.items (widened (argument_of a.now) t)) }
    ensures slices { IfOk result (λ s. cow_slice_items s ≡
        slices_after units.old.items (widened (argument_of a.now) t)) }
{
    if a.signed && a.width < t {
        let made = widened(alloc, units, &a.slices, a.signed, a.width, t)?;
        return Ok(CowSlice::Owned(made));
    }
    Ok(CowSlice::Borrowed(&a.slices))
}

/// Both operands at `t` bits, first the first.
pub fn both_widened<'a>(
    alloc: Global,
    units: &mut Vec<Unit>,
    t: u8,
    a: &'a Argument<'a>,
    b: &'a Argument<'a>,
) -> Result<Pair<'a>, AllocError>
    requires fits { length units.old.items + 2 < 2 ^ 32 }
    ensures grows { OnOk result (length units.new.items ≤ length units.old.items + 2) }
    ensures units { IfOk result (λ p. (making : List Slice → List Slice → Making) →
        units_after units.new.items (making (cow_slice_items p.a) (cow_slice_items p.b)) ≡
        units_after units.old.items (both_at t a.now b.now making)) }
    ensures slices { IfOk result (λ p. (making : List Slice → List Slice → Making) →
        slices_after units.new.items (making (cow_slice_items p.a) (cow_slice_items p.b)) ≡
        slices_after units.old.items (both_at t a.now b.now making)) }
{
    let x = at_width(alloc, units, t, a)?;
    let y = at_width(alloc, units, t, b)?;
    Ok(Pair { a: x, b: y })
}

/// Whether one of two operands is signed.
pub fn is_any_signed(a: &Argument, b: &Argument) -> bool
    ensures { result ≡ is_any_signed (argument_of a.now) (argument_of b.now) }
{
    a.signed || b.signed
}

/// The width of an operand among signed ones.
pub fn signed_width(a: &Argument) -> u8
    ensures width { result ≡ signed_width (argument_of a.now).form }
    ensures few { result ≤ 129 }
{
    if a.signed { a.width } else { a.width + 1 }
}

/// The width at which operands are compared.
pub fn compared_width(a: &Argument, b: &Argument) -> u8
    ensures width { result ≡ compared_width (argument_of a.now) (argument_of b.now) }
    ensures few { result ≤ 129 }
{
    if is_any_signed(a, b) {
        signed_width(a).max(signed_width(b))
    } else {
        a.width.max(b.width)
    }
}

/// Bit `m` of a difference, or its inverse.
fn sign_of_difference(
    alloc: Global,
    units: &mut Vec<Unit>,
    m: u8,
    table: u8,
    x: &[Slice],
    y: &[Slice],
) -> Result<Vec<Slice>, AllocError>
    requires few { m ≤ 129 }
    requires fits { length units.old.items + 48 < 2 ^ 32 }
    ensures { Makes 48 (difference_sign m table x.now y.now) units.old units.new result }
{
    let difference = subtracted(alloc, units, m + 1, x, y)?;
    sign_unit(alloc, units, m, table, &difference)
}

/// And, Or and Xor.
pub fn both_bitwise(
    alloc: Global,
    units: &mut Vec<Unit>,
    e: u8,
    table: u8,
    a: &Argument,
    b: &Argument,
) -> Result<Vec<Slice>, AllocError>
    requires fits { length units.old.items + 3 < 2 ^ 32 }
    ensures { Makes 3 (both_at e a.now b.now (bitwise e table)) units.old units.new result }
{
    let both = both_widened(alloc, units, e, a, b)?;
    bitwise(alloc, units, e, table, &both.a, &both.b)
}

/// Add.
pub fn both_added(
    alloc: Global,
    units: &mut Vec<Unit>,
    e: u8,
    a: &Argument,
    b: &Argument,
) -> Result<Vec<Slice>, AllocError>
    requires fits { length units.old.items + 50 < 2 ^ 32 }
    ensures { Makes 50 (both_at e a.now b.now (added e)) units.old units.new result }
{
    let both = both_widened(alloc, units, e, a, b)?;
    added(alloc, units, e, &both.a, &both.b)
}

/// Sub.
pub fn both_subtracted(
    alloc: Global,
    units: &mut Vec<Unit>,
    e: u8,
    a: &Argument,
    b: &Argument,
) -> Result<Vec<Slice>, AllocError>
    requires fits { length units.old.items + 50 < 2 ^ 32 }
    ensures { Makes 50 (both_at e a.now b.now (subtracted e)) units.old units.new result }
{
    let both = both_widened(alloc, units, e, a, b)?;
    subtracted(alloc, units, e, &both.a, &both.b)
}

/// Choose, by the lowest bit of `c`.
pub fn both_chosen(
    alloc: Global,
    units: &mut Vec<Unit>,
    e: u8,
    c: &[Slice],
    a: &Argument,
    b: &Argument,
) -> Result<Vec<Slice>, AllocError>
    requires fits { length units.old.items + 3 < 2 ^ 32 }
    ensures { Makes 3 (both_at e a.now b.now (chosen e c.now)) units.old units.new result }
{
    let both = both_widened(alloc, units, e, a, b)?;
    chosen(alloc, units, e, c, &both.a, &both.b)
}

/// The product of factors that the rows see at these widths.
fn both_multiplied(
    alloc: Global,
    units: &mut Vec<Unit>,
    e: u8,
    widths: (u8, u8),
    a: &Argument,
    b: &Argument,
) -> Result<Vec<Slice>, AllocError>
    requires fits { length units.old.items + 20000 < 2 ^ 32 }
    ensures { Makes 20000 (both_at e a.now b.now (λ x y. product e x widths.0 y widths.1)) units.old units.new result }
{
    let both = both_widened(alloc, units, e, a, b)?;
    let factors = Factors {
        a: &both.a,
        wa: widths.0,
        b: &both.b,
        wb: widths.1,
    };
    product(alloc, units, &factors, e)
}

/// The sign of a difference of `m + 1` bits.
fn both_signed_less(
    alloc: Global,
    units: &mut Vec<Unit>,
    m: u8,
    table: u8,
    a: &Argument,
    b: &Argument,
) -> Result<Vec<Slice>, AllocError>
    requires few { m ≤ 129 }
    requires fits { length units.old.items + 60 < 2 ^ 32 }
    ensures { Makes 60 (both_at (m + 1) a.now b.now (difference_sign m table)) units.old units.new result }
{
    let both = both_widened(alloc, units, m + 1, a, b)?;
    sign_of_difference(alloc, units, m, table, &both.a, &both.b)
}

/// A comparison at `m` bits.
fn both_equal(
    alloc: Global,
    units: &mut Vec<Unit>,
    m: u8,
    closing: u8,
    a: &Argument,
    b: &Argument,
) -> Result<Vec<Slice>, AllocError>
    requires fits { length units.old.items + 60 < 2 ^ 32 }
    ensures { Makes 60 (both_at m a.now b.now (equal_at m closing)) units.old units.new result }
{
    let both = both_widened(alloc, units, m, a, b)?;
    carried_equal(alloc, units, m, closing, &both.a, &both.b)
}

/// Mul.
pub fn multiplied(
    alloc: Global,
    units: &mut Vec<Unit>,
    e: u8,
    a: &Argument,
    b: &Argument,
) -> Result<Vec<Slice>, AllocError>
    requires fits { length units.old.items + 20000 < 2 ^ 32 }
    ensures { Makes 20000 (multiplied e (argument_of a.now) (argument_of b.now)) units.old units.new result }
{
    let any = is_any_signed(a, b);
    let wa = factor_width(any, e, a);
    let wb = factor_width(any, e, b);
    both_multiplied(alloc, units, e, (wa, wb), a, b)
}

/// Less and GreaterEqual where one operand is signed, by their tables.
fn signed_less(
    alloc: Global,
    units: &mut Vec<Unit>,
    table: u8,
    a: &Argument,
    b: &Argument,
) -> Result<Vec<Slice>, AllocError>
    requires fits { length units.old.items + 60 < 2 ^ 32 }
    ensures { Makes 60 (signed_less table (argument_of a.now) (argument_of b.now)) units.old units.new result }
{
    let m = signed_width(a).max(signed_width(b));
    both_signed_less(alloc, units, m, table, a, b)
}

/// Equal and NotEqual, by their closing tables.
pub fn equal(
    alloc: Global,
    units: &mut Vec<Unit>,
    closing: u8,
    a: &Argument,
    b: &Argument,
) -> Result<Vec<Slice>, AllocError>
    requires fits { length units.old.items + 60 < 2 ^ 32 }
    ensures { Makes 60 (equal closing (argument_of a.now) (argument_of b.now)) units.old units.new result }
{
    let m = compared_width(a, b);
    both_equal(alloc, units, m, closing, a, b)
}

/// The width of a factor as the rows see it.
fn factor_width(any: bool, e: u8, a: &Argument) -> u8
    ensures { result ≡ factor_width any e (argument_of a.now).form }
{
    if any {
        e.max(signed_width(a)).min(128)
    } else {
        a.width
    }
}

/// Less.
pub fn less(
    alloc: Global,
    units: &mut Vec<Unit>,
    a: &Argument,
    b: &Argument,
) -> Result<Vec<Slice>, AllocError>
    requires fits { length units.old.items + 60 < 2 ^ 32 }
    ensures { Makes 60 (less (argument_of a.now) (argument_of b.now)) units.old units.new result }
{
    if is_any_signed(a, b) {
        return signed_less(alloc, units, 0xf0, a, b);
    }
    carried_less(
        alloc,
        units,
        a.width.max(b.width),
        0x0f,
        &a.slices,
        &b.slices,
    )
}

/// GreaterEqual.
pub fn greater_equal(
    alloc: Global,
    units: &mut Vec<Unit>,
    a: &Argument,
    b: &Argument,
) -> Result<Vec<Slice>, AllocError>
    requires fits { length units.old.items + 60 < 2 ^ 32 }
    ensures { Makes 60 (greater_equal (argument_of a.now) (argument_of b.now)) units.old units.new result }
{
    if is_any_signed(a, b) {
        return signed_less(alloc, units, 0x0f, a, b);
    }
    carried_less(
        alloc,
        units,
        a.width.max(b.width),
        0xf0,
        &a.slices,
        &b.slices,
    )
}
