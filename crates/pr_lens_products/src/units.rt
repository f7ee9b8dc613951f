//! The units of products by a constant, and of the shifts that make them.

ghost use Rattle.std.specs.Prelude.{◌≡◌, ◌≤◌, ◌<◌, IfSome};
ghost use Rattle.pr_flat.specs.Rows.{natural_width};
ghost use Rattle.pr_flat.specs.declared.equations.Op.{Op};
ghost use Rattle.pr_flat.specs.Forms.{number_width};
ghost use Rattle.pr_lens_products.specs.Shifts.{AreFew, number_of};
ghost use Rattle.pr_lens_products.specs.Units.{Makes, by_shifts, by_swap, cheaper_by, cheaper_of, factors, fewer, natural_one, natural_two, product_units, shift_units, shifts_units, swapped};

use crate::shifts::{Shifts, shifts_of};
use pr_cutmul::{chain_count, product_count, slice_count};
use pr_flat_ops::number_width;

/// A product of an unsigned stream and a number.
#[derive(Clone, Copy, PartialEq, Eq, Debug)]
pub struct Product {
    /// The width of the stream.
    pub width: u16,
    /// The number.
    pub number: u64,
    /// The number is the first factor.
    pub reversed: bool,
}

/// How else a product is made.
#[derive(Clone, Copy, PartialEq, Eq, Debug)]
pub enum Way {
    /// By shifts.
    Shifted { shifts: Shifts },
    /// The factors change places.
    Swapped,
}

/// Another way to make a product, with fewer units.
#[derive(Clone, Copy, PartialEq, Eq, Debug)]
pub struct Cheaper {
    /// The units of the product.
    pub product: u32,
    /// Those of the other way.
    pub units: u32,
    /// The other way.
    pub way: Way,
}

/// The unit of a shift by a constant; none by whole bytes.
#[tactic(auto, using(crate::proofs::UnitLemmas::shift_natural))]
fn shift_units(width: u16, by: u8) -> u32
    ensures is { result ≡ shift_units width by }
    ensures few { result ≤ 1 }
{
    u32::from(by % 8 != 0)
}

/// The units of a sum.
#[tactic(auto, using(crate::proofs::UnitLemmas::sum_natural))]
fn sum_units(one: u16, other: u16) -> u32
    requires one { one ≤ 1000 }
    requires other { other ≤ 1000 }
    ensures is { result ≡ natural_two Op.Add one other }
    ensures few { result ≤ 1000 }
{
    chain_count(slice_count(one.max(other) + 1))
}

/// The units of a difference.
#[tactic(auto, using(crate::proofs::UnitLemmas::difference_natural))]
fn difference_units(one: u16, other: u16) -> u32
    requires one { one ≤ 1000 }
    requires other { other ≤ 1000 }
    ensures is { result ≡ natural_two Op.Sub one other }
    ensures few { result ≤ 1000 }
{
    chain_count(slice_count(one.max(other)))
}

/// The units of a product of two unsigned streams.
#[tactic(auto, using(crate::proofs::UnitLemmas::product_natural))]
fn factors_units(one: u16, other: u16) -> u32
    requires one { one ≤ 128 }
    requires other { other ≤ 128 }
    ensures { result ≡ natural_two Op.Mul one other }
{
    product_count(one + other, one, other)
}

/// The units of a product by a number.
fn product_units(product: Product) -> u32
    requires { product.width ≤ 128 }
    ensures { result ≡ product_units product }
{
    let width = u16::from(number_width(product.number).get());
    if product.reversed {
        factors_units(width, product.width)
    } else {
        factors_units(product.width, width)
    }
}

/// The units of shifts of a stream.
fn shifts_units(width: u16, shifts: Shifts) -> u32
    requires width { width ≤ 128 }
    requires few { AreFew shifts }
    ensures { result ≡ shifts_units width shifts }
{
    match shifts {
        Shifts::One { by } => shift_units(width, by),
        Shifts::Sum { by, and } => {
            let sum = sum_units(width + u16::from(by), width + u16::from(and));
            shift_units(width, by) + shift_units(width, and) + sum
        }
        Shifts::Difference { by, less } => {
            let difference = difference_units(width + u16::from(by), width + u16::from(less));
            shift_units(width, by) + shift_units(width, less) + difference
        }
    }
}

/// This way with so many units, where the product takes more.
fn cheaper_by(product: Product, units: u32, way: Way) -> Option<Cheaper>
    requires width { product.width ≤ 128 }
    ensures is { result ≡ cheaper_by product units way }
    ensures this { IfSome result (λ c. c.way ≡ way) }
    ensures fewer { IfSome result (λ c. c.units < c.product) }
{
    let whole = product_units(product);
    if units < whole {
        return Some(Cheaper {
            product: whole,
            units,
            way,
        });
    }
    None
}

/// The same factors in the other order. Their product is as wide.
#[tactic(auto, using(crate::proofs::UnitLemmas::swapped_natural))]
fn swapped(product: Product) -> Product
    ensures is { result ≡ swapped product }
    ensures wide { natural_width Op.Mul (factors result) ≡ natural_width Op.Mul (factors product) }
{
    Product {
        width: product.width,
        number: product.number,
        reversed: !product.reversed,
    }
}

/// The factors in the other order, where they make a product with fewer units.
fn by_swap(product: Product) -> Option<Cheaper>
    requires width { product.width ≤ 128 }
    ensures is { result ≡ by_swap product }
    ensures makes { IfSome result (λ c. Makes product.number c.way) }
    ensures fewer { IfSome result (λ c. c.units < c.product) }
{
    cheaper_by(product, product_units(swapped(product)), Way::Swapped)
}

/// The shifts that make a product with fewer units: one, or a sum or a difference of two.
fn by_shifts(product: Product) -> Option<Cheaper>
    requires width { product.width ≤ 128 }
    ensures is { result ≡ by_shifts product }
    ensures makes { IfSome result (λ c. Makes product.number c.way) }
    ensures fewer { IfSome result (λ c. c.units < c.product) }
{
    match shifts_of(product.number) {
        None => None,
        Some(shifts) => {
            let units = shifts_units(product.width, shifts);
            cheaper_by(product, units, Way::Shifted { shifts })
        }
    }
}

/// The way with fewer units; of two with as many the first one.
fn fewer(one: Option<Cheaper>, other: Option<Cheaper>) -> Option<Cheaper>
    ensures { result ≡ fewer one other }
{
    let Some(first) = one else {
        return other;
    };
    let Some(second) = other else {
        return one;
    };
    if second.units < first.units {
        return other;
    }
    one
}

/// The way to make a product with fewer units: its factors in the other order, or one shift, or a sum or a difference of
/// two; none where there is no such.
pub fn cheaper_product(product: Product) -> Option<Cheaper>
    requires { product.width ≤ 128 }
    ensures is { result ≡ cheaper_of product }
    ensures makes { IfSome result (λ c. Makes product.number c.way) }
    ensures fewer { IfSome result (λ c. c.units < c.product) }
{
    fewer(by_swap(product), by_shifts(product))
}
