//! Products in a text that can be made with fewer units.

ghost use Rattle.std.specs.Prelude.{◌≡◌, ◌<◌, ◌≤◌, IfSome, length};
ghost use Rattle.std.specs.Option.{option_and_then};
ghost use Rattle.pr_lens_products.specs.Products.{cheap_at, cheap_product, product_of, stream_before, stream_behind};
ghost use Rattle.pr_lens_products.specs.Units.{cheaper_of};

use crate::factors::{left_of, right_of, width_at};
use crate::units::{Cheaper, Product, cheaper_product};
use pr_lens_names::constant_at;
use pr_lens_source::Source;

/// Tokens beside one another.
#[derive(Clone, Copy, PartialEq, Eq, Debug)]
pub struct Part {
    /// The number of the first one.
    pub first: usize,
    /// That of the one behind the last.
    pub end: usize,
}

/// A product in a text that can be made with fewer units.
#[derive(Clone, Copy, PartialEq, Eq, Debug)]
pub struct CheapProduct {
    /// The factor before its sign.
    pub before: Part,
    /// The factor behind it.
    pub behind: Part,
    /// Whether the factor before its sign is the number.
    pub reversed: bool,
    /// The other way, and the units of both.
    pub cheaper: Cheaper,
}

/// The product of a sign, of which the factor before it is the number or is not.
fn cheap_at(source: &Source, at: usize, reversed: bool, cheaper: Cheaper) -> CheapProduct
    requires { at < length source.now.tokens.now }
    ensures { result ≡ cheap_at source.now.tokens.now at reversed cheaper }
{
    CheapProduct {
        before: Part {
            first: left_of(source, at),
            end: at,
        },
        behind: Part {
            first: at + 1,
            end: right_of(source, at) + 1,
        },
        reversed,
        cheaper,
    }
}

/// A product of a stream of this width and a number.
fn product_of(reversed: bool, width: Option<u16>, number: Option<u64>) -> Option<Product>
    requires { IfSome width (λ width. width ≤ 128) }
    ensures product { result ≡ product_of reversed width number }
    ensures most { IfSome result (λ p. p.width ≤ 128) }
{
    match width {
        None => None,
        Some(width) => match number {
            None => None,
            Some(number) => Some(Product {
                width,
                number,
                reversed,
            }),
        },
    }
}

/// The way to make a product with fewer units.
fn cheaper_in(product: Option<Product>) -> Option<Cheaper>
    requires { IfSome product (λ p. p.width ≤ 128) }
    ensures { result ≡ option_and_then cheaper_of product }
{
    match product {
        None => None,
        Some(product) => cheaper_product(product),
    }
}

/// The product of a sign where the stream stands before it, and the constant behind it.
fn stream_before(source: &Source, at: usize) -> Option<CheapProduct>
    requires { at < length source.now.tokens.now }
    ensures { let source = source.now in result
        ≡ stream_before source.text.now source.tokens.now source.spans.now at }
{
    let width = width_at(source, left_of(source, at));
    let product = product_of(false, width, constant_at(source, at + 1));
    match cheaper_in(product) {
        None => None,
        Some(cheaper) => Some(cheap_at(source, at, false, cheaper)),
    }
}

/// The product of a sign where the constant stands before it, and the stream behind it.
fn stream_behind(source: &Source, at: usize) -> Option<CheapProduct>
    requires { at < length source.now.tokens.now }
    ensures { let source = source.now in result
        ≡ stream_behind source.text.now source.tokens.now source.spans.now at }
{
    let number = constant_at(source, left_of(source, at));
    let product = product_of(true, width_at(source, at + 1), number);
    match cheaper_in(product) {
        None => None,
        Some(cheaper) => Some(cheap_at(source, at, true, cheaper)),
    }
}

/// The product of the sign at a token, where it can be made with fewer units. It is a product of a constant and an input
/// or a recurrence of declared width.
pub fn cheap_product(source: &Source, at: usize) -> Option<CheapProduct>
    requires { at < length source.now.tokens.now }
    ensures { let source = source.now in result
        ≡ cheap_product source.text.now source.tokens.now source.spans.now at }
{
    match stream_before(source, at) {
        Some(cheap) => Some(cheap),
        None => stream_behind(source, at),
    }
}
