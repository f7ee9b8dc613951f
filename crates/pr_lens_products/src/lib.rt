//! Products by a constant that can be made with fewer units, by a few shifts or by their factors in the other order.
//!
//! With `input x:8;` the product `x * 255` takes 8 units, and `((x << 8) - x)` takes 1. The product `11 * x` takes 8 units,
//! and `x * 11` takes 4: a unit at least for each bit of the second factor.
#![tactic(auto)]

mod bits;
mod factors;
mod kinds;
mod products;
mod shifts;
mod telling;
mod units;

pub use factors::is_product;
pub use products::{CheapProduct, Part, cheap_product};
pub use shifts::Shifts;
pub use telling::put_cheap;
pub use units::{Cheaper, Product, Way, cheaper_product};
