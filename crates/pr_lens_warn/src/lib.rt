//! What a careful reader points out in a program that is accepted all the same.
//!
//! What is pointed out is decided on the tokens of the text and its names, of products by what `pr_lens_products`
//! counts, of comparisons and declared widths by what `pr_lens_extents` knows of expressions, and of delay lines by
//! what `pr_lens_waste` knows of the instances of names.
#![tactic(auto)]

mod comparisons;
mod constants;
mod findings;
mod lines;
mod needs;
mod remarks;
mod shifts;
mod telling;
mod warnings;

pub use findings::put_warnings;
pub use remarks::{Remark, Warning};
pub use warnings::warnings_of;
