//! What is known of a stream, and what operators make of it: its kind and width, and between which values it stands.
//!
//! Of an `x` of 8 bits, `x + x` has 9 bits and stands between 0 and 510, and `x + 3` between 3 and 258. The values of each
//! operand are taken for themselves: `x * x + x` is not looked at as one expression of one `x`.
#![tactic(auto)]

mod extents;
mod reaches;

pub use extents::{
    Extent, beside, binary_of, choice_of, constant, no_parts, not_of, number_of, past_of,
    recurrence_of, settled_as, signed_extent, signed_of, slice_of, stream_of, width_form,
};
pub use reaches::{Bound, Reach, fits_at, greatest_of, whole_of};
