//! A text that is looked at: its tokens and their kinds, where its items stand, and where its names are introduced.
#![tactic(auto)]

mod introduced;
mod kinds;
mod sources;

pub use introduced::introduced_before;
pub use kinds::{
    assigns, begins_sum, binds_closer, goes_on, is_assign, is_assigning, is_at, is_by,
    is_close_round, is_close_square, is_colon, is_comma, is_comparison, is_const, is_fn, is_for,
    is_input, is_let, is_minus, is_name, is_number, is_open_round, is_open_square, is_rec, is_semi,
    is_shift, is_star, yields,
};
pub use sources::{Source, Span, counted, depth_after, spans_of};
