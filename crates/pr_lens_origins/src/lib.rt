//! Where the units of a net come from: which stream of the program each is made for, and where its name stands in the text.
//!
//! In `let a = x * x + 1; let b = a + x;` on a line of its own, the units of the product and of the first sum are made for
//! `a`, in column 5, and those of the second sum for `b`, in column 24. All turns of a loop have the names in its body.
#![tactic(auto)]

mod laws;
mod names;
mod numbers;
mod spots;
mod streams;
mod texts;
mod walks;

pub use laws::{numbers_law, places_law};
pub use spots::{Spot, spots_of};
pub use streams::{Origins, Stream, origins_of, spot_at};
pub use texts::put_stream;
