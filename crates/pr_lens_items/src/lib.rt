//! The points of an item at which it can be refused, each with the token at which a reader looks for it, and copies of
//! items that are cut off at a point.
//!
//! A point is a part of an expression: a number, a name, an operator with its operands. Points stand in the order in
//! which an item is walked, a part before the whole. Beside them an item has frames, one for each statement: the names
//! that it introduces, its declared widths, and the points of its constant expressions.
//!
//! A cut item is a lawful tree whatever it is cut off at. It keeps what is walked before the point and nothing behind
//! it: of a part that is not reached a 0 is left, and of a whole of which some parts are reached those parts.
#![tactic(auto)]

mod cut_expressions;
mod cut_fixed;
mod cut_items;
mod cut_statements;
mod cuts;
mod laws;
mod point_expressions;
mod point_items;
mod point_statements;
mod points;

pub use cut_items::cut_item;
pub use cuts::Cut;
pub use laws::{points_law, whole_law};
pub use point_items::points_of;
pub use points::{Frame, Points};
