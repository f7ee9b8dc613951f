//! What a program costs: equations, units and stages, the streams that take most units, and how long its runs take.
#![tactic(auto)]

mod amounts;
mod costs;
mod counts;
mod cycles;
mod objects;
mod streams;
mod tables;

pub use amounts::Cost;
pub use costs::cost_of;
pub use counts::StageCost;
pub use cycles::{Rate, Row, rate_law, rows_of};
pub use objects::{Setting, cost_as};
pub use tables::Savings;
