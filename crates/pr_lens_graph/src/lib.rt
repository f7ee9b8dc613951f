//! The units of a program, the stages in which they stand, the streams that they are made for, and all as a text for
//! Graphviz.
#![tactic(auto)]

mod graphs;
mod layouts;
mod naming;
mod stages;
mod wires;

pub use graphs::graph;
pub use layouts::{Layout, Placed, layout_front, layout_of};
pub use naming::Names;
