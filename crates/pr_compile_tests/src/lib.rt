//! Texts of programs, with their units, nets, placements, stages and files, or with their refusals. There are tests alone in
//! this crate.
#![tactic(auto)]

#[cfg(test)]
mod elements;
#[cfg(test)]
mod files;
#[cfg(test)]
mod narrowed;
#[cfg(test)]
mod nets;
#[cfg(test)]
mod operators;
#[cfg(test)]
mod placing;
#[cfg(test)]
mod routed;
#[cfg(test)]
mod routing;
#[cfg(test)]
mod rows;
#[cfg(test)]
mod shown;
#[cfg(test)]
mod stages;
#[cfg(test)]
mod sums;
#[cfg(test)]
mod table;
#[cfg(test)]
mod texts;
#[cfg(test)]
mod through;
