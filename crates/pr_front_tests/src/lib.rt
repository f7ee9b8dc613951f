//! Texts of programs, and what the front of the compiler makes of each: trees, refusals by rule, equations, widths, names of
//! streams; and operators on numbers. There are tests alone in this crate.
#![tactic(auto)]

#[cfg(test)]
mod accepted;
#[cfg(test)]
mod equations;
#[cfg(test)]
mod expansions;
#[cfg(test)]
mod instances;
#[cfg(test)]
mod names;
#[cfg(test)]
mod nesting;
#[cfg(test)]
mod operators;
#[cfg(test)]
mod places;
#[cfg(test)]
mod reading;
#[cfg(test)]
mod refused;
#[cfg(test)]
mod rules;
