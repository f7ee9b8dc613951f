//! Whole machines and whole runs against worked examples, the lines of their logs, and programs that take turns. There are
//! tests alone in this crate.
#![tactic(auto)]

#[cfg(test)]
mod configurations;
#[cfg(test)]
mod fabrics;
#[cfg(test)]
mod faults;
#[cfg(test)]
mod held;
#[cfg(test)]
mod largest;
#[cfg(test)]
mod log;
#[cfg(test)]
mod machine_examples;
#[cfg(test)]
mod machine_trials;
#[cfg(test)]
mod parking;
#[cfg(test)]
mod runs;
#[cfg(test)]
mod shares;
#[cfg(test)]
mod stripes;
#[cfg(test)]
mod trials;
