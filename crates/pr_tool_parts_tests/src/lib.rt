//! Command lines, lists of programs, generated programs and samples; runs and texts of configuration files. There are tests
//! alone in this crate.
#![tactic(auto)]

#[cfg(test)]
mod executions;
#[cfg(test)]
mod generated;
#[cfg(test)]
mod lists;
#[cfg(test)]
mod orders;
#[cfg(test)]
mod run_faults;
#[cfg(test)]
mod texts;
#[cfg(test)]
mod trials;
