//! Calls of the companion: refused programs with their explanations, warnings, costs, logs and answers, all counted and
//! chosen by hand. There are tests alone in this crate.
#![tactic(auto)]

#[cfg(test)]
mod answers;
#[cfg(test)]
mod benches;
#[cfg(test)]
mod calls;
#[cfg(test)]
mod comparisons;
#[cfg(test)]
mod constants;
#[cfg(test)]
mod costs;
#[cfg(test)]
mod cuts;
#[cfg(test)]
mod fits;
#[cfg(test)]
mod json;
#[cfg(test)]
mod logs;
#[cfg(test)]
mod modules;
#[cfg(test)]
mod names;
#[cfg(test)]
mod products;
#[cfg(test)]
mod scope;
#[cfg(test)]
mod shown;
#[cfg(test)]
mod streams;
#[cfg(test)]
mod syntax;
#[cfg(test)]
mod warnings;
#[cfg(test)]
mod widths;
