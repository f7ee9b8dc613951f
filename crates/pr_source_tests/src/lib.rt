//! Programs, and what they make of samples. There are tests alone in this crate.
#![tactic(auto)]

#[cfg(test)]
mod tests;
