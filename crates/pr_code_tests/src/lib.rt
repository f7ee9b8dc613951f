//! Configuration files and checkpoints word by word, and their summaries. There are tests alone in this crate.
#![tactic(auto)]

#[cfg(test)]
mod damaged;
#[cfg(test)]
mod files;
#[cfg(test)]
mod read_again;
#[cfg(test)]
mod summaries;
