//! Files and streams, the samples that are read from files, and the lines of results that go to streams. There are tests alone
//! in this crate.
#![tactic(auto)]

#[cfg(test)]
mod bounds;
#[cfg(test)]
mod feeds;
#[cfg(test)]
mod interrupted;
#[cfg(test)]
mod lines;
#[cfg(test)]
mod memory;
#[cfg(test)]
mod results;
#[cfg(test)]
mod slow;
#[cfg(test)]
mod stalls;
#[cfg(test)]
mod system;
#[cfg(test)]
mod told;
