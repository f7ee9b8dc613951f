//! Calls of the tool over files in memory: words, answers, results and notes.
#![tactic(auto)]

#[cfg(test)]
mod benches;
#[cfg(test)]
mod calls;
#[cfg(test)]
mod examples;
#[cfg(test)]
mod faults;
#[cfg(test)]
mod files;
#[cfg(test)]
mod generated;
#[cfg(test)]
mod limits;
#[cfg(test)]
mod moves;
#[cfg(test)]
mod shares;
#[cfg(test)]
mod streams;
