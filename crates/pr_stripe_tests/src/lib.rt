//! Stripes, and what machines of them are made of: configurations, plans, queues and kernels. There are tests alone in
//! this crate.
#![tactic(auto)]

#[cfg(test)]
mod configurations;
#[cfg(test)]
mod lanes;
#[cfg(test)]
mod plans;
#[cfg(test)]
mod queues;
#[cfg(test)]
mod stages;
#[cfg(test)]
mod stripes;
