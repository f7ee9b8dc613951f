//! Programs that take turns.

use pr_machine::Parked;
use pr_samples::{Feed, Got};

/// A program that takes turns.
#[derive(Drop)]
pub struct ShareItem<const N: usize, const P: usize> {
    /// The configuration, while another program has the machine.
    pub parked: Option<Parked<N, P>>,
    /// The samples.
    pub feed: Feed,
    /// The greatest number of samples of a turn, 1 at least.
    pub quota: u32,
    /// How the samples ended, once they have.
    pub ended: Option<Got>,
}
