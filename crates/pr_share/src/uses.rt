//! What a turn has used.

use pr_samples::Got;

/// What a turn has used of its quota: the samples read, the feed's last answer, and whether no further sample is read.
#[derive(Clone, Copy)]
pub struct Use {
    pub(crate) count: u32,
    pub(crate) last: Got,
    pub(crate) ended: bool,
}
