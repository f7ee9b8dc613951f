//! The net, placed.

use crate::nets;
use pr_place::{Placement, place};
use std::alloc::{AllocError, Global};

pub(crate) fn xor(alloc: Global) -> Result<Placement, AllocError> {
    let net = nets::xor_net(alloc)?;
    place::<16, 8>(alloc, &net).map_err(|_| AllocError)
}
