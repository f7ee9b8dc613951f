//! The net, routed.

ghost use Rattle.std.specs.Prelude.{◌≡◌, IfOk};
ghost use Rattle.pr_conf.specs.Configuration.{shape_of};
ghost use Rattle.pr_route.specs.Conf.{conf_of};
ghost use Rattle.pr_compile_tests.specs.Nets.{xor_net, xor_placement};

use crate::nets;
use pr_conf::Configuration;
use pr_route::route;
use std::alloc::{AllocError, Global};

pub(crate) fn xor(alloc: Global) -> Result<Configuration<16, 8>, AllocError>
    ensures { IfOk result (λ c. shape_of c ≡ conf_of 16 xor_net xor_placement) }
{
    let net = nets::xor_net(alloc)?;
    let placement = nets::xor_placement(alloc)?;
    route(alloc, &net, &placement)
}
