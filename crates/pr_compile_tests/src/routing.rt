//! Configurations of nets, and what they give.

ghost use Rattle.std.specs.Prelude.{◌≤◌};

use crate::shown::Shown;
use crate::texts::{Routed, Stop, route_text};
use crate::through::put_through;
use pr_conf::Configuration;
use pr_net::Net;
use std::alloc::{AllocError, Global};
use std::fmt::Write;
use std::test::Fail;

/// A filter of sixteen taps.
const FILTER: &str =
    "input x:8; const c = [8, 9, 10, 11, 12, 13, 14, 15, 15, 14, 13, 12, 11, 10, 9, 8]; \
fn tap(a, k) { return a * k; } let s[0]:24 = tap(x, c[0]); \
for i in 1..16 { let s[i]:24 = s[i-1] + tap(x@i, c[i]); } output y = s[15];";

/// A recurrence whose state is saved in a stage that is not the last.
const SAVED_STATE: &str = "input x:8; rec s:8 = 250 by s@1 + x; output y = ~s;";

const PRODUCT: &str = "input a:8; input b:8; output y = a * b;";

/// A recurrence whose group has 24 cells.
const TOO_WIDE: &str = "input x:64; rec s:64 = 0 by (s@1 ^ x) & s@1; output y = s;";

/// Appends what the slices of the outputs show at each sample.
fn put_shown(
    alloc: Global,
    net: &Net,
    samples: &[&[u8]],
    bytes: &mut Vec<u8>,
) -> Result<(), AllocError> {
    let mut shown = Shown::new(alloc, net)?;
    for sample in samples {
        shown.next(alloc, net, sample)?;
        shown.put_results(net, bytes)?;
    }
    Ok(())
}

/// Appends what the configuration gives at each sample.
fn put_given<const N: usize, const P: usize>(
    alloc: Global,
    conf: &Configuration<N, P>,
    samples: &[&[u8]],
    bytes: &mut Vec<u8>,
) -> Result<(), AllocError> {
    let mut rows = Vec::new(alloc);
    for sample in samples {
        rows.push(sample.to_vec(alloc)?)?;
    }
    put_through(alloc, conf, &mut rows, bytes)
}

/// Appends the bytes that a configuration gives, or how far they are from what its net shows.
fn put_bytes<const N: usize, const P: usize>(
    alloc: Global,
    routed: &Routed<N, P>,
    samples: &[&[u8]],
    told: &mut String,
) -> Result<(), AllocError> {
    let mut shown = Vec::new(alloc);
    put_shown(alloc, &routed.net, samples, &mut shown)?;
    let mut given = Vec::new(alloc);
    put_given(alloc, &routed.conf, samples, &mut given)?;
    if given.as_slice() != shown.as_slice() {
        told.push_str(" other bytes than the net:")?;
    }
    for byte in &given {
        write!(told, " {byte}")?;
    }
    Ok(())
}

/// Appends what the configuration of a text gives.
fn put_told<const N: usize, const P: usize>(
    alloc: Global,
    name: &str,
    text: &str,
    samples: &[&[u8]],
    told: &mut String,
) -> Result<(), Stop>
    requires columns { 1 ≤ N }
    requires most_columns { N ≤ 64 }
    requires registers { 2 ≤ P }
    requires most_registers { P ≤ 16 }
{
    write!(told, "{name} on {} columns of {}:", N, P)?;
    match route_text::<N, P>(alloc, text) {
        Ok(routed) => put_bytes(alloc, &routed, samples, told)?,
        Err(Stop::NoFit(unit)) => write!(told, " the group of unit {unit} fits nowhere")?,
        Err(stop) => return Err(stop),
    }
    told.push_str("\n")?;
    Ok(())
}

/// The bytes that configurations give, if the nets show the same, or the last unit of the group that fits in no stripe.
const GIVEN: &str = "\
filter on 16 columns of 8: 8 0 0 17 0 0 27 0 0 38 0 0 50 0 0
filter on 4 columns of 16: 8 0 0 17 0 0 27 0 0 38 0 0 50 0 0
saved state on 16 columns of 8: 0 255 254
saved state on 4 columns of 4: 0 255 254
product on 16 columns of 8: 1 254 21 0 32 78
product on 4 columns of 8: 1 254 21 0 32 78
wide group on 16 columns of 8: the group of unit 3 fits nowhere
wide group on 32 columns of 16: 0 0 0 0 0 0 0 0 0 0 0 0 0 0 0 0
";

fn put_all_told(alloc: Global, told: &mut String) -> Result<(), Stop> {
    let ones: [&[u8]; 5] = [&[1], &[1], &[1], &[1], &[1]];
    put_told::<16, 8>(alloc, "filter", FILTER, &ones, told)?;
    put_told::<4, 16>(alloc, "filter", FILTER, &ones, told)?;
    let few: [&[u8]; 3] = [&[5], &[1], &[1]];
    put_told::<16, 8>(alloc, "saved state", SAVED_STATE, &few, told)?;
    put_told::<4, 4>(alloc, "saved state", SAVED_STATE, &few, told)?;
    let factors: [&[u8]; 3] = [&[255, 255], &[3, 7], &[100, 200]];
    put_told::<16, 8>(alloc, "product", PRODUCT, &factors, told)?;
    put_told::<4, 8>(alloc, "product", PRODUCT, &factors, told)?;
    let wide: [&[u8]; 2] = [&[7, 0, 0, 0, 0, 0, 0, 0], &[1, 0, 0, 0, 0, 0, 0, 0]];
    put_told::<16, 8>(alloc, "wide group", TOO_WIDE, &[], told)?;
    put_told::<32, 16>(alloc, "wide group", TOO_WIDE, &wide, told)
}

#[test]
fn configurations_give_what_the_nets_show(rt: HostRuntime) -> Result<(), Fail> {
    let mut told = String::new(rt.alloc());
    put_all_told(rt.alloc(), &mut told)?;
    assert_eq!(rt; told.as_str(), GIVEN);
    Ok(())
}
