//! Placed nets as configurations.

ghost use Rattle.std.specs.Prelude.{◌≡◌, ◌<◌, ◌≤◌, ℕ, length, map, IfOk};
ghost use Rattle.std.specs.List.{All, range_with_len};
ghost use Rattle.pr_conf.specs.Configuration.{pes_of, shape_of as conf_shape};
ghost use Rattle.pr_conf.specs.Shape.{output_shape};
ghost use Rattle.pr_net.specs.Whole.{shape_of as net_shape};
ghost use Rattle.pr_net.specs.Nets.{IsNet};
ghost use Rattle.pr_place.specs.Placements.{shape_of};
ghost use Rattle.pr_place.specs.Greedy.{IsGreedy};
ghost use Rattle.pr_route.specs.Conf.{conf_of, pes_at, tap_of, taps_of};
ghost use Rattle.pr_route.specs.Written.{ShowsHoused};

use crate::sources::tap_of;
use crate::writing::{idle_stages, put_unit};
use pr_conf::{Configuration, Output, Stage, Tap};
use pr_net::{Net, Slice};
use pr_place::Placement;
use std::alloc::{AllocError, Global};

/// The taps of these slices.
fn taps(alloc: Global, placement: &Placement, slices: &[Slice]) -> Result<Vec<Tap>, AllocError>
    requires { All (ShowsHoused (shape_of placement.now)) slices.now }
    ensures { IfOk result (λ v. v.items ≡ map (tap_of (shape_of placement.now)) slices.now) }
{
    let mut taps = Vec::with_capacity(alloc, slices.len())?;
    for slice in slices {
        taps.push(tap_of(placement, *slice))?;
    }
    Ok(taps)
}

/// The outputs of a net, each with its taps.
fn outputs(alloc: Global, net: &Net, placement: &Placement) -> Result<Vec<Output>, AllocError>
    requires { All (λ o. All (ShowsHoused (shape_of placement.now)) o.slices) (net_shape net.now).outputs }
    ensures { IfOk result (λ v. map output_shape v.items
        ≡ map (taps_of (shape_of placement.now)) (net_shape net.now).outputs) }
{
    let mut outputs = Vec::with_capacity(alloc, net.outputs.len())?;
    for output in &net.outputs {
        let taps = taps(alloc, placement, &output.slices)?;
        outputs.push(Output {
            width: output.width,
            taps,
        })?;
    }
    Ok(outputs)
}

/// The stages of a net, with each unit where it stands.
fn stages<const N: usize, const P: usize>(
    alloc: Global,
    net: &Net,
    placement: &Placement,
) -> Result<Vec<Stage<N>>, AllocError>
    requires net { IsNet N (net_shape net.now) }
    requires placed { IsGreedy N P (net_shape net.now) (shape_of placement.now) }
    requires columns { N ≤ 64 }
    requires registers { 2 ≤ P }
    ensures { IfOk result (λ v. map pes_of v.items
        ≡ map (pes_at N (net_shape net.now) (shape_of placement.now)) (range_with_len 0 placement.now.stages)) }
{
    let mut stages = idle_stages::<N>(alloc, placement.stages)?;
    for unit in 0..net.units.len() {
        put_unit(&mut stages, placement, unit, &net.units[unit].cells);
    }
    Ok(stages)
}

/// The configuration of a placed net: each wire becomes the source of its home, each output its taps, and an element
/// without a cell is idle.
pub fn route<const N: usize, const P: usize>(
    alloc: Global,
    net: &Net,
    placement: &Placement,
) -> Result<Configuration<N, P>, AllocError>
    requires net { IsNet N (net_shape net.now) }
    requires placed { IsGreedy N P (net_shape net.now) (shape_of placement.now) }
    requires columns { 1 ≤ N }
    requires most_columns { N ≤ 64 }
    requires registers { 2 ≤ P }
    requires most_registers { P ≤ 16 }
    ensures routed { IfOk result (λ c. conf_shape c ≡ conf_of N (net_shape net.now) (shape_of placement.now)) }
{
    let stages = stages::<N, P>(alloc, net, placement)?;
    Ok(Configuration {
        inputs: net.inputs.to_vec(alloc)?,
        outputs: outputs(alloc, net, placement)?,
        stages,
    })
}
