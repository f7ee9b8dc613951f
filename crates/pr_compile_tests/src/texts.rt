//! Texts of programs on their way to nets.

ghost use Rattle.std.specs.Prelude.{◌≤◌, IfOk};
ghost use Rattle.pr_flat.specs.Shape.{shapes_of};
ghost use Rattle.pr_flat.specs.Widths.{AreWidths};

use pr_base::Cap;
use pr_compile_front::{Front, FrontFault, read_program};
use pr_conf::Configuration;
use pr_cut::cut;
use pr_cut_plan::CutFault;
use pr_cutmul::RowFault;
use pr_flat::Flat;
use pr_net::Net;
use pr_place::{PlaceFault, place};
use pr_route::route;
use pr_width::Widths;
use std::alloc::{AllocError, Global};

/// What stops a text on its way to a net.
#[derive(Debug, Drop)]
pub(crate) enum Stop {
    /// The text is no program with widths.
    Refused,
    /// The net passes a limit.
    Passed(Cap),
    /// The group that ends with this unit fits in no stripe.
    NoFit(u32),
    Memory(AllocError),
}

impl From<AllocError> for Stop {
    fn from(error: AllocError) -> Stop {
        Stop::Memory(error)
    }
}

impl From<CutFault> for Stop {
    fn from(fault: CutFault) -> Stop {
        match fault {
            CutFault::Limit(cap) => Stop::Passed(cap),
            CutFault::Memory(error) => Stop::Memory(error),
        }
    }
}

impl From<RowFault> for Stop {
    fn from(fault: RowFault) -> Stop {
        match fault {
            RowFault::Limit(cap) => Stop::Passed(cap),
            RowFault::Memory(error) => Stop::Memory(error),
        }
    }
}

impl From<PlaceFault> for Stop {
    fn from(fault: PlaceFault) -> Stop {
        match fault {
            PlaceFault::NoFit { unit } => Stop::NoFit(unit),
            PlaceFault::Memory(error) => Stop::Memory(error),
        }
    }
}

/// The program of a text with its equations and their widths.
#[tactic(auto, using(crate::proofs::Lawful::front_widths))]
pub(crate) fn front_of(alloc: Global, text: &str) -> Result<Front, Stop>
    ensures { IfOk result (λ f. AreWidths (shapes_of f.flat.equations.items) f.widths) }
{
    if text.len() > 10_000 {
        return Err(Stop::Refused);
    }
    match read_program(alloc, text.as_bytes()) {
        Ok(front) => Ok(front),
        Err(FrontFault::Memory(error)) => Err(Stop::Memory(error)),
        Err(_) => Err(Stop::Refused),
    }
}

/// The net of equations, for so many columns.
pub(crate) fn net_of_flat(
    alloc: Global,
    flat: &Flat,
    widths: &Widths,
    columns: usize,
) -> Result<Net, Stop>
    requires widths { AreWidths (shapes_of flat.now.equations.items) widths.now }
    requires some { 1 ≤ columns }
    requires few { columns ≤ 64 }
{
    let net = cut(alloc, flat, widths, columns)?;
    Ok(net)
}

/// The net of a text, for so many columns.
pub(crate) fn net_of(alloc: Global, text: &str, columns: usize) -> Result<Net, Stop>
    requires some { 1 ≤ columns }
    requires few { columns ≤ 64 }
{
    let front = front_of(alloc, text)?;
    net_of_flat(alloc, &front.flat, &front.widths, columns)
}

/// A net, and its configuration.
#[derive(Drop)]
pub(crate) struct Routed<const N: usize, const P: usize> {
    pub(crate) net: Net,
    pub(crate) conf: Configuration<N, P>,
}

/// The net of equations, placed and routed.
fn route_flat<const N: usize, const P: usize>(
    alloc: Global,
    flat: &Flat,
    widths: &Widths,
) -> Result<Routed<N, P>, Stop>
    requires widths { AreWidths (shapes_of flat.now.equations.items) widths.now }
    requires columns { 1 ≤ N }
    requires most_columns { N ≤ 64 }
    requires registers { 2 ≤ P }
    requires most_registers { P ≤ 16 }
{
    let net = cut(alloc, flat, widths, N)?;
    let placement = place::<N, P>(alloc, &net)?;
    let conf = route::<N, P>(alloc, &net, &placement)?;
    Ok(Routed { net, conf })
}

/// The net of a text, placed and routed.
pub(crate) fn route_text<const N: usize, const P: usize>(
    alloc: Global,
    text: &str,
) -> Result<Routed<N, P>, Stop>
    requires columns { 1 ≤ N }
    requires most_columns { N ≤ 64 }
    requires registers { 2 ≤ P }
    requires most_registers { P ≤ 16 }
{
    let front = front_of(alloc, text)?;
    route_flat(alloc, &front.flat, &front.widths)
}
