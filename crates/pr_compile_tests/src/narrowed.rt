//! Programs, and how many units they have as they are and narrowed.

ghost use Rattle.pr_flat.specs.Shape.{shapes_of};
ghost use Rattle.pr_flat.specs.Widths.{AreWidths};

use crate::texts::{Stop, front_of, net_of_flat};
use pr_compile_front::Front;
use pr_flat::Flat;
use pr_narrow::narrow;
use pr_width::Widths;
use std::alloc::Global;
use std::test::Fail;

/// How many units equations have on sixteen columns.
fn count(alloc: Global, flat: &Flat, widths: &Widths) -> Result<usize, Stop>
    requires { AreWidths (shapes_of flat.now.equations.items) widths.now }
{
    let net = net_of_flat(alloc, flat, widths, 16)?;
    Ok(net.units.len())
}

/// How many units a program has when it is narrowed.
fn narrowed_count(alloc: Global, front: &Front) -> Result<usize, Stop>
    requires { AreWidths (shapes_of front.now.flat.equations.items) front.now.widths }
{
    let (flat, widths) = narrow(alloc, &front.flat, &front.widths)?;
    count(alloc, &flat, &widths)
}

/// How many units a text has as it is, and how many narrowed.
fn counts_of(alloc: Global, text: &str) -> Result<(usize, usize), Stop> {
    let front = front_of(alloc, text)?;
    let whole = count(alloc, &front.flat, &front.widths)?;
    Ok((whole, narrowed_count(alloc, &front)?))
}

/// A product of which one byte is demanded.
const DEMANDED: &str = "input a:32; input b:32; let p = a * b; output y:8 = p;";

/// A product of numbers.
const NUMBERS: &str = "input a:8; output y = 3 * 5 + a;";

#[test]
fn units_of_products(rt: HostRuntime) -> Result<(), Fail> {
    let demanded = counts_of(rt.alloc(), DEMANDED)?;
    let numbers = counts_of(rt.alloc(), NUMBERS)?;
    assert_eq!(rt; (demanded, numbers), ((66, 10), (5, 2)));
    Ok(())
}
