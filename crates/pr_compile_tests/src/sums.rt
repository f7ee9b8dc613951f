//! Programs, and the nets of their equations.

use crate::texts::{Stop, net_of};
use pr_net::Net;
use std::alloc::{AllocError, Global};
use std::fmt::Write;
use std::test::Fail;

const SUM: &str = "input a:64; input b:64; output y:64 = a + b;";

/// The groups of the sum, and the cells of its two segments after the numbers of their units. The first segment ends
/// with a cell that shows its carry, from which the second one goes on.
const SEGMENTS: &str = "\
4 groups
2: Cell { a: Of(0, 0), hi: Of(1, 0), lo: Const(0), shift: 0, c: None, table: 204, mode: Sum, cin: Zero, mask: 255, next: Keep, init: 0 }
2: Cell { a: Of(0, 1), hi: Of(1, 1), lo: Const(0), shift: 0, c: None, table: 204, mode: Sum, cin: Chain, mask: 255, next: Keep, init: 0 }
2: Cell { a: Of(0, 2), hi: Of(1, 2), lo: Const(0), shift: 0, c: None, table: 204, mode: Sum, cin: Chain, mask: 255, next: Keep, init: 0 }
2: Cell { a: Of(0, 3), hi: Of(1, 3), lo: Const(0), shift: 0, c: None, table: 204, mode: Sum, cin: Chain, mask: 255, next: Keep, init: 0 }
2: Cell { a: Const(0), hi: Const(0), lo: Const(0), shift: 0, c: CarryIn, table: 240, mode: Plain, cin: Chain, mask: 1, next: Keep, init: 0 }
3: Cell { a: Of(0, 4), hi: Of(1, 4), lo: Const(0), shift: 0, c: Of(Of(2, 4), 0), table: 204, mode: Sum, cin: FromC, mask: 255, next: Keep, init: 0 }
3: Cell { a: Of(0, 5), hi: Of(1, 5), lo: Const(0), shift: 0, c: None, table: 204, mode: Sum, cin: Chain, mask: 255, next: Keep, init: 0 }
3: Cell { a: Of(0, 6), hi: Of(1, 6), lo: Const(0), shift: 0, c: None, table: 204, mode: Sum, cin: Chain, mask: 255, next: Keep, init: 0 }
3: Cell { a: Of(0, 7), hi: Of(1, 7), lo: Const(0), shift: 0, c: None, table: 204, mode: Sum, cin: Chain, mask: 255, next: Keep, init: 0 }
";

/// Appends the cells of the unit with this number.
fn put_unit(net: &Net, number: usize, told: &mut String) -> Result<(), AllocError> {
    if let Some(unit) = net.units.get(number) {
        for cell in &unit.cells {
            writeln!(told, "{number}: {cell:?}")?;
        }
    }
    Ok(())
}

/// Appends the groups of the sum and the cells of its segments.
fn put_segments(net: &Net, told: &mut String) -> Result<(), AllocError> {
    writeln!(told, "{} groups", net.groups.len())?;
    put_unit(net, 2, told)?;
    put_unit(net, 3, told)
}

#[test]
fn a_sum_of_two_segments(rt: HostRuntime) -> Result<(), Fail> {
    let net = net_of(rt.alloc(), SUM, 16)?;
    let mut told = String::new(rt.alloc());
    put_segments(&net, &mut told)?;
    assert_eq!(rt; told.as_str(), SEGMENTS);
    Ok(())
}

/// Programs with how many inputs their nets have and how many cells each unit has, or with the limit that is passed.
const NETS: &str = "\
input a:64; input b:64; output y:64 = a + b; | 2 inputs, cells 8 8 5 4
input a:40; input b:40; output y = a - b; | 2 inputs, cells 5 5 5 1
input a:8; output y = a == a; | 1 inputs, cells 1 2
input a:64; input b:64; output y = a + b; | 2 inputs, cells 8 8 5 5 1
input x:8; rec f:16 = 1 by f@1 + f@2; output y = f; | 1 inputs, cells 1 2 2 2
input a:8; input b:8; input c:8; input d:8; input e:8; input f:8; input g:8; input h:8; input i:8; input j:8; input k:8; input l:8; input m:8; input n:8; input o:8; input p:8; output y = a; | 16 inputs, cells 1 1 1 1 1 1 1 1 1 1 1 1 1 1 1 1
input a:8; input b:8; input c:8; input d:8; input e:8; input f:8; input g:8; input h:8; input i:8; input j:8; input k:8; input l:8; input m:8; input n:8; input o:8; input p:8; input q:8; output y = a; | InputBytes
";

/// Appends the inputs of a net, and how many cells each unit has.
fn put_cells(net: &Net, told: &mut String) -> Result<(), AllocError> {
    write!(told, "{} inputs, cells", net.inputs.len())?;
    for unit in &net.units {
        write!(told, " {}", unit.cells.len())?;
    }
    Ok(())
}

/// Appends a line on the net of a text.
fn put_net(alloc: Global, text: &str, told: &mut String) -> Result<(), Stop> {
    write!(told, "{text} | ")?;
    match net_of(alloc, text, 16) {
        Ok(net) => put_cells(&net, told)?,
        Err(Stop::Passed(cap)) => write!(told, "{cap:?}")?,
        Err(stop) => return Err(stop),
    }
    told.push_str("\n")?;
    Ok(())
}

#[test]
fn cells_of_units(rt: HostRuntime) -> Result<(), Fail> {
    let mut told = String::new(rt.alloc());
    for line in NETS.lines() {
        let (text, _) = line.split_once(" | ").unwrap_or((line, ""));
        put_net(rt.alloc(), text, &mut told)?;
    }
    assert_eq!(rt; told.as_str(), NETS);
    Ok(())
}
