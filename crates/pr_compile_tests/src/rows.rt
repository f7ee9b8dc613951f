//! Rows of products and shifts at the end of a net.

use crate::shown::Shown;
use crate::texts::{Stop, net_of};
use pr_base::Cap;
use pr_cutmul::{RowFault, mul_rows, shift_rows};
use pr_net::{Net, NetOutput, Slice, Unit};
use std::alloc::{AllocError, Global};
use std::fmt::Write;
use std::test::Fail;

/// Two numbers of nine and of five bits.
const NUMBERS: &str = "input a:9; input b:5; output y = a;";

const A: [Slice; 2] = [Slice::Of(0, 0), Slice::Of(0, 1)];

const B: [Slice; 1] = [Slice::Of(1, 0)];

/// What rows make of two numbers.
#[derive(Clone, Copy)]
enum Row {
    /// So many bits of their product.
    Product(u8),
    /// The first one shifted by so many bits of the second, to the left or else to the right.
    Shift(bool, u8),
}

/// Appends rows, and gives what they show.
fn append(alloc: Global, net: &mut Net, row: Row) -> Result<Vec<Slice>, RowFault> {
    match row {
        Row::Product(bits) => mul_rows(alloc, net, &A, 9, &B, 5, bits),
        Row::Shift(left, bits) => shift_rows(alloc, net, left, &A, 9, &B, bits),
    }
}

/// The rows whose numbers are shown, each as an output.
const ROWS: [Row; 4] = [
    Row::Product(14),
    Row::Product(8),
    Row::Shift(true, 5),
    Row::Shift(false, 5),
];

fn put_output(outputs: &mut Vec<NetOutput>, slices: Vec<Slice>) -> Result<(), AllocError> {
    outputs.push(NetOutput { width: 16, slices })?;
    Ok(())
}

/// Makes rows the outputs of a net.
fn show_rows(alloc: Global, net: &mut Net) -> Result<(), RowFault> {
    net.outputs.clear();
    for row in ROWS {
        let slices = append(alloc, net, row)?;
        put_output(&mut net.outputs, slices)?;
    }
    Ok(())
}

/// Appends two numbers, and what the outputs of a net show for them.
fn put_shown(alloc: Global, net: &Net, a: u16, b: u8, told: &mut String) -> Result<(), AllocError> {
    let mut shown = Shown::new(alloc, net)?;
    shown.next(alloc, net, &[(a % 256) as u8, (a / 256 % 2) as u8, b % 32])?;
    write!(told, "{a} {b}:")?;
    for output in &net.outputs {
        write!(told, " {}", shown.number(&output.slices))?;
    }
    told.push_str("\n")
}

/// The units of a net before and after its rows, and then for two numbers the low fourteen and the low eight bits of
/// their product, and the first one shifted by the second to the left and to the right.
const SHOWN: &str = "\
2 units
22 units
300 31: 9300 84 0 0
300 3: 900 132 352 37
511 1: 511 255 510 255
511 0: 0 0 511 511
257 8: 2056 8 256 1
";

fn put_units(net: &Net, told: &mut String) -> Result<(), AllocError> {
    writeln!(told, "{} units", net.units.len())
}

/// What rows after other units show.
fn told_of_rows(alloc: Global) -> Result<String, Stop> {
    let mut told = String::new(alloc);
    let mut net = net_of(alloc, NUMBERS, 16)?;
    put_units(&net, &mut told)?;
    show_rows(alloc, &mut net)?;
    put_units(&net, &mut told)?;
    for (a, b) in [(300, 31), (300, 3), (511, 1), (511, 0), (257, 8)] {
        put_shown(alloc, &net, a, b, &mut told)?;
    }
    Ok(told)
}

#[test]
fn rows_after_other_units(rt: HostRuntime) -> Result<(), Fail> {
    let told = told_of_rows(rt.alloc())?;
    assert_eq!(rt; told.as_str(), SHOWN);
    Ok(())
}

/// Appends how many slices rows show that fill a net, or that they are too many, and then the units.
fn put_filled(alloc: Global, net: &mut Net, row: Row, told: &mut String) -> Result<(), RowFault> {
    match append(alloc, net, row) {
        Ok(slices) => write!(told, "{} slices, ", slices.len())?,
        Err(RowFault::Limit(Cap::Units)) => told.push_str("too many, ")?,
        Err(fault) => return Err(fault),
    }
    put_units(net, told)?;
    Ok(())
}

/// The units of a net that is nearly full, and what becomes of it with each of three rows.
const FILLED: &str = "\
32764 units
too many, 32764 units
too many, 32764 units
2 slices, 32768 units
";

/// Appends units without cells until a net is nearly full.
fn fill(alloc: Global, net: &mut Net) -> Result<(), AllocError> {
    for _ in 2..32_764 {
        let cells = Vec::new(alloc);
        net.units.push(Unit { cells })?;
    }
    Ok(())
}

/// What rows make of a net that is nearly full.
fn put_all_filled(alloc: Global, net: &mut Net, told: &mut String) -> Result<(), RowFault> {
    fill(alloc, net)?;
    put_units(net, told)?;
    for row in [Row::Product(14), Row::Shift(true, 5), Row::Shift(true, 4)] {
        put_filled(alloc, net, row, told)?;
    }
    Ok(())
}

#[test]
fn rows_that_fill_a_net(rt: HostRuntime) -> Result<(), Fail> {
    let mut told = String::new(rt.alloc());
    let mut net = net_of(rt.alloc(), NUMBERS, 16)?;
    put_all_filled(rt.alloc(), &mut net, &mut told)?;
    assert_eq!(rt; told.as_str(), FILLED);
    Ok(())
}
