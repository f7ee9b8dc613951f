//! A small net, and where their units stand.

ghost use Rattle.std.specs.Prelude.{◌≡◌, IfOk};
ghost use Rattle.pr_net.specs.Whole.{shape_of as net_shape};
ghost use Rattle.pr_place.specs.Placements.{home_shape, shape_of};
ghost use Rattle.pr_compile_tests.specs.Nets.{lookup, input_cell, home, xor_net, xor_placement};

use pr_base::{Carry, Mode, Next};
use pr_net::{Cell, Group, Net, NetOutput, Slice, Unit, Wire, WireBit};
use pr_place::{Home, Placement};
use std::alloc::{AllocError, Global};

const NOUGHT: Wire = Wire::Const(0);

/// A cell that looks up the bits of two wires.
fn lookup(a: Wire, hi: Wire, table: u8) -> Cell
    ensures { result ≡ lookup a hi table }
{
    Cell {
        a,
        hi,
        lo: NOUGHT,
        shift: 0,
        c: WireBit::None,
        table,
        mode: Mode::Plain,
        cin: Carry::Zero,
        mask: 255,
        next: Next::Keep,
        init: 0,
    }
}

fn input_cell(place: u8) -> Cell
    ensures { result ≡ input_cell place }
{
    lookup(Wire::Bus(place), NOUGHT, 170)
}

fn unit_of(alloc: Global, cells: &[Cell]) -> Result<Unit, AllocError>
    ensures { IfOk result (λ u. u ≡ cells.now) }
{
    let cells = cells.to_vec(alloc)?;
    Ok(Unit { cells })
}

fn group_of(alloc: Global, units: &[u32]) -> Result<Group, AllocError>
    ensures { IfOk result (λ g. g ≡ units.now) }
{
    let units = units.to_vec(alloc)?;
    Ok(Group { units })
}

fn home_of(alloc: Global, stage: u32, col: u8, regs: &[u8]) -> Result<Home, AllocError>
    ensures { IfOk result (λ h. home_shape h ≡ home stage col regs.now) }
{
    let regs = regs.to_vec(alloc)?;
    Ok(Home { stage, col, regs })
}

/// The exclusive or of two inputs.
pub(crate) fn xor_net(alloc: Global) -> Result<Net, AllocError>
    ensures { IfOk result (λ n. net_shape n ≡ xor_net) }
{
    let sum = lookup(Wire::Of(0, 0), Wire::Of(1, 0), 102);
    let slices = vec![in alloc; Slice::Of(2, 0)]?;
    Ok(Net {
        units: vec![in alloc;
            unit_of(alloc, &[input_cell(0)])?,
            unit_of(alloc, &[input_cell(1)])?,
            unit_of(alloc, &[sum])?,
        ]?,
        groups: vec![in alloc;
            group_of(alloc, &[0])?,
            group_of(alloc, &[1])?,
            group_of(alloc, &[2])?,
        ]?,
        inputs: vec![in alloc; 8, 8]?,
        outputs: vec![in alloc; NetOutput { width: 8, slices }]?,
    })
}

pub(crate) fn xor_placement(alloc: Global) -> Result<Placement, AllocError>
    ensures { IfOk result (λ p. shape_of p ≡ xor_placement) }
{
    let homes = vec![in alloc;
        home_of(alloc, 0, 0, &[1])?,
        home_of(alloc, 0, 1, &[1])?,
        home_of(alloc, 1, 0, &[2])?,
    ]?;
    Ok(Placement { stages: 2, homes })
}
