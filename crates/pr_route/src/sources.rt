//! Cells as processing elements, and slices as taps.

ghost use Rattle.std.specs.Prelude.{◌≡◌, ◌<◌, ◌≤◌, length};
ghost use Rattle.pr_place.specs.Placements.{shape_of, home_of, stage_of};
ghost use Rattle.pr_route.specs.Conf.{tap_of};
ghost use Rattle.pr_route.specs.Written.{source_in, bit_in, pe_in, ReadsHoused, ChoosesHoused, HasHoused, ShowsHoused};

use pr_conf::{Bit, Pe, Source, Tap};
use pr_net::{Cell, Slice, Wire, WireBit};
use pr_place::{Home, Placement};

/// Where a unit stands.
pub fn home_of(placement: &Placement, unit: usize) -> &Home
    requires { unit < length (shape_of placement.now).homes }
    ensures stage { result.now.stage ≡ stage_of (shape_of placement.now) unit }
    ensures col { result.now.col ≡ (home_of (shape_of placement.now) unit).col }
    ensures regs { result.now.regs.items ≡ (home_of (shape_of placement.now) unit).regs }
{
    &placement.homes[unit]
}

/// Where a cell of this stage reads a wire: beside it what stands in the same stage, and of the stripe before it
/// what stands in an earlier one.
fn source_of(placement: &Placement, stage: u32, wire: Wire) -> Source
    requires { ReadsHoused (shape_of placement.now) wire }
    ensures { result ≡ source_in (shape_of placement.now) stage wire }
{
    match wire {
        Wire::Const(byte) => Source::Const(byte),
        Wire::Of(unit, place) => {
            let home = home_of(placement, unit as usize);
            let col = home.col + place;
            let reg = home.regs[usize::from(place)];
            if home.stage == stage {
                Source::Here(col)
            } else {
                Source::Prev { col, reg }
            }
        }
        Wire::State(unit, place) => Source::State(home_of(placement, unit as usize).col + place),
        Wire::Bus(place) => Source::Bus(place),
    }
}

/// Where a cell of this stage takes C from.
fn bit_of(placement: &Placement, stage: u32, bit: WireBit) -> Bit
    requires { ChoosesHoused (shape_of placement.now) bit }
    ensures { result ≡ bit_in (shape_of placement.now) stage bit }
{
    match bit {
        WireBit::None => Bit::None,
        WireBit::Of(wire, place) => Bit::Of(source_of(placement, stage, wire), place),
        WireBit::CarryIn => Bit::CarryIn,
    }
}

/// The processing element of a cell of this stage, which writes this register.
pub fn pe_of(placement: &Placement, stage: u32, cell: &Cell, register: u8) -> Pe
    requires { HasHoused (shape_of placement.now) cell.now }
    ensures { result ≡ pe_in (shape_of placement.now) stage cell.now register }
{
    Pe {
        a: source_of(placement, stage, cell.a),
        hi: source_of(placement, stage, cell.hi),
        lo: source_of(placement, stage, cell.lo),
        shift: cell.shift,
        c: bit_of(placement, stage, cell.c),
        table: cell.table,
        mode: cell.mode,
        cin: cell.cin,
        mask: cell.mask,
        next: cell.next,
        init: cell.init,
        write: register,
    }
}

/// Where the last stage shows a slice. The state of a cell is no slice of an output.
pub fn tap_of(placement: &Placement, slice: Slice) -> Tap
    requires { ShowsHoused (shape_of placement.now) slice }
    ensures { result ≡ tap_of (shape_of placement.now) slice }
{
    match slice {
        Slice::Const(byte) => Tap::Const(byte),
        Slice::Of(unit, place) => {
            let home = home_of(placement, unit as usize);
            Tap::Reg {
                col: home.col + place,
                reg: home.regs[usize::from(place)],
            }
        }
        Slice::State(_, _) => Tap::Const(0),
    }
}
