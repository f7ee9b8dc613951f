//! Chains of cells, cut into units of at most four.

ghost use Rattle.std.specs.Prelude.{ℕ, ◌≡◌, ◌≤◌, ◌<◌, ◌+◌, ◌-◌, ◌^◌, [], ◌∷◌, ◌++◌, List, length, vec_len, OnOk, OnErr, IfOk};
ghost use Rattle.pr_net.specs.declared.cells.Cell.{Cell};
ghost use Rattle.pr_cut_units.specs.declared.chains.Style.{Style};
ghost use Rattle.pr_cut_units.specs.Chains.{carried, entry_of, taking, places, place_after, chain, closed_chain};
ghost use Rattle.pr_cut_units.specs.Parts.{units_after, slices_after};
ghost use Rattle.pr_cut_cells.specs.Prefixes.{IsPrefix};
ghost use Rattle.pr_cut_cells.specs.Chained.{with_segments, with_chain, slices_from, slice_behind};

use crate::cells::plain;
use pr_base::{Carry, Mode};
use pr_cut_units::Style;
use pr_net::{Cell, Slice, Unit, Wire, WireBit};
use std::alloc::{AllocError, Global};

/// A cell that shows the carry by its table.
fn carried(table: u8) -> Cell
    ensures { result ≡ carried table }
{
    Cell {
        c: WireBit::CarryIn,
        cin: Carry::Chain,
        table,
        mask: 1,
        ..plain()
    }
}

/// The most cells of a segment: four, and one that shows the carry. One that begins with an entry has one more.
const MOST: usize = 5;

/// A segment that takes the carry which this wire shows, with its first cell.
fn begun(alloc: Global, style: Style, wire: Wire, cell: Cell) -> Result<Vec<Cell>, AllocError>
    ensures cells { IfOk result (λ cells. cells.items ≡ entry_of style wire ++ taking style wire cell ∷ []) }
    ensures few { IfOk result (λ cells. vec_len cells ≤ 2) }
{
    match style {
        Style::ByBit => {
            let mut cells = Vec::with_capacity(alloc, MOST)?;
            cells.push(Cell {
                c: WireBit::Of(wire, 0),
                cin: Carry::FromC,
                ..cell
            })?;
            Ok(cells)
        }
        Style::ByEntry => {
            let mut cells = Vec::with_capacity(alloc, MOST + 1)?;
            cells.push(Cell {
                a: wire,
                hi: Wire::Const(255),
                mode: Mode::Sum,
                table: 0xcc,
                mask: 0,
                ..plain()
            })?;
            cells.push(cell)?;
            Ok(cells)
        }
    }
}

/// A segment that is not yet appended, and for how many more cells it has room.
#[derive(Drop)]
struct Open {
    cells: Vec<Cell>,
    room: u8,
}

/// One more cell of a chain.
fn chain_step(
    alloc: Global,
    units: &mut Vec<Unit>,
    style: Style,
    segment: Open,
    cell: Cell,
) -> Result<Open, AllocError>
    requires fits { length units.old.items + 1 < 2 ^ 32 }
    requires short { vec_len segment.cells + segment.room ≤ 5 }
    ensures whole { IfOk result (λ now. (close rest : List Cell) →
        with_segments style units.new.items now close rest ≡
        with_segments style units.old.items segment close (cell ∷ rest)) }
    ensures short { IfOk result (λ now. vec_len now.cells + now.room ≤ 5) }
    ensures err { OnErr result (units.new.items ≡ units.old.items) }
    ensures kept { length units.old.items ≤ length units.new.items }
    ensures grows { OnOk result (length units.new.items ≤ length units.old.items + 1) }
{
    let Open { mut cells, room } = segment;
    if room == 0 {
        let wire = Wire::Of(units.len() as u32, cells.len() as u8);
        let next = begun(alloc, style, wire, cell)?;
        cells.push(carried(0xf0))?;
        units.push(Unit { cells })?;
        return Ok(Open {
            cells: next,
            room: 3,
        });
    }
    cells.push(cell)?;
    Ok(Open {
        cells,
        room: room - 1,
    })
}

/// The units of a chain; the last one closes with more cells.
#[tactic(auto, using(crate::proofs::PrefixLemmas::prefix_of))]
fn append_chain(
    alloc: Global,
    units: &mut Vec<Unit>,
    style: Style,
    first: Carry,
    cells: &[Cell],
    close: &[Cell],
) -> Result<(), AllocError>
    requires fits { length units.old.items + length cells.now + 1 < 2 ^ 32 }
    ensures kept { length units.old.items ≤ length units.new.items }
    ensures grows { OnOk result (length units.new.items ≤ length units.old.items + length cells.now + 1) }
    ensures units { OnOk result (units.new.items ≡ with_chain style first units.old.items close.now cells.now) }
    ensures part { OnErr result
        (IsPrefix units.new.items (with_chain style first units.old.items close.now cells.now)) }
{
    let count = cells.len() + close.len();
    let mut open = Open {
        cells: Vec::with_capacity(alloc, count.min(MOST))?,
        room: 4,
    };
    let mut cin = first;
    for cell in cells {
        open = chain_step(alloc, units, style, open, Cell { cin, ..*cell })?;
        cin = Carry::Chain;
    }
    let Open {
        cells: mut last,
        room: _,
    } = open;
    last.extend_from_slice(close)?;
    units.push(Unit { cells: last })?;
    Ok(())
}

/// Where the next cell of a chain stands, if its segment has room.
#[derive(Clone, Copy)]
struct ChainPlace {
    unit: u32,
    room: u8,
    cell: u8,
}

/// The slice of the next cell.
fn next_slice(style: Style, place: ChainPlace) -> Slice
    requires fits { place.unit + 1 < 2 ^ 32 }
    ensures { (k : Cell) → slices_from style place (k ∷ []) ≡ result ∷ [] }
{
    if place.room == 0 {
        return match style {
            Style::ByBit => Slice::Of(place.unit + 1, 0),
            Style::ByEntry => Slice::Of(place.unit + 1, 1),
        };
    }
    Slice::Of(place.unit, place.cell)
}

/// The place after the next cell.
fn next_place(style: Style, place: ChainPlace) -> ChainPlace
    requires fits { place.unit + 1 < 2 ^ 32 }
    requires short { place.cell + place.room ≤ 5 }
    ensures places { (k : Cell) (rest : List Cell) →
        slices_from style place (k ∷ rest) ≡ slices_from style place (k ∷ []) ++ slices_from style result rest }
    ensures after { (k : Cell) (rest : List Cell) →
        slice_behind style place (k ∷ rest) ≡ slice_behind style result rest }
    ensures short { result.cell + result.room ≤ 5 }
    ensures near { result.unit ≤ place.unit + 1 }
{
    if place.room == 0 {
        return match style {
            Style::ByBit => ChainPlace {
                unit: place.unit + 1,
                room: 3,
                cell: 1,
            },
            Style::ByEntry => ChainPlace {
                unit: place.unit + 1,
                room: 3,
                cell: 2,
            },
        };
    }
    ChainPlace {
        unit: place.unit,
        room: place.room - 1,
        cell: place.cell + 1,
    }
}

/// The slices of a chain that begins this unit.
fn chain_slices(
    alloc: Global,
    style: Style,
    unit: u32,
    cells: &[Cell],
) -> Result<Vec<Slice>, AllocError>
    requires { unit + length cells.now + 1 < 2 ^ 32 }
    ensures { IfOk result (λ s. s.items ≡ places style unit 4 0 cells.now) }
{
    let mut slices = Vec::with_capacity(alloc, cells.len())?;
    let mut place = ChainPlace {
        unit,
        room: 4,
        cell: 0,
    };
    for cell in cells {
        slices.push(next_slice(style, place))?;
        place = next_place(style, place);
    }
    Ok(slices)
}

/// The slice of the cell that closes a chain which begins this unit.
fn closing_slice(unit: u32, cells: &[Cell]) -> Slice
    requires { unit + length cells.now + 1 < 2 ^ 32 }
    ensures { result ≡ place_after Style.ByBit unit 4 0 cells.now }
{
    let mut place = ChainPlace {
        unit,
        room: 4,
        cell: 0,
    };
    for cell in cells {
        place = next_place(Style::ByBit, place);
    }
    Slice::Of(place.unit, place.cell)
}

/// A chain whose cells are slices.
#[tactic(auto, using(crate::proofs::PrefixLemmas::prefix_of))]
pub fn chain(
    alloc: Global,
    units: &mut Vec<Unit>,
    style: Style,
    first: Carry,
    cells: &[Cell],
) -> Result<Vec<Slice>, AllocError>
    requires fits { length units.old.items + length cells.now + 1 < 2 ^ 32 }
    ensures kept { length units.old.items ≤ length units.new.items }
    ensures grows { OnOk result (length units.new.items ≤ length units.old.items + length cells.now + 1) }
    ensures units { OnOk result (units.new.items ≡ units_after units.old.items (chain style first cells.now)) }
    ensures part { OnErr result (IsPrefix units.new.items (units_after units.old.items (chain style first cells.now))) }
    ensures slices { IfOk result (λ s. s.items ≡ slices_after units.old.items (chain style first cells.now)) }
{
    let slices = chain_slices(alloc, style, units.len() as u32, cells)?;
    append_chain(alloc, units, style, first, cells, &[])?;
    Ok(slices)
}

/// A chain of which the cell that closes it, with this table, is the one slice.
pub fn closed_chain(
    alloc: Global,
    units: &mut Vec<Unit>,
    first: Carry,
    table: u8,
    cells: &[Cell],
) -> Result<Vec<Slice>, AllocError>
    requires fits { length units.old.items + length cells.now + 1 < 2 ^ 32 }
    ensures grows { OnOk result (length units.new.items ≤ length units.old.items + length cells.now + 1) }
    ensures units { OnOk result (units.new.items ≡ units_after units.old.items (closed_chain first table cells.now)) }
    ensures slices { IfOk result (λ s. s.items ≡ slices_after units.old.items (closed_chain first table cells.now)) }
{
    let mut slices = Vec::with_capacity(alloc, 1)?;
    slices.push(closing_slice(units.len() as u32, cells))?;
    append_chain(alloc, units, Style::ByBit, first, cells, &[carried(table)])?;
    Ok(slices)
}
