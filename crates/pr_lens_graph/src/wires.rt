//! The wires between units, and to outputs.

ghost use Rattle.std.specs.Prelude.{◌≡◌, ◌++◌, ◌∷◌, [], List, ℕ, IfOk, OnOk, map, if◌then◌else◌};
ghost use Rattle.std.specs.List.{slice_get};
ghost use Rattle.pr_cut_units.specs.Groups.{cell_wires};
ghost use Rattle.pr_net.specs.declared.cells.Wire.{Wire};
ghost use Rattle.pr_net.specs.Shape.{wire_of};
ghost use Rattle.pr_lens_graph.specs.declared.wires.Reader.TheVariants as reader;
ghost use Rattle.pr_lens_graph.specs.Reads.{AreReads, firsts, unit_wires};
ghost use Rattle.pr_lens_graph.specs.Arrows.{arrow_text, arrows_from, arrows_text, is_unit, output_label, output_name, output_text, outputs_text, reads_text, units_arrows};

use crate::naming::Names;
use pr_lens_text::{put, put_counted, put_number};
use pr_net::{Cell, NetOutput, Slice, Unit, Wire, WireBit};
use std::alloc::{AllocError, Global};

/// The units that are read: their bytes, and their states.
#[derive(Drop)]
pub struct Reads {
    bytes: Vec<u32>,
    states: Vec<u32>,
}

/// What reads them, by its number.
#[derive(Clone, Copy)]
pub enum Reader {
    Unit(usize),
    Output(usize),
}

impl Reader {
    ghost use Rattle.pr_lens_graph.specs.Arrows.{arrow_to, number_of};

    fn number(self) -> usize
        ensures { result ≡ number_of self }
    {
        match self {
            Reader::Unit(number) | Reader::Output(number) => number,
        }
    }

    /// An arrow, and the letter of its name.
    fn arrow(self) -> &'static str
        ensures { result.now ≡ arrow_to self }
    {
        match self {
            Reader::Unit(_) => " -> u",
            Reader::Output(_) => " -> y",
        }
    }

    /// Whether it is this unit.
    fn is_unit(self, unit: usize) -> bool
        ensures { result ≡ is_unit self unit }
    {
        match self {
            Reader::Unit(number) => number == unit,
            Reader::Output(_) => false,
        }
    }
}

/// Notes a number, unless it is there already.
fn note(all: &mut Vec<u32>, number: u32) -> Result<(), AllocError>
    ensures { OnOk result ((seen : List ℕ) → all.old.items ≡ firsts seen
        → all.new.items ≡ firsts (seen ++ number ∷ [])) }
{
    if all.contains(&number) {
        return Ok(());
    }
    all.push(number)?;
    Ok(())
}

/// Notes what a wire reads.
fn note_wire(reads: &mut Reads, wire: Wire) -> Result<(), AllocError>
    ensures { OnOk result ((seen : List Wire) → AreReads reads.old seen → AreReads reads.new (seen ++ wire ∷ [])) }
{
    match wire {
        Wire::Const(_) | Wire::Bus(_) => Ok(()),
        Wire::Of(unit, _) => note(&mut reads.bytes, unit),
        Wire::State(unit, _) => note(&mut reads.states, unit),
    }
}

/// Notes what a cell reads.
fn note_cell(reads: &mut Reads, cell: &Cell) -> Result<(), AllocError>
    ensures { OnOk result ((seen : List Wire) → AreReads reads.old seen
        → AreReads reads.new (seen ++ cell_wires cell.now)) }
{
    note_wire(reads, cell.a)?;
    note_wire(reads, cell.hi)?;
    note_wire(reads, cell.lo)?;
    match cell.c {
        WireBit::Of(wire, _) => note_wire(reads, wire),
        WireBit::None | WireBit::CarryIn => Ok(()),
    }
}

/// What cells read.
#[tactic(auto, unfolding(crate::specs::Reads::firsts))]
fn reads_of_cells(alloc: Global, cells: &[Cell]) -> Result<Reads, AllocError>
    ensures { IfOk result (λ reads. AreReads reads (unit_wires cells.now)) }
{
    let mut reads = Reads {
        bytes: Vec::new(alloc),
        states: Vec::new(alloc),
    };
    for cell in cells {
        note_cell(&mut reads, cell)?;
    }
    Ok(reads)
}

/// The wire of a byte of an output.
fn wire_of(slice: Slice) -> Wire
    ensures { result ≡ wire_of slice }
{
    match slice {
        Slice::Const(byte) => Wire::Const(byte),
        Slice::Of(unit, place) => Wire::Of(unit, place),
        Slice::State(unit, place) => Wire::State(unit, place),
    }
}

/// What the bytes of an output read.
#[tactic(auto, unfolding(crate::specs::Reads::firsts))]
fn reads_of_slices(alloc: Global, slices: &[Slice]) -> Result<Reads, AllocError>
    ensures { IfOk result (λ reads. AreReads reads (map wire_of slices.now)) }
{
    let mut reads = Reads {
        bytes: Vec::new(alloc),
        states: Vec::new(alloc),
    };
    for slice in slices {
        note_wire(&mut reads, wire_of(*slice))?;
    }
    Ok(reads)
}

/// Adds the arrow from a unit, but for one to itself.
#[tactic(auto, unfolding(crate::specs::Arrows::arrow_text))]
fn put_arrow(text: &mut Vec<u8>, unit: usize, reader: Reader, end: &str) -> Result<(), AllocError>
    ensures { OnOk result (text.new.items ≡ text.old.items
        ++ (if is_unit reader unit then [] else arrow_text reader end.now unit)) }
{
    if reader.is_unit(unit) {
        return Ok(());
    }
    put_counted(text, "  u", unit)?;
    put_counted(text, reader.arrow(), reader.number())?;
    put(text, end)
}

/// Adds the arrows from these units, but for one from a unit to itself.
#[tactic(auto, unfolding(crate::specs::Arrows::arrows_from))]
fn put_from(text: &mut Vec<u8>, units: &[u32], reader: Reader, end: &str) -> Result<(), AllocError>
    ensures { OnOk result (text.new.items ≡ text.old.items ++ arrows_from reader end.now units.now) }
{
    for unit in units {
        put_arrow(text, *unit as usize, reader, end)?;
    }
    Ok(())
}

/// Adds the arrows to a unit or an output; those from states are dashed.
#[tactic(auto, unfolding(crate::specs::Arrows::arrows_text))]
fn put_reads(text: &mut Vec<u8>, reads: &Reads, reader: Reader) -> Result<(), AllocError>
    ensures { OnOk result (text.new.items ≡ text.old.items
        ++ arrows_text reader reads.now.bytes.items reads.now.states.items) }
{
    put_from(text, &reads.bytes, reader, ";\n")?;
    put_from(
        text,
        &reads.states,
        reader,
        " [style=dashed, constraint=false];\n",
    )
}

/// Adds the arrows to a unit.
fn put_unit(
    alloc: Global,
    text: &mut Vec<u8>,
    number: usize,
    cells: &[Cell],
) -> Result<(), AllocError>
    ensures { OnOk result (text.new.items ≡ text.old.items
        ++ reads_text (reader.Unit number) (unit_wires cells.now)) }
{
    let reads = reads_of_cells(alloc, cells)?;
    put_reads(text, &reads, Reader::Unit(number))
}

/// Adds the arrows between units.
pub fn put_wires(alloc: Global, text: &mut Vec<u8>, units: &[Unit]) -> Result<(), AllocError>
    ensures { OnOk result (text.new.items ≡ text.old.items ++ units_arrows 0 units.now) }
{
    for (number, unit) in units.iter().enumerate() {
        put_unit(alloc, text, number, &unit.cells)?;
    }
    Ok(())
}

/// Adds the name of an output, or its number where names are not told.
fn put_label(text: &mut Vec<u8>, names: &Names, number: usize) -> Result<(), AllocError>
    ensures { OnOk result (text.new.items
        ≡ text.old.items ++ output_label number (slice_get names.now.outputs.items number)) }
{
    match names.outputs.get(number) {
        None => put_number(text, number),
        Some(name) => text.extend_from_slice(name.as_bytes()),
    }
}

/// Adds the node of an output.
#[tactic(auto, unfolding(crate::specs::Arrows::output_name))]
fn put_name(text: &mut Vec<u8>, names: &Names, number: usize) -> Result<(), AllocError>
    ensures { OnOk result (text.new.items ≡ text.old.items ++ output_name names.now number) }
{
    put_counted(text, "  y", number)?;
    put(text, " [shape=plaintext, label=\"output ")?;
    put_label(text, names, number)?;
    put(text, "\"];\n")
}

/// Adds an output with the arrows to it.
fn put_output(
    alloc: Global,
    text: &mut Vec<u8>,
    names: &Names,
    number: usize,
    output: &NetOutput,
) -> Result<(), AllocError>
    ensures { OnOk result (text.new.items ≡ text.old.items ++ output_text names.now (number, output.now)) }
{
    put_name(text, names, number)?;
    let reads = reads_of_slices(alloc, &output.slices)?;
    put_reads(text, &reads, Reader::Output(number))
}

/// Adds the outputs.
pub fn put_outputs(
    alloc: Global,
    text: &mut Vec<u8>,
    names: &Names,
    outputs: &[NetOutput],
) -> Result<(), AllocError>
    ensures { OnOk result (text.new.items ≡ text.old.items ++ outputs_text names.now 0 outputs.now) }
{
    for (number, output) in outputs.iter().enumerate() {
        put_output(alloc, text, names, number, output)?;
    }
    Ok(())
}
