//! What a net shows on samples, cell by cell on plain lists.

use crate::elements::{Bytes, CellResult, at};
use pr_base::{Carry, Next};
use pr_net::{Cell, Net, Slice, Unit, Wire, WireBit};
use std::alloc::{AllocError, Global};
use std::fmt::Write;

/// The bytes of all cells, one unit after the other.
#[derive(Drop)]
pub(crate) struct Shown {
    /// For each unit the place of its first cell.
    first: Vec<usize>,
    sample: Vec<u8>,
    bytes: Vec<u8>,
    /// The states before the sample.
    states: Vec<u8>,
}

impl Shown {
    /// No sample yet: every state is the first one.
    pub(crate) fn new(alloc: Global, net: &Net) -> Result<Self, AllocError> {
        let mut first = Vec::new(alloc);
        let mut states = Vec::new(alloc);
        for unit in &net.units {
            first.push(states.len())?;
            for cell in &unit.cells {
                states.push(cell.init)?;
            }
        }
        Ok(Shown {
            first,
            sample: Vec::new(alloc),
            bytes: Vec::new(alloc),
            states,
        })
    }

    fn place(&self, unit: u32, cell: u8) -> usize {
        match self.first.get(unit as usize) {
            Some(place) => place.saturating_add(usize::from(cell)),
            None => usize::MAX,
        }
    }

    fn byte(&self, wire: Wire) -> u8 {
        match wire {
            Wire::Const(byte) => byte,
            Wire::Of(unit, cell) => at(&self.bytes, self.place(unit, cell)),
            Wire::State(unit, cell) => at(&self.states, self.place(unit, cell)),
            Wire::Bus(place) => at(&self.sample, usize::from(place)),
        }
    }

    fn bit(&self, bit: WireBit, carry: bool) -> bool {
        match bit {
            WireBit::None => false,
            WireBit::Of(wire, place) => (self.byte(wire) >> (place % 8)) & 1 == 1,
            WireBit::CarryIn => carry,
        }
    }

    /// What a cell makes after one with this carry-out.
    fn cell(&self, cell: &Cell, chain: bool) -> CellResult {
        let given = match cell.cin {
            Carry::Zero => false,
            Carry::One => true,
            Carry::Chain => chain,
            Carry::FromC => self.bit(cell.c, false),
        };
        let bytes = Bytes {
            a: self.byte(cell.a),
            hi: self.byte(cell.hi),
            lo: self.byte(cell.lo),
            c: self.bit(cell.c, given),
            carry: given,
        };
        let made = bytes.made(cell.shift, cell.table, cell.mode);
        CellResult {
            byte: made.byte & cell.mask,
            carry: made.carry,
        }
    }

    fn unit(&mut self, unit: &Unit, states: &mut Vec<u8>) -> Result<(), AllocError> {
        let mut carry = false;
        for cell in &unit.cells {
            let made = self.cell(cell, carry);
            carry = made.carry;
            states.push(match cell.next {
                Next::Keep => at(&self.states, self.bytes.len()),
                Next::Output => made.byte,
                Next::A => self.byte(cell.a),
            })?;
            self.bytes.push(made.byte)?;
        }
        Ok(())
    }

    /// Shows one more sample.
    pub(crate) fn next(
        &mut self,
        alloc: Global,
        net: &Net,
        sample: &[u8],
    ) -> Result<(), AllocError> {
        self.sample.clear();
        self.sample.extend_from_slice(sample)?;
        self.bytes.clear();
        let mut states = Vec::new(alloc);
        for unit in &net.units {
            self.unit(unit, &mut states)?;
        }
        self.states = states;
        Ok(())
    }

    fn slice(&self, slice: Slice) -> u8 {
        match slice {
            Slice::Const(byte) => byte,
            Slice::Of(unit, cell) => at(&self.bytes, self.place(unit, cell)),
            Slice::State(unit, cell) => at(&self.states, self.place(unit, cell)),
        }
    }

    /// Appends the bytes of the outputs.
    pub(crate) fn put_results(&self, net: &Net, bytes: &mut Vec<u8>) -> Result<(), AllocError> {
        for output in &net.outputs {
            for slice in &output.slices {
                bytes.push(self.slice(*slice))?;
            }
        }
        Ok(())
    }

    /// Appends the numbers of the outputs in hexadecimal digits.
    pub(crate) fn put_numbers(&self, net: &Net, numbers: &mut String) -> Result<(), AllocError> {
        for output in &net.outputs {
            write!(numbers, "{:x} ", self.number(&output.slices))?;
        }
        Ok(())
    }

    /// The number of at most sixteen slices.
    pub(crate) fn number(&self, slices: &[Slice]) -> u128 {
        let mut number = 0;
        for (i, slice) in slices.iter().enumerate() {
            if i < 16 {
                number |= u128::from(self.slice(*slice)) << (8 * i);
            }
        }
        number
    }
}
