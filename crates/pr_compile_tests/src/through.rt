//! What a configuration gives: each stage takes the whole list before the next one sees any of it.

use crate::elements::{Bytes, CellResult, at};
use pr_base::{Carry, Next};
use pr_conf::{Bit, Configuration, Pe, Source, Stage, Tap};
use std::alloc::{AllocError, Global};
use std::mem;

/// What the elements of a stage read and show, from sample to sample.
#[derive(Drop)]
struct Seat {
    registers: usize,
    /// The bytes of the sample in the first stage, and else the registers of the stage before, column after column.
    row: Vec<u8>,
    states: Vec<u8>,
    /// What the columns so far show.
    shown: Vec<u8>,
}

impl Seat {
    /// The elements before the first sample.
    fn new(alloc: Global, pes: &[Pe], registers: usize) -> Result<Seat, AllocError> {
        let mut states = Vec::new(alloc);
        for pe in pes {
            states.push(pe.init)?;
        }
        Ok(Seat {
            registers,
            row: Vec::new(alloc),
            states,
            shown: Vec::new(alloc),
        })
    }

    fn byte(&self, source: Source) -> u8 {
        match source {
            Source::Const(byte) => byte,
            Source::Prev { col, reg } => at(
                &self.row,
                usize::from(col)
                    .saturating_mul(self.registers)
                    .saturating_add(usize::from(reg)),
            ),
            Source::Here(col) => at(&self.shown, usize::from(col)),
            Source::State(col) => at(&self.states, usize::from(col)),
            Source::Bus(place) => at(&self.row, usize::from(place)),
        }
    }

    fn bit(&self, bit: Bit, carry: bool) -> bool {
        match bit {
            Bit::None => false,
            Bit::Of(source, place) => (self.byte(source) >> (place % 8)) & 1 == 1,
            Bit::CarryIn => carry,
        }
    }

    /// What an element makes beside one with this carry-out.
    fn element(&self, pe: &Pe, chain: bool) -> CellResult {
        let given = match pe.cin {
            Carry::Zero => false,
            Carry::One => true,
            Carry::Chain => chain,
            Carry::FromC => self.bit(pe.c, false),
        };
        let bytes = Bytes {
            a: self.byte(pe.a),
            hi: self.byte(pe.hi),
            lo: self.byte(pe.lo),
            c: self.bit(pe.c, given),
            carry: given,
        };
        let made = bytes.made(pe.shift, pe.table, pe.mode);
        CellResult {
            byte: made.byte & pe.mask,
            carry: made.carry,
        }
    }

    fn next_state(&self, pe: &Pe, col: usize, byte: u8) -> u8 {
        match pe.next {
            Next::Keep => at(&self.states, col),
            Next::Output => byte,
            Next::A => self.byte(pe.a),
        }
    }

    /// The states after the sample; every column then shows its byte.
    fn show(&mut self, alloc: Global, pes: &[Pe]) -> Result<Vec<u8>, AllocError> {
        let mut states = Vec::new(alloc);
        let mut carry = false;
        for pe in pes {
            let made = self.element(pe, carry);
            carry = made.carry;
            states.push(self.next_state(pe, self.shown.len(), made.byte))?;
            self.shown.push(made.byte)?;
        }
        Ok(states)
    }

    /// Makes the registers before a sample those after it.
    fn take(
        &mut self,
        alloc: Global,
        pes: &[Pe],
        first: bool,
        row: &mut Vec<u8>,
    ) -> Result<(), AllocError> {
        mem::swap(&mut self.row, row);
        self.shown.clear();
        self.states = self.show(alloc, pes)?;
        *row = self.registers(alloc, pes, first)?;
        Ok(())
    }

    /// The registers after the sample.
    fn registers(&self, alloc: Global, pes: &[Pe], first: bool) -> Result<Vec<u8>, AllocError> {
        let mut all = Vec::new(alloc);
        for (col, pe) in pes.iter().enumerate() {
            for reg in 0..self.registers {
                let kept = if first { 0 } else { at(&self.row, all.len()) };
                all.push(if usize::from(pe.write) == reg {
                    at(&self.shown, col)
                } else {
                    kept
                })?;
            }
        }
        Ok(all)
    }
}

/// Takes all rows through a stage.
fn through_stage<const N: usize>(
    alloc: Global,
    stage: &Stage<N>,
    registers: usize,
    first: bool,
    rows: &mut [Vec<u8>],
) -> Result<(), AllocError> {
    let mut seat = Seat::new(alloc, &stage.pes, registers)?;
    for row in rows {
        seat.take(alloc, &stage.pes, first, row)?;
    }
    Ok(())
}

fn tapped(row: &[u8], registers: usize, tap: Tap) -> u8 {
    match tap {
        Tap::Const(byte) => byte,
        Tap::Reg { col, reg } => at(
            row,
            usize::from(col)
                .saturating_mul(registers)
                .saturating_add(usize::from(reg)),
        ),
    }
}

/// Appends the bytes of the outputs at one sample.
fn put_outputs<const N: usize, const P: usize>(
    conf: &Configuration<N, P>,
    row: &[u8],
    results: &mut Vec<u8>,
) -> Result<(), AllocError> {
    for output in &conf.outputs {
        for tap in &output.taps {
            results.push(tapped(row, P, *tap))?;
        }
    }
    Ok(())
}

/// Appends the bytes of the outputs at each sample. The rows are the samples at first, and then what the last stage
/// makes of them.
pub(crate) fn put_through<const N: usize, const P: usize>(
    alloc: Global,
    conf: &Configuration<N, P>,
    rows: &mut [Vec<u8>],
    results: &mut Vec<u8>,
) -> Result<(), AllocError> {
    let mut first = true;
    for stage in &conf.stages {
        through_stage(alloc, stage, P, first, rows)?;
        first = false;
    }
    for row in rows.iter() {
        put_outputs(conf, row, results)?;
    }
    Ok(())
}
