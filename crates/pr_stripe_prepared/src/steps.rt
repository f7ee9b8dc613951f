//! A step of a prepared stage.

ghost use Rattle.std.specs.Prelude.{◌≡◌, ◌+◌, ◌-◌, ◌*◌, ◌/◌, ◌%◌, ◌<◌, ◌≤◌, false, [], ℕ, ◌==◌, if◌then◌else◌, slice_index, slice_index_or, true, replicate, ◌++◌, length, vec_len, List};
ghost use Rattle.pr_conf.specs.declared.pes.Pe.{Pe};
ghost use Rattle.pr_conf.specs.StageMap.{passed, registers_to};
ghost use Rattle.pr_base.specs.Pe.{PeResult};
ghost use Rattle.pr_stripe_columns.specs.Elements.{outputs_of};
ghost use Rattle.pr_stripe_prepared.specs.Elements.{AreMarks};
ghost use Rattle.pr_stripe_prepared.specs.Steps.{IsStep, IsFirstStep};

use crate::rounds::columns;
use crate::stages::Prepared;
use pr_lanes::copy_row;
use pr_lanes::lanes::{blended, choose, loaded, row_of, store};
use std::simd::prelude::*;

/// Makes a register of the one before, and of the outputs where they are marked.
#[inline(always)]
fn pass_one(into: &mut [u8], before: &[u8], output: &[u8], marks: &[u8])
    requires into { length into.old ≡ 16 }
    requires before { length before.now ≡ 16 }
    requires output { length output.now ≡ 16 }
    requires marks { length marks.now ≡ 16 }
    ensures { (reg : ℕ) (pes : List Pe) (made : List PeResult) → length pes ≡ 16
        → ((i : ℕ) (d : Pe) → i < 16 → slice_index marks.now i ≡ (if (slice_index_or pes i d).write == reg then 255 else 0))
        → output.now ≡ outputs_of made → into.new ≡ passed reg pes made before.now }
{
    let old = loaded(before);
    let fresh = loaded(output);
    let by = loaded(marks);
    store(into, blended(old, fresh, by));
}

/// Makes so many registers of those before, and of the outputs where they are marked.
#[inline(always)]
fn pass(registers: &mut [u8], before: &[u8], marks: &[u8], output: &[u8], count: usize)
    requires few { count ≤ 16 }
    requires registers { length registers.old ≡ count * 16 }
    requires before { length before.now ≡ count * 16 }
    requires marks { length marks.now ≡ count * 16 }
    requires output { length output.now ≡ 16 }
    ensures { (pes : List Pe) (made : List PeResult) → length pes ≡ 16
        → AreMarks count pes marks.now → output.now ≡ outputs_of made
        → registers.new ≡ registers_to count 16 false pes made before.now }
{
    for k in 0..count {
        let at = k * 16;
        let end = at + 16;
        pass_one(
            &mut registers[at..end],
            &before[at..end],
            output,
            &marks[at..end],
        );
    }
}

/// The step of a stage that makes so many registers, of those before.
#[derive(Clone, Copy)]
struct StageStep<'a> {
    stage: &'a Prepared,
    before: &'a [u8],
    count: usize,
    ghost few: { count ≤ 16 },
    ghost long: { length before.now ≡ count * 16 },
    ghost marks: { vec_len stage.now.marks ≡ count * 16 },
}

impl StageStep<'_> {
    /// In one round, or in as many as there are.
    #[inline(always)]
    fn by<const ONCE: bool>(self, row: &[u8], registers: &mut [u8], state: &mut [u8])
        requires once { ONCE ≡ true → self.stage.now.rounds ≡ 1 }
        requires row { self.stage.now.reach ≤ length row.now }
        requires registers { length registers.old ≡ self.count * 16 }
        requires state { length state.old ≡ 16 }
        ensures { IsStep self.entry.stage.now self.entry.count row.now self.entry.before.now
            state.old registers.new state.new }
    {
        let was = loaded(state);
        let made = columns::<ONCE>(self.stage, row, was);
        pass(
            registers,
            self.before,
            &self.stage.marks,
            &made.output.to_array(),
            self.count,
        );
        if self.stage.has_state {
            let first = choose(was, made.output, row_of(&self.stage.to_output));
            store(state, choose(first, made.a, row_of(&self.stage.to_a)));
        }
    }

    /// Of the row that is read.
    #[inline(always)]
    fn take(self, row: &[u8], registers: &mut [u8], state: &mut [u8])
        requires row { self.stage.now.reach ≤ length row.now }
        requires registers { length registers.old ≡ self.count * 16 }
        requires state { length state.old ≡ 16 }
        ensures { IsStep self.entry.stage.now self.entry.count row.now self.entry.before.now
            state.old registers.new state.new }
    {
        if self.stage.rounds == 1 {
            self.by::<true>(row, registers, state);
        } else {
            step_in_rounds(self.stage, self.before, self.count, row, registers, state);
        }
    }

    /// Of a sample with zeros behind it, where zeros are passed on.
    #[inline(always)]
    fn take_wide(self, wide: &[u8], registers: &mut [u8], state: &mut [u8])
        requires zeros { self.before.now ≡ replicate (self.count * 16) 0 }
        requires wide { self.stage.now.reach ≤ length wide.now }
        requires registers { length registers.old ≡ self.count * 16 }
        requires state { length state.old ≡ 16 }
        ensures { (bus : List ℕ) (k : ℕ) → wide.now ≡ bus ++ replicate k 0
            → IsFirstStep self.entry.stage.now self.entry.count bus state.old registers.new state.new }
    {
        self.take(wide, registers, state);
    }

    /// Of a sample that is longer than most, or of another fabric.
    #[inline(always)]
    fn take_far(self, bus: &[u8], registers: &mut [u8], state: &mut [u8])
        requires few { self.count ≤ 15 }
        requires zeros { self.before.now ≡ replicate (self.count * 16) 0 }
        requires reach { self.stage.now.reach ≡ self.count * 16 }
        requires registers { length registers.old ≡ self.count * 16 }
        requires state { length state.old ≡ 16 }
        ensures { IsFirstStep self.entry.stage.now self.entry.count bus.now state.old registers.new state.new }
    {
        // Of 240 bytes is the longest row.
        if bus.len() < 240 {
            let mut wide = [0; 240];
            pad(&mut wide, bus);
            self.take_wide(&wide, registers, state);
            return;
        }
        self.take_wide(bus, registers, state);
    }
}

/// The step of a stage in as many rounds as there are. It stands apart and takes the parts of a `StageStep`, so that the step
/// of most stages keeps nothing for it.
#[inline(never)]
fn step_in_rounds(
    stage: &Prepared,
    before: &[u8],
    count: usize,
    row: &[u8],
    registers: &mut [u8],
    state: &mut [u8],
)
    requires few { count ≤ 16 }
    requires long { length before.now ≡ count * 16 }
    requires marks { vec_len stage.now.marks ≡ count * 16 }
    requires row { stage.now.reach ≤ length row.now }
    requires registers { length registers.old ≡ count * 16 }
    requires state { length state.old ≡ 16 }
    ensures { IsStep stage.now count row.now before.now state.old registers.new state.new }
{
    let step = StageStep {
        stage,
        before,
        count,
    };
    step.by::<false>(row, registers, state);
}

/// The step of a first stage of another fabric, or that reads a longer sample. It stands apart in the same way.
#[inline(never)]
fn far_step(
    stage: &Prepared,
    zeros: &[u8],
    count: usize,
    bus: &[u8],
    registers: &mut [u8],
    state: &mut [u8],
)
    requires few { count ≤ 15 }
    requires zeros { zeros.now ≡ replicate (count * 16) 0 }
    requires long { length zeros.now ≡ count * 16 }
    requires marks { vec_len stage.now.marks ≡ count * 16 }
    requires reach { stage.now.reach ≡ count * 16 }
    requires registers { length registers.old ≡ count * 16 }
    requires state { length state.old ≡ 16 }
    ensures { IsFirstStep stage.now count bus.now state.old registers.new state.new }
{
    let step = StageStep {
        stage,
        before: zeros,
        count,
    };
    step.take_far(bus, registers, state);
}

/// Puts a sample at the front of zeros.
#[inline(always)]
fn pad<const LONG: usize>(wide: &mut [u8; LONG], bus: &[u8])
    requires room { length bus.now ≤ LONG }
    requires zeros { wide.old ≡ replicate LONG 0 }
    ensures long { length wide.new ≡ LONG }
    ensures bytes { wide.new ≡ bus.now ++ replicate (LONG - length bus.now) 0 }
{
    copy_row(&mut wide[..bus.len()], bus);
}

/// Makes so many registers of the row that is read and of those before, and changes the state.
#[inline(always)]
pub fn step(
    q: &Prepared,
    registers: &mut [u8],
    state: &mut [u8],
    row: &[u8],
    before: &[u8],
    count: usize,
)
    requires few { count ≤ 16 }
    requires registers { length registers.old ≡ count * 16 }
    requires before { length before.now ≡ count * 16 }
    requires marks { vec_len q.now.marks ≡ count * 16 }
    requires row { q.now.reach ≤ length row.now }
    requires state { length state.old ≡ 16 }
    ensures { IsStep q.now count row.now before.now state.old registers.new state.new }
{
    let step = StageStep {
        stage: q,
        before,
        count,
    };
    step.take(row, registers, state);
}

/// The step of a first stage, which reads a sample, and passes on zeros.
#[inline(always)]
pub fn first_step(
    q: &Prepared,
    registers: &mut [u8],
    state: &mut [u8],
    bus: &[u8],
    zeros: &[u8],
    count: usize,
)
    requires few { count ≤ 15 }
    requires registers { length registers.old ≡ count * 16 }
    requires zeros { zeros.now ≡ replicate (count * 16) 0 }
    requires long { length zeros.now ≡ count * 16 }
    requires marks { vec_len q.now.marks ≡ count * 16 }
    requires reach { q.now.reach ≡ count * 16 }
    requires state { length state.old ≡ 16 }
    ensures { IsFirstStep q.now count bus.now state.old registers.new state.new }
{
    // The base fabric has seven registers beside the state, in 112 bytes; the number is known where it is tested.
    if count == 7 && bus.len() <= 112 {
        let step = StageStep {
            stage: q,
            before: zeros,
            count,
        };
        let mut wide = [0; 112];
        pad(&mut wide, bus);
        step.take_wide(&wide, registers, state);
        return;
    }
    far_step(q, zeros, count, bus, registers, state);
}
