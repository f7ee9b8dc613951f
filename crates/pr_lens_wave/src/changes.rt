//! The changes of signals.

ghost use Rattle.std.specs.Prelude.{◌≡◌, ◌++◌, IfOk, OnOk, Some, replicate};
ghost use Rattle.pr_lens_wave.specs.Waves.{twice_and};
ghost use Rattle.pr_lens_wave.specs.Scenes.{after_cycle, after_cycles, bit_number, cycle_shown, kept_text, scene_of, stripes_shown, time_text};

use crate::head::Signal;
use crate::values::{put_bit_change, put_number_change};
use pr_lens_log::{Board, Excerpt, Log, Logged, Past};
use pr_lens_text::{put, put_counted};
use std::alloc::{AllocError, Global};

/// What was told last of each signal.
#[derive(Drop)]
struct Screen {
    values: Vec<Option<u64>>,
}

impl Screen {
    ghost use Rattle.pr_lens_wave.specs.Scenes.{is_news, told_after, number_shown, bit_shown};

    /// Whether a signal's value is another one than before.
    fn is_news(&self, signal: Signal, value: Option<u64>) -> bool
        ensures { result ≡ is_news self.now.values.items signal value }
    {
        match self.values.get(signal.number()) {
            None => false,
            Some(last) => *last != value,
        }
    }

    /// Takes a signal's value.
    fn take(&mut self, signal: Signal, value: Option<u64>)
        ensures { self.new.values.items ≡ told_after self.old.values.items signal value }
    {
        let number = signal.number();
        if number < self.values.len() {
            self.values[number] = value;
        }
    }

    /// Tells the value of a signal of several bits, where it is another one than before.
    #[tactic(auto, unfolding(crate::specs::Scenes::shown))]
    fn show(
        &mut self,
        alloc: Global,
        text: &mut Vec<u8>,
        signal: Signal,
        value: Option<u64>,
    ) -> Result<(), AllocError>
        ensures { OnOk result (record { text = text.new.items; told = self.new.values.items }
            ≡ number_shown signal value (record { text = text.old.items; told = self.old.values.items })) }
    {
        if !self.is_news(signal, value) {
            return Ok(());
        }
        self.take(signal, value);
        put_number_change(alloc, text, signal.number(), value)
    }

    /// Tells the value of a signal of one bit, where it is another one than before.
    #[tactic(auto, unfolding(crate::specs::Scenes::shown))]
    fn show_bit(
        &mut self,
        text: &mut Vec<u8>,
        signal: Signal,
        value: bool,
    ) -> Result<(), AllocError>
        ensures { OnOk result (record { text = text.new.items; told = self.new.values.items }
            ≡ bit_shown signal value (record { text = text.old.items; told = self.old.values.items })) }
    {
        let number = Some(bit_number(value));
        if !self.is_news(signal, number) {
            return Ok(());
        }
        self.take(signal, number);
        put_bit_change(text, signal.number(), value)
    }
}

fn bit_number(bit: bool) -> u64
    ensures { result ≡ bit_number bit }
{
    u64::from(bit)
}

/// A stage as the value of a signal.
fn stage_value(stage: Option<u32>) -> Option<u64>
    ensures { result ≡ stage }
{
    match stage {
        None => None,
        Some(stage) => Some(u64::from(stage)),
    }
}

/// Shows the stripes: each has the stage that came last, and is configured where one comes in this cycle.
#[tactic(auto, using(crate::proofs::WaveLaws::stripes_shown_more), unfolding(crate::specs::Scenes::stripes_shown))]
fn show_stripes(
    alloc: Global,
    text: &mut Vec<u8>,
    screen: &mut Screen,
    board: &Board,
    logged: &Logged,
    stripes: usize,
) -> Result<(), AllocError>
    ensures { OnOk result (record { text = text.new.items; told = screen.new.values.items }
        ≡ stripes_shown stripes board.now.stages.items logged.now.turn.configured
        (record { text = text.old.items; told = screen.old.values.items })) }
{
    for stripe in 0..stripes {
        let stage = stage_value(board.stage(stripe));
        screen.show(alloc, text, Signal::Stage(stripe), stage)?;
        screen.show_bit(text, Signal::Configured(stripe), logged.comes_into(stripe))?;
    }
    Ok(())
}

/// Shows what a cycle did beside the stripes.
#[tactic(auto, unfolding(crate::specs::Scenes::cycle_shown))]
fn show_cycle(
    alloc: Global,
    text: &mut Vec<u8>,
    screen: &mut Screen,
    logged: &Logged,
    past: &Past,
    written: u64,
) -> Result<(), AllocError>
    ensures { OnOk result (record { text = text.new.items; told = screen.new.values.items }
        ≡ cycle_shown logged.now past.now.entered past.now.left written
        (record { text = text.old.items; told = screen.old.values.items })) }
{
    screen.show(alloc, text, Signal::Cycle, Some(logged.time))?;
    screen.show_bit(text, Signal::Stalled, !logged.turn.advanced)?;
    screen.show(alloc, text, Signal::Sample, logged.turn.entered)?;
    screen.show(alloc, text, Signal::Result, logged.turn.left)?;
    let under_way = past.entered.saturating_sub(past.left);
    screen.show(alloc, text, Signal::UnderWay, Some(under_way))?;
    let waiting = past.left.saturating_sub(written);
    screen.show(alloc, text, Signal::Waiting, Some(waiting))
}

/// A screen for so many stripes, on which nothing is told yet.
#[tactic(auto, using(std::proofs::lemmas::List::replicate_more))]
fn screen_of(alloc: Global, stripes: usize) -> Result<Screen, AllocError>
    ensures { IfOk result (λ screen. screen.values.items
        ≡ replicate (twice_and stripes 6) (Some 18446744073709551615)) }
{
    let mut values = Vec::new(alloc);
    // A number that no signal has, so that each is told at first.
    for _ in 0..Signal::Stage(stripes).number() {
        values.push(Some(u64::MAX))?;
    }
    Ok(Screen { values })
}

/// Adds the time at which the cycle of this number begins.
#[tactic(auto, unfolding(crate::specs::Scenes::time_text))]
fn put_time(text: &mut Vec<u8>, number: usize) -> Result<(), AllocError>
    ensures { OnOk result (text.new.items ≡ text.old.items ++ time_text number) }
{
    put_counted(text, "#", number.saturating_mul(10))?;
    put(text, "\n")
}

/// What tells the cycles of a waveform, one after the other.
#[derive(Drop)]
struct Teller {
    screen: Screen,
    /// What the cycles so far left behind.
    past: Past,
    stripes: usize,
}

/// Adds the changes of the cycle of this number, before which so many results were written.
#[tactic(auto, unfolding(crate::specs::Scenes::after_cycle))]
fn put_cycle(
    alloc: Global,
    text: &mut Vec<u8>,
    teller: &mut Teller,
    number: usize,
    written: usize,
    logged: &Logged,
) -> Result<(), AllocError>
    ensures cycle { OnOk result (scene_of text.new.items teller.new
        ≡ after_cycle teller.old.stripes number logged.now written (scene_of text.old.items teller.old)) }
    ensures stripes { teller.new.stripes ≡ teller.old.stripes }
{
    put_time(text, number)?;
    teller.past.step(&logged.turn);
    show_stripes(
        alloc,
        text,
        &mut teller.screen,
        &teller.past.board,
        logged,
        teller.stripes,
    )?;
    show_cycle(
        alloc,
        text,
        &mut teller.screen,
        logged,
        &teller.past,
        written as u64,
    )
}

/// Adds the changes of these cycles, of which the first has this number, and before each of which so many results were
/// written.
fn put_part(
    alloc: Global,
    text: &mut Vec<u8>,
    teller: &mut Teller,
    first: usize,
    cycles: &[Logged],
    written: &[usize],
) -> Result<(), AllocError>
    ensures { OnOk result (scene_of text.new.items teller.new
        ≡ after_cycles teller.old.stripes first cycles.now written.now (scene_of text.old.items teller.old)) }
{
    for index in 0..cycles.len().min(written.len()) {
        let number = first.saturating_add(index);
        put_cycle(alloc, text, teller, number, written[index], &cycles[index])?;
    }
    Ok(())
}

/// Adds the changes of the cycles that a log keeps, and the time at which the last of those that are shown ends.
pub fn put_cycles(alloc: Global, text: &mut Vec<u8>, log: Log) -> Result<(), AllocError>
    ensures { OnOk result (text.new.items ≡ kept_text log text.old.items) }
{
    let Log { totals, excerpt } = log;
    let Excerpt {
        part,
        past,
        cycles,
        written,
    } = excerpt;
    let screen = screen_of(alloc, totals.stripes)?;
    let stripes = totals.stripes;
    let mut teller = Teller {
        screen,
        past,
        stripes,
    };
    put_part(alloc, text, &mut teller, part.start, &cycles, &written)?;
    put_time(text, part.end)
}
