//! The stages on stripes, cycle by cycle. What they make is that of a separate model of the stage map.

ghost use Rattle.std.specs.Prelude.{◌≡◌, ◌<◌, ℕ, true, IfOk, length};
ghost use Rattle.pr_conf.specs.Rules.{are_lawful_pes, site_of};

use crate::stages::{PASSING, filter_stage, first_stage, later_stage};
use pr_conf::{Pe, Source, Stage};
use pr_control::Store;
use pr_stripe::{Blank, Live, Row, Stripe};
use std::alloc::{AllocError, Global};
use std::test::Fail;

/// The bytes of the registers 1 to 3 of four columns.
type Registers = [[u8; 4]; 3];

/// In each cycle the bytes on the bus, and what the stripe before shows: these registers, or a bubble (`-`).
const CYCLES: &str = "7 21  7 112 125 190  3 92 25 202  63 136 245 22
255 253  255 72 181 214  123 180 209 98  55 96 45 46
3 9  -
0 0  0 77 206 83  236 233 218 143  24 197 38 11
128 128  128 205 78 211  108 105 90 15  152 69 166 139
90 14  -";

/// What the first stage shows after each cycle, and the states of the three stages in the store after them.
const FIRST: &str = "175 0 0 14  0 29 0 0  0 0 94 0
16 0 0 14  0 125 0 0  0 0 46 0
-
0 0 0 0  0 1 0 0  0 0 0 0
132 0 0 9  0 1 0 0  0 0 9 0
-
128 1 9 9  9 9 9 9  9 9 9 9";

/// The same of the later stage.
const LATER: &str = "7 112 148 190  158 92 25 202  63 136 245 1
255 72 178 214  133 180 209 98  55 96 45 0
-
0 77 74 83  36 233 218 143  24 197 38 0
128 205 218 211  52 105 90 15  152 69 166 0
-
9 9 9 9  52 105 166 9  9 9 9 9";

/// The same of the stage of a filter.
const FILTER: &str = "9 112 125 190  3 164 25 202  63 136 245 22
7 72 181 214  123 236 209 98  55 96 45 46
-
255 77 206 83  236 225 226 143  24 197 38 11
0 205 78 211  108 105 90 15  152 69 166 139
-
9 9 9 9  9 9 9 9  128 9 9 9";

/// The bytes of the first twelve words of a text; 0 where a word is no byte.
fn registers_in(words: &str) -> Registers {
    let mut registers = [[0; 4]; 3];
    for (k, word) in words.split_whitespace().enumerate() {
        if let (true, Ok(byte)) = (k < 12, word.parse()) {
            registers[k / 4][k % 4] = byte;
        }
    }
    registers
}

/// What a text shows: registers, or a bubble.
fn shown_in(words: &str) -> Option<Registers> {
    if words == "-" {
        return None;
    }
    Some(registers_in(words))
}

/// A stage that writes these bytes to a register, and passes the others on.
fn writing(alloc: Global, bytes: [u8; 4], write: u8) -> Result<Stage<4>, AllocError>
    requires { write < 4 }
    ensures { IfOk result (λ s. (n : ℕ) → are_lawful_pes (site_of 4 4 2 n) s.pes.items ≡ true) }
{
    let first = Pe {
        hi: Source::Const(bytes[0]),
        write,
        ..PASSING
    };
    let second = Pe {
        hi: Source::Const(bytes[1]),
        write,
        ..PASSING
    };
    let third = Pe {
        hi: Source::Const(bytes[2]),
        write,
        ..PASSING
    };
    let fourth = Pe {
        hi: Source::Const(bytes[3]),
        write,
        ..PASSING
    };
    let pes = vec![in alloc; first, second, third, fourth]?;
    Ok(Stage { pes })
}

/// A stripe on the stage of this number, as the store has it. It shows a bubble.
fn armed(alloc: Global, number: u32, store: &Store<4>) -> Result<Stripe<4, 4, Live>, AllocError>
    requires { number < length store.now }
    ensures { IfOk result (λ s. s.mark.stage ≡ number) }
{
    Ok(Stripe::<4, 4, Blank>::make(alloc)?.arm(number, store))
}

/// A stripe that shows what a row does, with these bytes in the register after the one of its number.
fn after(
    alloc: Global,
    number: u32,
    row: &Row<4, 4>,
    bytes: [u8; 4],
) -> Result<Stripe<4, 4, Live>, AllocError>
    requires { number < 3 }
{
    let stage = writing(alloc, bytes, number as u8 + 1)?;
    let store = Store::<4>::make(alloc, &[0; 12])?;
    let mut stripe = armed(alloc, number, &store)?;
    stripe.compute(row, &[0, 0], number == 0 || row.valid(), &stage);
    Ok(stripe)
}

/// The stripe before, which shows these registers, each written by a stage, or a bubble.
fn before(alloc: Global, shown: Option<Registers>) -> Result<Stripe<4, 4, Live>, AllocError> {
    let store = Store::<4>::make(alloc, &[0; 12])?;
    let mut stripe = armed(alloc, 0, &store)?;
    if let Some(registers) = shown {
        for number in 0..3u32 {
            stripe = after(alloc, number, stripe.row(), registers[number as usize])?;
        }
    }
    Ok(stripe)
}

/// Whether a row shows these registers.
fn has_registers(row: &Row<4, 4>, registers: Registers) -> bool {
    row.valid()
        && row.register(1) == registers[0].as_slice()
        && row.register(2) == registers[1].as_slice()
        && row.register(3) == registers[2].as_slice()
        && row.byte(3, 1) == registers[0][3]
}

/// Whether a stripe shows these registers, or a bubble.
fn is_shown(stripe: &Stripe<4, 4, Live>, shown: Option<Registers>) -> bool {
    match shown {
        Some(registers) => has_registers(stripe.row(), registers),
        None => !stripe.row().valid(),
    }
}

/// The states of the three stages in the store.
fn states(store: &Store<4>) -> [[u8; 4]; 3]
    requires { 2 < length store.now }
{
    let mut states = [[0; 4]; 3];
    for stage in 0..3u32 {
        states[stage as usize].copy_from_slice(store.row(stage));
    }
    states
}

/// One cycle on what the stripe before shows, with these bytes on the bus.
fn cycle(
    alloc: Global,
    stripe: &mut Stripe<4, 4, Live>,
    stage: &Stage<4>,
    sample: [u8; 2],
    shown: Option<Registers>,
) -> Result<(), AllocError>
    requires { are_lawful_pes (site_of 4 4 2 stripe.old.mark.stage) stage.now.pes.items ≡ true }
    ensures { stripe.new.mark.stage ≡ stripe.old.mark.stage }
{
    let prev = before(alloc, shown)?;
    stripe.compute(prev.row(), &sample, prev.row().valid(), stage);
    Ok(())
}

/// The bytes on the bus and what the stripe before shows, by a line of the cycles.
fn cycle_in(line: &str) -> ([u8; 2], Option<Registers>) {
    let (bus, shown) = line.split_once("  ").unwrap_or((line, ""));
    let bytes = registers_in(bus)[0];
    ([bytes[0], bytes[1]], shown_in(shown))
}

/// The stage of this number.
fn stage_of(alloc: Global, number: u32) -> Result<Stage<4>, AllocError>
    requires { number < 3 }
    ensures { IfOk result (λ s. are_lawful_pes (site_of 4 4 2 number) s.pes.items ≡ true) }
{
    match number {
        0 => first_stage(alloc),
        1 => later_stage(alloc),
        _ => filter_stage(alloc),
    }
}

/// The first of these lines that a stage does not show after its cycle.
fn other_cycle(
    alloc: Global,
    stripe: &mut Stripe<4, 4, Live>,
    cycles: &str,
    lines: &'static str,
) -> Result<Option<&'static str>, AllocError>
    requires { stripe.old.mark.stage < 3 }
    ensures { stripe.new.mark.stage ≡ stripe.old.mark.stage }
{
    let stage = stage_of(alloc, stripe.stage_number())?;
    for (line, shown) in cycles.lines().zip(lines.lines()) {
        let (sample, prev) = cycle_in(line);
        cycle(alloc, stripe, &stage, sample, prev)?;
        if !is_shown(stripe, shown_in(shown)) {
            return Ok(Some(shown));
        }
    }
    Ok(None)
}

/// Whether a stripe is on the stage of this number, gives it up and saves its state, so that the store has these.
fn is_saved(
    stripe: Stripe<4, 4, Live>,
    number: u32,
    store: &mut Store<4>,
    wanted: Registers,
) -> bool
    requires number { stripe.mark.stage < length store.old }
    requires stages { 2 < length store.old }
{
    let is_live = stripe.stage_number() == number;
    let due = stripe.retire();
    let is_due = due.stage_number() == number;
    let saved = due.save(store);
    is_live && is_due && !saved.row().valid() && states(store) == wanted
}

/// The states in the last of these lines.
fn states_in(lines: &str) -> Registers {
    registers_in(lines.lines().last().unwrap_or(""))
}

/// The first of these lines that a stage does not show, or `states` where those in the last line are not in the store then.
/// All states begin as this byte.
fn other_line(
    alloc: Global,
    number: u32,
    state: u8,
    cycles: &str,
    lines: &'static str,
) -> Result<Option<&'static str>, AllocError>
    requires { number < 3 }
{
    let mut store = Store::<4>::make(alloc, &[state; 12])?;
    let mut stripe = armed(alloc, number, &store)?;
    let other = other_cycle(alloc, &mut stripe, cycles, lines)?;
    if other.is_none() && !is_saved(stripe, number, &mut store, states_in(lines)) {
        return Ok(Some("states"));
    }
    Ok(other)
}

/// What each stage shows, and that the states of the other stages stay.
#[test]
fn each_stage_makes_its_map(rt: HostRuntime) -> Result<(), Fail> {
    let shown = [FIRST, LATER, FILTER];
    for number in 0..3u32 {
        let other = other_line(rt.alloc(), number, 9, CYCLES, shown[number as usize])?;
        assert_eq!(rt; other, None, "stage {number}");
    }
    Ok(())
}

/// 98,559 and eight times 200 are 100,159. A bubble follows.
#[test]
fn a_filter_adds_with_the_carry(rt: HostRuntime) -> Result<(), Fail> {
    let cycles = "0 0  5 0 0 0  0 255 128 1  0 0 0 0
0 0  -";
    let lines = "200 0 0 0  0 63 135 1  0 0 0 0
-
200 200 200 200  200 200 200 200  5 200 200 200";
    let other = other_line(rt.alloc(), 2, 200, cycles, lines)?;
    assert_eq!(rt; other, None);
    Ok(())
}

/// A stripe on the stage of a filter, with the states of this store, after a cycle in which the stripe before shows 5.
fn filtered(alloc: Global, store: &Store<4>) -> Result<Stripe<4, 4, Live>, AllocError>
    requires { 2 < length store.now }
    ensures { IfOk result (λ s. s.mark.stage ≡ 2) }
{
    let mut stripe = armed(alloc, 2, store)?;
    let stage = filter_stage(alloc)?;
    let shown = [[5, 0, 0, 0], [0; 4], [0; 4]];
    cycle(alloc, &mut stripe, &stage, [0, 0], Some(shown))?;
    Ok(stripe)
}

/// Whether a stripe takes another stage in place, and then shows a bubble, and the store has these states.
fn is_rearmed(
    stripe: &mut Stripe<4, 4, Live>,
    stage: u32,
    store: &mut Store<4>,
    wanted: Registers,
) -> bool
    requires held { stripe.old.mark.stage < length store.old }
    requires stage { stage < length store.old }
    requires stages { 2 < length store.old }
    ensures stage { stripe.new.mark.stage ≡ stage }
    ensures store { length store.new ≡ length store.old }
{
    stripe.rearm(stage, store);
    stripe.stage_number() == stage && is_shown(stripe, None) && states(store) == wanted
}

/// A stripe that takes another stage in place leaves its state in the store, and shows a bubble.
#[test]
fn a_stripe_takes_another_stage(rt: HostRuntime) -> Result<(), Fail> {
    let mut store = Store::<4>::make(rt.alloc(), &[1, 1, 1, 1, 2, 2, 2, 2, 3, 3, 3, 3])?;
    let mut stripe = filtered(rt.alloc(), &store)?;
    assert!(rt; states(&store) == [[1; 4], [2; 4], [3; 4]]);
    let wanted = [[1; 4], [2; 4], [5, 3, 3, 3]];
    assert!(rt; is_rearmed(&mut stripe, 1, &mut store, wanted));
    assert!(rt; is_rearmed(&mut stripe, 0, &mut store, wanted));
    Ok(())
}
