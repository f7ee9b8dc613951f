//! The widths of all equations.

ghost use Rattle.std.specs.Prelude.{◌⊎◌, map, unwrap_or, ◌≡◌, ◌≢◌, ◌<◌, ◌≤◌, ◌+◌, ◌^◌, ℕ, List, false, Some, None, Ok, Err, length, vec_len, slice_get, slice_index, IfNone, IfSome, MatchResult, alloc_error, IfOk, IfErr};
ghost use Rattle.std.specs.Bool.{OnTrue, OnFalse};
ghost use Rattle.pr_flat.specs.Flats.{equations_of};
ghost use Rattle.pr_flat.specs.Widths.{AgreeBelow, AreWidthsBelow, AreWidths, IsFirstWithout};
ghost use Rattle.pr_width.specs.Parts.{IsOpenAt, IsClosed, AreClosed, BeginsPart, HoldsNowhereBy, HoldsNotAt, HoldsAt, StopsAt};

use crate::operators::{operand_width, width_of};
use crate::widths::{WidthFault, Widths};
use pr_base::{GREATEST, bits_of};
use pr_flat::{Flat, Op};
use std::alloc::{AllocError, Global};

/// A recurrence without declared width: its number, that of the first equation of its body, and its initial value.
#[derive(Clone, Copy, Debug)]
struct Recurrence {
    number: usize,
    first: usize,
    init: u64,
}

/// The declared width of each equation, and 0 for each without.
fn declared_widths(alloc: Global, flat: &Flat) -> Result<Vec<u8>, AllocError>
    ensures { IfOk result (λ v. v.items ≡ map (λ e. unwrap_or e.declared 0) flat.now.equations.items) }
{
    flat.equations
        .iter()
        .map(|equation| equation.declared.unwrap_or(0))
        .collect(alloc)
}

/// The recurrence of this number, if it is one without declared width.
fn open_at(flat: &Flat, number: usize) -> Option<Recurrence>
    requires { number < vec_len flat.now.equations }
    ensures closed { IfNone result (IsClosed (equations_of flat.now) number) }
    ensures there { IfSome result (λ r. IsOpenAt (equations_of flat.now) r × (r.number ≡ number)) }
{
    let equation = &flat.equations[number];
    if equation.declared.is_some() {
        return None;
    }
    match equation.op {
        Op::Rec { init, first } => Some(Recurrence {
            number,
            first: first as usize,
            init,
        }),
        _ => None,
    }
}

/// The next recurrence without declared width.
fn next_open(flat: &Flat, from: usize) -> Option<Recurrence>
    ensures closed { IfNone result (AreClosed (equations_of flat.now) from (vec_len flat.now.equations)) }
    ensures there { IfSome result (λ r. IsOpenAt (equations_of flat.now) r × (from ≤ r.number)) }
    ensures next { IfSome result (λ r. AreClosed (equations_of flat.now) from r.number) }
{
    for number in from..flat.equations.len() {
        if let Some(recurrence) = open_at(flat, number) {
            return Some(recurrence);
        }
    }
    None
}

/// Puts the widths of equations, and gives the number of the first without one, or else the end.
fn fill(flat: &Flat, from: usize, end: usize, widths: &mut [u8]) -> usize
    requires ordered { from ≤ end }
    requires within { end ≤ vec_len flat.now.equations }
    requires below { AreWidthsBelow from (equations_of flat.now) widths.old }
    requires closed { AreClosed (equations_of flat.now) from end }
    ensures low { from ≤ result }
    ensures high { result ≤ end }
    ensures below { AreWidthsBelow result (equations_of flat.now) widths.new }
    ensures before { AgreeBelow from widths.old widths.new }
    ensures after { (k : ℕ) → end ≤ k → slice_index widths.new k ≡ slice_index widths.old k }
    ensures stops { StopsAt (equations_of flat.now) end widths.new result }
{
    for i in from..end {
        match width_of(&flat.equations[i], widths) {
            Some(width) => widths[i] = width,
            None => return i,
        }
    }
    end
}

/// Tries a width of a recurrence: puts the widths of its body, and tells whether the recurrence holds.
fn holds_at(flat: &Flat, recurrence: Recurrence, width: u8, widths: &mut [u8]) -> bool
    requires there { IsOpenAt (equations_of flat.now) recurrence }
    requires below { AreWidthsBelow recurrence.first (equations_of flat.now) widths.old }
    requires least { 1 ≤ width }
    requires greatest { width ≤ 128 }
    requires initial { recurrence.init < 2 ^ width }
    ensures below { AreWidthsBelow recurrence.first (equations_of flat.now) widths.new }
    ensures before { AgreeBelow recurrence.first widths.old widths.new }
    ensures holds { OnTrue result (HoldsAt (equations_of flat.now) recurrence width widths.new) }
    ensures fails { OnFalse result (HoldsNotAt (equations_of flat.now) recurrence widths.old width) }
{
    widths[recurrence.number] = width;
    let reached = fill(flat, recurrence.first, recurrence.number, widths);
    if reached < recurrence.number {
        return false;
    }
    operand_width(flat.equations[recurrence.number].args[0], widths) <= width
}

/// Puts the least width of a recurrence and the widths of its body, if there are any.
fn put_least(flat: &Flat, recurrence: Recurrence, widths: &mut [u8]) -> bool
    requires there { IsOpenAt (equations_of flat.now) recurrence }
    requires below { AreWidthsBelow recurrence.first (equations_of flat.now) widths.old }
    ensures found { OnTrue result (AreWidthsBelow (recurrence.number + 1) (equations_of flat.now) widths.new) }
    ensures nowhere { OnFalse result (HoldsNowhereBy (equations_of flat.now) recurrence widths.old) }
{
    let least = bits_of(u128::from(recurrence.init)).get();
    for width in least..GREATEST + 1 {
        if holds_at(flat, recurrence, width, widths) {
            return true;
        }
    }
    false
}

/// Puts the widths up to the next recurrence without declared width, with its own, and gives the number after it.
fn put_part(flat: &Flat, from: usize, widths: &mut [u8]) -> Result<usize, usize>
    requires within { from < vec_len flat.now.equations }
    requires below { AreWidthsBelow from (equations_of flat.now) widths.old }
    requires begins { BeginsPart (equations_of flat.now) from }
    ensures ok { IfOk result (λ next. (from < next) × (next ≤ vec_len flat.now.equations)) }
    ensures below { IfOk result (λ next. AreWidthsBelow next (equations_of flat.now) widths.new) }
    ensures begins { IfOk result (λ next. BeginsPart (equations_of flat.now) next) }
    ensures without { IfErr result (λ n. IsFirstWithout (equations_of flat.now) n × (n < vec_len flat.now.equations)) }
{
    match next_open(flat, from) {
        None => put_last(flat, from, widths),
        Some(recurrence) => put_recurrence(flat, from, recurrence, widths),
    }
}

/// Puts the widths from an equation on where no recurrence without declared width follows.
fn put_last(flat: &Flat, from: usize, widths: &mut [u8]) -> Result<usize, usize>
    requires within { from < vec_len flat.now.equations }
    requires below { AreWidthsBelow from (equations_of flat.now) widths.old }
    requires closed { AreClosed (equations_of flat.now) from (vec_len flat.now.equations) }
    ensures ok { IfOk result (λ next. next ≡ vec_len flat.now.equations) }
    ensures below { IfOk result (λ next. AreWidthsBelow next (equations_of flat.now) widths.new) }
    ensures without { IfErr result (λ n. IsFirstWithout (equations_of flat.now) n × (n < vec_len flat.now.equations)) }
{
    let count = flat.equations.len();
    let reached = fill(flat, from, count, widths);
    if reached < count {
        return Err(reached);
    }
    Ok(count)
}

/// Puts the widths from an equation on up to the next recurrence without declared width, and with it.
fn put_recurrence(
    flat: &Flat,
    from: usize,
    recurrence: Recurrence,
    widths: &mut [u8],
) -> Result<usize, usize>
    requires there { IsOpenAt (equations_of flat.now) recurrence }
    requires after { from ≤ recurrence.number }
    requires below { AreWidthsBelow from (equations_of flat.now) widths.old }
    requires closed { AreClosed (equations_of flat.now) from recurrence.number }
    requires begins { BeginsPart (equations_of flat.now) from }
    ensures ok { IfOk result (λ next. next ≡ recurrence.number + 1) }
    ensures below { IfOk result (λ next. AreWidthsBelow next (equations_of flat.now) widths.new) }
    ensures without { IfErr result (λ n. IsFirstWithout (equations_of flat.now) n × (n < vec_len flat.now.equations)) }
{
    let reached = fill(flat, from, recurrence.first, widths);
    if reached < recurrence.first {
        return Err(reached);
    }
    if !put_least(flat, recurrence, widths) {
        return Err(recurrence.number);
    }
    Ok(recurrence.number + 1)
}

/// Puts all widths, and gives the number of the first equation that has none.
fn put_all(flat: &Flat, widths: &mut [u8]) -> Option<usize>
    requires { AreWidthsBelow 0 (equations_of flat.now) widths.old }
    ensures all { IfNone result (AreWidths (equations_of flat.now) widths.new) }
    ensures without { IfSome result (λ n. IsFirstWithout (equations_of flat.now) n × (n < vec_len flat.now.equations)) }
{
    let mut done = 0;
    while done < flat.equations.len() {
        match put_part(flat, done, widths) {
            Ok(next) => done = next,
            Err(equation) => return Some(equation),
        }
    }
    None
}

/// All widths in place of the declared ones, or else the number of the first equation that has none.
fn settled(flat: &Flat, mut widths: Vec<u8>) -> Result<Vec<u8>, usize>
    requires { AreWidthsBelow 0 (equations_of flat.now) widths.items }
    ensures widths { IfOk result (λ v. AreWidths (equations_of flat.now) v.items) }
    ensures without { IfErr result (λ n. IsFirstWithout (equations_of flat.now) n × (n < vec_len flat.now.equations)) }
{
    match put_all(flat, &mut widths) {
        None => Ok(widths),
        Some(equation) => Err(equation),
    }
}

/// The width of each equation, each recurrence's the least.
///
/// # Errors
///
/// `NoWidth` with the first equation that has none, `Memory` where memory is wanting.
pub fn solve(alloc: Global, flat: &Flat) -> Result<Widths, WidthFault>
    ensures widths { IfOk result (λ w. AreWidths (equations_of flat.now) w) }
    ensures without { (n : ℕ) → result ≡ Err (WidthFault.NoWidth n) → IsFirstWithout (equations_of flat.now) n }
    ensures only_widths { (widths : List ℕ) → AreWidths (equations_of flat.now) widths →
        MatchResult result (λ w. w ≡ widths) (λ e. e ≡ WidthFault.Memory alloc_error) }
    ensures only_without { (n : ℕ) → IsFirstWithout (equations_of flat.now) n →
        MatchResult result (λ _. ⊥) (λ e. (e ≡ WidthFault.NoWidth n) ⊎ (e ≡ WidthFault.Memory alloc_error)) }
{
    let declared = declared_widths(alloc, flat)?;
    match settled(flat, declared) {
        Ok(of) => Ok(Widths { of }),
        Err(equation) => Err(WidthFault::NoWidth {
            equation: equation as u32,
        }),
    }
}
