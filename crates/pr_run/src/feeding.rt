//! The first step of a turn: a sample is read and offered.
ghost use Rattle.std.specs.Prelude.{ℕ, ◌≡◌, ◌<◌, ◌≤◌, ◌+◌, ◌++◌, ◌∷◌, [], ◌&&◌, not, nat_lt, false, List, length, take, sum_by};
ghost use Rattle.pr_base.specs.Numbers.{bytes_of, slices_of};
ghost use Rattle.pr_base.specs.Rows.{row_bytes};
ghost use Rattle.pr_edge.specs.Tape.{Tape};
ghost use Rattle.pr_samples.specs.Feed.{widths_of};
ghost use Rattle.pr_samples.specs.Got.{is_sample};
ghost use Rattle.pr_machine_account.specs.Account.{Offer};
ghost use Rattle.pr_conf.specs.Shape.{Shape};
ghost use Rattle.pr_machine.specs.Stands.{Stands, History, conf_of, waiting_samples, IsKept};
ghost use Rattle.pr_run_script.specs.Script.{Held, Run, fed};
ghost use Rattle.pr_run.specs.Setting.{Setting, IsSet, stages_of};
ghost use Rattle.pr_run.specs.Turns.{IsOn};

use crate::rooms::Room;
use pr_base::{Num, byte_of, slices};
use pr_edge::Shelf;
use pr_machine::{Machine, Running};
use pr_samples::{Feed, Got};

/// The samples that wait at most.
const FULL: usize = 16;

/// Puts the lowest bytes of a number into a buffer, as many as fit, the least first.
#[inline(always)]
fn put_number(into: &mut [u8], n: Num)
    ensures { into.new ≡ bytes_of (length into.old) n }
{
    if into.len() == 1 {
        into[0] = byte_of(n, 0);
        return;
    }
    for i in 0..into.len() {
        into[i] = byte_of(n, i);
    }
}

/// Puts the bytes of a row of numbers at the front of a buffer, and says how many they are.
#[inline(always)]
fn put_sample(into: &mut [u8], widths: &[u8], numbers: &[Num]) -> usize
    requires numbers { length numbers.now ≡ length widths.now }
    requires room { sum_by slices_of widths.now ≤ length into.old }
    ensures count { result ≡ sum_by slices_of widths.now }
    ensures bytes { take result into.new ≡ row_bytes widths.now numbers.now }
    ensures length { length into.new ≡ length into.old }
{
    let mut at = 0;
    for i in 0..widths.len() {
        let end = at + slices(widths[i]);
        put_number(&mut into[at..end], numbers[i]);
        at = end;
    }
    at
}

/// Offers a sample of these numbers, for which there is room. The first bytes of the buffer of 64 are overwritten.
#[inline(always)]
pub fn offer_sample<const N: usize, const P: usize>(
    machine: &mut Machine<N, P, Running>,
    bytes: &mut [u8],
    numbers: &[Num],
)
    requires bytes { length bytes.old ≡ 64 }
    requires numbers { length numbers.now ≡ length (conf_of machine.old).inputs }
    requires room { length (waiting_samples machine.old) < 16 }
    ensures bytes { length bytes.new ≡ 64 }
    ensures stands { (c : Shape) (p : ℕ) (h : History) → Stands machine.old c p h
        → Stands machine.new c p (h ++ Offer (row_bytes c.inputs numbers.now) ∷ []) }
    ensures kept { IsKept machine.old machine.new }
{
    let size = put_sample(bytes, &machine.conf().inputs, numbers);
    machine.offer(&bytes[..size]).unwrap();
}

/// Whether an answer of a feed is a sample.
pub fn goes_on(last: Got) -> bool
    ensures { result ≡ is_sample last }
{
    matches!(last, Got::Sample)
}

/// Whether a sample is to be read.
fn may_read(held: bool, last: Got, waiting: usize) -> bool
    ensures { result ≡ (not held && is_sample last && nat_lt waiting 16) }
{
    !held && goes_on(last) && waiting < FULL
}

/// Reads a sample and offers it, and gives the feed's answer.
#[inline(always)]
fn read_one<const N: usize, const P: usize, S: Shelf>(
    machine: &mut Machine<N, P, Running>,
    feed: &mut Feed,
    shelf: &mut S,
    numbers: &mut [Num],
    bytes: &mut [u8],
) -> Got
    requires inputs { widths_of feed.old ≡ (conf_of machine.old).inputs }
    requires numbers { length numbers.old ≡ length (conf_of machine.old).inputs }
    requires bytes { length bytes.old ≡ 64 }
    requires room { length (waiting_samples machine.old) < 16 }
    ensures on { (s : Setting) (runs : List (List ℕ) → Run (List ℕ)) (turn : Held) (t : Tape)
        → IsSet s → turn.input ≡ false
        → IsOn s runs machine.old feed.old (S.view shelf.old) t Got.Sample
        → IsOn s (λ xs. fed (stages_of s) s.stripes turn (runs xs)) machine.new feed.new (S.view shelf.new) t result }
    ensures inputs { widths_of feed.new ≡ widths_of feed.old }
    ensures kept { IsKept machine.old machine.new }
    ensures bytes { length bytes.new ≡ 64 }
{
    let got = feed.next(shelf, numbers);
    if goes_on(got) {
        offer_sample(machine, bytes, numbers);
    }
    got
}

/// Reads a sample into the first of 64 numbers and offers it, and gives the feed's answer.
#[inline(always)]
fn read_sample<const N: usize, const P: usize, S: Shelf>(
    machine: &mut Machine<N, P, Running>,
    feed: &mut Feed,
    shelf: &mut S,
    numbers: &mut [Num],
    bytes: &mut [u8],
) -> Got
    requires inputs { widths_of feed.old ≡ (conf_of machine.old).inputs }
    requires numbers { length numbers.old ≡ 64 }
    requires bytes { length bytes.old ≡ 64 }
    requires room { length (waiting_samples machine.old) < 16 }
    ensures on { (s : Setting) (runs : List (List ℕ) → Run (List ℕ)) (turn : Held) (t : Tape)
        → IsSet s → turn.input ≡ false
        → IsOn s runs machine.old feed.old (S.view shelf.old) t Got.Sample
        → IsOn s (λ xs. fed (stages_of s) s.stripes turn (runs xs)) machine.new feed.new (S.view shelf.new) t result }
    ensures inputs { widths_of feed.new ≡ widths_of feed.old }
    ensures kept { IsKept machine.old machine.new }
{
    let count = machine.conf().inputs.len();
    read_one(machine, feed, shelf, &mut numbers[..count], bytes)
}

/// Reads a sample and offers it, unless the input side is held, the samples have ended or the queue is full.
///
/// It gives the feed's last answer, which was `last`; a sample says that more may follow.
#[inline(always)]
pub fn feed_step<const N: usize, const P: usize, S: Shelf>(
    machine: &mut Machine<N, P, Running>,
    feed: &mut Feed,
    shelf: &mut S,
    room: &mut Room,
    held: bool,
    last: Got,
) -> Got
    requires { widths_of feed.old ≡ (conf_of machine.old).inputs }
    ensures on { (s : Setting) (runs : List (List ℕ) → Run (List ℕ)) (turn : Held) (t : Tape)
        → IsSet s → turn.input ≡ held
        → IsOn s runs machine.old feed.old (S.view shelf.old) t last
        → IsOn s (λ xs. fed (stages_of s) s.stripes turn (runs xs)) machine.new feed.new (S.view shelf.new) t result }
    ensures inputs { widths_of feed.new ≡ widths_of feed.old }
    ensures kept { IsKept machine.old machine.new }
{
    if !may_read(held, last, machine.waiting_in()) {
        return last;
    }
    read_sample(machine, feed, shelf, &mut room.numbers, &mut room.sample)
}
