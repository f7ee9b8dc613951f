//! One turn of a run.
ghost use Rattle.std.specs.Prelude.{ℕ, ◌≡◌, ◌≤◌, ◌<◌, ◌+◌, ◌^◌, ◌==◌, ◌&&◌, not, true, false, List, length};
ghost use Rattle.pr_edge.specs.Count.{Rose};
ghost use Rattle.pr_samples.specs.Feed.{widths_of, given_of};
ghost use Rattle.pr_samples.specs.Got.{is_sample};
ghost use Rattle.pr_machine_account.specs.Account.{left};
ghost use Rattle.pr_conf.specs.Shape.{Shape};
ghost use Rattle.pr_conf.specs.Through.{output_widths};
ghost use Rattle.pr_machine.specs.Stands.{Stands, History, account_of, conf_of, stripes_of, time_of};
ghost use Rattle.pr_run_script.specs.Script.{Run, waiting, closed, turned};
ghost use Rattle.pr_edge.specs.Files.{View};
ghost use Rattle.pr_run.specs.Setting.{Setting, IsSet, stages_of, held_of};
ghost use Rattle.pr_run.specs.Turns.{IsOn};
ghost use Rattle.pr_run.specs.Outcomes.{IsTurned, has_failed, cycles_by};

use crate::cycling::cycle_step;
use crate::feeding::{feed_step, goes_on};
use crate::rooms::Room;
use crate::writing::write_step;
use pr_edge::{Shelf, Sink};
use pr_machine::{Machine, Running};
use pr_samples::{Feed, Got, Held};

/// What a turn came to.
#[derive(Clone, Copy)]
pub enum Turned {
    /// The run goes on. `last` is the feed's last answer; a sample says that more may follow.
    On { last: Got },
    /// The run is over, and the samples ended so.
    Over { last: Got },
    /// A write failed.
    Failed,
}

/// Whether the samples have ended, every offered sample has left, and no result waits.
#[inline(always)]
fn is_over<const N: usize, const P: usize>(
    machine: &Machine<N, P, Running>,
    feed: &Feed,
    last: Got,
) -> bool
    ensures { (c : Shape) (p : ℕ) (h : History) → Stands machine.now c p h
        → result ≡ (not (is_sample last)
        && (left (length c.stages) (account_of c p h) == given_of feed.now)
        && (waiting (length c.stages) (account_of c p h) == 0)) }
{
    !goes_on(last) && machine.left() == feed.given() && machine.waiting_out() == 0
}

/// The end of a turn: the run is over, or the machine is asked for one cycle.
#[inline(always)]
fn close_turn<const N: usize, const P: usize, K: Sink, const LOG: bool>(
    machine: &mut Machine<N, P, Running>,
    feed: &Feed,
    out: &mut K,
    last: Got,
) -> Turned
    requires { time_of machine.old < 2 ^ 63 }
    ensures after { (s : Setting) (first runs next : List (List ℕ) → Run (List ℕ)) (now : View) → IsSet s → s.log ≡ LOG
        → ((xs : List (List ℕ)) → (runs xs).over ≡ false
        → ((first xs).over ≡ false) × (next xs ≡ closed (stages_of s) s.stripes (runs xs)))
        → IsOn s runs machine.old feed.now now (K.view out.old).told last
        → IsTurned s first next machine.new feed.now now (K.view out.new).told result }
    ensures conf { machine.new.parts.conf ≡ machine.old.parts.conf }
    ensures stripes { stripes_of machine.new ≡ stripes_of machine.old }
    ensures time { time_of machine.new ≤ time_of machine.old + cycles_by result }
    ensures cause { has_failed result ≡ true → Rose (K.view out.old).faults (K.view out.new).faults }
    ensures later { (K.view out.old).faults ≤ (K.view out.new).faults }
{
    if is_over(machine, feed, last) {
        return Turned::Over { last };
    }
    match cycle_step::<N, P, K, LOG>(machine, out) {
        Ok(()) => Turned::On { last },
        Err(_) => Turned::Failed,
    }
}

/// What a run keeps from turn to turn.
#[derive(Drop)]
pub struct Walk<'a> {
    /// Whether the log is asked for.
    pub log: bool,
    /// The widths of the outputs.
    pub widths: &'a [u8],
    /// The memory.
    pub room: &'a mut Room,
    /// The feed's last answer.
    pub last: Got,
}

impl<'a> Walk<'a> {
    /// One turn: a sample is read and offered, all waiting results are taken and written, and where the run is not over
    /// then, the machine is asked for one cycle.
    #[inline(always)]
    pub fn turn<const N: usize, const P: usize, S: Shelf, K: Sink, const LOG: bool>(
        &mut self,
        machine: &mut Machine<N, P, Running>,
        feed: &mut Feed,
        shelf: &mut S,
        out: &mut K,
        held: Held,
    ) -> Turned
        requires inputs { widths_of feed.old ≡ (conf_of machine.old).inputs }
        requires outputs { self.old.widths.now ≡ output_widths (conf_of machine.old) }
        requires time { time_of machine.old < 2 ^ 63 }
        ensures after { (s : Setting) (first next : List (List ℕ) → Run (List ℕ)) → IsSet s → s.log ≡ LOG
            → ((xs : List (List ℕ)) → next xs ≡ turned (stages_of s) s.stripes (held_of held) (first xs))
            → IsOn s first machine.old feed.old (S.view shelf.old) (K.view out.old).told self.old.last
            → IsTurned s first next machine.new feed.new (S.view shelf.new) (K.view out.new).told result }
        ensures log { self.new.log ≡ self.old.log }
        ensures widths { self.new.widths.now ≡ self.old.widths.now }
        ensures inputs { widths_of feed.new ≡ widths_of feed.old }
        ensures conf { machine.new.parts.conf ≡ machine.old.parts.conf }
        ensures stripes { stripes_of machine.new ≡ stripes_of machine.old }
        ensures time { time_of machine.new ≤ time_of machine.old + cycles_by result }
        ensures cause { has_failed result ≡ true → Rose (K.view out.old).faults (K.view out.new).faults }
        ensures later { (K.view out.old).faults ≤ (K.view out.new).faults }
    {
        let room = &mut *self.room;
        let last = feed_step(machine, feed, shelf, room, held.input, self.last);
        match write_step(machine, out, self.widths, &mut room.result, held.output) {
            Ok(()) => close_turn::<N, P, K, LOG>(machine, feed, out, last),
            Err(_) => Turned::Failed,
        }
    }
}
