//! Whole runs.
ghost use Rattle.std.specs.Prelude.{ℕ, ◌≡◌, ◌≢◌, ◌≤◌, [], List, length, Some};
ghost use Rattle.pr_edge.specs.Count.{Rose};
ghost use Rattle.pr_edge.specs.Files.{IsMissing, HasReadCause};
ghost use Rattle.pr_samples.specs.Stall.{turns_left};
ghost use Rattle.pr_samples.specs.Feed.{name_of, widths_of, given_of, place_of, SameFile, Tells};
ghost use Rattle.pr_machine.specs.Stands.{Stands, conf_of, stripes_of};
ghost use Rattle.pr_run.specs.Setting.{Setting, IsFresh, setting_of};
ghost use Rattle.pr_run.specs.Runs.{MayBegin, IsEnded, HasTurned, Ran, EndsRun, IsFault, IsCounted};

use crate::ending::{Finished, RunEnd, finish};
use crate::rooms::Room;
use crate::turning::{Turned, Walk};
use crate::writing::put_widths;
use pr_edge::{Shelf, Sink, WriteFault};
use pr_machine::{Machine, Running};
use pr_samples::{Feed, Got, Stall};

impl<'a> Walk<'a> {
    /// Makes the turns of a run until it is over. `LOG` says whether the log is asked for: a run without one has turns of
    /// its own, in which nothing is put together that only a line of the log needs.
    fn turn_until_over<const N: usize, const P: usize, S: Shelf, K: Sink, const LOG: bool>(
        &mut self,
        machine: &mut Machine<N, P, Running>,
        feed: &mut Feed,
        shelf: &mut S,
        stall: &mut Stall,
        out: &mut K,
    ) -> Result<Finished, WriteFault>
        requires ready { MayBegin machine.old feed.old stall.old self.old.widths.now self.old.last }
        ensures ended { (s : Setting)
            → s ≡ setting_of machine.old stall.old feed.old (S.view shelf.old) (K.view out.old).told LOG
            → IsEnded s machine.new feed.new (S.view shelf.new) (K.view out.new).told result }
        ensures turned { HasTurned machine.old machine.new (K.view out.old).faults (K.view out.new).faults result }
    {
        let mut asked = 0;
        loop {
            let held = stall.next();
            match self.turn::<N, P, S, K, LOG>(machine, feed, shelf, out, held) {
                Turned::On { last: now } => self.last = now,
                Turned::Over { last } => return Ok(Finished { last, asked }),
                Turned::Failed => return Err(WriteFault),
            }
            asked += 1;
        }
    }

    /// Makes the turns of a run until it is over, with the lines of the log where it is asked for.
    fn take_turns<const N: usize, const P: usize, S: Shelf, K: Sink>(
        &mut self,
        machine: &mut Machine<N, P, Running>,
        feed: &mut Feed,
        shelf: &mut S,
        stall: &mut Stall,
        out: &mut K,
    ) -> Result<Finished, WriteFault>
        requires ready { MayBegin machine.old feed.old stall.old self.old.widths.now self.old.last }
        ensures ended { (s : Setting)
            → s ≡ setting_of machine.old stall.old feed.old (S.view shelf.old) (K.view out.old).told self.old.log
            → IsEnded s machine.new feed.new (S.view shelf.new) (K.view out.new).told result }
        ensures turned { HasTurned machine.old machine.new (K.view out.old).faults (K.view out.new).faults result }
    {
        if self.log {
            self.turn_until_over::<N, P, S, K, true>(machine, feed, shelf, stall, out)
        } else {
            self.turn_until_over::<N, P, S, K, false>(machine, feed, shelf, stall, out)
        }
    }
}

/// Runs the samples of a feed through a machine that was just loaded, and writes the line of each result. No memory is
/// taken.
///
/// Each turn has three steps:
///
/// 1. Read a sample and offer it, if the input side is free and its queue has room.
/// 2. Take and write all waiting results, if the output side is free.
/// 3. Ask the machine for one cycle.
///
/// The run is over when the samples have ended and no result is under way. With `log` each cycle has its line, and the
/// last line has the numbers. After a write fault the first bytes of the text are written, and the machine may hold
/// results. Every run changes the stall text and the room.
pub fn run<const N: usize, const P: usize, S: Shelf, K: Sink>(
    machine: &mut Machine<N, P, Running>,
    feed: &mut Feed,
    shelf: &mut S,
    stall: &mut Stall,
    out: &mut K,
    log: bool,
    room: &mut Room,
) -> RunEnd
    requires loaded { Stands machine.old (conf_of machine.old) (stripes_of machine.old) [] }
    requires fresh { IsFresh feed.old }
    requires inputs { widths_of feed.old ≡ (conf_of machine.old).inputs }
    requires turns { length (turns_left stall.old) ≤ 1048576 }

    // The machine, the text, the number of cycles and the answer, over the samples that the feed gave.
    ensures ran { Ran
        (setting_of machine.old stall.old feed.old (S.view shelf.old) (K.view out.old).told log) machine.new feed.new
        (S.view shelf.new) (K.view out.new).told result }

    // How the file ends, where it is told.
    ensures ends { (file : List ℕ) → Tells (S.view shelf.old).told (name_of feed.old) file
        → EndsRun result feed.new file }
    ensures missing { IsMissing (S.view shelf.old).told (name_of feed.old) → IsFault result × (given_of feed.new ≡ 0) }
    ensures reached { (S.view shelf.old).reach (name_of feed.old) ≡ Some 0
        → (S.view shelf.new).reach (name_of feed.old) ≡ Some (place_of feed.new) }

    ensures read_fault { result ≡ RunEnd.ReadFault
        → HasReadCause (S.view shelf.old).told (name_of feed.old) (S.view shelf.old).faults (S.view shelf.new).faults }
    ensures write_fault { result ≡ RunEnd.WriteFault → Rose (K.view out.old).faults (K.view out.new).faults }

    // Without a stall text the numbers are exact.
    ensures counted { turns_left stall.old ≡ []
        → IsCounted (length (conf_of machine.old).stages) (stripes_of machine.old) (given_of feed.new) result }

    ensures conf { machine.new.parts.conf ≡ machine.old.parts.conf }
    ensures stripes { stripes_of machine.new ≡ stripes_of machine.old }
    ensures file { SameFile feed.old feed.new }
    ensures told { (S.view shelf.new).told ≡ (S.view shelf.old).told }
    ensures others { (q : List ℕ) → q ≢ name_of feed.old → (S.view shelf.new).reach q ≡ (S.view shelf.old).reach q }
    ensures shelf_later { (S.view shelf.old).faults ≤ (S.view shelf.new).faults }
    ensures out_later { (K.view out.old).faults ≤ (K.view out.new).faults }
{
    let mut widths = [0; 64];
    let count = put_widths(&mut widths, machine.conf());
    let mut walk = Walk {
        log,
        widths: &widths[..count],
        room,
        last: Got::Sample,
    };
    let end = walk.take_turns(machine, feed, shelf, stall, out);
    finish(machine, out, log, end)
}
