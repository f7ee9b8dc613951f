//! The turns of a machine until nothing is in flight.
ghost use Rattle.std.specs.Prelude.{ℕ, ◌≡◌, ◌≢◌, ◌≤◌, ◌<◌, [], true, List, OnOk, OnErr, IfOk, length};
ghost use Rattle.pr_edge.specs.Count.{Rose};
ghost use Rattle.pr_edge.specs.Files.{HasReadCause};
ghost use Rattle.pr_samples.specs.declared.feed.Feed.{Feed};
ghost use Rattle.pr_samples.specs.Feed.{name_of, widths_of, SameFile};
ghost use Rattle.pr_conf.specs.Through.{output_widths};
ghost use Rattle.pr_machine.specs.Stands.{Stands, History, conf_of, stripes_of};
ghost use Rattle.pr_share.specs.Fed.{HasFed};
ghost use Rattle.pr_share.specs.Turns.{Setting, Begins, IsTurned, IsCut, IsIdle, gone_test};

use crate::feeding::feed_step;
use crate::uses::Use;
use crate::writing::write_step;
use pr_edge::{Shelf, Sink, WriteFault};
use pr_machine::{Machine, Running};
use pr_run::Room;
use pr_samples::{Feed, Got};

/// Whether the turn's samples have ended and nothing is in flight.
fn is_over<const N: usize, const P: usize>(machine: &Machine<N, P, Running>, ended: bool) -> bool
    ensures test { (s : Setting) (h : History) → Stands machine.now s.conf s.stripes h → result ≡ gone_test s ended h }
    ensures idle { result ≡ true → IsIdle machine.now }
{
    ended
        && machine.waiting_in() == 0
        && machine.entered() == machine.left()
        && machine.waiting_out() == 0
}

/// What a turn keeps while it is made.
#[derive(Drop)]
pub(crate) struct Walk<'a> {
    /// The memory.
    pub(crate) room: &'a mut Room,
    /// The widths of the outputs.
    pub(crate) widths: &'a [u8],
    /// The program's number.
    pub(crate) number: u8,
    /// The greatest number of samples.
    pub(crate) quota: u32,
}

impl<'a> Walk<'a> {
    /// Feeds a machine up to the quota, and cycles it until nothing is in flight. It gives the feed's last answer; a
    /// sample says that more may follow. It is over long before so many cycles.
    pub(crate) fn run_turn<const N: usize, const P: usize, S: Shelf, K: Sink>(
        &mut self,
        machine: &mut Machine<N, P, Running>,
        feed: &mut Feed,
        shelf: &mut S,
        out: &mut K,
    ) -> Result<Got, WriteFault>
        requires resumed { Stands machine.old (conf_of machine.old) (stripes_of machine.old) [] }
        requires inputs { widths_of feed.old ≡ (conf_of machine.old).inputs }
        requires outputs { self.old.widths.now ≡ output_widths (conf_of machine.old) }
        requires number { self.old.number < 10 }
        requires fed { (first : Feed) × ((earlier : List (List ℕ))
            × HasFed first (S.view shelf.old).told feed.old earlier Got.Sample) }
        ensures turned { (s : Setting)
            → Begins s machine.old feed.old (S.view shelf.old).told (K.view out.old).told self.old.number
            → IfOk result (λ last. IsTurned s machine.new feed.new (S.view shelf.new).told
            (K.view out.new).told self.old.quota last) }
        ensures cut { (s : Setting)
            → Begins s machine.old feed.old (S.view shelf.old).told (K.view out.old).told self.old.number
            → OnErr result (IsCut N P s feed.new (S.view shelf.new).told (K.view out.new).told self.old.quota
            (S.view shelf.old).faults (S.view shelf.new).faults) }
        ensures idle { OnOk result (IsIdle machine.new) }
        ensures steady { IfOk result
            (λ last. last ≢ Got.ReadFault → (S.view shelf.new).faults ≡ (S.view shelf.old).faults) }
        ensures read_fault { IfOk result (λ last. last ≡ Got.ReadFault
            → HasReadCause (S.view shelf.old).told (name_of feed.old) (S.view shelf.old).faults
            (S.view shelf.new).faults) }
        ensures cause { OnErr result (Rose (K.view out.old).faults (K.view out.new).faults) }
        ensures file { SameFile feed.old feed.new }
        ensures conf { machine.new.parts.conf ≡ machine.old.parts.conf }
        ensures stripes { stripes_of machine.new ≡ stripes_of machine.old }
        ensures told { (S.view shelf.new).told ≡ (S.view shelf.old).told }
        ensures others { (q : List ℕ) → q ≢ name_of feed.old → (S.view shelf.new).reach q ≡ (S.view shelf.old).reach q }
        ensures shelf_later { (S.view shelf.old).faults ≤ (S.view shelf.new).faults }
        ensures out_later { (K.view out.old).faults ≤ (K.view out.new).faults }
    {
        let room = &mut *self.room;
        let widths = self.widths;
        let number = self.number;
        let quota = self.quota;
        let mut used = Use {
            count: 0,
            last: Got::Sample,
            ended: false,
        };
        for _ in 0..u64::MAX {
            used = feed_step(machine, feed, shelf, room, used, quota);
            match write_step(machine, out, widths, number, &mut room.result) {
                Ok(()) => {}
                Err(fault) => return Err(fault),
            }
            if is_over(machine, used.ended) {
                return Ok(used.last);
            }
            let _turn = machine.cycle();
        }
        unreachable!()
    }
}
