//! The samples of a turn.
ghost use Rattle.std.specs.Prelude.{ℕ, ◌≡◌, ◌≢◌, ◌≤◌, ◌<◌, ◌+◌, ◌-◌, ◌^◌, ◌⊎◌, true, false, List, length};
ghost use Rattle.pr_edge.specs.Files.{HasReadCause};
ghost use Rattle.pr_edge.specs.Tape.{Tape};
ghost use Rattle.pr_samples.specs.declared.feed.Got.{Got};
ghost use Rattle.pr_samples.specs.Feed.{name_of, widths_of, SameFile};
ghost use Rattle.pr_samples.specs.Got.{is_sample};
ghost use Rattle.pr_machine.specs.Stands.{conf_of, waiting_samples, IsKept};
ghost use Rattle.pr_run_script.specs.Script.{Run, free, fed};
ghost use Rattle.pr_share.specs.Turns.{Setting, IsTurning, stages_of};

use crate::uses::Use;
use pr_base::Num;
use pr_edge::Shelf;
use pr_machine::{Machine, Running};
use pr_run::{Room, goes_on, offer_sample};
use pr_samples::Feed;

/// The samples that wait at most.
const FULL: usize = 16;

/// Reads a sample and offers it, or finds that the samples have ended.
fn read_one<const N: usize, const P: usize, S: Shelf>(
    machine: &mut Machine<N, P, Running>,
    feed: &mut Feed,
    shelf: &mut S,
    numbers: &mut [Num],
    bytes: &mut [u8],
    used: Use,
) -> Use
    requires inputs { widths_of feed.old ≡ (conf_of machine.old).inputs }
    requires numbers { length numbers.old ≡ length (conf_of machine.old).inputs }
    requires bytes { length bytes.old ≡ 64 }
    requires room { length (waiting_samples machine.old) < 16 }
    requires going { used.ended ≡ false }
    requires count { used.count < 2 ^ 32 - 1 }
    ensures turning { (s : Setting) (runs : List (List ℕ) → Run (List ℕ)) (t : Tape) → 0 < stages_of s
        → IsTurning s runs machine.old feed.old (S.view shelf.old).told t used
        → IsTurning s (λ xs. fed (stages_of s) s.stripes free (runs xs)) machine.new feed.new
        (S.view shelf.new).told t result }
    ensures count { result.count ≤ used.count + 1 }
    ensures unread { is_sample result.last ≡ true → result.ended ≡ false }
    ensures fault { result.last ≡ Got.ReadFault → result.ended ≡ true }
    ensures steady { result.last ≢ Got.ReadFault → (S.view shelf.new).faults ≡ (S.view shelf.old).faults }
    ensures cause { result.last ≡ Got.ReadFault
        → HasReadCause (S.view shelf.old).told (name_of feed.old) (S.view shelf.old).faults (S.view shelf.new).faults }
    ensures later { (S.view shelf.old).faults ≤ (S.view shelf.new).faults }
    ensures told { (S.view shelf.new).told ≡ (S.view shelf.old).told }
    ensures others { (q : List ℕ) → q ≢ name_of feed.old → (S.view shelf.new).reach q ≡ (S.view shelf.old).reach q }
    ensures file { SameFile feed.old feed.new }
    ensures kept { IsKept machine.old machine.new }
    ensures bytes { length bytes.new ≡ 64 }
{
    let last = feed.next(shelf, numbers);
    if goes_on(last) {
        offer_sample(machine, bytes, numbers);
        return Use {
            count: used.count + 1,
            last,
            ended: false,
        };
    }
    Use {
        count: used.count,
        last,
        ended: true,
    }
}

/// Reads a sample into the first of 64 numbers and offers it, or finds that the samples have ended.
fn read_sample<const N: usize, const P: usize, S: Shelf>(
    machine: &mut Machine<N, P, Running>,
    feed: &mut Feed,
    shelf: &mut S,
    numbers: &mut [Num],
    bytes: &mut [u8],
    used: Use,
) -> Use
    requires inputs { widths_of feed.old ≡ (conf_of machine.old).inputs }
    requires numbers { length numbers.old ≡ 64 }
    requires bytes { length bytes.old ≡ 64 }
    requires room { length (waiting_samples machine.old) < 16 }
    requires going { used.ended ≡ false }
    requires count { used.count < 2 ^ 32 - 1 }
    ensures turning { (s : Setting) (runs : List (List ℕ) → Run (List ℕ)) (t : Tape) → 0 < stages_of s
        → IsTurning s runs machine.old feed.old (S.view shelf.old).told t used
        → IsTurning s (λ xs. fed (stages_of s) s.stripes free (runs xs)) machine.new feed.new
        (S.view shelf.new).told t result }
    ensures count { result.count ≤ used.count + 1 }
    ensures unread { is_sample result.last ≡ true → result.ended ≡ false }
    ensures fault { result.last ≡ Got.ReadFault → result.ended ≡ true }
    ensures steady { result.last ≢ Got.ReadFault → (S.view shelf.new).faults ≡ (S.view shelf.old).faults }
    ensures cause { result.last ≡ Got.ReadFault
        → HasReadCause (S.view shelf.old).told (name_of feed.old) (S.view shelf.old).faults (S.view shelf.new).faults }
    ensures later { (S.view shelf.old).faults ≤ (S.view shelf.new).faults }
    ensures told { (S.view shelf.new).told ≡ (S.view shelf.old).told }
    ensures others { (q : List ℕ) → q ≢ name_of feed.old → (S.view shelf.new).reach q ≡ (S.view shelf.old).reach q }
    ensures file { SameFile feed.old feed.new }
    ensures kept { IsKept machine.old machine.new }
{
    let count = machine.conf().inputs.len();
    read_one(machine, feed, shelf, &mut numbers[..count], bytes, used)
}

/// Reads a sample and offers it, unless the turn's samples have ended or the queue is full. Where the quota is used up,
/// they are found to have ended.
pub(crate) fn feed_step<const N: usize, const P: usize, S: Shelf>(
    machine: &mut Machine<N, P, Running>,
    feed: &mut Feed,
    shelf: &mut S,
    room: &mut Room,
    used: Use,
    quota: u32,
) -> Use
    requires inputs { widths_of feed.old ≡ (conf_of machine.old).inputs }
    requires quota { used.count ≤ quota }
    requires spent { used.ended ≡ true → is_sample used.last ≡ true → used.count ≡ quota }
    requires fault { used.last ≡ Got.ReadFault → used.ended ≡ true }
    ensures turning { (s : Setting) (runs : List (List ℕ) → Run (List ℕ)) (t : Tape) → 0 < stages_of s
        → IsTurning s runs machine.old feed.old (S.view shelf.old).told t used
        → IsTurning s (λ xs. fed (stages_of s) s.stripes free (runs xs)) machine.new feed.new
        (S.view shelf.new).told t result }
    ensures quota { result.count ≤ quota }
    ensures spent { result.ended ≡ true → is_sample result.last ≡ true → result.count ≡ quota }
    ensures fault { result.last ≡ Got.ReadFault → result.ended ≡ true }
    ensures steady { result.last ≢ Got.ReadFault
        → (used.last ≢ Got.ReadFault) × ((S.view shelf.new).faults ≡ (S.view shelf.old).faults) }
    ensures cause { result.last ≡ Got.ReadFault
        → (used.last ≡ Got.ReadFault)
        ⊎ HasReadCause (S.view shelf.old).told (name_of feed.old) (S.view shelf.old).faults (S.view shelf.new).faults }
    ensures later { (S.view shelf.old).faults ≤ (S.view shelf.new).faults }
    ensures told { (S.view shelf.new).told ≡ (S.view shelf.old).told }
    ensures others { (q : List ℕ) → q ≢ name_of feed.old → (S.view shelf.new).reach q ≡ (S.view shelf.old).reach q }
    ensures file { SameFile feed.old feed.new }
    ensures kept { IsKept machine.old machine.new }
{
    if used.ended {
        return used;
    }
    if machine.waiting_in() == FULL {
        return used;
    }
    if used.count == quota {
        return Use {
            ended: true,
            ..used
        };
    }
    read_sample(
        machine,
        feed,
        shelf,
        &mut room.numbers,
        &mut room.sample,
        used,
    )
}
