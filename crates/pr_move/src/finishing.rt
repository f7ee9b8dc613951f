//! A run whose results are not kept.
ghost use Rattle.std.specs.Prelude.{ℕ, ◌≡◌, ◌≢◌, ◌≤◌, [], false, List, length, Some};
ghost use Rattle.pr_edge.specs.Files.{IsMissing, HasReadCause};
ghost use Rattle.pr_samples.specs.Stall.{turns_left};
ghost use Rattle.pr_samples.specs.Feed.{name_of, widths_of, given_of, most_of, place_of, SameFile, Tells};
ghost use Rattle.pr_machine.specs.Stands.{Stands, conf_of, stripes_of};
ghost use Rattle.pr_run.specs.Setting.{IsFresh, setting_of};
ghost use Rattle.pr_run.specs.Runs.{Ran, EndsRun, IsFault, IsCounted};
ghost use Rattle.pr_edge.specs.Tape.{untold};
ghost use Rattle.pr_move.specs.Still.{IsStill};

use crate::nowhere::Nowhere;
use pr_edge::Shelf;
use pr_machine::{Machine, Running};
use pr_run::{Room, RunEnd, run};
use pr_samples::{Feed, Stall};

/// Runs the samples of a feed through a machine that was just loaded, and drops the results.
///
/// The machine does all that `run` makes it do: it stands for the whole script of a run on the samples that were fed, and at
/// the end nothing is under way. No memory is taken, and no write fails.
pub fn finish<const N: usize, const P: usize, S: Shelf>(
    machine: &mut Machine<N, P, Running>,
    feed: &mut Feed,
    shelf: &mut S,
    stall: &mut Stall,
    room: &mut Room,
) -> RunEnd
    requires loaded { Stands machine.old (conf_of machine.old) (stripes_of machine.old) [] }
    requires fresh { IsFresh feed.old }
    requires inputs { widths_of feed.old ≡ (conf_of machine.old).inputs }
    requires turns { length (turns_left stall.old) ≤ 1048576 }

    // A run over a sink that tells nothing, which no write ends.
    ensures ran { Ran (setting_of machine.old stall.old feed.old (S.view shelf.old) untold false)
        machine.new feed.new (S.view shelf.new) untold result }
    ensures writes { result ≢ RunEnd.WriteFault }

    // At the end nothing is under way, and as many samples have left as were fed.
    ensures still { IsStill machine.new }
    ensures left { machine.new.parts.left ≡ given_of feed.new }
    ensures most { given_of feed.new ≤ most_of feed.old }

    // How the file ends, where it is told.
    ensures ends { (file : List ℕ) → Tells (S.view shelf.old).told (name_of feed.old) file
        → EndsRun result feed.new file }
    ensures missing { IsMissing (S.view shelf.old).told (name_of feed.old) → IsFault result × (given_of feed.new ≡ 0) }
    ensures reached { (S.view shelf.old).reach (name_of feed.old) ≡ Some 0 →
        (S.view shelf.new).reach (name_of feed.old) ≡ Some (place_of feed.new) }
    ensures read_fault { result ≡ RunEnd.ReadFault →
        HasReadCause (S.view shelf.old).told (name_of feed.old) (S.view shelf.old).faults (S.view shelf.new).faults }

    // Without a stall text the numbers are exact.
    ensures counted { turns_left stall.old ≡ [] →
        IsCounted (length (conf_of machine.old).stages) (stripes_of machine.old) (given_of feed.new) result }

    ensures conf { machine.new.parts.conf ≡ machine.old.parts.conf }
    ensures stripes { stripes_of machine.new ≡ stripes_of machine.old }
    ensures file { SameFile feed.old feed.new }
    ensures told { (S.view shelf.new).told ≡ (S.view shelf.old).told }
    ensures others { (q : List ℕ) → q ≢ name_of feed.old → (S.view shelf.new).reach q ≡ (S.view shelf.old).reach q }
    ensures shelf_later { (S.view shelf.old).faults ≤ (S.view shelf.new).faults }
{
    let mut nowhere = Nowhere;
    run(machine, feed, shelf, stall, &mut nowhere, false, room)
}
