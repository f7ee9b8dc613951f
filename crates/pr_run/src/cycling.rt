//! The last step of a turn: one cycle, and its line in the log.
ghost use Rattle.std.specs.Prelude.{ℕ, ◌≡◌, ◌≤◌, ◌<◌, ◌+◌, ◌^◌, ◌++◌, ◌∷◌, [], length, Some, OnOk, OnErr};
ghost use Rattle.pr_edge.specs.Count.{Rose};
ghost use Rattle.pr_edge.specs.Tape.{Appends, AppendsFront};
ghost use Rattle.pr_log.specs.Lines.{line_of};
ghost use Rattle.pr_control.specs.Residents.{Resides};
ghost use Rattle.pr_conf_pipeline.specs.Rows.{state_after};
ghost use Rattle.pr_machine_account.specs.Account.{Cycle, done};
ghost use Rattle.pr_conf.specs.Shape.{Shape};
ghost use Rattle.pr_conf.specs.Through.{steps_of};
ghost use Rattle.pr_machine.specs.Stands.{Stands, History, account_of, time_of, stripes_of};
ghost use Rattle.pr_run.specs.Setting.{Setting, IsSet};
ghost use Rattle.pr_run.specs.Turns.{HasDone, HasBegun};

use pr_edge::{Sink, WriteFault, write_all};
use pr_log::line;
use pr_machine::{Machine, Running, Turn};

/// The state row of a stage that was saved, and nothing where none was.
fn saved_row<const N: usize, const P: usize>(
    machine: &Machine<N, P, Running>,
    saved: Option<u32>,
) -> &[u8]
    ensures few { length result.now ≤ 64 }
    ensures row { (c : Shape) (p : ℕ) (h : History) (s : ℕ) → Stands machine.now c p h → saved ≡ Some s
        → s < length c.stages
        → ((i : ℕ) → Resides (length c.stages) p (account_of c p h).time s i → ⊥)
        → result.now
        ≡ state_after (steps_of N P c) s (done s (account_of c p h).time (account_of c p h).entries)
        (account_of c p h).offered }
{
    match saved {
        None => &[],
        Some(stage) => match machine.stored(stage) {
            None => &[],
            Some(row) => row,
        },
    }
}

/// Writes the line of a cycle. It stands apart, because the room for its text is filled with zeros where it begins.
#[inline(never)]
fn write_line<K: Sink>(out: &mut K, turn: &Turn, time: u64, state: &[u8]) -> Result<(), WriteFault>
    requires { length state.now ≤ 64 }
    ensures all { OnOk result (Appends (K.view out.old).told (K.view out.new).told (line_of turn.now time state.now)) }
    ensures front { OnErr result
        (AppendsFront (K.view out.old).told (K.view out.new).told (line_of turn.now time state.now)) }
    ensures cause { OnErr result (Rose (K.view out.old).faults (K.view out.new).faults) }
    ensures later { (K.view out.old).faults ≤ (K.view out.new).faults }
{
    let text = line(turn, time, state);
    write_all(out, text.as_bytes())
}

/// Asks the machine for one cycle, and writes its line where the log is asked for.
#[inline(always)]
pub fn cycle_step<const N: usize, const P: usize, K: Sink, const LOG: bool>(
    machine: &mut Machine<N, P, Running>,
    out: &mut K,
) -> Result<(), WriteFault>
    requires { time_of machine.old < 2 ^ 63 }
    ensures done { (s : Setting) (h : History) → IsSet s → (s.log ≡ LOG)
        → HasDone s machine.old (K.view out.old).told h
        → OnOk result (HasDone s machine.new (K.view out.new).told (h ++ Cycle ∷ [])) }
    ensures begun { (s : Setting) (h : History) → IsSet s → (s.log ≡ LOG)
        → HasDone s machine.old (K.view out.old).told h
        → OnErr result (HasBegun s machine.new (K.view out.new).told (h ++ Cycle ∷ [])) }
    ensures conf { machine.new.parts.conf ≡ machine.old.parts.conf }
    ensures stripes { stripes_of machine.new ≡ stripes_of machine.old }
    ensures time { time_of machine.new ≤ time_of machine.old + 1 }
    ensures cause { OnErr result (Rose (K.view out.old).faults (K.view out.new).faults) }
    ensures later { (K.view out.old).faults ≤ (K.view out.new).faults }
{
    let time = machine.time();
    let turn = machine.cycle();
    if !LOG {
        return Ok(());
    }
    write_line(out, &turn, time, saved_row(machine, turn.saved))
}
