//! The second step of a turn: all waiting results are taken and written.
ghost use Rattle.std.specs.Prelude.{◌≡◌, ◌≤◌, ◌<◌, ◌+◌, ◌++◌, ◌∷◌, [], length, take, OnOk, OnErr};
ghost use Rattle.pr_edge.specs.Count.{Rose};
ghost use Rattle.pr_machine_account.specs.Account.{Take};
ghost use Rattle.pr_conf.specs.Configuration.{shape_of};
ghost use Rattle.pr_conf.specs.Through.{output_widths};
ghost use Rattle.pr_machine.specs.Stands.{History, conf_of, result_bytes_of, waiting_results, IsKept};
ghost use Rattle.pr_run.specs.Setting.{Setting};
ghost use Rattle.pr_run.specs.Turns.{HasDone, HasBegun, all_taken, taken_unless};

use pr_conf::Configuration;
use pr_edge::{Sink, WriteFault};
use pr_machine::{Machine, Running};
use pr_samples::put_result;

/// Puts the widths of the outputs into a buffer, and says how many they are.
pub fn put_widths<const N: usize, const P: usize>(
    into: &mut [u8],
    conf: &Configuration<N, P>,
) -> usize
    requires { length into.old ≡ 64 }
    ensures few { result ≤ 64 }
    ensures widths { take result into.new ≡ output_widths (shape_of conf.now) }
    ensures length { length into.new ≡ 64 }
{
    let count = conf.outputs.len();
    for i in 0..count {
        into[i] = conf.outputs[i].width;
    }
    count
}

/// Takes a result, which waits, and writes its line.
#[inline(always)]
fn write_one<const N: usize, const P: usize, K: Sink>(
    machine: &mut Machine<N, P, Running>,
    out: &mut K,
    widths: &[u8],
    bytes: &mut [u8],
) -> Result<(), WriteFault>
    requires widths { widths.now ≡ output_widths (conf_of machine.old) }
    requires bytes { length bytes.old ≡ result_bytes_of machine.old }
    requires waiting { 0 < length (waiting_results machine.old) }
    ensures done { (s : Setting) (h : History) → HasDone s machine.old (K.view out.old).told h
        → OnOk result (HasDone s machine.new (K.view out.new).told (h ++ Take ∷ [])) }
    ensures begun { (s : Setting) (h : History) → HasDone s machine.old (K.view out.old).told h
        → OnErr result (HasBegun s machine.new (K.view out.new).told (h ++ Take ∷ [])) }
    ensures kept { IsKept machine.old machine.new }
    ensures fewer { length (waiting_results machine.new) + 1 ≡ length (waiting_results machine.old) }
    ensures length { length bytes.new ≡ length bytes.old }
    ensures cause { OnErr result (Rose (K.view out.old).faults (K.view out.new).faults) }
    ensures later { (K.view out.old).faults ≤ (K.view out.new).faults }
{
    machine.take(bytes).unwrap();
    put_result(out, widths, bytes)
}

/// Takes all results that wait, and writes their lines.
#[inline(always)]
fn write_waiting<const N: usize, const P: usize, K: Sink>(
    machine: &mut Machine<N, P, Running>,
    out: &mut K,
    widths: &[u8],
    bytes: &mut [u8],
) -> Result<(), WriteFault>
    requires widths { widths.now ≡ output_widths (conf_of machine.old) }
    requires bytes { length bytes.old ≡ result_bytes_of machine.old }
    ensures done { (s : Setting) (h : History) → HasDone s machine.old (K.view out.old).told h
        → OnOk result (HasDone s machine.new (K.view out.new).told (all_taken s h)) }
    ensures begun { (s : Setting) (h : History) → HasDone s machine.old (K.view out.old).told h
        → OnErr result (HasBegun s machine.new (K.view out.new).told (all_taken s h)) }
    ensures kept { IsKept machine.old machine.new }
    ensures cause { OnErr result (Rose (K.view out.old).faults (K.view out.new).faults) }
    ensures later { (K.view out.old).faults ≤ (K.view out.new).faults }
{
    for _ in 0..machine.waiting_out() {
        match write_one(machine, out, widths, bytes) {
            Ok(()) => {}
            Err(fault) => return Err(fault),
        }
    }
    Ok(())
}

/// Takes all results that wait and writes their lines, unless the output side is held.
#[inline(always)]
pub fn write_step<const N: usize, const P: usize, K: Sink>(
    machine: &mut Machine<N, P, Running>,
    out: &mut K,
    widths: &[u8],
    bytes: &mut [u8],
    held: bool,
) -> Result<(), WriteFault>
    requires widths { widths.now ≡ output_widths (conf_of machine.old) }
    requires bytes { length bytes.old ≡ 1024 }
    ensures done { (s : Setting) (h : History) → HasDone s machine.old (K.view out.old).told h
        → OnOk result (HasDone s machine.new (K.view out.new).told (taken_unless held s h)) }
    ensures begun { (s : Setting) (h : History) → HasDone s machine.old (K.view out.old).told h
        → OnErr result (HasBegun s machine.new (K.view out.new).told (taken_unless held s h)) }
    ensures kept { IsKept machine.old machine.new }
    ensures cause { OnErr result (Rose (K.view out.old).faults (K.view out.new).faults) }
    ensures later { (K.view out.old).faults ≤ (K.view out.new).faults }
{
    if held {
        return Ok(());
    }
    if machine.waiting_out() == 0 {
        return Ok(());
    }
    let size = machine.result_bytes();
    write_waiting(machine, out, widths, &mut bytes[..size])
}
