//! The lines of a turn.
ghost use Rattle.std.specs.Prelude.{ℕ, ◌≡◌, ◌≤◌, ◌<◌, ◌+◌, ◌++◌, ◌∷◌, [], All, length, replicate, sum_by, OnOk, OnErr};
ghost use Rattle.pr_edge.specs.Count.{Rose};
ghost use Rattle.pr_edge.specs.Tape.{Appends, AppendsFront};
ghost use Rattle.pr_machine_account.specs.Account.{Take, account};
ghost use Rattle.pr_conf.specs.Through.{output_widths};
ghost use Rattle.pr_machine.specs.Stands.{History, conf_of, result_bytes_of, waiting_results, waiting_samples, IsKept};
ghost use Rattle.pr_base.specs.Numbers.{slices_of};
ghost use Rattle.pr_base.specs.Rows.{row_line, row_numbers};
ghost use Rattle.pr_run_script.specs.Script.{waiting};
ghost use Rattle.pr_share_text.specs.Text.{mark, marked};
ghost use Rattle.pr_share.specs.Turns.{Setting, HasShown, stages_of, offered_text};

use pr_edge::{Sink, WriteFault, write_all};
use pr_machine::{Machine, Running};
use pr_samples::put_result;

/// Writes the line of a result after the number of its program.
fn put_line<K: Sink>(out: &mut K, number: u8, widths: &[u8], bytes: &[u8]) -> Result<(), WriteFault>
    requires number { number < 10 }
    requires widths { All (λ w. (1 ≤ w) × (w ≤ 128)) widths.now }
    requires bytes { length bytes.now ≡ sum_by slices_of widths.now }
    ensures all { OnOk result (Appends (K.view out.old).told (K.view out.new).told
        (mark number ++ row_line (row_numbers widths.now bytes.now))) }
    ensures front { OnErr result (AppendsFront (K.view out.old).told (K.view out.new).told
        (mark number ++ row_line (row_numbers widths.now bytes.now))) }
    ensures cause { OnErr result (Rose (K.view out.old).faults (K.view out.new).faults) }
    ensures later { (K.view out.old).faults ≤ (K.view out.new).faults }
{
    match write_all(out, &[b'0' + number, b':', b' ']) {
        Err(fault) => Err(fault),
        Ok(()) => put_result(out, widths, bytes),
    }
}

/// Takes a result, which waits, and writes its line.
fn write_one<const N: usize, const P: usize, K: Sink>(
    machine: &mut Machine<N, P, Running>,
    out: &mut K,
    widths: &[u8],
    number: u8,
    bytes: &mut [u8],
) -> Result<(), WriteFault>
    requires widths { widths.now ≡ output_widths (conf_of machine.old) }
    requires number { number < 10 }
    requires bytes { length bytes.old ≡ result_bytes_of machine.old }
    requires waiting { 0 < length (waiting_results machine.old) }
    ensures shown { (s : Setting) (h : History) → s.number ≡ number → HasShown s machine.old (K.view out.old).told h
        → OnOk result (HasShown s machine.new (K.view out.new).told (h ++ Take ∷ [])) }
    ensures front { (s : Setting) (h : History) → s.number ≡ number → HasShown s machine.old (K.view out.old).told h
        → OnErr result (AppendsFront s.tape (K.view out.new).told (offered_text N P s h)) }
    ensures offered { (s : Setting) (h : History) → HasShown s machine.old (K.view out.old).told h
        → (account (stages_of s) s.stripes (h ++ Take ∷ [])).offered ≡ (account (stages_of s) s.stripes h).offered }
    ensures kept { IsKept machine.old machine.new }
    ensures samples { waiting_samples machine.new ≡ waiting_samples machine.old }
    ensures fewer { length (waiting_results machine.new) + 1 ≡ length (waiting_results machine.old) }
    ensures length { length bytes.new ≡ length bytes.old }
    ensures cause { OnErr result (Rose (K.view out.old).faults (K.view out.new).faults) }
    ensures later { (K.view out.old).faults ≤ (K.view out.new).faults }
{
    machine.take(bytes).unwrap();
    put_line(out, number, widths, bytes)
}

/// Takes all results that wait, and writes their lines.
fn write_waiting<const N: usize, const P: usize, K: Sink>(
    machine: &mut Machine<N, P, Running>,
    out: &mut K,
    widths: &[u8],
    number: u8,
    bytes: &mut [u8],
) -> Result<(), WriteFault>
    requires widths { widths.now ≡ output_widths (conf_of machine.old) }
    requires number { number < 10 }
    requires bytes { length bytes.old ≡ result_bytes_of machine.old }
    ensures shown { (s : Setting) (h : History) → s.number ≡ number → HasShown s machine.old (K.view out.old).told h
        → OnOk result (HasShown s machine.new (K.view out.new).told
        (h ++ replicate (waiting (stages_of s) (account (stages_of s) s.stripes h)) Take)) }
    ensures front { (s : Setting) (h : History) → s.number ≡ number → HasShown s machine.old (K.view out.old).told h
        → OnErr result (AppendsFront s.tape (K.view out.new).told (offered_text N P s h)) }
    ensures kept { IsKept machine.old machine.new }
    ensures cause { OnErr result (Rose (K.view out.old).faults (K.view out.new).faults) }
    ensures later { (K.view out.old).faults ≤ (K.view out.new).faults }
{
    for _ in 0..machine.waiting_out() {
        match write_one(machine, out, widths, number, bytes) {
            Ok(()) => {}
            Err(fault) => return Err(fault),
        }
    }
    Ok(())
}

/// Takes all results that wait, and writes their lines, through a buffer of 1,024 bytes.
pub(crate) fn write_step<const N: usize, const P: usize, K: Sink>(
    machine: &mut Machine<N, P, Running>,
    out: &mut K,
    widths: &[u8],
    number: u8,
    bytes: &mut [u8],
) -> Result<(), WriteFault>
    requires widths { widths.now ≡ output_widths (conf_of machine.old) }
    requires number { number < 10 }
    requires bytes { length bytes.old ≡ 1024 }
    ensures shown { (s : Setting) (h : History) → s.number ≡ number → HasShown s machine.old (K.view out.old).told h
        → OnOk result (HasShown s machine.new (K.view out.new).told
        (h ++ replicate (waiting (stages_of s) (account (stages_of s) s.stripes h)) Take)) }
    ensures front { (s : Setting) (h : History) → s.number ≡ number → HasShown s machine.old (K.view out.old).told h
        → OnErr result (AppendsFront s.tape (K.view out.new).told (offered_text N P s h)) }
    ensures kept { IsKept machine.old machine.new }
    ensures cause { OnErr result (Rose (K.view out.old).faults (K.view out.new).faults) }
    ensures later { (K.view out.old).faults ≤ (K.view out.new).faults }
{
    let size = machine.conf().result_bytes();
    write_waiting(machine, out, widths, number, &mut bytes[..size])
}
