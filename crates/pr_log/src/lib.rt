//! The log of a run: one line for each cycle, and one at the end.
#![tactic(auto)]

ghost use Rattle.std.specs.Prelude.{◌≡◌, ◌≤◌, length};
ghost use Rattle.pr_log.specs.Lines.{line_of, stall_line_of, end_line_of};

use arrayvec::ArrayString;
use pr_conf::Turn;

mod parts;

use parts::{put_configured, put_entry, put_long, put_saved};

/// The line of the cycle at `time`, with its LF.
///
/// `state` is the state row that the cycle saved, one byte for each column from column 0 on; where it saved none, it is not
/// looked at. At a stalled cycle `time` is the number of the cycle that waits.
pub fn line(turn: &Turn, time: u64, state: &[u8]) -> ArrayString<256>
    requires { length state.now ≤ 64 }
    ensures { result.bytes ≡ line_of turn.now time state.now }
{
    if !turn.advanced {
        return stall_line(time);
    }
    let mut text = ArrayString::new();
    text.push_str("cycle ");
    put_long(&mut text, time);
    text.push_str(" conf ");
    put_configured(&mut text, turn.configured);
    text.push_str(" save ");
    put_saved(&mut text, turn.saved, state);
    text.push_str(" in ");
    put_entry(&mut text, turn.entered);
    text.push_str(" out ");
    put_entry(&mut text, turn.left);
    text.push_str("\n");
    text
}

fn stall_line(time: u64) -> ArrayString<256>
    ensures { result.bytes ≡ stall_line_of time }
{
    let mut text = ArrayString::new();
    text.push_str("stall ");
    put_long(&mut text, time);
    text.push_str("\n");
    text
}

/// The last line of a run whose samples were all good, with its LF: the cycles that advanced, those that were stalled,
/// and the results.
pub fn end_line(cycles: u64, stalls: u64, results: u64) -> ArrayString<256>
    ensures { result.bytes ≡ end_line_of cycles stalls results }
{
    let mut text = ArrayString::new();
    text.push_str("end cycles ");
    put_long(&mut text, cycles);
    text.push_str(" stalls ");
    put_long(&mut text, stalls);
    text.push_str(" records ");
    put_long(&mut text, results);
    text.push_str("\n");
    text
}
