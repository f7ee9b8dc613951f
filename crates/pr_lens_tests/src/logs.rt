//! Logs as waveforms and pictures.

use crate::calls::check_calls;
use std::alloc::AllocError;

/// The log of these calls.
const LOG: &str = "\
cycle 0 conf 0@0 save - in 0 out -
stall 1
cycle 1 conf 1@1 save - in - out 0
12
end cycles 2 stalls 1 records 1
";

/// Calls over it, and one over a log with a cycle that no log has.
const CALLS: &str = "\
$ pipelens wave p
= 0
...$scope module stripe_1 $end
$var wire 16 s8 stage $end
...
$ pipelens wave p
= 0
...$enddefinitions $end
#0
b0 s6
1s7
bz s8
0s9
b0 s0
0s1
b0 s2
bz s3
b1 s4
b0 s5
#10
0s7
b1 s0
1s1
bz s2
#20
...
$ pipelens wave p
= 0
...#20
b1 s8
1s9
0s1
b0 s3
b0 s4
b1 s5
#30
...
$ pipelens chart p
= 0
...fill=\"#bbb\"...
$ pipelens chart p
= 0
...</svg>
...
$ pipelens chart nowhere
= 15
! bad log: no cycle
$ pipelens wave p
12
7
end cycles 2 stalls 0 records 2

= 15
! bad log: no cycle
$ pipelens chart p
12
stall 4

= 0
...</svg>
...
$ pipelens wave p
cycle 0 conf 0@0 save - in 0 out -
cycle 01 conf - save - in - out -

= 15
...
";

/// Pictures with a legend of two rows, and the places of their last stages.
const LEGENDS: &str = "\
$ pipelens chart p
= 0
<svg xmlns=\"http://www.w3.org/2000/svg\" width=\"660\" height=\"224\">
...
$ pipelens chart p
= 0
...<rect x=\"530\" y=\"126\" width=\"24\" height=\"18\" fill=\"hsl(317,70%,80%)\"/>
<text class=\"n\" x=\"542\" y=\"139\">15</text>
<rect x=\"80\" y=\"150\" width=\"24\" height=\"18\" fill=\"hsl(338,70%,80%)\"/>
<text class=\"n\" x=\"92\" y=\"163\">16</text>
<text class=\"t\" x=\"8\" y=\"188\">dark: ...
";

#[test]
fn legends(rt: HostRuntime) -> Result<(), AllocError> {
    let log = "cycle 0 conf 16@0 save - in - out -\n";
    check_calls(&rt, rt.alloc(), log, LEGENDS)
}

/// The end of the picture of 401 cycles.
const LEFT_OUT: &str = "\
$ pipelens chart p
= 0
...y=\"174\">left out: the last 1 of 401 cycles</text>
</svg>
...
";

#[test]
fn cycles_left_out(rt: HostRuntime) -> Result<(), AllocError> {
    let mut log = String::new(rt.alloc());
    for _ in 0..401 {
        log.push_str("stall 7\n")?;
    }
    check_calls(&rt, rt.alloc(), log.as_str(), LEFT_OUT)
}

/// A log of a blank line, of 2,200 cycles of 8 bytes, and of an end without a line feed. It is read 4,096 bytes at a time,
/// so that each piece but the last ends within a line.
const LONG: &str = "\
$ pipelens chart p --from 9
= 0
...left out: the first 2199 of 2200 cycles</text>
...
$ pipelens chart p --to 8
= 0
...left out: the last 1800 of 2200 cycles</text>
...
$ pipelens wave p --from 9
= 0
...$enddefinitions $end
#21990
b1001 s0
1s1
bz s2
bz s3
b0 s4
b0 s5
#22000
...
$ pipelens wave p --from 10
= 15
! no such cycle: the log has cycles 7 to 9
";

#[test]
fn long_logs(rt: HostRuntime) -> Result<(), AllocError> {
    let mut log = String::new(rt.alloc());
    log.push_str("\n")?;
    for _ in 0..2199 {
        log.push_str("stall 7\n")?;
    }
    log.push_str("stall 9\nend")?;
    check_calls(&rt, rt.alloc(), log.as_str(), LONG)
}

/// A line of 65,536 bytes with its line feed, which is a result.
const LONG_LINE: &str = "\
$ pipelens wave p
= 15
! bad log: no cycle
";

/// The same, and behind it a line of one byte more.
const LONGER_LINE: &str = "\
$ pipelens wave p
= 15
! bad log: line 2
";

#[test]
fn long_lines(rt: HostRuntime) -> Result<(), AllocError> {
    let mut log = String::new(rt.alloc());
    for _ in 0..65_535 {
        log.push_str("1")?;
    }
    log.push_str("\n")?;
    check_calls(&rt, rt.alloc(), log.as_str(), LONG_LINE)?;
    for _ in 0..65_536 {
        log.push_str("1")?;
    }
    log.push_str("\n")?;
    check_calls(&rt, rt.alloc(), log.as_str(), LONGER_LINE)
}

/// Parts of the log, and of another one. A stalled cycle has the number of the cycle that waits.
const PARTS: &str = "\
$ pipelens wave p --from 1 --to 1
= 0
...$enddefinitions $end
#10
b0 s6
0s7
bz s8
0s9
b1 s0
1s1
bz s2
bz s3
b1 s4
b0 s5
#20
b1 s8
1s9
0s1
b0 s3
b0 s4
b1 s5
#30
...
$ pipelens wave p --to 0
= 0
...b1 s4
b0 s5
#10
...
$ pipelens chart p --from 1
= 0
...left out: the first 1 of 3 cycles</text>
...
$ pipelens chart p --to 0
= 0
...left out: the last 2 of 3 cycles</text>
...
$ pipelens wave p --from 2
= 15
! no such cycle: the log has cycles 0 to 1
$ pipelens chart p --from 1 --to 0
= 15
! no such cycle: the log has cycles 0 to 1
$ pipelens wave p --from 6 --to 6
cycle 5 conf 0@0 save - in 0 out -
cycle 6 conf 1@1 save - in 1 out -
stall 7
cycle 7 conf - save - in - out 0

= 0
...$enddefinitions $end
#10
b0 s6
0s7
b1 s8
1s9
b110 s0
0s1
b1 s2
bz s3
b10 s4
b0 s5
#20
...
$ pipelens chart p --from 6 --to 6
cycle 5 conf 0@0 save - in 0 out -
cycle 6 conf 1@1 save - in 1 out -
stall 7
cycle 7 conf - save - in - out 0

= 0
...fill=\"hsl(0,70%,80%)\"/>
<text class=\"n\" x=\"94\" y=\"62\">0</text>
<rect x=\"80\" y=\"71\" width=\"28\" height=\"24\" fill=\"hsl(180,65%,50%)\"/>
<text class=\"b\" x=\"94\" y=\"88\">1</text>
...
$ pipelens chart p --from 6 --to 6
cycle 5 conf 0@0 save - in 0 out -
cycle 6 conf 1@1 save - in 1 out -
stall 7
cycle 7 conf - save - in - out 0

= 0
...left out: the first 1 and the last 2 of 4 cycles</text>
...
$ pipelens chart p --to 4
stall 5
cycle 5 conf - save - in - out -

= 15
! no such cycle: the log has cycles 5 to 5
";

#[test]
fn parts(rt: HostRuntime) -> Result<(), AllocError> {
    check_calls(&rt, rt.alloc(), LOG, PARTS)
}

#[test]
fn logs(rt: HostRuntime) -> Result<(), AllocError> {
    check_calls(&rt, rt.alloc(), LOG, CALLS)
}
