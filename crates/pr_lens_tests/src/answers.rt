//! Words that are no call, and the line that is told of a refusal beside what is written.

use crate::calls::check_calls;
use std::alloc::AllocError;

/// Calls for the help, calls that are none, and the bounds of a number.
const WORDS: &str = "\
$ pipelens --help
= 0
pipelens looks at programs and runs of piperench

usage: pipelens TASK FILE...
$ pipelens why p --help
= 0
pipelens looks at programs and runs of piperench

usage: pipelens TASK FILE...
$ pipelens why
= 2
...
$ pipelens look p
= 2
...
$ pipelens why p p
= 2
...
$ pipelens why p --fabric narrow
= 2
...
$ pipelens cost p --samples 4294967296
= 2
...
$ pipelens cost p --from 18446744073709551616
= 2
...
$ pipelens cost p --to 007
= 2
...
$ pipelens cost p --from 18446744073709551615 --to 0 --samples 0
= 0
...samples of a run 0
...
";

#[test]
fn words(rt: HostRuntime) -> Result<(), AllocError> {
    check_calls(&rt, rt.alloc(), "input x:8;\noutput y = x;", WORDS)
}

/// Calls that write nothing, with the line that is told of each.
const NOTES: &str = "\
$ pipelens cost p
input x:8
output y = x;
= 3
! syntax: token 4
`pipelens why p` tells more
$ pipelens graph p
input x:8;
rec s = 0 by s@1 + x;
output y = s;
= 4
! no width: equation 2
`pipelens why p` tells more
$ pipelens cost p --narrow
input x:8
output y = x;
= 3
! syntax: token 4
`pipelens why p --narrow` tells more
$ pipelens cost p --fabric wide
input a:128;
input b:128;
input c:128;
output y = a;
= 6
! limit: input-bytes 32
`pipelens why p --fabric wide` tells more
$ pipelens chart p
12
cycle 0

= 15
! bad log: line 2
$ pipelens look p
= 2
! usage: pipelens TASK FILE [SAMPLES] [--fabric F] [--narrow] [--samples N] [--json] [--csv] [--signed NAME,..] [--no-warnings] [--name MODULE] [--seed N] [--from T] [--to T]; pipelens --help says more
";

#[test]
fn notes(rt: HostRuntime) -> Result<(), AllocError> {
    check_calls(&rt, rt.alloc(), "", NOTES)
}

/// Programs that are refused, with the lines for the options that make each fit. The recurrence takes eight or sixteen
/// columns for each of its two operators, and as many for what it keeps; four of each where only 32 bits reach the output.
const HELPED: &str = "\
$ pipelens cost p
input x:64;
rec s:64 = 1 by (s@1 ^ x) & s@1;
output y = s{31..0};
= 5
! no fit: unit 3
With `--narrow` the program fits.
On `--fabric wide` the program fits.
`pipelens why p` tells more
$ pipelens cost p
input x:128;
rec s:128 = 1 by (s@1 ^ x) & s@1;
output y = s{31..0};
= 5
! no fit: unit 3
With `--narrow` the program fits.
`pipelens why p` tells more
$ pipelens graph p --fabric wide
input x:128;
rec s:128 = 1 by (s@1 ^ x) & s@1;
output y = s{31..0};
= 5
! no fit: unit 3
With `--narrow` the program fits.
`pipelens why p --fabric wide` tells more
$ pipelens graph p
input x:64;
rec s:64 = 1 by (s@1 ^ x) & s@1;
output y = s;
= 5
! no fit: unit 3
On `--fabric wide` the program fits.
`pipelens why p` tells more
$ pipelens cost p --json --narrow
input x:64;
rec s:64 = 1 by (s@1 ^ x) & s@1;
output y = s;
= 5
! no fit: unit 3
On `--fabric wide` the program fits.
`pipelens why p --narrow` tells more
$ pipelens rtl p
input a:128;
input b:128;
output y:128 = a + b;
= 6
! limit: input-bytes 16
On `--fabric wide` the program fits.
`pipelens why p` tells more
$ pipelens testbench p s
input x:64;
rec s:64 = 1 by (s@1 ^ x) & s@1;
output y = s;
---
1
= 5
! no fit: unit 3
On `--fabric wide` the program fits.
`pipelens why p` tells more
";

#[test]
fn helped(rt: HostRuntime) -> Result<(), AllocError> {
    check_calls(&rt, rt.alloc(), "", HELPED)
}

/// Programs that no option helps, or that are refused for another reason.
const UNHELPED: &str = "\
$ pipelens cost p
input x:128;
rec s:128 = 1 by (s@1 ^ x) & s@1;
output y = s;
= 5
! no fit: unit 3
`pipelens why p` tells more
$ pipelens graph p --fabric wide --narrow
input x:128;
rec s:128 = 1 by (s@1 ^ x) & s@1;
output y = s;
= 5
! no fit: unit 3
`pipelens why p --fabric wide --narrow` tells more
$ pipelens graph p
input a:128;
input b:128;
input c:128;
output y = a;
= 6
! limit: input-bytes 16
`pipelens why p` tells more
$ pipelens cost p
input x:8;
output y = x{8..0};
= 4
! no width: equation 1
`pipelens why p` tells more
$ pipelens graph p
input x:8;
output y = z;
= 3
! scope: rule 2 item 1
`pipelens why p` tells more
";

#[test]
fn unhelped(rt: HostRuntime) -> Result<(), AllocError> {
    check_calls(&rt, rt.alloc(), "", UNHELPED)
}
