//! Names that no result needs, and delay lines that are longer than what reads them.

use crate::calls::check_calls;
use std::alloc::AllocError;

/// Names that no result needs.
const NAMES: &str = "\
$ pipelens why p
input x:8;
let a = x + 1;
let b = a + 1;
output y = x;
= 0
accepted
p:2:5: warning: unneeded
  2 | let a = x + 1;
    |     ^
No result needs `a`: neither an output nor what a function returns is made of it.
Take it out, or see whether it should stand in the place of another name.
p:3:5: warning: unneeded
  3 | let b = a + 1;
    |     ^
No result needs `b`: neither an output nor what a function returns is made of it.
Take it out, or see whether it should stand in the place of another name.
$ pipelens why p
input x:8;
input unread:8;
output y = x;
= 0
accepted
p:2:7: warning: unneeded
...
$ pipelens why p
input x:8;
rec count:8 = 0 by count@1 + 1;
output y = x;
= 0
accepted
p:2:5: warning: unneeded
...
$ pipelens why p
input x:8;
fn f(a) { let b = a + 1; let c = a + 2; return c; }
output y = f(x);
= 0
accepted
p:2:15: warning: unneeded
...No result needs `b`...
$ pipelens why p
input x:8;
let b = x;
fn f(a) { let b = a + 1; return b; }
output y = f(x);
= 0
accepted
p:2:5: warning: unneeded
...
$ pipelens why p
input x:8;
let a[0] = x;
let b[0] = x;
for i in 1..4 { let a[i] = b[i-1] ^ x; let b[i] = a[i]; let c[i] = a[i]; }
output y = a[3];
= 0
accepted
p:4:61: warning: unneeded
...
$ pipelens why p
input x:8;
let a[0] = x;
let b[0] = x;
for i in 1..4 { let a[i] = b[i-1] ^ x; let b[i] = a[i]; }
rec s:8 = 0 by s@1 + a[3];
output y = s@1;
output z = y;
= 0
accepted
";

#[test]
fn names_without_need(rt: HostRuntime) -> Result<(), AllocError> {
    check_calls(&rt, rt.alloc(), "", NAMES)
}

/// Delay lines that are longer than what reads them.
const DELAYS: &str = "\
$ pipelens why p
input x:8;
let d[0] = x;
for i in 1..9 { let d[i] = d[i-1]@1; }
output y = d[0] + d[1] + d[2] + d[3];
= 0
accepted
p:3:21: warning: long-delay
  3 | for i in 1..9 { let d[i] = d[i-1]@1; }
    |                     ^
No output needs `d` with the indices 4 to 8 in the order of assignment: the delay line is longer than what the outputs need.
Let it end before, with what reads its end, or see whether an output should read on.
$ pipelens why p
input x:8;
let d[0] = x;
for i in 1..9 { let d[i] = d[i-1]@1; }
for i in 9..9 { let d[i] = d[i-1]@1; }
output y = d[0] + d[3];
= 0
accepted
p:4:21: warning: long-delay
  4 | for i in 9..9 { let d[i] = d[i-1]@1; }
    |                     ^
No output needs `d` with the indices 4 to 8 in the order of assignment: ...
$ pipelens why p
input x:8;
let d[0]:6 = x;
for i in 1..4 { let d[i]:6 = d[i-1]@1; }
output y = d[0] + d[2];
= 0
accepted
p:3:21: warning: long-delay
...No output needs `d` with the index 3: the delay line is longer than what the outputs need.
...
$ pipelens why p
input x:8;
let a[0] = x;
let b[0] = x;
for i in 1..5 { let a[i] = a[i-1]@1; let b[i] = b[i-1]@2; }
output y = a[4] + b[1];
= 0
accepted
p:4:42: warning: long-delay
...No output needs `b` with the indices 3 to 4 in the order of assignment: ...
$ pipelens why p
input x:8;
let d[1] = x@1;
let d[2] = x@2;
let d[3] = x@3;
output y = d[1] + x;
= 0
accepted
p:4:5: warning: long-delay
...with the indices 2 to 3 in the order of assignment: ...
$ pipelens why p
input x:8;
let d[0] = x;
let d[1] = d[0]@1;
fn f(a) { let d = a + 1; return d; }
output y = f(d[0]);
= 0
accepted
p:3:5: warning: long-delay
...with the index 1: ...
$ pipelens why p
input x:8;
let d[0] = x;
for i in 1..3 { let d[i] = d[i-1]@1; }
output y = x;
= 0
accepted
p:2:5: warning: unneeded
  2 | let d[0] = x;
    |     ^
No result needs `d`: neither an output nor what a function returns is made of it.
Take it out, or see whether it should stand in the place of another name.
p:3:21: warning: unneeded
...
";

/// Delay lines that are read to their ends, and ends of other lines.
const READ: &str = "\
$ pipelens why p
input x:8;
let d[0] = x;
for i in 1..9 { let d[i] = d[i-1]@1; }
output y = d[0] + d[8];
= 0
accepted
$ pipelens why p
input x:8;
let d[0] = x;
for i in 1..9 { let d[i] = d[i-1]@1; }
output y = d[3];
output z = x@8;
= 0
accepted
$ pipelens why p
input x:8;
let c[0] = x{0..0};
for i in 0..8 { let c[i+1] = c[i] ^ x{i..i}; }
output y = c[7];
= 0
accepted
$ pipelens why p
input x:8;
fn f(a) { let d[0] = a; for i in 1..9 { let d[i] = d[i-1]@1; } return d[3]; }
output y = f(x);
= 0
accepted
";

#[test]
fn long_delays(rt: HostRuntime) -> Result<(), AllocError> {
    check_calls(&rt, rt.alloc(), "", DELAYS)
}

#[test]
fn delays_that_are_read(rt: HostRuntime) -> Result<(), AllocError> {
    check_calls(&rt, rt.alloc(), "", READ)
}
