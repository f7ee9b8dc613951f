//! Comparisons that the widths of their sides settle, and those that depend on samples.

use crate::calls::check_calls;
use std::alloc::AllocError;

/// Comparisons that the widths of their sides settle.
const COMPARISONS: &str = "\
$ pipelens why p
input x:8;
output y = x < 300;
= 0
accepted
p:2:14: warning: constant-comparison
  2 | output y = x < 300;
    |              ^
This is always 1: on the left is an unsigned stream of width 8, and on the right the number 300.
Compare with a number in reach, or take the comparison out. `signed(s)` reads the highest bit of `s` as its sign.
$ pipelens why p
input x:8;
input z:8;
output y = x - z < 0 ? z : x;
= 0
accepted
p:3:18: warning: constant-comparison
  3 | output y = x - z < 0 ? z : x;
    |                  ^
This is always 0: on the left is an unsigned stream of width 8, and on the right the number 0.
...
$ pipelens why p
input x:8;
output y = signed(x) > 127;
= 0
accepted
p:2:22: warning: constant-comparison
...This is always 0: on the left is a signed stream of width 8, and on the right the number 127.
...
$ pipelens why p
input x:8;
const limit = 256;
let s = x + x;
output y = (limit <= x@1) + (s > 511);
= 0
accepted
p:4:19: warning: constant-comparison
  4 | output y = (limit <= x@1) + (s > 511);
    |                   ^^
This is always 0: on the left is the number 256, and on the right an unsigned stream of width 8.
Compare with a number in reach, or take the comparison out. `signed(s)` reads the highest bit of `s` as its sign.
p:4:32: warning: constant-comparison
  4 | output y = (limit <= x@1) + (s > 511);
    |                                ^
This is always 0: on the left is an unsigned stream of width 9, and on the right the number 511.
Compare with a number in reach, or take the comparison out. `signed(s)` reads the highest bit of `s` as its sign.
$ pipelens why p
input x:8;
output y = x{3..0} == 16;
= 0
...This is always 0: on the left is an unsigned stream of width 4, and on the right the number 16.
...
$ pipelens why p
input x:8;
output y = x << 1 != 512 & x >> 4 <= 15;
= 0
accepted
p:2:19: warning: constant-comparison
  2 | output y = x << 1 != 512 & x >> 4 <= 15;
    |                   ^^
This is always 1: on the left is an unsigned stream of width 9, and on the right the number 512.
Compare with a number in reach, or take the comparison out. `signed(s)` reads the highest bit of `s` as its sign.
p:2:35: warning: constant-comparison
  2 | output y = x << 1 != 512 & x >> 4 <= 15;
    |                                   ^^
This is always 1: on the left is an unsigned stream of width 4, and on the right the number 15.
Compare with a number in reach, or take the comparison out. `signed(s)` reads the highest bit of `s` as its sign.
$ pipelens why p
input x:8;
fn f(a) { let low = a{3..0}; return low < 16 ? a : low; }
output y = f(x);
= 0
accepted
p:2:41: warning: constant-comparison
...
$ pipelens why p
input x:8;
const t = [256, 300];
for i in 0..2 { let a[i] = x < t[i]; }
output y = a[0] + a[1];
= 0
accepted
p:3:30: warning: constant-comparison
...on the right the number 256...
$ pipelens why p
input x:8;
for i in 3..3 { let a[i] = x < 300; }
output y = x > 300;
= 0
accepted
p:2:21: warning: unneeded
  2 | for i in 3..3 { let a[i] = x < 300; }
    |                     ^
No result needs `a`: neither an output nor what a function returns is made of it.
Take it out, or see whether it should stand in the place of another name.
p:3:14: warning: constant-comparison
...
";

/// Comparisons that depend on samples, or are meant as they are.
const OPEN: &str = "\
$ pipelens why p
input x:8;
output a = (x < 255) + (x > 0) + (x <= 254) + (x >= 1) + (x == 255) + (x != 0);
output b = (signed(x) > 126) + (signed(x) < 0) + (signed(x) >= 127) + (signed(x) - x < 0);
output c = (x + 1 > 255) + (x * x > 65024) + (~x < 255) + (cat(x, x) == 65535);
output d = ((x > 3 ? x : 300) < 300) + ((x > 3 ? signed(x) : x) < 0) + (x >> 1 > 126);
output e = (x << 1 != 511) + (x << x != cat(x, x));
= 0
accepted
$ pipelens why p
input x:8;
const mode = 3;
output y = mode == 3 ? x : x + 1;
output z = 5 > 4 ? x : 0;
= 0
accepted
$ pipelens why p
input x:8;
fn f(a, b:4) { return (a < 256) + (b < 16); }
output y = f(x, x);
= 0
accepted
$ pipelens why p
input x:8;
const t = [255, 300];
for i in 0..2 { let a[i] = x < t[i]; }
for i in 0..4 { let b[i] = i < 2 ? x : a[1]; }
output y = a[0] + b[0] + b[3];
= 0
accepted
$ pipelens why p
input x:8;
rec n:4 = 0 by n@1 == 9 ? 0 : n@1 + 1;
rec m = 0 by (m@1 + x){7..0};
output y = (n > 14) + (m < 256);
= 0
accepted
";

#[test]
fn constant_comparisons(rt: HostRuntime) -> Result<(), AllocError> {
    check_calls(&rt, rt.alloc(), "", COMPARISONS)
}

#[test]
fn open_comparisons(rt: HostRuntime) -> Result<(), AllocError> {
    check_calls(&rt, rt.alloc(), "", OPEN)
}
