//! Constants that are read by `signed`, wrap around, or are the amounts of shifts.

use crate::calls::check_calls;
use std::alloc::AllocError;

/// `signed` of constants.
const SIGNED: &str = "\
$ pipelens why p
input x:8;
output y = signed(x) * signed(12);
= 0
accepted
p:2:24: warning: signed-constant
  2 | output y = signed(x) * signed(12);
    |                        ^^^^^^^^^^
This is -4: `signed` takes the highest bit of a number as its sign, and 12 has the width 4.
Write 12 without `signed` for the number itself, which operators take as it is. A negative one has a declared width: with `let k:8 = 252;` `signed(k)` is -4.
$ pipelens why p
input x:8;
const k = 0x80;
fn f(a) { return signed(a) + signed( k ); }
output y = f(x);
= 0
accepted
p:3:30: warning: signed-constant
...This is -128: `signed` takes the highest bit of a number as its sign, and 128 has the width 8.
...
$ pipelens why p
input x:8;
output y = signed(x) * signed(1);
= 0
...This is -1: ...
$ pipelens why p
input x:8;
output y = signed(x) * signed(18446744073709551615);
= 0
...This is -1: ...
$ pipelens why p
input x:8;
const k = 12;
output y = signed(x) * 12 + signed(0) + k;
= 0
accepted
$ pipelens why p
input x:8;
let k:8 = 252;
output y = signed(x) * signed(k);
= 0
accepted
$ pipelens why p
input x:8;
fn f(k:8) { return signed(k); }
output y = f(12) + signed(x);
= 0
accepted
";

#[test]
fn signed_constants(rt: HostRuntime) -> Result<(), AllocError> {
    check_calls(&rt, rt.alloc(), "", SIGNED)
}

/// `signed` of constants that are not written as one number.
const SIGNED_ENTRIES: &str = "\
$ pipelens why p
input x:8;
const c = [3, 10, 253];
const k = 4 + 8;
let a = signed(x) * signed(c[0 + 1]);
let b = signed(k) + signed((12));
for i in 0..3 { let s[i] = signed(c[i]) + signed(i) + x; }
fn f(a) { return a + signed(7 * 7) + signed(4 + 8); }
output y = f(a) + b + s[0] + s[1] + s[2];
= 0
accepted
p:4:21: warning: signed-constant
  4 | let a = signed(x) * signed(c[0 + 1]);
    |                     ^^^^^^
This is -6: `signed` takes the highest bit of a number as its sign, and 10 has the width 4.
Write 10 without `signed` for the number itself, which operators take as it is. A negative one has a declared width: with `let k:8 = 252;` `signed(k)` is -4.
p:5:9: warning: signed-constant
  5 | let b = signed(k) + signed((12));
    |         ^^^^^^
This is -4: `signed` takes the highest bit of a number as its sign, and 12 has the width 4.
Write 12 without `signed` for the number itself, which operators take as it is. A negative one has a declared width: with `let k:8 = 252;` `signed(k)` is -4.
p:5:21: warning: signed-constant
  5 | let b = signed(k) + signed((12));
    |                     ^^^^^^
This is -4: `signed` takes the highest bit of a number as its sign, and 12 has the width 4.
Write 12 without `signed` for the number itself, which operators take as it is. A negative one has a declared width: with `let k:8 = 252;` `signed(k)` is -4.
p:6:28: warning: signed-constant
  6 | for i in 0..3 { let s[i] = signed(c[i]) + signed(i) + x; }
    |                            ^^^^^^
This is -1: `signed` takes the highest bit of a number as its sign, and 3 has the width 2.
Write 3 without `signed` for the number itself, which operators take as it is. A negative one has a declared width: with `let k:8 = 252;` `signed(k)` is -4.
p:6:43: warning: signed-constant
  6 | for i in 0..3 { let s[i] = signed(c[i]) + signed(i) + x; }
    |                                           ^^^^^^
This is -1: `signed` takes the highest bit of a number as its sign, and 1 has the width 1.
Write 1 without `signed` for the number itself, which operators take as it is. A negative one has a declared width: with `let k:8 = 252;` `signed(k)` is -4.
p:7:22: warning: signed-constant
  7 | fn f(a) { return a + signed(7 * 7) + signed(4 + 8); }
    |                      ^^^^^^
This is -15: `signed` takes the highest bit of a number as its sign, and 49 has the width 6.
Write 49 without `signed` for the number itself, which operators take as it is. A negative one has a declared width: with `let k:8 = 252;` `signed(k)` is -4.
$ pipelens why p
input x:8;
const c = [0, 253];
let m = 12;
fn f(k) { return signed(k) + signed(c[0]); }
let s[0] = x;
for i in 3..3 { let s[i] = signed(c[1]) + x; }
output y = f(x) + s[0] + signed(m) + signed(4 + 3) + signed(m + 9) + signed(x{3..0});
= 0
accepted
";

#[test]
fn signed_entries(rt: HostRuntime) -> Result<(), AllocError> {
    check_calls(&rt, rt.alloc(), "", SIGNED_ENTRIES)
}

/// Constants that functions read by `signed`.
const ARGUMENTS: &str = "\
$ pipelens why p
input x:8;
fn tap(a, k) { return signed(a) * signed(k); }
output y = tap(x, 12);
= 0
accepted
p:3:12: warning: signed-constant
  3 | output y = tap(x, 12);
    |            ^^^
Argument 2 is 12, which has the width 4. `tap` of line 2 reads it by `signed`, so it is -4 there.
Declare a width for the parameter, as in `k:8`: the highest bit of this width is the sign.
$ pipelens why p
input x:8;
const c = [0, 3, 253];
fn scale(k, a) {
    let m = a + 1;
    return m + signed(((k)));
}
fn twice(a, n) { return (cat(a, scale(n, a)) + 1){3..0}; }
for i in 0..3 { let s[i] = x > 3 ? x : twice(x, c[i]); }
output y = s[0] + s[1] + s[2] + (x < 300);
= 0
accepted
p:8:40: warning: signed-constant
  8 | for i in 0..3 { let s[i] = x > 3 ? x : twice(x, c[i]); }
    |                                        ^^^^^
Argument 2 is 3, which has the width 2. `twice` of line 7 reads it by `signed`, so it is -1 there.
Declare a width for the parameter, as in `k:8`: the highest bit of this width is the sign.
p:9:36: warning: constant-comparison
  9 | output y = s[0] + s[1] + s[2] + (x < 300);
    |                                    ^
This is always 1: on the left is an unsigned stream of width 8, and on the right the number 300.
Compare with a number in reach, or take the comparison out. `signed(s)` reads the highest bit of `s` as its sign.
$ pipelens why p
input x:8;
const low = 0x80;
fn f(k) { for i in 0..1 { let t[i] = signed(k) + i; } return t[0]; }
fn g(k) { return f(low) + k; }
output y = g(x) + f(3 + 4);
= 0
accepted
p:4:18: warning: signed-constant
...Argument 1 is 128, which has the width 8. `f` of line 3 reads it by `signed`, so it is -128 there.
...
$ pipelens why p
input x:8;
const c = [0, 253];
fn f(k:9) { return signed(k); }
fn g(k) { return k + f(k) + signed(k + 0) + signed(cat(0, k)); }
fn h(k, j) { return signed(j) - k; }
let m = 12;
output y = f(c[1]) + g(12) + h(12, x) + h(12, 0) + h(x, m) + h(x, 4 + 3) + h(x, c[0]);
= 0
accepted
";

#[test]
fn signed_arguments(rt: HostRuntime) -> Result<(), AllocError> {
    check_calls(&rt, rt.alloc(), "", ARGUMENTS)
}

/// Differences of constants.
const DIFFERENCES: &str = "\
$ pipelens why p
input x:8;
output y = signed(x) < 0 - 5;
= 0
accepted
p:2:24: warning: wrapping-difference
  2 | output y = signed(x) < 0 - 5;
    |                        ^^^^^
This is 3, and not -5: a difference of unsigned numbers wraps around, here at the width 3.
Write `signed(0) - 5` for the negative number.
$ pipelens why p
input x:8;
const low = 3;
const high = 200;
output y = x > 7 ? signed(x) : (low - high) + 1;
= 0
accepted
p:4:33: warning: wrapping-difference
...This is 59, and not -197: a difference of unsigned numbers wraps around, here at the width 8.
Write `signed(0) - 197` for the negative number.
...
$ pipelens why p
input x:8;
rec s:8 = 0 by 1 - 2;
output y = s + x;
= 0
accepted
p:2:16: warning: wrapping-difference
...
$ pipelens why p
input x:8;
const c = [9, 5];
output y = signed(x) < signed(0) - 5;
output z = (x + 3 - 5) + (x * 3 - 5) + (3 - 5 * x{3..0}) + (7 - 5) + (~3 - 5) + (c[1] - 7) + (x@1 - 5);
= 0
accepted
";

#[test]
fn differences_of_constants(rt: HostRuntime) -> Result<(), AllocError> {
    check_calls(&rt, rt.alloc(), "", DIFFERENCES)
}

/// Shifts by a stream that is one number.
const SHIFTS: &str = "\
$ pipelens why p
input x:8;
let k = 3;
output y = x << k;
= 0
accepted
p:3:17: warning: constant-shift
  3 | output y = x << k;
    |                 ^
A shift by a stream takes more units than one by a constant, and `k` is always 3.
Introduce it by `const`, with this number and without a width, or shift by the number.
$ pipelens why p
input x:8;
fn f(a) { let k = 1; return a >> k; }
output y = f(x) >> 2;
= 0
accepted
p:2:34: warning: constant-shift
...and `k` is always 1...
$ pipelens why p
input x:8;
let k:3 = 4;
let low:2 = 7;
output y = (x >> k) + (x << low);
= 0
accepted
p:4:18: warning: constant-shift
  4 | output y = (x >> k) + (x << low);
    |                  ^
A shift by a stream takes more units than one by a constant, and `k` is always 4.
Introduce it by `const`, with this number and without a width, or shift by the number.
p:4:29: warning: constant-shift
  4 | output y = (x >> k) + (x << low);
    |                             ^^^
A shift by a stream takes more units than one by a constant, and `low` is always 3.
Introduce it by `const`, with this number and without a width, or shift by the number.
$ pipelens why p
input x:8;
let k:64 = 18446744073709551615;
output y = x >> k;
= 0
...and `k` is always 18446744073709551615...
$ pipelens why p
input x:8;
input n:3;
const c = 3;
let k = 3;
let few = x{1..0};
let same = c;
let sum:4 = 1 + 2;
let t[0] = 3;
fn f(a, m:2) { return a >> m; }
output y = (x << n) + (x << c) + (x >> few) + (x >> k + n) + (x << t[0]) + (k << 1) + (x << same) + (x >> sum) + f(x, 3);
= 0
accepted
";

#[test]
fn constant_shifts(rt: HostRuntime) -> Result<(), AllocError> {
    check_calls(&rt, rt.alloc(), "", SHIFTS)
}
