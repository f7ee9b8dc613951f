//! Declared widths that cut bits off, and those that hold all values.

use crate::calls::check_calls;
use std::alloc::AllocError;

/// Declared widths that cut bits off.
const CUTS: &str = "\
$ pipelens why p
input x:8;
let s:8 = x + x;
output y = s;
= 0
accepted
p:2:7: warning: cut-bits
  2 | let s:8 = x + x;
    |       ^
By what is known of the operands, the values here go from 0 to 510, and the width 8 holds those from 0 to 255: the bits above are cut off.
Declare a greater width, of at most 128. Where these bits are not wanted, a slice says so: `(..){7..0}`, and `signed` of it where the stream is signed.
$ pipelens why p
input x:8;
output y:9 = ((x * 3));
= 0
accepted
p:2:10: warning: cut-bits
...By what is known of the operands, the values here go from 0 to 765, and the width 9 holds those from 0 to 511: the bits above are cut off.
Declare a greater width, of at most 128. Where these bits are not wanted, a slice says so: `(..){8..0}`, and `signed` of it where the stream is signed.
...
$ pipelens why p
input x:8;
output y:8 = signed(x) - signed(x@1);
= 0
accepted
p:2:10: warning: cut-bits
...By what is known of the operands, the values here go from -255 to 255, and the width 8 holds those from -128 to 127: ...
$ pipelens why p
input a:8;
input b:8;
output y:16 = signed(a) * signed(b) + signed(b) * signed(a);
= 0
accepted
p:3:10: warning: cut-bits
...By what is known of the operands, the values here go from -32512 to 32768, and the width 16 holds those from -32768 to 32767: ...
$ pipelens why p
input x:8;
let k:8 = 252;
output y:10 = signed(x) * signed(k);
= 0
accepted
p:3:10: warning: cut-bits
...By what is known of the operands, the values here go from -508 to 512, and the width 10 holds those from -512 to 511: ...
$ pipelens why p
input x:4;
let low = (x & 3) + (x < 3 ? x >> 1 : 2);
output y:3 = low + 0;
= 0
accepted
p:3:10: warning: cut-bits
...By what is known of the operands, the values here go from 0 to 10, and the width 3 holds those from 0 to 7: ...
$ pipelens why p
input x:4;
let k:8 = 200;
output y:4 = x + 3;
output z:4 = signed(0) - x - 1;
output u:8 = k@1 + 60;
output v:5 = (~x | 16) + 8 * (x{1..0} + 1);
= 0
accepted
p:3:10: warning: cut-bits
  3 | output y:4 = x + 3;
    |          ^
By what is known of the operands, the values here go from 3 to 18, and the width 4 holds those from 0 to 15: the bits above are cut off.
Declare a greater width, of at most 128. Where these bits are not wanted, a slice says so: `(..){3..0}`, and `signed` of it where the stream is signed.
p:4:10: warning: cut-bits
  4 | output z:4 = signed(0) - x - 1;
    |          ^
By what is known of the operands, the values here go from -16 to -1, and the width 4 holds those from -8 to 7: the bits above are cut off.
Declare a greater width, of at most 128. Where these bits are not wanted, a slice says so: `(..){3..0}`, and `signed` of it where the stream is signed.
p:5:10: warning: cut-bits
  5 | output u:8 = k@1 + 60;
    |          ^
By what is known of the operands, the values here go from 60 to 260, and the width 8 holds those from 0 to 255: the bits above are cut off.
Declare a greater width, of at most 128. Where these bits are not wanted, a slice says so: `(..){7..0}`, and `signed` of it where the stream is signed.
p:6:10: warning: cut-bits
  6 | output v:5 = (~x | 16) + 8 * (x{1..0} + 1);
    |          ^
By what is known of the operands, the values here go from 24 to 63, and the width 5 holds those from 0 to 31: the bits above are cut off.
Declare a greater width, of at most 128. Where these bits are not wanted, a slice says so: `(..){4..0}`, and `signed` of it where the stream is signed.
$ pipelens why p
input x:128;
output y:8 = x + x;
= 0
accepted
p:2:10: warning: cut-bits
...By what is known of the operands, the values here go beyond 128 bits, and the width 8 holds those from 0 to 255: ...
$ pipelens why p
input x:128;
output y:1 = signed(x) * 1;
= 0
accepted
p:2:10: warning: cut-bits
...By what is known of the operands, the values here go from -170141183460469231731687303715884105728 to 170141183460469231731687303715884105727, and the width 1 holds those from -1 to 0: ...
$ pipelens why p
input x:8;
let s[0]:8 = x;
for i in 1..5 { let s[i]:9 = s[i-1] + x; }
output y = s[4];
= 0
accepted
p:3:26: warning: cut-bits
...By what is known of the operands, the values here go from 0 to 765, ...
$ pipelens why p
input x:8;
fn f(a) { let t:4 = 9 + 8; return t + a; }
output y = f(x);
= 0
accepted
p:2:17: warning: cut-bits
...
$ pipelens why p
input x:8;
rec n:4 = 0 by n@1 == 20 ? 0 : n@1 + 1;
let s:8 = (x < 300) + x + n;
let t:8 = x > 300 ? 1 : 8;
output y:4 = s * t;
= 0
accepted
p:2:20: warning: constant-comparison
  2 | rec n:4 = 0 by n@1 == 20 ? 0 : n@1 + 1;
    |                    ^^
This is always 0: on the left is an unsigned stream of width 4, and on the right the number 20.
Compare with a number in reach, or take the comparison out. `signed(s)` reads the highest bit of `s` as its sign.
p:3:7: warning: cut-bits
  3 | let s:8 = (x < 300) + x + n;
    |       ^
By what is known of the operands, the values here go from 0 to 271, and the width 8 holds those from 0 to 255: the bits above are cut off.
Declare a greater width, of at most 128. Where these bits are not wanted, a slice says so: `(..){7..0}`, and `signed` of it where the stream is signed.
p:3:14: warning: constant-comparison
  3 | let s:8 = (x < 300) + x + n;
    |              ^
This is always 1: on the left is an unsigned stream of width 8, and on the right the number 300.
Compare with a number in reach, or take the comparison out. `signed(s)` reads the highest bit of `s` as its sign.
p:4:13: warning: constant-comparison
  4 | let t:8 = x > 300 ? 1 : 8;
    |             ^
This is always 0: on the left is an unsigned stream of width 8, and on the right the number 300.
Compare with a number in reach, or take the comparison out. `signed(s)` reads the highest bit of `s` as its sign.
p:5:10: warning: cut-bits
  5 | output y:4 = s * t;
    |          ^
By what is known of the operands, the values here go from 0 to 2040, and the width 4 holds those from 0 to 15: the bits above are cut off.
Declare a greater width, of at most 128. Where these bits are not wanted, a slice says so: `(..){3..0}`, and `signed` of it where the stream is signed.
";

/// Declared widths that hold all values, or that are meant to cut bits off.
const WIDE_ENOUGH: &str = "\
$ pipelens why p
input x:8;
output a:10 = (x << 1) + (x << 1);
output b:11 = (x << 2) + x + (x << 1);
output c:8 = (x + x){7..0};
output d:8 = (x + x) >> 1;
output e:8 = x - x@1;
output f:8 = x > 3 ? x + x : x;
output g:8 = ~(x + x);
output h:8 = x << 4;
output i:4 = x;
output j:9 = x - x@1;
output k:8 = (x << 4 & 240) + (x >> 4);
= 0
accepted
$ pipelens why p
input a:8;
input b:8;
output y:16 = signed(a) * signed(b) - signed(b) * signed(a@1);
output z:9 = signed(cat(0, a)) - b;
output v:10 = signed(cat(253)) * signed(a);
let k:8 = 252;
output w:11 = signed(a) * signed(k);
= 0
accepted
$ pipelens why p
input x:4;
output y:8 = (x << 4) + x;
= 0
accepted
$ pipelens why p
input x:8;
let low = signed(0) - 3;
output a:8 = signed(cat(0, x)) - 128;
output b:8 = (200 - x{6..0}) + 50;
output c:8 = (~(x | 240)) + 240;
output d:8 = ((x & 3) | (x & 12)) + ((x & 10) ^ 5) + 225;
output e:8 = ((signed(x) - 100) >> 1) + 10;
output f:8 = (signed(x) & 15) + 112;
output g:8 = signed(cat(0, 1, x{3..0})) - 144;
output h:8 = ~signed(x) * (signed(0) - 1) - 1;
output i:8 = ((signed(cat(0, x{3..0})) - 60) * low + low) - 60;
= 0
accepted
$ pipelens why p
input x:8;
input z:4;
let s[0]:24 = x * z;
for i in 1..16 { let s[i]:24 = s[i-1] + x@i * z; }
output y:16 = s[15] + 0;
= 0
accepted
$ pipelens why p
input x:8;
rec s:8 = 0 by s@1 + x;
rec n = 0 by (n@1 + x){7..0};
let t:4 = n + x;
output y = s + t;
= 0
accepted
$ pipelens why p
input x:8;
fn f(a, b:4):8 { let s:4 = a + b; return s * a; }
let t:8 = f(x, x + x) + x;
output y = t;
= 0
accepted
$ pipelens why p
input x:128;
output y:128 = x{126..0} + x{126..0};
= 0
accepted
";

#[test]
fn cut_bits(rt: HostRuntime) -> Result<(), AllocError> {
    check_calls(&rt, rt.alloc(), "", CUTS)
}

#[test]
fn widths_that_hold(rt: HostRuntime) -> Result<(), AllocError> {
    check_calls(&rt, rt.alloc(), "", WIDE_ENOUGH)
}
