//! Costs and graphs of accepted programs, counted by hand.

use crate::calls::check_calls;
use std::alloc::AllocError;

/// The program of these calls.
const PROGRAM: &str = "input x:8;\nlet a:8 = x + x@1;\noutput y = a{3..0};";

/// What is told of it, and of a file and words that are none.
const CALLS: &str = "\
$ pipelens why p
= 0
...accepted
...
$ pipelens cost p
= 0
...equations 4
units 4
stages 4
...
$ pipelens cost p
= 0
...         2   0.250     1 in     4              4001
...
$ pipelens cost p
= 0
...
   units  stream
       2  a
       1  y
...
$ pipelens cost p --samples 10
= 0
...         3   0.500     2 in     4                22
...
$ pipelens graph p
= 0
...  u1 -> u2;
...
$ pipelens graph p
= 0
...\\nx, line 1, column 7\\n1 cell\"];
...
$ pipelens graph p
= 0
...    u2 [label=\"2 adds\\na, line 2, column 5\\n1 cell\"];
...
$ pipelens graph p
= 0
...  y0 [shape=plaintext, label=\"output y\"];
  u3 -> y0;
}
...
$ pipelens graph nowhere
= 3
...
$ pipelens why p --stripes 3
= 2
...
";

#[test]
fn accepted_programs(rt: HostRuntime) -> Result<(), AllocError> {
    check_calls(&rt, rt.alloc(), PROGRAM, CALLS)
}

/// A program with a loop, and streams that take as many units as another one.
const STREAMS: &str = "\
$ pipelens cost p
input x:8;
let s[0] = x;
for i in 1..3 { let s[i] = s[i-1] ^ x; }
let a = x ^ (x & (x | 3));
let b:8 = x + x@1;
output y = a ^ b ^ s[2];
= 0
...
   units  stream
       3  a
       2  b
       2  y
       1  s[1]
       1  s[2]
...
";

#[test]
fn streams_by_units(rt: HostRuntime) -> Result<(), AllocError> {
    check_calls(&rt, rt.alloc(), "", STREAMS)
}

/// A name in a function and one in a loop without turns before the others; an instance that is a recurrence's past.
const ORIGINS: &str = "\
$ pipelens cost p --json
input x:8;
fn low(v) { let t = v & 15; return t; }
for i in 0..1 { for j in 2..2 { let s[j] = x; } let s[i] = low(x) ^ x; let r[i] = s[i] | 64; }
for i in 2..3 { let s[i] = r[0] & x; } output y = s[2];
= 0
{...\"streams\":[{\"stream\":\"s[0]\",\"line\":3,\"column\":53,\"end_column\":54,\"units\":2},\
{\"stream\":\"r[0]\",\"line\":3,\"column\":76,\"end_column\":77,\"units\":1},\
{\"stream\":\"s[2]\",\"line\":4,\"column\":21,\"end_column\":22,\"units\":1}],...
$ pipelens cost p --json
input x:8;
fn count(v) { rec c:8 = 0 by c@1 + v; return c@1; }
let a = count(x); output z = a ^ x; output y = a;
= 0
{...\"streams\":[{\"stream\":\"a\",\"line\":3,\"column\":5,\"end_column\":6,...
";

#[test]
fn origins_of_units(rt: HostRuntime) -> Result<(), AllocError> {
    check_calls(&rt, rt.alloc(), "", ORIGINS)
}

/// Costs as JSON: two inputs of a byte stand in the first stage, and what joins them in the second.
const OBJECTS: &str = "\
$ pipelens cost p --json --samples 10
input a:8;
input b:8;
output y = a ^ b;
= 0
{\"fabric\":\"base\",\"narrowed\":false,\"columns\":16,\"equations\":3,\"units\":3,\
\"other_way\":{\"narrowed\":true,\"units\":3,\"stages\":2},\"fullest\":{\"stage\":0,\"columns\":2},\
\"streams\":[{\"stream\":\"y\",\"line\":3,\"column\":8,\"end_column\":9,\"units\":1}],\
\"stages\":[{\"columns\":2,\"registers\":2,\"states\":0},{\"columns\":1,\"registers\":1,\"states\":0}],\
\"samples\":10,\"runs\":[{\"stripes\":2,\"rate\":{\"samples\":1,\"cycles\":1},\"cycles\":12},\
{\"stripes\":3,\"rate\":{\"samples\":1,\"cycles\":1},\"cycles\":12},\
{\"stripes\":4,\"rate\":{\"samples\":1,\"cycles\":1},\"cycles\":12},\
{\"stripes\":7,\"rate\":{\"samples\":1,\"cycles\":1},\"cycles\":12},\
{\"stripes\":8,\"rate\":{\"samples\":1,\"cycles\":1},\"cycles\":12},\
{\"stripes\":16,\"rate\":{\"samples\":1,\"cycles\":1},\"cycles\":12},\
{\"stripes\":32,\"rate\":{\"samples\":1,\"cycles\":1},\"cycles\":12},\
{\"stripes\":64,\"rate\":{\"samples\":1,\"cycles\":1},\"cycles\":12},\
{\"stripes\":128,\"rate\":{\"samples\":1,\"cycles\":1},\"cycles\":12},\
{\"stripes\":256,\"rate\":{\"samples\":1,\"cycles\":1},\"cycles\":12}]}
$ pipelens cost p --json --fabric wide --narrow
= 0
{\"fabric\":\"wide\",\"narrowed\":true,\"columns\":32,...\"other_way\":{\"narrowed\":false,\"units\":4,\"stages\":4}...
$ pipelens cost p --json
= 0
{\"fabric\":\"base\",...\"streams\":[{\"stream\":\"a\",\"line\":2,\"column\":5,\"end_column\":6,\"units\":2},{\"stream\":\"y\",\"line\":3,\"column\":8,\"end_column\":9,\"units\":1}],\"stages\":[...
$ pipelens cost p --json
= 0
{...,\"runs\":[{\"stripes\":2,\"rate\":{\"samples\":1,\"cycles\":4},\"cycles\":4001},{\"stripes\":3,...
$ pipelens cost p --json
input x:8;
let s[0] = x;
for i in 1..2 { let s[i] = s[i-1] ^ x; }
output y = s[1];
= 0
{...,\"streams\":[{\"stream\":\"s[1]\",\"line\":3,\"column\":21,\"end_column\":22,\"units\":1}],\"stages\":[...
$ pipelens cost p --json --narrow
input x:64;
rec s:64 = 1 by (s@1 ^ x) & s@1;
output y = s{31..0};
= 0
{\"fabric\":\"base\",\"narrowed\":true,...,\"other_way\":null,\"fullest\":...
$ pipelens cost p --json
input x:8
output y = x;
= 3
! syntax: token 4
`pipelens why p` tells more
";

#[test]
fn costs_as_json(rt: HostRuntime) -> Result<(), AllocError> {
    check_calls(&rt, rt.alloc(), PROGRAM, OBJECTS)
}
