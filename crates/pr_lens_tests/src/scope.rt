//! Broken rules of scope, with the place and the note of each and words of its explanation.

use crate::calls::check_calls;
use std::alloc::AllocError;

/// Names that are introduced a second time.
const TWICE: &str = "\
$ pipelens why p
input x:8;
let a = x;
let a = x;
output y = a;
= 3
p:3:5: scope: rule 1 item 2
...introduced at line 2 column 5.
Give one of the two another name, or tell them apart by an index.
...
$ pipelens why p
input x:8;
let a[0] = x;
let a[0] = x;
output y = a[0];
= 3
p:3:5: scope: rule 1 item 2
...`a[0]` is introduced a second time.
...
$ pipelens why p
input x:8;
for i in 0..3 { let a = x; }
output y = a;
= 3
p:2:21: scope: rule 1 item 1
...in every turn of the loop...
$ pipelens why p
input x:8;
let signed = x;
output y = x;
= 3
p:2:5: scope: rule 1 item 1
...there from the beginning...
$ pipelens why p
input x:8;
fn f(a, a) { return a; }
output y = x;
= 3
p:2:9: scope: rule 1 item 1
...a parameter, introduced at line 2 column 6.
Give one of the two another name.
...
$ pipelens why p
input x:8;
fn f(a, a, a) { return a; }
output y = x;
= 3
p:2:9: scope: rule 1 item 1
...
";

#[test]
fn names_introduced_twice(rt: HostRuntime) -> Result<(), AllocError> {
    check_calls(&rt, rt.alloc(), "", TWICE)
}

/// Names that are used before they are assigned.
const EARLY: &str = "\
$ pipelens why p
input x:8;
output y = x + z;
= 3
p:2:16: scope: rule 2 item 1
...`z` is used before it is assigned...
$ pipelens why p
input x:8;
rec s:8 = 0 by x + s;
output y = s;
= 3
p:2:20: scope: rule 2 item 1
...write `@1` behind it...
$ pipelens why p
input x:8;
rec a:8 = 0 by b@1 ^ x;
rec b:8 = 0 by a@1;
output y = a;
= 3
p:2:16: scope: rule 2 item 1
...Two that read each other are one of two halves...
$ pipelens why p
input x:8;
rec a:8 = 0 by b@1 ^ x;
rec b:8 = 0 by b@1 + x;
output y = a;
= 3
p:2:16: scope: rule 2 item 1
...The `rec` at line 3 column 1 assigns this name. Move this behind it...
$ pipelens why p
input x:8;
rec a[0]:8 = 0 by b@1 ^ x;
let a[1] = x;
rec b:8 = 0 by a[1];
output y = a[0];
= 3
p:2:19: scope: rule 2 item 1
...The `rec` at line 4 column 1 assigns this name. Move this behind it...
$ pipelens why p
input x:8;
let t[0] = x;
output y = t[1];
= 3
p:3:12: scope: rule 2 item 2
...`t[1]` is used before it is assigned.
`t` is a stream, introduced at line 2 column 5.
This instance of it is not assigned there...
$ pipelens why p
input x:8;
let a[0] = x;
for i in 1..3 { let a[i] = b[i-1] ^ z; let b[i] = x; }
output y = a[2];
= 3
p:3:28: scope: rule 2 item 2
...`b[i-1]` is used before it is assigned, and in the first turn it is `b[0]`.
Assign it in an item before...
$ pipelens why p
input x:8;
let a = x;
fn f(b) { return a + b; }
output y = f(x);
= 3
p:3:18: scope: rule 2 item 2
...A function sees no stream from outside: pass it as a parameter.
...
";

#[test]
fn names_used_too_early(rt: HostRuntime) -> Result<(), AllocError> {
    check_calls(&rt, rt.alloc(), "", EARLY)
}

/// Names that a `rec` behind them assigns.
const BEHIND: &str = "\
$ pipelens why p
input x:8;
let next = s@1 + x;
rec s:8 = 0 by next;
output y = s;
= 3
p:2:12: scope: rule 2 item 1
...The `rec` at line 3 column 1 assigns this name. Move this behind it, or, where that `rec` needs it, write it into its body.
...
$ pipelens why p
input x:8;
for i in 0..2 { let a[i] = s[i]@1; rec s[i]:8 = 0 by a[i]; }
output y = s[1];
= 3
p:2:28: scope: rule 2 item 1
...The `rec` at line 2 column 36 assigns this name...
$ pipelens why p
input x:8;
let next = s + x;
fn f(a) { rec s:8 = 0 by s@1 + a; return s; }
output y = f(next);
= 3
p:2:12: scope: rule 2 item 1
...Assign it in an item before this one, or see whether another name is meant.
...
";

#[test]
fn names_of_recurrences_behind(rt: HostRuntime) -> Result<(), AllocError> {
    check_calls(&rt, rt.alloc(), "", BEHIND)
}

/// Names that are used in what is assigned to them.
const THEMSELVES: &str = "\
$ pipelens why p
input x:8;
let y = y + x;
output z = y;
= 3
p:2:9: scope: rule 2 item 1
...`y` is used before it is assigned.
A `let` does not see itself: for feedback write a `rec`...
$ pipelens why p
input x:8;
for i in 0..3 { let y[i]:8 = x + y[i]@1; }
output z = y[2];
= 3
p:2:34: scope: rule 2 item 1
...`y[i]` is used before it is assigned, and in the first turn it is `y[0]`.
A `let` does not see itself...
$ pipelens why p
input x:8;
output y:8 = y@1 + x;
= 3
p:2:14: scope: rule 2 item 1
...An `output` does not see itself...
$ pipelens why p
input x:8;
for i in 1..3 { rec s[i]:8 = 0 by s[i-1]@1 + x; }
output y = s[2];
= 3
p:2:35: scope: rule 2 item 1
...`s[i-1]` is used before it is assigned, and in the first turn it is `s[0]`.
This statement assigns an instance of it. Assign the one that is read in an item before...
";

#[test]
fn names_used_by_themselves(rt: HostRuntime) -> Result<(), AllocError> {
    check_calls(&rt, rt.alloc(), "", THEMSELVES)
}

/// Instances that are wanting, in the first turn of a loop or a later one.
const TURNS: &str = "\
$ pipelens why p
input x:8;
let a[0] = x;
for i in 2..4 { let a[i] = a[i - 1] ^ x; }
output y = a[3];
= 3
p:3:28: scope: rule 2 item 2
...`a[i-1]` is used before it is assigned, and in the first turn it is `a[1]`.
`a` is a stream, introduced at line 2 column 5.
...
$ pipelens why p
input x:8;
for i in 0..2 { let a[i] = x; }
for i in 0..3 { let b[i] = a[i+1]; }
output y = b[2];
= 3
p:3:28: scope: rule 2 item 2
...`a[i+1]` is used before it is assigned.
`a` is a stream, introduced at line 2 column 21.
...
$ pipelens why p
input x:8;
let a[1] = x;
for i in 0..3 { let b[i] = a[i+1]; }
output y = b[2];
= 3
p:3:28: scope: rule 2 item 2
...`a[i+1]` is used before it is assigned.
`a` is a stream, introduced at line 2 column 5.
...
";

#[test]
fn instances_of_the_first_turn(rt: HostRuntime) -> Result<(), AllocError> {
    check_calls(&rt, rt.alloc(), "", TURNS)
}

/// Names of another kind than what stands in their place.
const KINDS: &str = "\
$ pipelens why p
input x:8;
output y = x@n;
= 3
p:2:14: scope: rule 3 item 1
...`n` is not introduced before....
$ pipelens why p
input x:8;
const k = 3;
output y = x + k[0];
= 3
p:3:16: scope: rule 3 item 2
...`k` is a constant, introduced at line 2 column 7...
$ pipelens why p
input x:8;
const k = 3;
let y = k@1;
output z = y;
= 3
p:3:9: scope: rule 3 item 2
...so only a stream stands before `@`...
$ pipelens why p
input x:8;
const c = [1, 2];
output y = c[x];
= 3
p:3:14: scope: rule 3 item 2
...where a stream is to choose, write a tree of choices on its bits...
$ pipelens why p
input x:8;
for i in 0..3 { let t[i] = x@i; }
output y = t[x];
= 3
p:3:14: scope: rule 3 item 2
...`x` is a stream, introduced at line 1 column 7.
An index is a constant and tells instances apart: where a stream is to choose one, compare it with each index...
$ pipelens why p --no-warnings
input x:8;
input k:2;
for i in 0..3 { let t[i] = x@i; }
output y = k == 0 ? t[0] : k == 1 ? t[1] : t[2];
output bit = (x >> k){0..0};
= 0
accepted
";

#[test]
fn names_of_another_kind(rt: HostRuntime) -> Result<(), AllocError> {
    check_calls(&rt, rt.alloc(), "", KINDS)
}

/// Calls of what is no function, or with too few or too many parameters.
const CALLS: &str = "\
$ pipelens why p
input x:8;
output y = f(x);
= 3
p:2:12: scope: rule 3 item 1
...no function of that name...
$ pipelens why p
input x:8;
for i in 0..2 { let a[i] = f(x); let b[k] = x; }
output y = x;
= 3
p:2:28: scope: rule 3 item 1
...no function of that name...
$ pipelens why p
input x:8;
fn f(a) { return f(a) + 1; }
output y = f(x);
= 3
p:2:18: scope: rule 3 item 1
...`f` is a function, introduced at line 2 column 4.
A function does not see itself...
$ pipelens why p
input x:8;
output y = x(1);
= 3
p:2:12: scope: rule 3 item 1
...`x` is a stream, introduced at line 1 column 7.
It is called, and only a function can be.
...
$ pipelens why p
input x:8;
fn f(a, b) { return a + b; }
output y = f(x);
= 3
p:3:12: scope: rule 4 item 2
...It has 2 parameters, and this call gives 1.
...
$ pipelens why p
input x:8;
output y = signed(x, x);
= 3
p:2:12: scope: rule 4 item 1
...It has 1 parameter, and this call gives 2.
...
";

#[test]
fn calls(rt: HostRuntime) -> Result<(), AllocError> {
    check_calls(&rt, rt.alloc(), "", CALLS)
}

/// Constants that have no value.
const CONSTANTS: &str = "\
$ pipelens why p
input x:8;
const k = 3 - 5;
output y = x;
= 3
p:2:13: scope: rule 5 item 1
...Constants are never below 0: write a negative one modulo a power of two, as in `256 - 2`...
$ pipelens why p
input x:8;
const n = 0;
const k = (7 + 1) / n;
output y = x;
= 3
p:3:19: scope: rule 6 item 2
...The divisor is 0....
$ pipelens why p
input x:8;
const c = [1, 2, 3];
let s[0] = x;
for i in 0..4 { let t[i] = x * c[i]; }
output y = t[0];
= 3
p:4:32: scope: rule 7 item 3
...`c[i]` is none of the table's entries.
`c` is a table, introduced at line 2 column 7.
It has 3 entries, 0 to 2.
See whether the loop ends...
$ pipelens why p
input x:8;
const c = [5];
output y = x * c[1];
= 3
p:3:16: scope: rule 7 item 2
...It has one entry, with the index 0.
Rule 7:...
";

#[test]
fn constants(rt: HostRuntime) -> Result<(), AllocError> {
    check_calls(&rt, rt.alloc(), "", CONSTANTS)
}

/// Numbers above or below what they may be.
const BOUNDS: &str = "\
$ pipelens why p
input x:0;
output y = x;
= 3
p:1:9: scope: rule 8 item 0
...A width is at least 1 bit...
$ pipelens why p
input x:8;
fn f(a:0, b:200) { return a; }
output y = x;
= 3
p:2:8: scope: rule 8 item 1
...A width is at least 1 bit...
$ pipelens why p
input x:8;
output y = x + x{0..7};
= 3
p:2:17: scope: rule 8 item 1
...below its second one...
$ pipelens why p
input x:8;
output y = x + x@300;
= 3
p:2:17: scope: rule 8 item 1
...longer than 256 samples...
$ pipelens why p
input x:8;
output y:8 = x << 200;
= 3
p:2:16: scope: rule 8 item 1
...more than 128 bits...
";

#[test]
fn bounds(rt: HostRuntime) -> Result<(), AllocError> {
    check_calls(&rt, rt.alloc(), "", BOUNDS)
}

/// Recurrences that begin or go on badly, and programs that want an input or an output.
const ENDS: &str = "\
$ pipelens why p
input x:8;
rec s:4 = 16 by s@1;
output y = s;
= 3
p:2:11: scope: rule 9 item 1
...does not fit the declared width.
Declare a greater width, or take the value modulo 2 to its width.
...
$ pipelens why p
input x:8;
rec s:4 = 16 * (1 + 1) by s@1;
output y = s;
= 3
p:2:14: scope: rule 9 item 1
...does not fit the declared width...
$ pipelens why p
input x:8;
rec s[1]:4 = 16 by s[1]@1;
output y = s[1];
= 3
p:2:14: scope: rule 9 item 1
...does not fit the declared width...
$ pipelens why p
input x:8;
fn d(a) { return a@1; }
rec s:8 = 0 by s@1 ^ d(x);
output y = s;
= 3
p:3:22: scope: rule 9 item 2
...It has a past of its own...
$ pipelens why p
input x:8;
let y = x;

= 3
p:3:1: scope: rule 10 item 2
...The program has no output....
$ pipelens why p
const k = 1;
output y = k;

= 3
p:3:1: scope: rule 10 item 2
...The program has no input....
";

#[test]
fn recurrences_and_ends(rt: HostRuntime) -> Result<(), AllocError> {
    check_calls(&rt, rt.alloc(), "", ENDS)
}

/// The marks below a line stand as far to the right as the place, behind the same tab.
const MARKS: &str = "\
$ pipelens why p --fabric wide
input x:8;
\tlet y = x + nowhere;
output z = y;
= 3
p:2:14: scope: rule 2 item 1
  2 | \tlet y = x + nowhere;
    | \t            ^^^^^^^
`nowhere` is used before it is assigned.
Assign it in an item before this one, or see whether another name is meant.
Rule 2: an instance of a stream is assigned before it is used; in the body of a `rec` its own instance stands only before `@`.
";

#[test]
fn marks_below_a_line(rt: HostRuntime) -> Result<(), AllocError> {
    check_calls(&rt, rt.alloc(), "", MARKS)
}
