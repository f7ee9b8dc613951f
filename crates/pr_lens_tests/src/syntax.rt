//! Wrong tokens, with the place and the note of each and words of its explanation.

use crate::calls::check_calls;
use std::alloc::AllocError;

/// Tokens that cannot stand where they do.
const TOKENS: &str = "\
$ pipelens why p
input x:8
output y = x;
= 3
p:2:1: syntax: token 4
...`output` cannot stand here.
What could: `;`.
Perhaps a `;` is missing before it.
...
$ pipelens why p
input x:8;
output y = x x;
= 3
p:2:14: syntax: token 9
...Perhaps a `;` or an operator is missing before it.
...
$ pipelens why p
input let:8;
= 3
p:1:7: syntax: token 1
...What could: a name.
A word of the language is no name...
$ pipelens why p
input x:8;
let y = (x + 1;
output z = y;
= 3
p:2:15: syntax: token 12
...`)`...
$ pipelens why p
input x:8;
output y = x
= 3
p:2:13: syntax: token 9
...The end of the text cannot stand here.
...
$ pipelens why p
input x:8 y;
output z = x;
= 3
p:1:11: syntax: token 4
...What could: `;`.
Perhaps a `;` is missing before it.
...
$ pipelens why p
input x:8;
let y = x + 1);
output z = y;
= 3
p:2:14: syntax: token 11
...`)` cannot stand here....
";

#[test]
fn tokens_out_of_place(rt: HostRuntime) -> Result<(), AllocError> {
    check_calls(&rt, rt.alloc(), "", TOKENS)
}

/// Operators that cannot stand where they do.
const OPERATORS: &str = "\
$ pipelens why p
input x:8;
output y = a < b < c;
= 3
p:2:18: syntax: token 11
...an operator that is no comparison.
Comparisons do not chain: put brackets around one...
$ pipelens why p
input x:8;
output y = x / 4;
= 3
p:2:14: syntax: token 9
...`x >> 3` divides a stream by 8...
$ pipelens why p
input x:8;
output y = x + x % 4;
= 3
p:2:18: syntax: token 11
...`x{2..0}` is the remainder...
$ pipelens why p
input x:8;
output y = x = 3;
= 3
p:2:14: syntax: token 9
...Two numbers are compared by `==`.
...
$ pipelens why p
input x:8;
const k = 1 << 3;
output y = x;
= 3
p:2:13: syntax: token 9
...What could: `;`, an operator of `+ - * / %`.
...
";

#[test]
fn operators_out_of_place(rt: HostRuntime) -> Result<(), AllocError> {
    check_calls(&rt, rt.alloc(), "", OPERATORS)
}

/// Bytes that are no token.
const BYTES: &str = "\
$ pipelens why p
input x:8;
output y = 12ab;
= 3
p:2:12: syntax: token 8
...No number: `12` is followed by a letter directly.
...
$ pipelens why p
input x:8;
output y = 0x1_;
= 3
p:2:12: syntax: token 8
...No number: `0x1` is followed by a letter directly.
...
$ pipelens why p
input x:8;
output y = 0x;
= 3
p:2:12: syntax: token 8
...a hexadecimal digit has to follow...
$ pipelens why p
input x:8;
output y = x + 18446744073709551616;
= 3
p:2:16: syntax: token 10
...No number: `18446744073709551616` is above 18446744073709551615.
...
$ pipelens why p
input x:8;
output y = x $ 1;
= 3
p:2:14: syntax: token 9
...No token begins with this byte....
";

#[test]
fn bytes_that_are_no_token(rt: HostRuntime) -> Result<(), AllocError> {
    check_calls(&rt, rt.alloc(), "", BYTES)
}

/// Symbols that are one symbol in other languages.
const PAIRS: &str = "\
$ pipelens why p
input x:8;
output y = x && x;
= 3
p:2:15: syntax: token 10
...`&` cannot stand here.
What could: an expression.
`&` joins two conditions: `(a > 1) & (b > 1)`.
...
$ pipelens why p
input x:8;
output y = x || x;
= 3
p:2:15: syntax: token 10
...`|` joins two conditions: `(a > 1) | (b > 1)`.
...
$ pipelens why p
input x:8;
output y = x >>> 2;
= 3
p:2:16: syntax: token 10
...`>>` keeps the sign of a signed stream: `signed(x) >> 2`.
...
$ pipelens why p
input x:8;
let y := x;
output z = y;
= 3
p:2:8: syntax: token 8
...What could: a number.
A width follows on `:`, and the stream on `=`: `let y:9 = x + 1;`.
...
$ pipelens why p
input x:8;
rec s:16 = 0 by s@1;
s += x;
output y = s;
= 3
p:3:1: syntax: token 16
...A running sum reads its own last number: `rec s:16 = 0 by s@1 + x;`.
...
$ pipelens why p
input x:8;
let s += x;
output y = s;
= 3
p:2:7: syntax: token 7
...A running sum reads its own last number...
$ pipelens why p
input x:8;
rec s:16 = 0 by s -= x;
output y = s;
= 3
p:2:20: syntax: token 14
...A running sum reads its own last number...
";

#[test]
fn pairs_of_symbols(rt: HostRuntime) -> Result<(), AllocError> {
    check_calls(&rt, rt.alloc(), "", PAIRS)
}

/// Words of other languages.
const FOREIGN: &str = "\
$ pipelens why p
input x:8;
if (x > 1) { let y = x; }
output z = x;
= 3
p:2:1: syntax: token 5
...There is no `if`: `c ? a : b` is `a` where `c` is 1, and `b` where it is 0.
...
$ pipelens why p
input x:8;
let y = if x 1 else 0;
output z = y;
= 3
p:2:12: syntax: token 9
...There is no `if`...
$ pipelens why p
input x:8;
output y = if (x) 1 else 0;
= 3
p:2:19: syntax: token 12
...There is no `if`...
$ pipelens why p
input x:8 signed;
output y = x;
= 3
p:1:11: syntax: token 4
...What could: `;`.
No declaration has a sign. Write `signed(x)` where the stream is read.
...
$ pipelens why p
input signed x:8;
output y = x;
= 3
p:1:14: syntax: token 2
...No declaration has a sign...
$ pipelens why p
input x:8;
output y = x signed(x);
= 3
p:2:14: syntax: token 9
...Perhaps a `;` or an operator is missing before it.
...
";

#[test]
fn words_of_other_languages(rt: HostRuntime) -> Result<(), AllocError> {
    check_calls(&rt, rt.alloc(), "", FOREIGN)
}

/// Symbols and signs that mean something else in other languages, or nothing here.
const SIGNS: &str = "\
$ pipelens why p
input x:8;
output y = !x;
= 3
p:2:12: syntax: token 8
...`x == 0` asks whether a number is 0, and `~x` flips each of its bits.
...
$ pipelens why p
input x:8;
output y = x + 8'hff;
= 3
p:2:17: syntax: token 11
...A number is decimal, or hexadecimal as `0xff`...
$ pipelens why p
input x:8;
output y = x * -7;
= 3
p:2:16: syntax: token 10
...No operand has a sign: `0 - x` is minus `x`, and `signed(x) + 5 < 0` asks whether `x` is below -5.
...
$ pipelens why p
input x:8;
const k = -7;
output y = x;
= 3
p:2:11: syntax: token 8
...Constants are never below 0. A coefficient -7 of 8 bits is written `256 - 7`.
...
$ pipelens why p
input x:-8;
output y = x;
= 3
p:1:9: syntax: token 3
  1 | input x:-8;
    |         ^
`-` cannot stand here.
What could: a number.
$ pipelens why p
input x:8;
output y = x{7:4};
= 3
p:2:15: syntax: token 11
...Two dots stand between two bounds: `x{7..0}`, or `for i in 0..8`.
...
$ pipelens why p
input x:8;
for i in 0:4 { let y[i] = x; }
output z = x;
= 3
p:2:11: syntax: token 9
...Two dots stand between two bounds...
$ pipelens why p
input x:8;
output y = x[7:4];
= 3
p:2:15: syntax: token 11
...A slice is `x{7..0}`, and a width follows on the name: `let y:8 = x;`.
...
$ pipelens why p
input x:8;
const c = [1:2];
output y = x;
= 3
p:2:13: syntax: token 10
  2 | const c = [1:2];
    |             ^
`:` cannot stand here.
What could: `,`, `]`, an operator of `+ - * / %`.
";

#[test]
fn signs_of_other_languages(rt: HostRuntime) -> Result<(), AllocError> {
    check_calls(&rt, rt.alloc(), "", SIGNS)
}

/// What these hints show, in programs that are accepted.
const SHOWN: &str = "\
$ pipelens why p --no-warnings
input a:8;
input b:8;
input c:1;
input x:8;
const k = 256 - 7;
let both = (a > 1) & (b > 1);
let one = (a > 1) | (b > 1);
let zero = x == 0;
let flipped = ~x;
let half = signed(x) >> 2;
let y:9 = x + 1;
rec s:16 = 0 by s@1 + x;
output z = c ? a : b;
= 0
accepted
$ pipelens why p --no-warnings
input x:8;
let low:8 = x{7..0};
let y:8 = x;
let minus = 0 - x;
let below = signed(x) + 5 < 0;
let full:8 = 0xff;
for i in 0..8 { let t[i] = x; }
output z = x;
= 0
accepted
";

#[test]
fn what_hints_show_is_accepted(rt: HostRuntime) -> Result<(), AllocError> {
    check_calls(&rt, rt.alloc(), "", SHOWN)
}
