//! Products by a constant that can be made with fewer units, and products that are told of nothing.

use crate::calls::check_calls;
use std::alloc::AllocError;

/// Products by a constant that shifts make with fewer units.
const PRODUCTS: &str = "\
$ pipelens why p
input x:8;
output y = x * 5;
= 0
accepted
p:2:14: warning: cheap-product
  2 | output y = x * 5;
    |              ^
`x * 5` takes 3 units, and `((x << 2) + x)` takes 2.
Write this in the place of the product: it gives the same numbers, and is as wide.
$ pipelens why p
input x:8;
const k = 0xff;
let s = 1 + k*x;
output y = s;
= 0
accepted
p:3:14: warning: cheap-product
  3 | let s = 1 + k*x;
    |              ^
`k * x` takes 8 units, and `((x << 8) - x)` takes 1.
Write this in the place of the product: it gives the same numbers, and is as wide.
$ pipelens why p
input x:8;
output y:12 = x * 8 + 1;
= 0
accepted
p:2:17: warning: cheap-product
  2 | output y:12 = x * 8 + 1;
    |                 ^
`x * 8` takes 4 units, and `(x << 3)` takes 1.
Write this in the place of the product: it gives the same numbers, and has one bit less.
See whether a difference, `~`, `signed`, a slice or `cat` reads this bit.
$ pipelens why p
input x:8;
output y = x * 1;
= 0
...`x * 1` takes 1 unit, and `x` takes 0.
...
$ pipelens why p
input x:32;
output y:64 = x@1 * 14 ^ x;
= 0
...`x@1 * 14` takes 8 units, and `((x@1 << 4) - (x@1 << 1))` takes 4.
Write this in the place of the product: it gives the same numbers, and is as wide.
...
$ pipelens why p
input x:8;
const d = 3;
rec s:8 = 0 by s@1 * 12 ^ x;
fn f(a, b:4) { return a + b; }
let t[0] = f(x @ d * 3, s * 12);
for i in 1..3 { let t[i] = t[i-1] + s * 256; }
output y = cat(x, t[2]) > 9 ? 10 * x@d : 3;
= 0
accepted
p:3:20: warning: cheap-product
  3 | rec s:8 = 0 by s@1 * 12 ^ x;
    |                    ^
`s@1 * 12` takes 4 units, and `((s@1 << 3) + (s@1 << 2))` takes 3.
Write this in the place of the product: it gives the same numbers, and is as wide.
p:5:27: warning: cheap-product
  5 | let t[0] = f(x @ d * 3, s * 12);
    |                           ^
`s * 12` takes 4 units, and `((s << 3) + (s << 2))` takes 3.
Write this in the place of the product: it gives the same numbers, and is as wide.
p:6:39: warning: cheap-product
  6 | for i in 1..3 { let t[i] = t[i-1] + s * 256; }
    |                                       ^
`s * 256` takes 9 units, and `(s << 8)` takes 0.
Write this in the place of the product: it gives the same numbers, and has one bit less.
See whether a difference, `~`, `signed`, a slice or `cat` reads this bit.
p:7:34: warning: cheap-product
  7 | output y = cat(x, t[2]) > 9 ? 10 * x@d : 3;
    |                                  ^
`10 * x@d` takes 8 units, and `((x@d << 3) + (x@d << 1))` takes 3.
Write this in the place of the product: it gives the same numbers, and is as wide.
$ pipelens why p
input x:8;
output y = 11 * x + 3;
= 0
accepted
p:2:15: warning: cheap-product
  2 | output y = 11 * x + 3;
    |               ^
`11 * x` takes 8 units, and `x * 11` takes 4.
Write this in the place of the product: it gives the same numbers, and is as wide.
$ pipelens why p
input x:8;
input a:2;
const k = 11;
rec s:8 = 0 by x + k*s@1;
let low = 3 * x@2;
let gain = a * 200 + a * 5;
output y = s ^ low ^ gain ^ x * 8 ^ 8 * x;
= 0
accepted
p:4:21: warning: cheap-product
  4 | rec s:8 = 0 by x + k*s@1;
    |                     ^
`k * s@1` takes 8 units, and `s@1 * k` takes 4.
Write this in the place of the product: it gives the same numbers, and is as wide.
p:5:13: warning: cheap-product
  5 | let low = 3 * x@2;
    |             ^
`3 * x@2` takes 8 units, and `x@2 * 3` takes 2.
Write this in the place of the product: it gives the same numbers, and is as wide.
p:6:14: warning: cheap-product
  6 | let gain = a * 200 + a * 5;
    |              ^
`a * 200` takes 8 units, and `200 * a` takes 2.
Write this in the place of the product: it gives the same numbers, and is as wide.
p:6:24: warning: cheap-product
  6 | let gain = a * 200 + a * 5;
    |                        ^
`a * 5` takes 3 units, and `5 * a` takes 2.
Write this in the place of the product: it gives the same numbers, and is as wide.
p:7:31: warning: cheap-product
  7 | output y = s ^ low ^ gain ^ x * 8 ^ 8 * x;
    |                               ^
`x * 8` takes 4 units, and `(x << 3)` takes 1.
Write this in the place of the product: it gives the same numbers, and has one bit less.
See whether a difference, `~`, `signed`, a slice or `cat` reads this bit.
p:7:39: warning: cheap-product
  7 | output y = s ^ low ^ gain ^ x * 8 ^ 8 * x;
    |                                       ^
`8 * x` takes 8 units, and `(x << 3)` takes 1.
Write this in the place of the product: it gives the same numbers, and has one bit less.
See whether a difference, `~`, `signed`, a slice or `cat` reads this bit.
$ pipelens why p
input x:64;
output y = x * 18446744073709551615;
= 0
...`x * 18446744073709551615` takes 192 units, and `((x << 64) - x)` takes 4.
...
";

/// Products with comments and blanks in them, which are left out of what is told of their factors.
const COMMENTED_PRODUCTS: &str = "\
$ pipelens why p
input x:32;
output y:64 = x // \x1b[31m
 @1 * 14 ^ x;
= 0
accepted
p:3:5: warning: cheap-product
  3 |  @1 * 14 ^ x;
    |     ^
`x@1 * 14` takes 8 units, and `((x@1 << 4) - (x@1 << 1))` takes 4.
Write this in the place of the product: it gives the same numbers, and is as wide.
$ pipelens why p
input x:8;
output y = 11 // \x1b[31m
 *\tx // \x07
 @ 2 + 3;
= 0
accepted
p:3:2: warning: cheap-product
  3 |  *\tx // \\x07
    |  ^
`11 * x@2` takes 8 units, and `x@2 * 11` takes 4.
Write this in the place of the product: it gives the same numbers, and is as wide.
$ pipelens why p
input x:8;
output y = x // \x1b[31m
 * 1;
= 0
accepted
p:3:2: warning: cheap-product
  3 |  * 1;
    |  ^
`x * 1` takes 1 unit, and `x` takes 0.
Write this in the place of the product: it gives the same numbers, and has one bit less.
See whether a difference, `~`, `signed`, a slice or `cat` reads this bit.
";

/// Products by a constant that are as cheap as shifts, that more shifts make, or of which not enough is known.
const PLAIN_PRODUCTS: &str = "\
$ pipelens why p
input x:8;
output y = x * 3 + x * 6 + x * 11 + x * 0 + x * x;
= 0
accepted
$ pipelens why p
input x:8;
let s = x + 1;
const k = 4 + 1;
const c = [5];
output y = s * 5 + x * k + c[0] * x + x * c[0] + ~x * 5 + x{3..0} * 5 + 5 * x{3..0};
for i in 5..6 { let t[i] = x * i; }
output z = t[5];
= 0
accepted
$ pipelens why p
input x:8;
fn f(x) { rec s:8 = 0 by s@1 + x; return s * 5 + x * 5; }
output y = f(x) + (x * 5) + f(x * 5) + signed(x * 5) + signed(x) * 5;
output z:8 = (x * 255){7..0};
output u:10 = x * 4;
rec v:11 = 0 by x * 5;
output w = v;
= 0
accepted
$ pipelens why p
input x:8;
input a:4;
rec b[0]:4 = 0 by a;
rec c = 0 by (c@1 + x){3..0};
let t[0] = x;
output y = b[0] * 5 + 5 * b[0] + c * 5 + t[0] * 5 + a * x * 5 + a * 5 * x{0..0} + x@(2) * 5 + 5 * x@(1 + 1);
= 0
accepted
p:6:67: warning: cheap-product
  6 | output y = b[0] * 5 + 5 * b[0] + c * 5 + t[0] * 5 + a * x * 5 + a * 5 * x{0..0} + x@(2) * 5 + 5 * x@(1 + 1);
    |                                                                   ^
`a * 5` takes 3 units, and `((a << 2) + a)` takes 2.
Write this in the place of the product: it gives the same numbers, and is as wide.
";

#[test]
fn cheap_products(rt: HostRuntime) -> Result<(), AllocError> {
    check_calls(&rt, rt.alloc(), "", PRODUCTS)
}

#[test]
fn products_with_comments(rt: HostRuntime) -> Result<(), AllocError> {
    check_calls(&rt, rt.alloc(), "", COMMENTED_PRODUCTS)
}

#[test]
fn plain_products(rt: HostRuntime) -> Result<(), AllocError> {
    check_calls(&rt, rt.alloc(), "", PLAIN_PRODUCTS)
}
