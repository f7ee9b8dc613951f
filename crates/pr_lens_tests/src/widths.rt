//! Equations without widths, with the place and the note of each and words of its explanation; the first of several wrong places.

use crate::calls::check_calls;
use std::alloc::AllocError;

/// Equations without widths.
const WIDTHS: &str = "\
$ pipelens why p
input x:8;
rec s = 0 by s@1 + x;
output y = s;
= 4
p:2:18: no width: equation 2
...its own past, 8.
...
$ pipelens why p
input x:8;
input z:128;
output y = x + (z * z);
= 4
p:3:19: no width: equation 2
...more than 128 bits...
$ pipelens why p
input x:8;
output y = x ? 1 : 2;
= 4
p:2:14: no width: equation 1
...1 bit wide...
$ pipelens why p
input x:8;
output y = x{8..1};
= 4
p:2:13: no width: equation 1
...asks for bit 8...
";

#[test]
fn widths(rt: HostRuntime) -> Result<(), AllocError> {
    check_calls(&rt, rt.alloc(), "", WIDTHS)
}

/// Programs with several wrong places, of which the first is told.
const SEVERAL: &str = "\
$ pipelens why p
input x:8;
let a = x;
fn f(a) { return a; }
let a = f(x);
output y = a;
= 3
p:4:5: scope: rule 1 item 3
...`a` is a stream, introduced at line 2 column 5...
$ pipelens why p
input x:8;
fn f(a) { let b = a@k; let c[j] = a; return c; }
output y = f(x);
= 3
p:2:21: scope: rule 3 item 1
...`k` is not introduced before....
$ pipelens why p
input x:64;
input z:64;
fn f(a) { let b:64 = a * a; let c = (b * b) * a; return c; }
output y = f(x) + z;
= 4
p:4:12: no width: equation 4
...more than 128 bits...
$ pipelens why p
input x:64;
let a:8 = (x * x) + x * (x * x);
output y = a;
= 4
p:2:23: no width: equation 3
...Widths of the operands: 64, 128.
...
";

#[test]
fn first_of_several(rt: HostRuntime) -> Result<(), AllocError> {
    check_calls(&rt, rt.alloc(), "", SEVERAL)
}
