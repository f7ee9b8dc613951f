//! What named streams are at each sample, reckoned by hand.

use crate::calls::check_calls;
use std::alloc::AllocError;

/// Programs, with their samples behind three hyphens.
const STREAMS: &str = "\
$ pipelens signals p s --csv
input x:8;
let a = x + x@1;
output y = a;
---
1
2
255
= 0
x,a,y
1,1,1
2,3,3
255,257,257
$ pipelens signals p s --csv
input x:8;
rec s:8 = 7 by s@1 + x;
output y = s@2;
---
200
100
0
= 0
x,s,y
200,207,7
100,51,7
0,51,207
$ pipelens signals p s --csv
input x:8;
let s[0] = x;
for i in 1..3 { let s[i] = s[i-1] + x; let t[i] = s[i] ^ s[0]; }
output y = t[2];
---
5
= 0
x,s[0],s[1],t[1],s[2],t[2],y
5,5,10,15,15,10,10
$ pipelens signals p s --csv
input a:8;
fn twice(b) { let c = b + b; return c; }
input d:4;
let e = twice(d);
output y = e ^ a;
---
1 2
255 15
= 0
a,d,e,y
1,2,4,5
255,15,30,225
$ pipelens signals p s --csv
input x:8;
let less = x - 3;
output y:16 = signed(less);
---
1
= 0
x,less,y
1,254,-2
$ pipelens signals p s --csv
input x:128;
output y = ~x;
---
340282366920938463463374607431768211455
0
= 0
x,y
340282366920938463463374607431768211455,0
0,340282366920938463463374607431768211455
";

#[test]
fn streams(rt: HostRuntime) -> Result<(), AllocError> {
    check_calls(&rt, rt.alloc(), "", STREAMS)
}

/// Programs whose streams are shown as waveforms, and some of them as two's complement.
const SHOWN: &str = "\
$ pipelens signals p s --signed d
input x:4;
let d = x - 3;
let s[0] = d == 15;
output y = s[0];
---
2
2
3
= 0
$comment the named streams of a program, a step of time for each sample $end
$timescale 1 ns $end
$scope module program $end
$var wire 4 0 x [3:0] $end
$var integer 4 1 d [3:0] $end
$var wire 1 2 s[0] [0:0] $end
$var wire 1 3 y $end
$upscope $end
$enddefinitions $end
#0
b0010 0
b1111 1
b1 2
b1 3
#1
#2
b0011 0
b0000 1
b0 2
b0 3
#3
$ pipelens signals p s --signed s
input x:9;
for i in 0..2 { let s[i] = x + i; }
output y = 5;
---
256
257
1000
= 7
$comment the named streams of a program, a step of time for each sample $end
$timescale 1 ns $end
$scope module program $end
$var wire 9 0 x [8:0] $end
$var integer 10 1 s[0] [9:0] $end
$var integer 10 2 s[1] [9:0] $end
$var wire 3 3 y [2:0] $end
$upscope $end
$enddefinitions $end
#0
b100000000 0
b0100000000 1
b0100000001 2
b101 3
#1
b100000001 0
b0100000001 1
b0100000010 2
#2
! bad sample: line 3
$ pipelens signals p s --csv --signed d,y
input x:4;
let d = x - 3;
output y = d;
---
2
3
10
11
= 0
x,d,y
2,-1,-1
3,0,0
10,7,7
11,-8,-8
$ pipelens signals p s --csv --signed x
input x:128;
output y = x;
---
170141183460469231731687303715884105727
170141183460469231731687303715884105728
340282366920938463463374607431768211455
= 0
x,y
170141183460469231731687303715884105727,170141183460469231731687303715884105727
-170141183460469231731687303715884105728,170141183460469231731687303715884105728
-1,340282366920938463463374607431768211455
$ pipelens signals p s --csv --signed c
input c:1;
output y = c;
---
1
0
= 0
c,y
-1,1
0,0
";

#[test]
fn shown(rt: HostRuntime) -> Result<(), AllocError> {
    check_calls(&rt, rt.alloc(), "", SHOWN)
}

/// Programs with signed streams, which are shown as two's complement without being asked for.
const SIGNED: &str = "\
$ pipelens signals p s --csv
input x:4;
let d = signed(x);
let e = d;
let back = d@1;
rec r:4 = 0 by d;
let low = d{3..0};
let same = cat(d);
let less = d < 0;
output y = d;
---
15
8
7
= 0
x,d,e,back,r,low,same,less,y
15,-1,-1,0,15,15,15,1,-1
8,-8,-8,-1,8,8,8,1,-8
7,7,7,-8,7,7,7,0,7
$ pipelens signals p s --csv
input x:4;
let d = signed(x);
let sum = d + 1;
let product = d * x;
let all = d & 7;
let chosen = x{0..0} ? d : 1;
let half = d >> 1;
let none = ~d;
output y = x + 1;
---
13
6
= 0
x,d,sum,product,all,chosen,half,none,y
13,-3,-2,-39,5,-3,-2,2,14
6,6,7,36,6,1,3,-7,7
$ pipelens signals p s --csv
input x:3;
fn read(v) { let w = signed(v); return w; }
for i in 0..2 { let s[i] = read(x + i); let t[i] = x + i; }
output y:8 = s[1];
---
7
= 0
x,s[0],t[0],s[1],t[1],y
7,7,7,-8,8,-8
$ pipelens signals p s --csv --signed bare
input x:128;
let bare = x;
output y = signed(x);
---
340282366920938463463374607431768211455
170141183460469231731687303715884105728
= 0
x,bare,y
340282366920938463463374607431768211455,-1,-1
170141183460469231731687303715884105728,-170141183460469231731687303715884105728,-170141183460469231731687303715884105728
$ pipelens signals p s
input x:2;
let d = signed(x);
output y = d + d;
---
3
1
= 0
$comment the named streams of a program, a step of time for each sample $end
$timescale 1 ns $end
$scope module program $end
$var wire 2 0 x [1:0] $end
$var integer 2 1 d [1:0] $end
$var integer 3 2 y [2:0] $end
$upscope $end
$enddefinitions $end
#0
b11 0
b11 1
b110 2
#1
b01 0
b01 1
b010 2
#2
";

#[test]
fn signed(rt: HostRuntime) -> Result<(), AllocError> {
    check_calls(&rt, rt.alloc(), "", SIGNED)
}

/// Programs that leave less room than all of their names take. The first leaves two turns for four names, and the second one
/// turn. The third has equations for two kinds left, and the last has none.
const PARTS: &str = "\
$ pipelens signals p s --csv
input x:8;
fn f(a:8) { for i in 0..32763 { let b[i] = a; } return b[7]; }
let d = signed(x);
let e = f(x);
output y = d;
---
200
7
= 0
x,d,e,y
200,-56,200,-56
7,7,7,7
$ pipelens signals p s --csv
input x:8;
const three = 3;
fn f(a:8) { for i in 0..32763 { let b[i] = a; } return b[7]; }
let d = signed(x);
let e = f(x);
output y = d;
---
200
= 0
x,d,e,y
200,-56,200,-56
$ pipelens signals p s --csv
input x:8;
fn f(a:8) { for i in 0..32764 { let b[i] = a; } return b[7]; }
let d = signed(x);
let e = f(x);
output y = d;
---
200
= 6
! limit: turns 65536
$ pipelens signals p s --csv
input x:8;
fn f(a) { let b[0] = a; for i in 1..16380 { let b[i] = b[i-1] ^ a; } return b[16379]; }
let d = signed(x);
let e = f(x);
output y = d;
---
200
= 0
x,d,e,y
200,-56,0,-56
$ pipelens signals p s --csv
input x:8;
fn f(a) { let b[0] = a; for i in 1..16383 { let b[i] = b[i-1] ^ a; } return b[16382]; }
let d = signed(x);
let e = f(x);
output y = d;
---
200
= 0
x,d,e,y
200,200,200,200
";

#[test]
fn parts(rt: HostRuntime) -> Result<(), AllocError> {
    check_calls(&rt, rt.alloc(), "", PARTS)
}

/// Calls that end otherwise than with the samples' end.
const ENDINGS: &str = "\
$ pipelens signals p s --csv
= 0
x,y
$ pipelens signals p s --csv
input x:8;
output y = x;
---
3

4
256
5
= 7
x,y
3,3
4,4
! bad sample: line 4
$ pipelens signals p s --csv
input x:8
output y = x;
= 3
! syntax: token 4
`pipelens why p` tells more
$ pipelens signals p s
= 0
$comment the named streams of a program, a step of time for each sample $end
$timescale 1 ns $end
$scope module program $end
$var wire 8 0 x [7:0] $end
$var wire 8 1 y [7:0] $end
$upscope $end
$enddefinitions $end
#0
$ pipelens signals p s --csv --signed y,d,e
= 2
! no stream: d
$ pipelens signals p none --signed x[0]
= 2
! no stream: x[0]
$ pipelens signals p
= 2
...
$ pipelens signals p --csv
= 2
...
$ pipelens cost p s
= 2
...
";

#[test]
fn endings(rt: HostRuntime) -> Result<(), AllocError> {
    check_calls(&rt, rt.alloc(), "input x:8;\noutput y = x;", ENDINGS)
}
