//! Programs that do not fit or pass a limit, with the place and the note of each and words of its explanation.

use crate::calls::check_calls;
use std::alloc::AllocError;

/// Programs that do not fit or pass a limit.
const FITS: &str = "\
$ pipelens why p
input x:64;
rec s:64 = 1 by (s@1 ^ x) & s@1;
output y = s{31..0};
= 5
p:2:1: no fit: unit 3
...With `--narrow` it takes 12 columns.
Declare a smaller width, put together what does not read the recurrence, as in `s@1 + (a + b)`, or, where no bit looks at another, make it two of half the width.
With `--narrow` the program fits.
On `--fabric wide` the program fits.
...
$ pipelens why p
input x:8;
for i in 0..120 { let term[i] = x ^ i; }
let s[0]:8 = term[0];
for i in 1..120 { let s[i]:8 = s[i-1] + term[i]; }
output y = s[119];
= 5
p:2:1: no fit: unit 112
...Registers ran out: 112 bytes that are made before are needed here or later, and a stage keeps 112, 7 in a column....
$ pipelens why p
input x:64;
rec s:64 = 1 by (s@1 ^ x) & s@1;
output y = s;
= 5
p:2:1: no fit: unit 3
...takes 24 columns, where a stage has 16, and one of the wide fabric 32.
These read the recurrence, those with most columns first, and the last line keeps it for later samples:
- `^`, 64 bits: 8 columns
- `&`, 64 bits: 8 columns
- what is kept, 64 bits: 8 columns
With 56 bits it takes 22 columns.
With 48 bits it takes 20 columns.
With 40 bits it takes 18 columns.
With `--narrow` it takes no fewer.
Declare a smaller width, put together what does not read the recurrence, as in `s@1 + (a + b)`...
$ pipelens why p
input a:128;
input b:128;
output y:128 = a + b;
= 6
p:2:1: limit: input-bytes 16
...more bytes than a stage has columns.
Declare smaller widths, or split the program.
On `--fabric wide` the program fits.
...
";

#[test]
fn fits_and_limits(rt: HostRuntime) -> Result<(), AllocError> {
    check_calls(&rt, rt.alloc(), "", FITS)
}

/// Programs for which no other setting helps, with the whole of what is written.
const HELPLESS: &str = "\
$ pipelens why p --fabric wide
input a:128;
input b:128;
input c:8;
output y = a;
= 6
p:3:1: limit: input-bytes 32
  3 | input c:8;
    | ^^^^^
All inputs of a sample together have more bytes than a stage has columns.
Declare smaller widths, or split the program.
$ pipelens why p
input x:128;
rec s:128 = 1 by (s@1 ^ x) & s@1;
output y = s;
= 5
p:2:1: no fit: unit 3
  2 | rec s:128 = 1 by (s@1 ^ x) & s@1;
    | ^^^
Columns ran out: what the recurrence goes on from is made within one stage, and takes 48 columns, where a stage has 16, and one of the wide fabric 32.
These read the recurrence, those with most columns first, and the last line keeps it for later samples:
- `^`, 128 bits: 16 columns
- `&`, 128 bits: 16 columns
- what is kept, 128 bits: 16 columns
With 120 bits it takes 46 columns.
With 112 bits it takes 44 columns.
With 104 bits it takes 42 columns.
With `--narrow` it takes no fewer.
Declare a smaller width, put together what does not read the recurrence, as in `s@1 + (a + b)`, or, where no bit looks at another, make it two of half the width.
$ pipelens why p --fabric wide
input x:128;
rec s:128 = 1 by (s@1 ^ x) & s@1;
output y = s;
= 5
p:2:1: no fit: unit 3
  2 | rec s:128 = 1 by (s@1 ^ x) & s@1;
    | ^^^
Columns ran out: what the recurrence goes on from is made within one stage, and takes 48 columns, where a stage has 32.
These read the recurrence, those with most columns first, and the last line keeps it for later samples:
- `^`, 128 bits: 16 columns
- `&`, 128 bits: 16 columns
- what is kept, 128 bits: 16 columns
With 120 bits it takes 46 columns.
With 112 bits it takes 44 columns.
With 104 bits it takes 42 columns.
With `--narrow` it takes no fewer.
Declare a smaller width, put together what does not read the recurrence, as in `s@1 + (a + b)`, or, where no bit looks at another, make it two of half the width.
";

#[test]
fn where_nothing_helps(rt: HostRuntime) -> Result<(), AllocError> {
    check_calls(&rt, rt.alloc(), "", HELPLESS)
}

/// Recurrences that need more columns than a stage has. With a declared width the last operator of the body has it, so
/// here the sum has as many bytes as the recurrence: a column for each, and one for the carry from four bytes to the
/// next.
const SUMS: &str = "\
$ pipelens why p
input x:8;
rec s:64 = 0 by s@1 + x;
output y = s;
= 5
p:2:1: no fit: unit 3
...takes 17 columns, where a stage has 16, and one of the wide fabric 32.
These read the recurrence, those with most columns first, and the last line keeps it for later samples:
- `+`, 64 bits: 9 columns
- what is kept, 64 bits: 8 columns
With 56 bits it takes 15 columns.
With 48 bits it takes 13 columns.
With 40 bits it takes 11 columns.
With `--narrow` it takes no fewer.
Declare a smaller width, put together what does not read the recurrence, as in `s@1 + (a + b)`, or, where no bit looks at another, make it two of half the width.
On `--fabric wide` the program fits.
...
$ pipelens why p --narrow
input x:64;
rec s:64 = 1 by (s@1 ^ x) & s@1;
output y = s;
= 5
p:2:1: no fit: unit 3
...- what is kept, 64 bits: 8 columns
With 56 bits it takes 21 columns.
With 48 bits it takes 18 columns.
With 40 bits it takes 15 columns.
Declare a smaller width...
$ pipelens why p
input x:64;
rec s:64 = 9223372036854775808 by (s@1 ^ x) & s@1;
output y = s;
= 5
p:2:1: no fit: unit 3
...- what is kept, 64 bits: 8 columns
With `--narrow` it takes no fewer.
Put together what does not read the recurrence...
";

#[test]
fn what_a_recurrence_needs(rt: HostRuntime) -> Result<(), AllocError> {
    check_calls(&rt, rt.alloc(), "", SUMS)
}

/// Recurrences in a loop, where the width of the second `rec` is looked for too, and in a function, where none is. An
/// equality takes a column for each byte, one for the carry from four bytes to the next, and one for what it gives. Of
/// eleven operators ten are told.
const PARTS: &str = "\
$ pipelens why p
input x:64;
for i in 0..2 { rec s[i]:64 = 1 by (s[i]@1 ^ x) & s[i]@1; }
output y = s[0] ^ s[1];
= 5
p:2:1: no fit: unit 3
...- what is kept, 64 bits: 8 columns
With 56 bits it takes 22 columns.
With 48 bits it takes 20 columns.
With 40 bits it takes 18 columns.
...
$ pipelens why p
input x:64;
for i in 0..2 { rec c[i]:8 = 1 by c[i]@1 ^ c[i]@1; rec s[i]:64 = 1 by (s[i]@1 ^ x) & s[i]@1; }
output y = s[0] ^ s[1] ^ c[0] ^ c[1];
= 5
p:2:1: no fit: unit 5
...- what is kept, 64 bits: 8 columns
With 56 bits it takes 22 columns.
With 48 bits it takes 20 columns.
With 40 bits it takes 18 columns.
...
$ pipelens why p
input x:64;
fn f(a) { rec t:64 = 1 by (t@1 ^ a) & t@1; return t; }
output y = f(x);
= 5
p:3:1: no fit: unit 3
...- what is kept, 64 bits: 8 columns
With `--narrow` it takes no fewer.
Put together what does not read the recurrence...
$ pipelens why p
input x:64;
rec s:64 = 1 by s@1 == 9 ? x : s@1 ^ x;
output y = s;
= 5
p:2:1: no fit: unit 5
...takes 34 columns, where a stage has 16, and one of the wide fabric 32.
These read the recurrence, those with most columns first, and the last line keeps it for later samples:
- `==`, 1 bit: 10 columns
- `^`, 64 bits: 8 columns
- `?`, 64 bits: 8 columns
- what is kept, 64 bits: 8 columns
With 56 bits it takes 31 columns.
With 48 bits it takes 28 columns.
With 40 bits it takes 25 columns.
With `--narrow` it takes no fewer.
...
$ pipelens why p
input x:64;
rec s:64 = 1 by s@1 ^ x ^ x ^ x ^ x ^ x ^ x ^ x ^ x ^ x ^ x ^ x;
output y = s;
= 5
p:2:1: no fit: unit 12
...takes 96 columns, where a stage has 16, and one of the wide fabric 32.
These read the recurrence, those with most columns first, and the last line keeps it for later samples:
- `^`, 64 bits: 8 columns
- `^`, 64 bits: 8 columns
- `^`, 64 bits: 8 columns
- `^`, 64 bits: 8 columns
- `^`, 64 bits: 8 columns
- `^`, 64 bits: 8 columns
- `^`, 64 bits: 8 columns
- `^`, 64 bits: 8 columns
- `^`, 64 bits: 8 columns
- `^`, 64 bits: 8 columns
- what is kept, 64 bits: 8 columns
...
";

#[test]
fn which_operators_take_columns(rt: HostRuntime) -> Result<(), AllocError> {
    check_calls(&rt, rt.alloc(), "", PARTS)
}
