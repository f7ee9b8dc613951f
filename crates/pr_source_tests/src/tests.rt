//! Programs, and what they make of samples. The values were worked out from the tables of operators, by hand or by plain
//! arithmetic, and never by this program.

ghost use Rattle.std.specs.Prelude.{◌≡◌, ◌≤◌, ◌^◌, ◌<◌, All, IfSome, IsTrue, length};
ghost use Rattle.pr_base.specs.Rows.{IsRow};
ghost use Rattle.pr_flat.specs.Shape.{shapes_of};
ghost use Rattle.pr_flat.specs.Values.{input_widths};
ghost use Rattle.pr_flat.specs.Widths.{AreWidths};

use pr_base::{Num, Sample, Width, cut};
use pr_expand::expand;
use pr_flat::Flat;
use pr_parse::{parse, tokens};
use pr_scope::{Scoped, check};
use pr_source::eval;
use pr_width::{Widths, solve};
use std::alloc::{AllocError, Global};
use std::process::Abort;

/// The examples of the language's page: programs, each with a line of samples and a line of what it makes of them. A blank
/// line stands between two of them.
const DOCUMENTED: &str = "input x:8; output y = 5;
7
5

input x:8; const c = [3, 10]; output y = x * c[1];
7
70

input a:8; input b:8; output y = a + b; output z = a * b;
255 255
510 65025

input a:4; input b:4; output y = a - b;
0 1, 9 5
15, 4

input a:8; input b:4; output y = a & b; output z = a | b; output u = a ^ b;
245 3
1 247 246

input a:4; output y = ~a;
5
10

input a:8; input b:8; output y = a == b; output z = a != b; output u = a <= b; output v = a > b;
3 5
0 1 1 0

input c:1; input a:8; input b:4; output y = c ? a : b;
1 200 7, 0 200 7
200, 7

input a:8; output y = a << 2; output z = a >> 2;
255
1020 63

input a:8; input k:3; output y = a << k; output z = a >> k;
129 1, 255 7
2 64, 128 1

input a:8; output y = a{6..2};
182
13

input a:4; input b:8; output y = cat(a, b, a);
3 16
12547

input a:4; input b:4; output y:6 = signed(a) + b; output z:6 = signed(a) - b;
8 15, 15 0
7 41, 63 63

input a:8; output y:16 = signed(a) * 3;
255
65533

input a:4; input b:4; output y = signed(a) & b; output z = signed(a) | b; output u = signed(a) ^ b;
15 9, 8 1
9 31 22, 0 25 25

input a:8; input b:8; output y = signed(a) < b; output z = signed(a) == b;
255 255, 5 5
1 0, 0 1

input c:1; input a:4; input b:4; output y = c ? signed(a) : b;
1 8 0, 0 8 15
24, 15

input a:4; output y:6 = ~signed(a);
8, 3
7, 60

input a:4; output y = signed(a) << 2; output z:6 = signed(a) >> 1;
9
36 60

input a:4; input k:2; output y = signed(a) << k; output z = signed(a) >> k;
9 1, 8 3
2 12, 0 15

input a:8; output y:16 = cat(signed(a));
255
255

input x:8; output y = x@2;
1, 2, 3
0, 0, 1

input x:8; output y:10 = x + x@1 + x@2 + x@3;
1, 2, 3, 4, 5
1, 3, 6, 10, 14

input x:8; let s:4 = x + x; output y = s + 1;
9
3

input x:8; output y = (x + (x));
9
18

input x:8; rec s:8 = 250 by s@1 + x; output y = s;
5, 1, 1
255, 0, 1

input x:8; rec f:16 = 1 by f@1 + f@2; output y = f;
0, 0, 0, 0
2, 3, 5, 8

input x:8; rec s = 0 by s@1 ^ x; output y = s;
5, 1, 1
5, 4, 5

input x:8; rec s = 300 by s@1 & x; output y = s; output z = s - 300;
255, 15
44 256, 12 224

input a:8; rec s:16 = 0 by s@1 + signed(a); output y = s;
255, 255, 2
65535, 65534, 0

input x:8; fn f(a:4) { return a + 1; } fn g(a):4 { return a + 1; } output y = f(x); output z = g(x);
31, 15
16 0, 16 0

input x:8; rec s:8 = 7 by s@1 ^ x; fn f(a) { return a@1; } output y = s@1; output z = f(s);
0, 0
7 0, 7 7

input x:8; let t[0] = x; for i in 1..3 { let t[i] = t[i-1] + x; } output y = t[2];
5, 200
15, 600

input x:128; output y:8 = cat(x, x);
300
44

input x:128; output y:8 = x + x;
300
88";

/// Sixty functions, each of which names the one before twice in a loop without turns, a sample, and what is made of it.
const SIXTY_FUNCTIONS: &str = "input x:8; fn f0(a) { return a; } \
    fn f1(a) { for i in 0..0 { let q = f0(a) + f0(a); } return a; } \
    fn f2(a) { for i in 0..0 { let q = f1(a) + f1(a); } return a; } \
    fn f3(a) { for i in 0..0 { let q = f2(a) + f2(a); } return a; } \
    fn f4(a) { for i in 0..0 { let q = f3(a) + f3(a); } return a; } \
    fn f5(a) { for i in 0..0 { let q = f4(a) + f4(a); } return a; } \
    fn f6(a) { for i in 0..0 { let q = f5(a) + f5(a); } return a; } \
    fn f7(a) { for i in 0..0 { let q = f6(a) + f6(a); } return a; } \
    fn f8(a) { for i in 0..0 { let q = f7(a) + f7(a); } return a; } \
    fn f9(a) { for i in 0..0 { let q = f8(a) + f8(a); } return a; } \
    fn f10(a) { for i in 0..0 { let q = f9(a) + f9(a); } return a; } \
    fn f11(a) { for i in 0..0 { let q = f10(a) + f10(a); } return a; } \
    fn f12(a) { for i in 0..0 { let q = f11(a) + f11(a); } return a; } \
    fn f13(a) { for i in 0..0 { let q = f12(a) + f12(a); } return a; } \
    fn f14(a) { for i in 0..0 { let q = f13(a) + f13(a); } return a; } \
    fn f15(a) { for i in 0..0 { let q = f14(a) + f14(a); } return a; } \
    fn f16(a) { for i in 0..0 { let q = f15(a) + f15(a); } return a; } \
    fn f17(a) { for i in 0..0 { let q = f16(a) + f16(a); } return a; } \
    fn f18(a) { for i in 0..0 { let q = f17(a) + f17(a); } return a; } \
    fn f19(a) { for i in 0..0 { let q = f18(a) + f18(a); } return a; } \
    fn f20(a) { for i in 0..0 { let q = f19(a) + f19(a); } return a; } \
    fn f21(a) { for i in 0..0 { let q = f20(a) + f20(a); } return a; } \
    fn f22(a) { for i in 0..0 { let q = f21(a) + f21(a); } return a; } \
    fn f23(a) { for i in 0..0 { let q = f22(a) + f22(a); } return a; } \
    fn f24(a) { for i in 0..0 { let q = f23(a) + f23(a); } return a; } \
    fn f25(a) { for i in 0..0 { let q = f24(a) + f24(a); } return a; } \
    fn f26(a) { for i in 0..0 { let q = f25(a) + f25(a); } return a; } \
    fn f27(a) { for i in 0..0 { let q = f26(a) + f26(a); } return a; } \
    fn f28(a) { for i in 0..0 { let q = f27(a) + f27(a); } return a; } \
    fn f29(a) { for i in 0..0 { let q = f28(a) + f28(a); } return a; } \
    fn f30(a) { for i in 0..0 { let q = f29(a) + f29(a); } return a; } \
    fn f31(a) { for i in 0..0 { let q = f30(a) + f30(a); } return a; } \
    fn f32(a) { for i in 0..0 { let q = f31(a) + f31(a); } return a; } \
    fn f33(a) { for i in 0..0 { let q = f32(a) + f32(a); } return a; } \
    fn f34(a) { for i in 0..0 { let q = f33(a) + f33(a); } return a; } \
    fn f35(a) { for i in 0..0 { let q = f34(a) + f34(a); } return a; } \
    fn f36(a) { for i in 0..0 { let q = f35(a) + f35(a); } return a; } \
    fn f37(a) { for i in 0..0 { let q = f36(a) + f36(a); } return a; } \
    fn f38(a) { for i in 0..0 { let q = f37(a) + f37(a); } return a; } \
    fn f39(a) { for i in 0..0 { let q = f38(a) + f38(a); } return a; } \
    fn f40(a) { for i in 0..0 { let q = f39(a) + f39(a); } return a; } \
    fn f41(a) { for i in 0..0 { let q = f40(a) + f40(a); } return a; } \
    fn f42(a) { for i in 0..0 { let q = f41(a) + f41(a); } return a; } \
    fn f43(a) { for i in 0..0 { let q = f42(a) + f42(a); } return a; } \
    fn f44(a) { for i in 0..0 { let q = f43(a) + f43(a); } return a; } \
    fn f45(a) { for i in 0..0 { let q = f44(a) + f44(a); } return a; } \
    fn f46(a) { for i in 0..0 { let q = f45(a) + f45(a); } return a; } \
    fn f47(a) { for i in 0..0 { let q = f46(a) + f46(a); } return a; } \
    fn f48(a) { for i in 0..0 { let q = f47(a) + f47(a); } return a; } \
    fn f49(a) { for i in 0..0 { let q = f48(a) + f48(a); } return a; } \
    fn f50(a) { for i in 0..0 { let q = f49(a) + f49(a); } return a; } \
    fn f51(a) { for i in 0..0 { let q = f50(a) + f50(a); } return a; } \
    fn f52(a) { for i in 0..0 { let q = f51(a) + f51(a); } return a; } \
    fn f53(a) { for i in 0..0 { let q = f52(a) + f52(a); } return a; } \
    fn f54(a) { for i in 0..0 { let q = f53(a) + f53(a); } return a; } \
    fn f55(a) { for i in 0..0 { let q = f54(a) + f54(a); } return a; } \
    fn f56(a) { for i in 0..0 { let q = f55(a) + f55(a); } return a; } \
    fn f57(a) { for i in 0..0 { let q = f56(a) + f56(a); } return a; } \
    fn f58(a) { for i in 0..0 { let q = f57(a) + f57(a); } return a; } \
    fn f59(a) { for i in 0..0 { let q = f58(a) + f58(a); } return a; } \
    fn f60(a) { for i in 0..0 { let q = f59(a) + f59(a); } return a; } \
    rec s:8 = 0 by f60(s@1) + x; output y = s;
1, 2, 3
1, 3, 6";

/// Calls in loops and in recurrences, widths of 1 and of 128 bits, signed operands at their edges.
const WORKED_OUT: &str =
    "input x:8; const c = [8, 9, 10, 11, 12, 13, 14, 15, 15, 14, 13, 12, 11, 10, 9, 8]; fn tap(a, k) { return a * k; } let s[0]:24 = tap(x, c[0]); for i in 1..16 { let s[i]:24 = s[i-1] + tap(x@i, c[i]); } output y = s[15];
1, 1, 1
8, 17, 27

input a:4; input b:4; output y = a - b; output z = a < b;
0 1
15 1

input a:64; input b:64; output y:64 = a + b; output z = a + b;
18446744073709551615 1
0 18446744073709551616

input a:8; output y = a * 0;
255
0

input a:8; input k:3; output y = a << k; output z = a >> k;
129 1, 255 7, 5 0
2 64, 128 1, 5 5

input a:8; input k:4; output y = a << k;
3 8
0

input a:32; input b:8; output y = a * b;
4294967295 255
1095216660225

input a:8; input b:8; output y = signed(a) < signed(b); output z:16 = signed(a) >> 1;
255 1, 128 127, 1 255
1 65535, 1 65472, 0 0

input a:8; input k:3; output y = signed(a) >> k;
240 2, 128 7
252, 255

input a:128; input b:128; output y:128 = a + b; output z:128 = a - b;
340282366920938463463374607431768211455 1
0 340282366920938463463374607431768211454

input a:64; input b:64; output y = a * b;
18446744073709551615 18446744073709551615
340282366920938463426481119284349108225

input a:128; input b:128; output y:128 = a * b;
340282366920938463463374607431768211455 340282366920938463463374607431768211455
1

input a:128; input b:128; output y:128 = signed(a) * b; output z = signed(a) < b;
340282366920938463463374607431768211455 2
340282366920938463463374607431768211454 1

input a:128; output y:128 = a << 127; output z = a >> 127; output u:128 = a << 128; output v = a >> 128;
3, 340282366920938463463374607431768211455
170141183460469231731687303715884105728 0 0 0, 170141183460469231731687303715884105728 1 0 0

input a:128; input k:8; output y = a << k; output z = a >> k;
1 127, 340282366920938463463374607431768211455 127, 340282366920938463463374607431768211455 128, 5 255
170141183460469231731687303715884105728 0, 170141183460469231731687303715884105728 1, 0 0, 0 0

input x:8; fn g(a) { return a + 1; } fn f(a) { let s[0] = a; for i in 1..4 { let s[i]:8 = s[i-1] + g(a@1) * i; } return s[3]; } output y = f(x);
3, 5
9, 29

input x:8; let u = x@1 + 1; let s[1]:8 = x + u * 1; let s[2]:8 = s[1] + u * 2; let s[3]:8 = s[2] + u * 3; output y = s[3];
3, 5
9, 29

input x:8; fn f(a) { let k = a; return k << k; } const k = 3; output y = f(x) + k;
2
11

input x:8; let y = x; output z = y; output w = z@1;
4, 6
4 0, 6 4

input x:8; fn last(a) { return a + 1; } rec s:8 = 1 by last(s@1) * x{0..0}; output y = s;
1, 3, 2, 1
2, 3, 0, 1

input a:3; input b:5; output s = signed(a) + signed(b); output d = signed(a) - signed(b); output p = signed(a) * signed(b); output n = signed(a) & signed(b); output o = signed(a) | signed(b); output x = signed(a) ^ signed(b); output e = signed(a) == signed(b); output u = signed(a) != signed(b); output l = signed(a) < signed(b); output k = signed(a) <= signed(b); output g = signed(a) > signed(b); output h = signed(a) >= signed(b); output c = a{0..0} ? signed(a) : signed(b); output t = ~signed(b); output f = signed(b) << 2; output r = signed(b) >> 2; output v = signed(b) << a; output w = signed(b) >> a;
0 0, 0 1, 0 15, 0 16, 0 31, 1 0, 1 1, 1 15, 1 16, 1 31, 3 0, 3 1, 3 15, 3 16, 3 31, 4 0, 4 1, 4 15, 4 16, 4 31, 7 0, 7 1, 7 15, 7 16, 7 31
0 0 0 0 0 0 1 0 0 1 0 1 0 31 0 0 0 0, 1 63 0 0 1 1 0 1 1 1 0 0 1 30 4 0 1 1, 15 49 0 0 15 15 0 1 1 1 0 0 15 16 60 3 15 15, 48 16 0 0 16 16 0 1 0 0 1 1 16 15 64 4 16 16, 63 1 0 0 31 31 0 1 0 0 1 1 31 0 124 7 31 31, 1 1 0 0 1 1 0 1 0 0 1 1 1 31 0 0 0 0, 2 0 1 1 1 0 1 0 0 1 0 1 1 30 4 0 2 0, 16 50 15 1 15 14 0 1 1 1 0 0 1 16 60 3 30 7, 49 17 240 0 17 17 0 1 0 0 1 1 1 15 64 4 0 24, 0 2 255 1 31 30 0 1 0 0 1 1 1 0 124 7 30 31, 3 3 0 0 3 3 0 1 0 0 1 1 3 31 0 0 0 0, 4 2 3 1 3 2 0 1 0 0 1 1 3 30 4 0 8 0, 18 52 45 3 15 12 0 1 1 1 0 0 3 16 60 3 24 1, 51 19 208 0 19 19 0 1 0 0 1 1 3 15 64 4 0 30, 2 4 253 3 31 28 0 1 0 0 1 1 3 0 124 7 24 31, 60 60 0 0 28 28 0 1 1 1 0 0 0 31 0 0 0 0, 61 59 252 0 29 29 0 1 1 1 0 0 1 30 4 0 16 0, 11 45 196 12 31 19 0 1 1 1 0 0 15 16 60 3 16 0, 44 12 64 16 28 12 0 1 0 0 1 1 16 15 64 4 0 31, 59 61 4 28 31 3 0 1 1 1 0 0 31 0 124 7 16 31, 63 63 0 0 31 31 0 1 1 1 0 0 31 31 0 0 0 0, 0 62 255 1 31 30 0 1 1 1 0 0 31 30 4 0 0 0, 14 48 241 15 31 16 0 1 1 1 0 0 31 16 60 3 0 0, 47 15 16 16 31 15 0 1 0 0 1 1 31 15 64 4 0 31, 62 0 1 31 31 0 1 0 0 1 0 1 31 0 124 7 0 31";

/// Whether a number is below 2 to the power of a width.
fn fits(width: u8, number: Num) -> bool
    ensures { IsTrue result → number < 2 ^ width }
{
    match Width::of(width) {
        None => false,
        Some(width) => cut(number, width) == number,
    }
}

/// Whether a row has a number for each width, and each below 2 to the power of it.
fn is_row(widths: &[u8], row: &Sample) -> bool
    ensures { IsTrue result → IsRow widths.now row.now }
{
    let numbers = row.numbers();
    if numbers.len() != widths.len() {
        return false;
    }
    for i in 0..widths.len() {
        if !fits(widths[i], numbers[i]) {
            return false;
        }
    }
    true
}

fn are_rows(widths: &[u8], rows: &[Sample]) -> bool
    ensures { IsTrue result → All (IsRow widths.now) rows.now }
{
    for row in rows {
        if !is_row(widths, row) {
            return false;
        }
    }
    true
}

/// The program of a text, where it is one and keeps the rules of scope.
fn program_of(alloc: Global, text: &[u8]) -> Option<Scoped>
    requires { length text.now ≤ 1048576 }
{
    let tokens = tokens(alloc, text).ok()?;
    let program = parse(alloc, text, &tokens).ok()?;
    check(alloc, program).ok()
}

/// The equations of a program, where they are not too many.
fn equations_of(alloc: Global, scoped: &Scoped) -> Option<Flat>
    ensures { IfSome result (λ flat. input_widths (shapes_of flat.equations.items) ≡ scoped.now.inputs.items) }
{
    match expand(alloc, scoped) {
        Ok(flat) => Some(flat),
        Err(_) => None,
    }
}

/// The widths of equations, where they have some.
fn widths_of(alloc: Global, flat: &Flat) -> Option<Widths>
    ensures { IfSome result (λ widths. AreWidths (shapes_of flat.now.equations.items) widths) }
{
    solve(alloc, flat).ok()
}

fn same(rows: &[Sample], wanted: &[Sample]) -> bool {
    if rows.len() != wanted.len() {
        return false;
    }
    for i in 0..rows.len() {
        if rows[i].numbers() != wanted[i].numbers() {
            return false;
        }
    }
    true
}

/// Whether a program makes these rows of the samples.
fn makes(alloc: Global, scoped: &Scoped, samples: &[Sample], wanted: &[Sample]) -> bool {
    if !are_rows(&scoped.inputs, samples) {
        return false;
    }
    let Some(flat) = equations_of(alloc, scoped) else {
        return false;
    };
    let Some(widths) = widths_of(alloc, &flat) else {
        return false;
    };
    match eval(alloc, &flat, &widths, samples) {
        Ok(rows) => same(&rows, wanted),
        Err(_) => false,
    }
}

/// Whether the program of a text does.
fn text_makes(alloc: Global, text: &str, samples: &[Sample], wanted: &[Sample]) -> bool {
    if text.len() > 8000 {
        return false;
    }
    match program_of(alloc, text.as_bytes()) {
        Some(scoped) => makes(alloc, &scoped, samples, wanted),
        None => false,
    }
}

/// The numbers of a text, and none where a word is no number.
fn row_of(alloc: Global, text: &str) -> Result<Sample, AllocError> {
    let mut numbers = Vec::new(alloc);
    for word in text.split_ascii_whitespace() {
        let Ok(number) = word.parse::<Num>() else {
            return Ok(Sample::new(Vec::new(alloc)));
        };
        numbers.push(number)?;
    }
    Ok(Sample::new(numbers))
}

/// The rows of a line: numbers by spaces, rows by commas.
fn rows_of(alloc: Global, line: &str) -> Result<Vec<Sample>, AllocError> {
    let mut rows = Vec::new(alloc);
    for text in line.split(',') {
        rows.push(row_of(alloc, text)?)?;
    }
    Ok(rows)
}

/// Whether the program of a case makes the rows on its last line of the samples before.
fn is_right(alloc: Global, case: &str) -> Result<bool, AllocError> {
    let (text, lines) = case.split_once('\n').unwrap_or((case, ""));
    let (samples, wanted) = lines.split_once('\n').unwrap_or((lines, ""));
    let samples = rows_of(alloc, samples)?;
    let wanted = rows_of(alloc, wanted)?;
    Ok(text_makes(alloc, text, &samples, &wanted))
}

/// Checks that the program of a case makes its rows.
fn check_case(rt: &impl Abort, alloc: Global, case: &str) -> Result<(), AllocError> {
    let is_right = is_right(alloc, case)?;
    assert!(rt; is_right, "{case}");
    Ok(())
}

/// Checks each case of a table.
fn check_cases(rt: &impl Abort, alloc: Global, cases: &str) -> Result<(), AllocError> {
    for case in cases.split("\n\n") {
        check_case(rt, alloc, case)?;
    }
    Ok(())
}

#[test]
fn documented(rt: HostRuntime) -> Result<(), AllocError> {
    check_cases(&rt, rt.alloc(), DOCUMENTED)
}

#[test]
fn worked_out(rt: HostRuntime) -> Result<(), AllocError> {
    check_cases(&rt, rt.alloc(), SIXTY_FUNCTIONS)?;
    check_cases(&rt, rt.alloc(), WORKED_OUT)
}
