//! Programs, and what the scope rules say of them: for each rule programs that break it, with the number of the item, and
//! programs that keep it, with their turns.

ghost use Rattle.std.specs.Prelude.{◌≤◌, length};

use pr_base::Cap;
use pr_lang::Program;
use pr_parse::{ParseFault, parse, tokens};
use pr_scope::{ScopeFault, Scoped, check};
use std::alloc::{AllocError, Global};
use std::process::Abort;
use std::test::Fail;

/// The program of a text, if it has one.
fn program_of(alloc: Global, text: &[u8]) -> Result<Option<Program>, AllocError>
    requires { length text.now ≤ 1048576 }
{
    let tokens = tokens(alloc, text)?;
    match parse(alloc, text, &tokens) {
        Ok(program) => Ok(Some(program)),
        Err(ParseFault::Memory(error)) => Err(error),
        Err(_) => Ok(None),
    }
}

/// What is answered to a program: the rule that breaks and the item at which it does, or the turns of a program that keeps
/// the rules.
fn judged(alloc: Global, program: Program) -> Result<String, AllocError> {
    match check(alloc, program) {
        Ok(scoped) => format!(in alloc; "Kept({})", scoped.turns),
        Err(ScopeFault::Scope { rule, item }) => format!(in alloc; "Breaks({rule}, {item})"),
        Err(ScopeFault::Limit(Cap::Turns)) => String::from_str(alloc, "TooLong"),
        Err(ScopeFault::Limit(_)) => String::from_str(alloc, "NoProgram"),
        Err(ScopeFault::Memory(error)) => Err(error),
    }
}

/// What is answered to the program of a text.
fn answer_to(alloc: Global, text: &str) -> Result<String, AllocError> {
    if text.len() > 2000 {
        return String::from_str(alloc, "NoProgram");
    }
    match program_of(alloc, text.as_bytes())? {
        Some(program) => judged(alloc, program),
        None => String::from_str(alloc, "NoProgram"),
    }
}

/// On each line what is answered to a program, and the program: for each rule those that break it, and then those that
/// keep it.
const INTRODUCED: &str = "Breaks(1, 1) | input a:8; const a = 3; output y = a;
Breaks(1, 1) | input a:8; for a in 0..2 { let t[a] = 1; } output y = a;
Breaks(1, 1) | input a:8; for a in 0..0 { } output y = a;
Breaks(1, 2) | input a:8; let t[1] = a; let t[1] = a; output y = a;
Breaks(1, 1) | input a:8; let signed = a; output y = a;
Breaks(1, 1) | input a:8; let signed = a;
Breaks(1, 1) | input a:8; output a = a;
Breaks(1, 1) | input a:8; input a:8; output y = a;
Breaks(1, 1) | input a:8; fn f(b, b) { return b; } output y = a;
Breaks(1, 0) | fn f(b:0, b) { return b; }
Breaks(1, 0) | fn f(b) { let b = 1; return b; }
Breaks(1, 0) | fn f(i) { for i in 0..1 { } return i; }
Breaks(1, 0) | fn signed(b) { return b; }
Breaks(1, 1) | input a:8; fn a(b) { return zz; }
Breaks(1, 1) | const c = 1; const c = 2;
Breaks(1, 1) | const c = [1, 2]; fn c(b) { return b; }
Breaks(1, 1) | const k = 3; fn f(k) { return k; }
Breaks(1, 2) | input a:8; let t[0] = a; const t = [1]; output y = a;
Breaks(1, 2) | input a:8; const c = 5; rec c = 0 by c; output y = a;
Breaks(1, 2) | input a:8; let s = a; rec s:8 = 0 by s@1 + a; output y = s;
Breaks(1, 1) | input a:8; for i in 0..1 { for i in 0..1 { } } output y = a;
Breaks(1, 1) | input a:8; for i in 0..1 { let i = a; } output y = a;
Breaks(1, 1) | input a:8; for i in 0..2 { let t = a; } output y = a;
Kept(4) | input a:8; let t = a; let t[0] = t; output y = t[0];
Kept(4) | fn f(a) { return a; } input a:8; output y = f(a);
Kept(5) | fn f(a) { let f = a; return f; } input a:8; output y = f(a);
Kept(6) | fn f(a) { let k = a; return k << k; } const k = 3; input a:8; output y = f(a);
Kept(11) | fn f(b) { for i in 0..2 { let t[i] = b; } return t[1]; } input t:8; for i in 0..1 { } output y = f(t);
Kept(12) | input a:8; for i in 0..2 { let t[i] = a; } for i in 2..4 { let t[i] = t[i - 1]; } output y = t[3];";

const ASSIGNED: &str = "Breaks(2, 1) | input a:8; output y = b;
Breaks(2, 1) | input a:8; output y = b[1];
Breaks(2, 1) | input a:8; output y = b@1;
Breaks(2, 1) | input a:8; output y = y;
Breaks(2, 1) | input a:8; let t = b; let b = a; output y = t;
Breaks(2, 2) | input a:8; let t[0] = a; output y = t;
Breaks(2, 1) | input a:8; fn f(b) { return a; } output y = a;
Breaks(2, 2) | fn f(a) { let b = a; return b; } input a:8; output y = f(a) + b;
Breaks(2, 1) | input a:8; rec s:8 = 0 by s + a; output y = s;
Breaks(2, 0) | fn f(b) { rec s:8 = 0 by s + b; return s; }
Breaks(2, 2) | input a:8; let s = a; rec s:8 = 0 by s + a; output y = s;
Breaks(2, 2) | fn p(b) { return b@0; } input a:8; rec s:8 = 0 by p(s); output y = s;
Breaks(2, 1) | input a:8; rec s[1]:8 = 0 by s[0]@1; output y = a;
Breaks(2, 2) | input a:8; for i in 0..1 { } output y = i;
Breaks(2, 1) | input a:8; for i in 0..2 { let t[i] = t[i + 1]; } output y = a;
Breaks(2, 1) | input a:8; output y = g(zz);
Breaks(2, 1) | input a:8; output y = a << q;
Breaks(2, 1) | input a:8; output y = a << (1 - 2 + zz);
Breaks(2, 1) | input a:8; output y = b{2..3};
Breaks(2, 1) | input a:8; output y = zz ? g(1) : 2;
Breaks(2, 1) | input a:8; output y = cat(a, zz, g(1));
Kept(8) | input a:8; let t[0] = a; for i in 1..3 { let t[i] = t[i - 1]; } output y = t[2];
Kept(3) | input a:8; rec s:8 = 0 by s@1 + a; output y = s;
Kept(3) | input a:8; output y = a; output z = y@1;
Kept(4) | input a:8; let s[0] = a; rec s[1]:8 = 0 by s[0] + s[1]@1; output y = s[1];
Kept(4) | input a:8; let s[0] = a; rec s[1]:8 = 0 by s[0]@0 + a; output y = s[1];";

const KINDS: &str = "Breaks(3, 1) | input a:8; const c = k; output y = a;
Breaks(3, 1) | input a:8; const c = a; output y = a;
Breaks(3, 1) | input a:8; const a = zz; output y = a;
Breaks(3, 0) | const c = signed;
Breaks(3, 1) | const c = [1]; const d = c;
Breaks(3, 1) | const c = 1; const d = c[0];
Breaks(3, 1) | const c = 1; for c in zz..2 { }
Breaks(3, 1) | input a:8; for i in 0..a { } output y = a;
Breaks(3, 2) | input a:8; for i in 0..2 { } for j in 0..i { } output y = a;
Breaks(3, 2) | input a:8; const c = [1, 2]; output y = c;
Breaks(3, 2) | input a:8; const c = 1; output y = c[0];
Breaks(3, 1) | input a:8; for i in 0..1 { let t = i[0]; } output y = a;
Breaks(3, 2) | fn f(b) { return b; } input a:8; output y = f;
Breaks(3, 1) | input a:8; output y = a(1);
Breaks(3, 2) | input a:8; const c = 2; output y = c(a);
Breaks(3, 1) | input a:8; output y = g(a);
Breaks(3, 1) | input a:8; output y = g(1) + zz;
Breaks(3, 0) | fn f(b) { return f(b); }
Breaks(3, 0) | fn f(b) { let t[k] = b; return b; } const k = 1;
Breaks(3, 1) | input a:8; output y = signed@1;
Breaks(3, 2) | input a:8; const c = 5; output y = c@1;
Breaks(3, 2) | input a:8; const c = 5; output y = c@(1 / 0);
Breaks(3, 2) | input a:8; const c = [1]; output y = c[0]@1;
Breaks(3, 2) | input a:8; const c = 5; rec c = 0 by c@1; output y = a;
Breaks(3, 1) | input a:8; output y = a@k;
Breaks(3, 1) | input a:8; output y = a{k..1 - 2};
Breaks(3, 2) | input a:8; const c = [1]; output y = a << c;
Breaks(3, 2) | input a:8; const c = 4; output y = a << c[0];
Kept(5) | const n = 2; const c = [n, n + 1]; input a:8; let t[c[1]] = a; output y = t[3] + c[0] + n;
Kept(13) | input a:8; for i in 0..2 { for j in i..2 { let t[i * 2 + j] = a + i + j; } } output y = t[3];
Kept(3) | input a:8; for i in 0..0 { let q = zz(1); } output y = a;
Kept(5) | fn f(b) { for i in 0..0 { let q = zz(1); } return b; } input a:8; output y = f(a);";

const CALLS: &str = "Breaks(4, 2) | fn f(b) { return b; } input a:8; output y = f(a, a);
Breaks(4, 2) | fn f() { return 1; } input a:8; output y = f(a);
Breaks(4, 1) | input a:8; output y = signed(a, a);
Breaks(4, 1) | input a:8; output y = signed();
Breaks(4, 1) | input a:8; output y = a << signed(1, 2);
Breaks(4, 2) | fn f(b) { return b@1; } input a:8; rec s:8 = 0 by f(a, a); output y = s;
Breaks(4, 32) | fn f0(a) { return a; } fn f1(a) { return f0(a); } fn f2(a) { return f1(a); } fn f3(a) { return f2(a); } fn f4(a) { return f3(a); } fn f5(a) { return f4(a); } fn f6(a) { return f5(a); } fn f7(a) { return f6(a); } fn f8(a) { return f7(a); } fn f9(a) { return f8(a); } fn f10(a) { return f9(a); } fn f11(a) { return f10(a); } fn f12(a) { return f11(a); } fn f13(a) { return f12(a); } fn f14(a) { return f13(a); } fn f15(a) { return f14(a); } fn f16(a) { return f15(a); } fn f17(a) { return f16(a); } fn f18(a) { return f17(a); } fn f19(a) { return f18(a); } fn f20(a) { return f19(a); } fn f21(a) { return f20(a); } fn f22(a) { return f21(a); } fn f23(a) { return f22(a); } fn f24(a) { return f23(a); } fn f25(a) { return f24(a); } fn f26(a) { return f25(a); } fn f27(a) { return f26(a); } fn f28(a) { return f27(a); } fn f29(a) { return f28(a); } fn f30(a) { return f29(a); } fn f31(a) { return f30(a); } fn f32(a) { return f31(a); }
Breaks(4, 3) | fn f(b) { for i in 0..252 { } return b; } fn g(b) { for i in 0..255 { let t[i] = f(b); } return b; } input a:8; output y = g(a, a) + g(a);
Kept(6) | fn one() { return 1; } fn two(b, c) { return b + c + one(); } input a:8; output y = two(a, 3);
Kept(4) | input a:8; output y = signed(signed(a));
Kept(67) | fn f0(a) { return signed(a); } fn f1(a) { return f0(a); } fn f2(a) { return f1(a); } fn f3(a) { return f2(a); } fn f4(a) { return f3(a); } fn f5(a) { return f4(a); } fn f6(a) { return f5(a); } fn f7(a) { return f6(a); } fn f8(a) { return f7(a); } fn f9(a) { return f8(a); } fn f10(a) { return f9(a); } fn f11(a) { return f10(a); } fn f12(a) { return f11(a); } fn f13(a) { return f12(a); } fn f14(a) { return f13(a); } fn f15(a) { return f14(a); } fn f16(a) { return f15(a); } fn f17(a) { return f16(a); } fn f18(a) { return f17(a); } fn f19(a) { return f18(a); } fn f20(a) { return f19(a); } fn f21(a) { return f20(a); } fn f22(a) { return f21(a); } fn f23(a) { return f22(a); } fn f24(a) { return f23(a); } fn f25(a) { return f24(a); } fn f26(a) { return f25(a); } fn f27(a) { return f26(a); } fn f28(a) { return f27(a); } fn f29(a) { return f28(a); } fn f30(a) { return f29(a); } fn f31(a) { return f30(a); } input a:8; output y = f31(a);";

const STEPS: &str = "Breaks(5, 1) | input a:8; const c = 1 - 2; output y = a;
Breaks(5, 0) | const c = 1 - 2 + 2;
Breaks(5, 0) | const c = 1 - 2 + 1 / 0;
Breaks(5, 0) | const c = 18446744073709551615 + 1;
Breaks(5, 0) | const c = 4294967296 * 4294967296;
Breaks(5, 1) | input a:8; output y = a << (1 - 2);
Breaks(5, 1) | input a:8; output y = a >> 18446744073709551615 + 1;
Breaks(5, 2) | input a:8; const c = [7]; output y = a << (1 - 2 + c[3]);
Breaks(5, 1) | input a:8; for i in 0..2 { let t[i] = a@(i - 1); } output y = a;
Breaks(5, 1) | input a:8; output y = a{1 - 2..0};
Breaks(5, 0) | fn f(b) { return b@(2 - 3); }
Kept(4) | const c = 18446744073709551615; const d = 4294967295 * 4294967297; input a:8; output y = a + d;
Kept(3) | const c = 2 - 2; input a:8; output y = a@(3 - 2 - 1) << (5 - 5) + c;";

const DIVISORS: &str = "Breaks(6, 0) | const c = 1 / 0;
Breaks(6, 0) | const c = 1 / 0 - 2;
Breaks(6, 1) | const z = 2 - 2; const c = 5 % z;
Breaks(6, 0) | const c = [1, 2 % (3 - 3), 1 - 2];
Breaks(6, 1) | input a:8; for i in 0..2 { let t[4 / i] = a; } output y = a;
Breaks(6, 1) | input a:8; let t[1 / 0]:0 = b; output y = a;
Breaks(6, 1) | input a:8; rec s[1 / 0]:0 = zz by b; output y = a;
Breaks(6, 1) | input a:8; output y = t[1 / 0]@k;
Kept(6) | const c = 7 / 2; const d = 7 % 2; input a:8; let t[c] = a; let t[d] = a; output y = t[3] + t[1];
Kept(4) | const c = 0 / 5; const d = 0 % 5; input a:8; output y = a@(c + d);";

const ENTRIES: &str = "Breaks(7, 2) | const c = [1, 2]; input a:8; output y = a + c[2];
Breaks(7, 1) | const c = [1, 2]; const d = c[2];
Breaks(7, 1) | const c = [1]; const d = c[18446744073709551615];
Breaks(7, 2) | input a:8; const c = [3]; for i in 0..2 { let t[i] = a * c[i]; } output y = a;
Breaks(7, 2) | input a:8; const c = [3]; output y = a >> c[1];
Kept(3) | const c = [1, 2]; input a:8; output y = a + c[1] + c[0];
Kept(4) | const c = [1, 0]; const d = c[c[0]]; input a:8; output y = a >> c[d];";

const BOUNDS: &str = "Breaks(8, 0) | input a:0; output y = a;
Breaks(8, 0) | input a:129; output y = a;
Breaks(8, 0) | input a:18446744073709551615; output y = a;
Breaks(8, 1) | input a:8; output y:129 = a;
Breaks(8, 1) | input a:8; output y:0 = b;
Breaks(8, 1) | input a:8; let t:0 = a; output y = a;
Breaks(8, 1) | input a:8; let a:0 = b; output y = a;
Breaks(8, 0) | fn f(b):129 { return b; }
Breaks(8, 0) | fn f(b, c:0) { return zz; }
Breaks(8, 1) | input a:8; rec s:0 = 1 / 0 by a; output y = a;
Breaks(8, 1) | input a:8; output y = a{2..3};
Breaks(8, 1) | input a:8; output y = a@257;
Breaks(8, 1) | input a:8; rec s:8 = 0 by s@0 + a; output y = s;
Breaks(8, 1) | input a:8; rec s:8 = 0 by s@257; output y = s;
Breaks(8, 1) | input a:8; rec s[2]:8 = 0 by s[1 + 1]@0; output y = a;
Breaks(8, 2) | input a:8; let s = a; rec s:8 = 0 by s@0 + a; output y = s;
Breaks(8, 1) | input a:8; output y:8 = a << 129;
Breaks(8, 1) | input a:8; output y:8 = a >> 129;
Kept(3) | input a:1; input b:128; output y:128 = a@256 + b;
Kept(4) | input a:8; rec s:8 = 0 by s@256 + a; let t:64 = s << 128; output y = t{7..7};
Kept(2) | input a:8; output y = a << (200 + a);
Kept(2) | input a:8; output y = a >> (129 - 1);
Kept(4) | fn f(b:128):1 { return b; } input a:1; output y = f(a);";

const RECURRENCES: &str = "Breaks(9, 1) | input a:8; rec s:8 = 256 by s@1; output y = s;
Breaks(9, 1) | input a:8; rec s:1 = 2 by zz; output y = a;
Breaks(9, 4) | fn p(b) { return b@1; } fn q(b) { return p(b); } fn r(b) { return q(b); } input a:8; rec s:8 = 0 by r(a) + s@1; output y = s;
Breaks(9, 2) | fn p(b) { rec t:8 = 0 by t@1 + b; return t; } input a:8; rec s:8 = 0 by p(a); output y = s;
Breaks(9, 2) | fn p(b) { return b@0; } input a:8; rec s:8 = 0 by p(a); output y = s;
Breaks(9, 2) | fn p(b) { for i in 0..0 { let t = b@1; } return b; } input a:8; rec s:8 = 0 by p(a); output y = s;
Breaks(9, 3) | fn p(b) { return b@1; } fn q(b) { for i in 0..0 { let t = p(b); } return b; } input a:8; rec s:8 = 0 by q(a); output y = s;
Breaks(9, 1) | fn p(b) { return b@1; } fn q(b) { rec t:8 = 0 by p(b); return t; }
Kept(3) | input a:8; rec s:8 = 255 by s@1 + a; output y = s;
Kept(3) | input a:8; rec s = 300 by s@1 & a; output y = s;
Kept(4) | input a:8; rec s:8 = 0 by signed(a) + s@1; output y = s;
Kept(6) | fn p(b) { return b + 1; } input a:8; rec s:8 = 0 by p(s@1) + p(a); output y = s;
Kept(6) | fn p(b) { return b@1; } input a:8; let t = p(a); rec s:64 = 18446744073709551615 by t + s@1; output y = s;
Kept(6) | fn p(b) { for i in 0..0 { let t = zz(b); } return b; } input a:8; rec s:8 = 0 by p(a); output y = s;";

const ENDS: &str = "Breaks(10, 0)
Breaks(10, 1) | input a:8;
Breaks(10, 2) | const c = 3; output y = c;
Breaks(10, 3) | input a:8; let b = a; fn f(c) { return c; }
Kept(2) | input a:8; output y = a;
Kept(2) | output y = 5; input a:8;";

/// Programs of too many turns, and of nearly as many as may be.
const TURNS: &str = "TooLong | for i in 0..1000 { for j in 0..1000 { } }
TooLong | for i in 0..18446744073709551615 { }
TooLong | fn f(b) { for i in 0..252 { } return b; } input a:8; for i in 0..255 { let t[i] = f(a); } for j in 0..252 { } output y = a;
TooLong | fn f(b) { for i in 0..252 { } return b; } fn g(b) { for i in 0..255 { let t[i] = f(b); } return b; } input a:8; output y = g(a) + g(a, a);
TooLong | fn f(b) { for i in 0..252 { } return b; } fn g(b) { for i in 0..255 { let t[i] = f(b); } return b; } fn k(b) { return g(g(b)); }
Kept(65536) | fn f(b) { for i in 0..252 { } return b; } input a:8; for i in 0..255 { let t[i] = f(a); } for j in 0..251 { } output y = a;
Kept(65288) | fn f(b) { for i in 0..252 { } return b; } fn g(b) { for i in 0..255 { let t[i] = f(b); } return b; } fn h(b) { return g(b); } input a:8; output y = h(a);";

/// The lines of each rule.
const RULES: [&str; 10] = [
    INTRODUCED,
    ASSIGNED,
    KINDS,
    CALLS,
    STEPS,
    DIVISORS,
    ENTRIES,
    BOUNDS,
    RECURRENCES,
    ENDS,
];

/// Checks what is answered to the program of each line.
fn check_lines(rt: &impl Abort, alloc: Global, lines: &str) -> Result<(), AllocError> {
    for line in lines.lines() {
        let (wanted, text) = line.split_once(" | ").unwrap_or((line, ""));
        let answer = answer_to(alloc, text)?;
        assert_eq!(rt; answer.as_str(), wanted, "to {text}");
    }
    Ok(())
}

#[test]
fn rules(rt: HostRuntime) -> Result<(), Fail> {
    for lines in RULES {
        check_lines(&rt, rt.alloc(), lines)?;
    }
    Ok(())
}

#[test]
fn turns(rt: HostRuntime) -> Result<(), Fail> {
    Ok(check_lines(&rt, rt.alloc(), TURNS)?)
}

/// Whether this is what is kept of two items, of which one is an input of eight bits.
fn has_one_input(scoped: &Scoped) -> bool {
    scoped.inputs.as_slice() == [8].as_slice()
        && scoped.turns == 2
        && scoped.program.items.len() == 2
}

#[test]
fn an_input_and_an_output(rt: HostRuntime) -> Result<(), Fail> {
    let alloc = rt.alloc();
    let program = program_of(alloc, b"input a:8; output y = a;")?.expect(&rt, "a program");
    assert!(rt; check(alloc, program).is_ok_and(|scoped| has_one_input(&scoped)));
    Ok(())
}
