//! Programs, and the widths of their equations.

ghost use Rattle.std.specs.Prelude.{◌≤◌, length};

use pr_compile_front::{FrontFault, read_program};
use pr_flat::{Flat, Op};
use std::alloc::Global;

/// A program, and the number of its first equation without a width.
type Case = (&'static str, u32);

const WITHOUT_WIDTHS: [Case; 9] = [
    ("input x:8; rec s = 0 by s@1 + x; output y = s;", 2),
    ("input a:128; input b:128; output y = a + b;", 2),
    ("input a:2; output y = a ? 1 : 0;", 1),
    ("input a:8; output y = a{8..0};", 1),
    ("input a:128; let t = a + a; output y:8 = t;", 1),
    ("input a:128; let t = a * 2; output y = a;", 1),
    (
        "fn f(a, b) { return a; } input x:128; output y = f(x, x + x);",
        1,
    ),
    ("input c:2; rec s = 0 by c ? s@1 : c; output y = s;", 2),
    ("input c:2; rec s:8 = 0 by c ? s@1 : c; output y = s;", 1),
];

/// Whether the equation of this number is the first of a text without a width.
fn is_first_without(alloc: Global, text: &[u8], number: u32) -> bool
    requires { length text.now ≤ 1048576 }
{
    match read_program(alloc, text) {
        Err(FrontFault::NoWidth { equation }) => equation == number,
        _ => false,
    }
}

/// The width of the equation of this number, where the equations of a text have widths.
fn width_in(alloc: Global, text: &[u8], number: usize) -> Option<u8>
    requires { length text.now ≤ 1048576 }
{
    match read_program(alloc, text) {
        Ok(front) => front.widths.of.get(number).copied(),
        Err(_) => None,
    }
}

#[test]
fn programs_without_widths(rt: HostRuntime) {
    for (text, equation) in WITHOUT_WIDTHS {
        assert!(rt; text.len() < 1000);
        assert!(rt;
            is_first_without(rt.alloc(), text.as_bytes(), equation),
            "{text}"
        );
    }
}

#[test]
fn least_widths_of_recurrences(rt: HostRuntime) {
    let sum = b"input x:8; rec s = 0 by s@1 ^ x; output y = s;";
    assert_eq!(rt; width_in(rt.alloc(), sum, 2), Some(8));
    let held = b"input x:8; rec s = 300 by s@1 & x; output y = s;";
    assert_eq!(rt; width_in(rt.alloc(), held, 2), Some(9));
}

const FILTER: &[u8] =
    b"input x:8; const c = [8, 9, 10, 11, 12, 13, 14, 15, 15, 14, 13, 12, 11, 10, 9, 8]; fn tap(a, k) { return a * k; } let s[0]:24 = tap(x, c[0]); for i in 1..16 { let s[i]:24 = s[i-1] + tap(x@i, c[i]); } output y = s[15];";

/// The number of delays.
fn delays_in(flat: &Flat) -> usize {
    let mut count: usize = 0;
    for equation in &flat.equations {
        if let Op::Delay(_) = equation.op {
            count = count.saturating_add(1);
        }
    }
    count
}

/// The numbers of equations and of delays of a text.
fn counts(alloc: Global, text: &[u8]) -> Option<(usize, usize)>
    requires { length text.now ≤ 1048576 }
{
    match read_program(alloc, text) {
        Ok(front) => Some((front.flat.equations.len(), delays_in(&front.flat))),
        Err(_) => None,
    }
}

#[test]
fn shared_delays(rt: HostRuntime) {
    assert_eq!(rt; counts(rt.alloc(), FILTER), Some((48, 15)));
}
