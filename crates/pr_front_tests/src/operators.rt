//! Numbers at the edges of their widths. The results are those of a separate model in whole numbers, by the language's tables.
//!
//! A number is written as `u` or `s`, as it is unsigned or signed, its width, and itself in hexadecimal digits.

ghost use Rattle.std.specs.Prelude.{◌≤◌, IfSome, IsTrue};
ghost use Rattle.pr_flat.specs.Forms.{IsPoint};

use pr_base::{Num, Width};
use pr_flat::{Form, Op, Point};
use pr_flat_ops::{
    choose, fit, natural, natural_choice, natural_one, natural_two, number_width, operate,
    operate_one, operate_two,
};
use std::str::SplitWhitespace;

/// An operator, and a line for each case: the operands and the result.
type Cases = (Op, &'static str);

const PAIRS: [Cases; 15] = [
    (
        Op::Add,
        "u 1 1  u 1 1  u 2 2
u 8 ff  s 8 ff  s 10 fe
u 128 ffffffffffffffffffffffffffffffff  u 128 1  u 129 0
s 128 80000000000000000000000000000000  u 128 0  s 130 80000000000000000000000000000000",
    ),
    (
        Op::Sub,
        "u 8 0  u 8 1  u 8 ff
s 8 80  u 128 ffffffffffffffffffffffffffffffff  s 130 ffffffffffffffffffffffffffffff81",
    ),
    (
        Op::Mul,
        "u 8 ff  u 8 ff  u 16 fe01
s 8 ff  u 8 ff  s 17 1ff01
s 128 80000000000000000000000000000000  u 128 ffffffffffffffffffffffffffffffff  s 257 80000000000000000000000000000000",
    ),
    (
        Op::And,
        "s 8 80  u 128 ffffffffffffffffffffffffffffffff  s 129 ffffffffffffffffffffffffffffff80",
    ),
    (Op::Or, "s 8 80  u 1 1  s 8 81"),
    (
        Op::Xor,
        "s 1 1  s 128 7fffffffffffffffffffffffffffffff  s 128 80000000000000000000000000000000",
    ),
    (Op::Equal, "s 8 ff  u 8 ff  u 1 0"),
    (Op::NotEqual, "s 1 1  u 1 1  u 1 1"),
    (
        Op::Less,
        "s 8 80  s 8 7f  u 1 1
u 8 80  u 8 7f  u 1 0",
    ),
    (
        Op::LessEqual,
        "s 128 80000000000000000000000000000000  u 128 80000000000000000000000000000000  u 1 1",
    ),
    (
        Op::Greater,
        "u 128 ffffffffffffffffffffffffffffffff  s 128 ffffffffffffffffffffffffffffffff  u 1 1",
    ),
    (Op::GreaterEqual, "s 8 80  u 8 0  u 1 0"),
    (
        Op::LeftBy,
        "s 8 81  u 3 1  s 8 2
u 128 ffffffffffffffffffffffffffffffff  u 128 ffffffffffffffffffffffffffffffff  u 128 0",
    ),
    (
        Op::RightBy,
        "s 8 f0  u 3 2  s 8 fc
s 8 80  u 128 ffffffffffffffffffffffffffffffff  s 8 ff
u 8 ff  u 8 8  u 8 0",
    ),
    (
        Op::Cat,
        "u 4 9  u 8 12  u 12 912
u 128 1  u 128 80000000000000000000000000000000  u 256 80000000000000000000000000000000",
    ),
];

const SINGLES: [Cases; 10] = [
    (
        Op::Not,
        "s 8 ff  s 8 0
u 128 80000000000000000000000000000000  u 128 7fffffffffffffffffffffffffffffff",
    ),
    (Op::Left(8), "s 8 ff  s 16 ff00"),
    (
        Op::Left(1),
        "u 128 ffffffffffffffffffffffffffffffff  u 129 fffffffffffffffffffffffffffffffe",
    ),
    (Op::Left(128), "u 8 1  u 136 0"),
    (Op::Right(1), "s 8 ff  s 7 7f"),
    (Op::Right(128), "s 8 80  s 1 1"),
    (Op::Right(8), "u 8 80  u 1 0"),
    (Op::Slice(5, 2), "u 8 a5  u 4 9"),
    (
        Op::Slice(127, 0),
        "s 128 80000000000000000000000000000000  u 128 80000000000000000000000000000000",
    ),
    (Op::Fit, "s 8 ff  s 8 ff"),
];

/// The condition, both branches, and the result.
const CHOICES: &str = "u 1 1  u 8 ff  s 4 8  s 9 ff
u 1 0  u 8 ff  s 4 8  s 9 1f8
u 1 1  u 1 1  u 128 ffffffffffffffffffffffffffffffff  u 128 1
u 1 0  u 128 ffffffffffffffffffffffffffffffff  s 128 ffffffffffffffffffffffffffffffff  s 129 ffffffffffffffffffffffffffffffff";

/// A number, a width in bits, and the number in so many bits.
const FITS: &str = "s 8 ff  16 ffff
u 8 ff  16 ff
s 8 80  4 0
s 1 1  128 ffffffffffffffffffffffffffffffff
s 128 80000000000000000000000000000000  128 80000000000000000000000000000000
u 128 ffffffffffffffffffffffffffffffff  127 7fffffffffffffffffffffffffffffff
s 257 5  128 5
u 256 6  3 6";

/// Numbers, and how many bits they have.
const WIDTHS: &str = "0 1
1 1
2 2
ff 8
100 9
7fffffffffffffff 63
8000000000000000 64
ffffffffffffffff 64";

/// The number that comes next in a line.
fn next_number(words: &mut SplitWhitespace<'_>) -> Option<Num> {
    Num::from_str_radix(words.next()?, 16).ok()
}

/// The form that comes next.
fn next_form(words: &mut SplitWhitespace<'_>) -> Option<Form> {
    let signed = words.next()? == "s";
    let width = words.next()?.parse().ok()?;
    Some(Form { signed, width })
}

/// The number with its form that comes next, of which nothing is known.
fn next_any(words: &mut SplitWhitespace<'_>) -> Option<Point> {
    let form = next_form(words)?;
    let number = next_number(words)?;
    Some(Point { form, number })
}

/// Whether an operand has such a form, and this number.
fn is_operand(point: Point) -> bool
    ensures { IsTrue result → IsPoint point }
{
    let width = point.form.width;
    1 <= width && (width == 128 || width < 128 && point.number < 1 << width)
}

/// The operand that comes next.
fn next_operand(words: &mut SplitWhitespace<'_>) -> Option<Point>
    ensures { IfSome result (λ p. IsPoint p) }
{
    let point = next_any(words)?;
    if is_operand(point) { Some(point) } else { None }
}

/// Whether two operands make this.
fn is_made_of_two(op: Op, a: Point, b: Point, made: Point) -> bool
    requires a { IsPoint a }
    requires b { IsPoint b }
{
    natural_two(op, a.form, b.form) == made.form && operate_two(op, a, b) == made.number
}

/// Whether one operand makes this.
fn is_made_of_one(op: Op, a: Point, made: Point) -> bool
    requires { IsPoint a }
{
    natural_one(op, a.form) == Some(made.form) && operate_one(op, a) == made.number
}

/// Whether the operator makes of the operands in a line what stands there.
fn is_as_written(op: Op, line: &str) -> Option<bool> {
    let mut words = line.split_whitespace();
    let a = next_operand(&mut words)?;
    let second = next_any(&mut words)?;
    Some(match next_any(&mut words) {
        Some(result) => is_operand(second) && is_made_of_two(op, a, second, result),
        None => is_made_of_one(op, a, second),
    })
}

/// The first line of which the operator makes something else.
fn other_line(op: Op, lines: &'static str) -> Option<&'static str> {
    for line in lines.lines() {
        if is_as_written(op, line) != Some(true) {
            return Some(line);
        }
    }
    None
}

/// The first case in which an operator makes something else.
fn other_case(table: &[Cases]) -> Option<Cases> {
    for (op, lines) in table {
        if let Some(line) = other_line(*op, lines) {
            return Some((*op, line));
        }
    }
    None
}

#[test]
fn two_operands(rt: HostRuntime) {
    assert_eq!(rt; other_case(&PAIRS), None);
}

#[test]
fn one_operand(rt: HostRuntime) {
    assert_eq!(rt; other_case(&SINGLES), None);
}

/// Whether the branch is chosen that a line says.
fn is_chosen(line: &str) -> Option<bool> {
    let mut words = line.split_whitespace();
    let c = next_operand(&mut words)?;
    let a = next_operand(&mut words)?;
    let b = next_operand(&mut words)?;
    let result = next_any(&mut words)?;
    let form = natural_choice(c.form, a.form, b.form);
    Some(form == Some(result.form) && choose(c, a, b) == result.number)
}

#[test]
fn choices(rt: HostRuntime) {
    for line in CHOICES.lines() {
        assert_eq!(rt; is_chosen(line), Some(true), "{line}");
    }
}

/// Whether a number fits as a line says.
fn is_fitted(line: &str) -> Option<bool> {
    let mut words = line.split_whitespace();
    let point = next_any(&mut words)?;
    let width = Width::of(words.next()?.parse().ok()?)?;
    let number = next_number(&mut words)?;
    Some(1 <= point.form.width && fit(point, width) == number)
}

#[test]
fn other_widths(rt: HostRuntime) {
    for line in FITS.lines() {
        assert_eq!(rt; is_fitted(line), Some(true), "{line}");
    }
}

/// Whether a number has as many bits as a line says.
fn has_width(line: &str) -> Option<bool> {
    let (number, width) = line.split_once(' ')?;
    let number = u64::from_str_radix(number, 16).ok()?;
    Some(number_width(number).get() == width.parse().ok()?)
}

#[test]
fn widths_of_numbers(rt: HostRuntime) {
    for line in WIDTHS.lines() {
        assert_eq!(rt; has_width(line), Some(true), "{line}");
    }
}

/// An operand of eight signed bits, all of them 1, and one of two unsigned bits.
const A: Point = Point {
    form: Form {
        signed: true,
        width: 8,
    },
    number: 255,
};

const B: Point = Point {
    form: Form {
        signed: false,
        width: 2,
    },
    number: 3,
};

#[test]
fn lists_of_operands(rt: HostRuntime) {
    let product = Form {
        signed: true,
        width: 11,
    };
    assert!(rt; natural(Op::Mul, &[A.form, B.form]) == Some(product));
    assert!(rt; natural(Op::Slice(8, 0), &[A.form]).is_none());
    assert!(rt; natural(Op::Choose, &[B.form, A.form, A.form]).is_none());
    let width = Width::of(16);
    assert!(rt; width.is_some_and(|w| operate(Op::Mul, &[A, B], w) == 65533));
}
