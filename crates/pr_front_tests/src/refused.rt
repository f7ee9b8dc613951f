//! Texts that are no programs, and which of their tokens is wrong.

use crate::reading::{Answer, answer_to};
use std::alloc::{AllocError, Global};
use std::test::Fail;

/// On each line the number of the wrong token and a text: wrong tokens.
const TOKENS: &str = "0 18446744073709551616
0 }
5 input a:8; }
3 let x = 08x;
3 let x = 0xg;
4 let x = a $ b;";

/// The same in items.
const ITEMS: &str = "3 input a:
2 input a 8;
1 input let:8;
4 input a:8 output y = a;
1 output 1 = a;
3 output y : = a;
2 const c 1;
3 const c = ;
4 const c = [];
5 const c = [1 2];
5 const c = [1;
2 fn f a { return a; }
4 fn f(a { return a; }
5 fn f(a,) { return a; }
5 fn f(a, 1) { return a; }
5 fn f(a:) { return a; }
5 fn f() : { return 1; }
4 fn f() return 1; }
10 fn f() { let b = a; }
7 fn f() { return 1 }
8 fn f() { return 1;
1 let 1 = a;
3 let x:y = a;
3 let x[] = a;
4 let x[1 = a;
2 let x a;
1 rec 1 = 0 by a;
2 rec s 0 by a;
3 rec s = by a;
4 rec s = 0 a;
5 rec s = 0 by;
1 for 1 in 0..4 { }
2 for i 0..4 { }
4 for i in 0 4 { }
5 for i in 0.. { }
6 for i in 0..4 let a = b;
7 for i in 0..4 {";

/// The same in expressions.
const EXPRESSIONS: &str = "6 let x = a ? b;
5 let x = a ? : c;
7 let x = a ? b : ;
5 let x = a | ;
5 let x = a ^ ;
5 let x = a & ;
5 let x = a == ;
5 let x = a != ;
5 let x = a < ;
5 let x = a <= ;
5 let x = a > ;
5 let x = a >= ;
6 let x = a == b == c;
6 output y = a < b < c;
5 let x = a << ;
5 let x = a >> ;
5 let x = a + ;
5 let x = a - ;
5 let x = a * ;
4 let x = a / b;
4 let x = ~;
6 let x = a{3};
5 let x = a{..3};
7 let x = a{3..};
8 let x = a{1..2;
4 let x = ();
5 let x = (a;
4 let x = cat a;
5 let x = cat();
6 let x = cat(a b);
6 let x = f(a;
7 let x = f(a,);
6 let x = s[1;
5 let x = a@;
5 let x = s@+;
5 let x[1 + ] = a;
5 const c = 1 - ;
5 const c = 1 * ;
5 const c = 1 / ;
5 const c = 1 % ;
4 const c = ();
5 const c = (1;
5 const c = d[;
3 const c = ~1;";

/// Whether the text on a line is refused at its token.
fn is_refused(alloc: Global, line: &str) -> Result<bool, AllocError> {
    let Some((token, text)) = line.split_once(' ') else {
        return Ok(false);
    };
    if text.len() > 100 {
        return Ok(false);
    }
    let answer = answer_to(alloc, text.as_bytes())?;
    Ok(
        token
            .parse()
            .is_ok_and(|token| answer == Answer::Syntax(token)),
    )
}

/// The first line whose text is not refused at its token.
fn other_line(alloc: Global, lines: &'static str) -> Result<Option<&'static str>, AllocError> {
    for line in lines.lines() {
        if !is_refused(alloc, line)? {
            return Ok(Some(line));
        }
    }
    Ok(None)
}

#[test]
fn wrong_tokens(rt: HostRuntime) -> Result<(), Fail> {
    for lines in [TOKENS, ITEMS, EXPRESSIONS] {
        assert_eq!(rt; other_line(rt.alloc(), lines)?, None);
    }
    Ok(())
}
