//! Programs, and how they are printed.

use crate::reading::{Answer, answer_to, printed};
use std::alloc::{AllocError, Global};
use std::test::Fail;

/// Texts, each with an arrow and the lines that are printed for it. A blank line stands between two cases.
const ACCEPTED: &str = "input a:8; // a comment\r\n -> input a : 8 ;

output y = a; output z:4 = a; -> output y = a ;
output z : 4 = a ;

const c = 0xFf; const d = [1]; -> const c = 255 ;
const d = [ 1 ] ;

const e = [1, c * 2, (3 - 1) % 4 / c]; -> const e = [ 1 , c * 2 , ( 3 - 1 ) % 4 / c ] ;

fn f() { return 1; } -> fn f ( ) { return 1 ; }

fn f(a) { return a; } -> fn f ( a ) { return a ; }

fn f(a:8, b, c) : 9 { let d = a; for i in 0..2 { } return d; } -> fn f ( a : 8 , b , c ) : 9 { let d = a ; for i in 0 .. 2 { } return d ; }

let x = 18446744073709551615; -> let x = 18446744073709551615 ;

let x = 007; -> let x = 7 ;

let x[c[1]]:4 = y; -> let x [ c [ 1 ] ] : 4 = y ;

rec s = 0 by s@1 + 1; rec t[2]:8 = c by t[2]@(1 + 1); -> rec s = 0 by s @ 1 + 1 ;
rec t [ 2 ] : 8 = c by t [ 2 ] @ ( 1 + 1 ) ;

for i in 0..4 { let a[i] = b[i - 1]; for j in i..i + 1 { } } -> for i in 0 .. 4 { let a [ i ] = b [ i - 1 ] ; for j in i .. i + 1 { } }

let x = a ? b : c ? d : e; -> let x = a ? b : c ? d : e ;

let x = a | b ^ c & d == e << f + g * ~h{7..0}{3..c}; -> let x = a | b ^ c & d == e << f + g * ~ h { 7 .. 0 } { 3 .. c } ;

let x = a - b - c + d >> 1 >> 2; -> let x = a - b - c + d >> 1 >> 2 ;

let x = a != b; let x = a < b; let x = a <= b; -> let x = a != b ;
let x = a < b ;
let x = a <= b ;

let x = a > b; let x = a >= b; -> let x = a > b ;
let x = a >= b ;

let x = cat(a, b, (c)); let y = cat(a); -> let x = cat ( a , b , ( c ) ) ;
let y = cat ( a ) ;

let x = f() + f(a) * f(a, b, 3) + s[1]@c[2]; -> let x = f ( ) + f ( a ) * f ( a , b , 3 ) + s [ 1 ] @ c [ 2 ] ;

let x = ~~~(a); -> let x = ~ ~ ~ ( a ) ;

input x:8; output y:10 = x + x@1 + x@2 + x@3; -> input x : 8 ;
output y : 10 = x + x @ 1 + x @ 2 + x @ 3 ;";

/// Whether a text is printed so.
fn is_printed(alloc: Global, text: &str, wanted: &str) -> Result<bool, AllocError> {
    if text.len() > 100 {
        return Ok(false);
    }
    Ok(printed(alloc, text.as_bytes())?.as_slice() == wanted.as_bytes())
}

/// Whether the text of a case is printed in its lines, and these are read back and printed as they are.
fn is_well(alloc: Global, case: &str) -> Result<bool, AllocError> {
    let Some((text, lines)) = case.split_once(" -> ") else {
        return Ok(false);
    };
    let mut wanted = String::from_str(alloc, lines)?;
    wanted.push('\n')?;
    Ok(is_printed(alloc, text, &wanted)? && is_printed(alloc, &wanted, &wanted)?)
}

/// The first case that is printed otherwise.
fn printed_otherwise(
    alloc: Global,
    cases: &'static str,
) -> Result<Option<&'static str>, AllocError> {
    for case in cases.split("\n\n") {
        if !is_well(alloc, case)? {
            return Ok(Some(case));
        }
    }
    Ok(None)
}

#[test]
fn texts_are_printed_in_one_form(rt: HostRuntime) -> Result<(), Fail> {
    assert_eq!(rt; printed_otherwise(rt.alloc(), ACCEPTED)?, None);
    Ok(())
}

#[test]
fn nothing_is_a_program(rt: HostRuntime) -> Result<(), Fail> {
    let alloc = rt.alloc();
    assert!(rt; answer_to(alloc, b"")? == Answer::Program);
    assert!(rt; printed(alloc, b"")?.is_empty());
    Ok(())
}
