//! Programs on both fabrics.

ghost use Rattle.std.specs.Prelude.{◌≤◌, length};

use pr_base::Cap;
use pr_compile::{CompileFault, compile, compile_front, compile_narrow};
use pr_compile_front::{FrontFault, read_program};
use std::alloc::{AllocError, Global};
use std::test::Fail;

/// What a text comes to.
#[derive(Clone, Copy, PartialEq, Eq, Debug)]
enum Ending {
    /// A configuration of so many stages.
    Stages(usize),
    Syntax(u32),
    Scope(u8, u32),
    NoWidth(u32),
    NoFit(u32),
    Limit(Cap),
}

/// What a text comes to on a fabric, narrowed or not.
fn end_on<const N: usize, const P: usize>(
    alloc: Global,
    text: &[u8],
    narrowed: bool,
) -> Result<Ending, AllocError>
    requires short { length text.now ≤ 1048576 }
    requires columns { 1 ≤ N }
    requires most_columns { N ≤ 64 }
    requires registers { 2 ≤ P }
    requires most_registers { P ≤ 16 }
{
    let compiled = if narrowed {
        compile_narrow::<N, P>(alloc, text)
    } else {
        compile::<N, P>(alloc, text)
    };
    match compiled {
        Ok(conf) => Ok(Ending::Stages(conf.stages.len())),
        Err(CompileFault::Syntax { token }) => Ok(Ending::Syntax(token)),
        Err(CompileFault::Scope { rule, item }) => Ok(Ending::Scope(rule, item)),
        Err(CompileFault::NoWidth { equation }) => Ok(Ending::NoWidth(equation)),
        Err(CompileFault::NoFit { unit }) => Ok(Ending::NoFit(unit)),
        Err(CompileFault::Limit(cap)) => Ok(Ending::Limit(cap)),
        Err(CompileFault::Memory(error)) => Err(error),
    }
}

/// A fabric.
#[derive(Clone, Copy, PartialEq, Eq, Debug)]
enum Fabric {
    /// 16 columns and 8 registers.
    Base,
    /// 32 columns and 16 registers.
    Wide,
}

/// A program, a fabric, and what the program comes to on it.
type Case = (&'static str, Fabric, Ending);

/// Programs that come to the same narrowed.
const CASES: [Case; 25] = [
    (
        "input a:8; input b:8; output y = a ^ b;",
        Fabric::Base,
        Ending::Stages(2),
    ),
    (
        "input a:8; output y = ~~~~a;",
        Fabric::Base,
        Ending::Stages(5),
    ),
    (
        "input x:8; rec s:8 = 250 by s@1 + x; output y = ~s;",
        Fabric::Base,
        Ending::Stages(3),
    ),
    (
        "input x:8; output y = x@2;",
        Fabric::Base,
        Ending::Stages(3),
    ),
    (
        "input x:8; rec f:16 = 1 by f@1 + f@2; output y = f;",
        Fabric::Base,
        Ending::Stages(1),
    ),
    (
        "input x:64; rec s:64 = 0 by s@1 ^ x; output y = s;",
        Fabric::Base,
        Ending::Stages(2),
    ),
    (
        "input x:8; const c = [8, 9, 10, 11, 12, 13, 14, 15, 15, 14, 13, 12, 11, 10, 9, 8]; fn tap(a, k) { return a * k; } let s[0]:24 = tap(x, c[0]); for i in 1..16 { let s[i]:24 = s[i-1] + tap(x@i, c[i]); } output y = s[15];",
        Fabric::Base,
        Ending::Stages(21),
    ),
    (
        "input x:16; const c = [48]; let t[0] = x; for i in 1..2 { let t[i]:16 = (t[i-1] + c[i-1]) ^ t[i-1]@1; } output y = t[1];",
        Fabric::Base,
        Ending::Stages(3),
    ),
    (
        "input x:16; const c = [48, 85]; let t[0] = x; for i in 1..3 { let t[i]:16 = (t[i-1] + c[i-1]) ^ t[i-1]@1; } output y = t[2];",
        Fabric::Base,
        Ending::Stages(5),
    ),
    (
        "input x:64; rec s:64 = 0 by (s@1 ^ x) & s@1; output y = s;",
        Fabric::Base,
        Ending::NoFit(3),
    ),
    (
        "input x:64; rec s:64 = 0 by (s@1 ^ x) & s@1; output y = s;",
        Fabric::Wide,
        Ending::Stages(2),
    ),
    (
        "input x:8; rec s = 0 by s@1 + x; output y = s;",
        Fabric::Base,
        Ending::NoWidth(2),
    ),
    (
        "for i in 0..1000 { for j in 0..1000 { } }",
        Fabric::Base,
        Ending::Limit(Cap::Turns),
    ),
    (
        "input a:8; let t[1] = a; let t[1] = a; output y = a;",
        Fabric::Base,
        Ending::Scope(1, 2),
    ),
    (
        "input a:8; let signed = a; output y = a;",
        Fabric::Base,
        Ending::Scope(1, 1),
    ),
    ("", Fabric::Base, Ending::Scope(10, 0)),
    ("input a:8 output y = a;", Fabric::Base, Ending::Syntax(4)),
    ("output y = a < b < c;", Fabric::Base, Ending::Syntax(6)),
    (
        "input a:128; input b:128; output y:128 = a + b;",
        Fabric::Base,
        Ending::Limit(Cap::InputBytes),
    ),
    (
        "input a:128; input b:128; output y = a + b;",
        Fabric::Wide,
        Ending::NoWidth(2),
    ),
    (
        "input a:8; input b:8; input c:8; input d:8; input e:8; input f:8; input g:8; input h:8; input i:8; input j:8; input k:8; input l:8; input m:8; input n:8; input o:8; input p:8; output y = 5;",
        Fabric::Base,
        Ending::Stages(1),
    ),
    (
        "input a:8; input b:8; input c:8; input d:8; input e:8; input f:8; input g:8; input h:8; input i:8; input j:8; input k:8; input l:8; input m:8; input n:8; input o:8; input p:8; input q:8; output y = 5;",
        Fabric::Base,
        Ending::Limit(Cap::InputBytes),
    ),
    // A broken scope rule comes before too many bytes of input, and those before a group that fits nowhere.
    (
        "input a:128; input b:128; output y:128 = c;",
        Fabric::Base,
        Ending::Scope(2, 2),
    ),
    (
        "input x:64; input y:64; input z:8; rec s:64 = 0 by (s@1 ^ x) & s@1; output t = s;",
        Fabric::Base,
        Ending::Limit(Cap::InputBytes),
    ),
    (
        "input x:64; input y:64; input z:8; rec s:64 = 0 by (s@1 ^ x) & s@1; rec t = 0 by t@1 + z; output u = s;",
        Fabric::Base,
        Ending::NoWidth(7),
    ),
];

/// Of which eight bits are asked for.
const LOW_BYTE: &str = "input x:64; rec s:64 = 0 by (s@1 ^ x) & s@1; output y:8 = s;";

/// Of which everything is known.
const KNOWN: &str = "input a:8; output y = 3 * 5;";

/// What these come to as they are.
const WHOLE: [Case; 2] = [
    (LOW_BYTE, Fabric::Base, Ending::NoFit(3)),
    (KNOWN, Fabric::Base, Ending::Stages(3)),
];

/// What they come to narrowed.
const NARROWED: [Case; 2] = [
    (LOW_BYTE, Fabric::Base, Ending::Stages(2)),
    (KNOWN, Fabric::Base, Ending::Stages(1)),
];

/// The first case that comes to another ending, narrowed or not.
fn found_otherwise(
    alloc: Global,
    cases: &[Case],
    narrowed: bool,
) -> Result<Option<&'static str>, AllocError> {
    for (text, fabric, expected) in cases {
        let bytes = text.as_bytes();
        if bytes.len() > 2000 {
            return Ok(Some(*text));
        }
        let found = match fabric {
            Fabric::Base => end_on::<16, 8>(alloc, bytes, narrowed)?,
            Fabric::Wide => end_on::<32, 16>(alloc, bytes, narrowed)?,
        };
        if found != *expected {
            return Ok(Some(*text));
        }
    }
    Ok(None)
}

/// How many units a text has on the base fabric, narrowed or not; none where it is refused.
fn units_of(alloc: Global, text: &[u8], narrowed: bool) -> Result<Option<usize>, AllocError>
    requires short { length text.now ≤ 1048576 }
{
    let front = match read_program(alloc, text) {
        Ok(front) => front,
        Err(FrontFault::Memory(error)) => return Err(error),
        Err(_) => return Ok(None),
    };
    match compile_front::<16, 8>(alloc, &front, narrowed) {
        Ok(compiled) => Ok(Some(compiled.units)),
        Err(CompileFault::Memory(error)) => Err(error),
        Err(_) => Ok(None),
    }
}

#[test]
fn programs_and_refusals(rt: HostRuntime) -> Result<(), Fail> {
    assert_eq!(rt; found_otherwise(rt.alloc(), &CASES, false)?, None);
    assert_eq!(rt; found_otherwise(rt.alloc(), &WHOLE, false)?, None);
    Ok(())
}

#[test]
fn narrowed_programs_and_refusals(rt: HostRuntime) -> Result<(), Fail> {
    assert_eq!(rt; found_otherwise(rt.alloc(), &CASES, true)?, None);
    assert_eq!(rt; found_otherwise(rt.alloc(), &NARROWED, true)?, None);
    Ok(())
}

#[test]
fn units_as_they_are_and_narrowed(rt: HostRuntime) -> Result<(), Fail> {
    let text = b"input a:8; output y = 3 * 5 + a;";
    assert_eq!(rt; units_of(rt.alloc(), text, false)?, Some(5));
    assert_eq!(rt; units_of(rt.alloc(), text, true)?, Some(2));
    Ok(())
}
