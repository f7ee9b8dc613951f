//! Programs, and the names of their stream instances, as a reader finds them in the text.

ghost use Rattle.std.specs.Prelude.{◌≤◌, length};

use itoa::Buffer;
use pr_parse::{parse, tokens};
use pr_probe::instances;
use pr_scope::{Scoped, check};
use pr_scope_names::Instance;
use std::alloc::{AllocError, Global};
use std::process::Abort;

/// Programs, each with the line of its instances. A blank line stands between two of them.
const LISTED: &str = "input x:8; output y = x;
x y

input a:8; input b:4; let s = a + b; rec t:8 = 0 by t@1 + s; output y = t; output z = s;
a b s t y z

input x:8; let s[3] = x; let s[1] = s[3]; output y = s[1];
x s[3] s[1] y

input x:8; let t[0] = x; for i in 1..4 { let t[i] = t[i-1] + x; } output y = t[3];
x t[0] t[1] t[2] t[3] y

input x:8; const n = 2; const c = [7, 5]; for i in 0..n { let p[c[i]] = x; rec q[i * 3 + 1]:8 = 0 by q[i * 3 + 1]@1 + p[c[i]]; } output y = q[4];
x p[7] q[1] p[5] q[4] y

input x:8; for i in 0..2 { for j in i..2 { let m[i * 2 + j] = x; } } output y = m[3];
x m[0] m[1] m[3] y

input x:8; for i in 3..3 { let none[i] = x; } output y = x;
x y

input x:8; fn f(a) { let inside = a + 1; return inside; } let outside = f(x); output y = outside;
x outside y

input x:8; output first = x; input z:1; let last = first + z;
x first z last";

/// The program of a text, where it is one and keeps the rules of scope.
fn program_of(alloc: Global, text: &[u8]) -> Option<Scoped>
    requires { length text.now ≤ 1048576 }
{
    let tokens = tokens(alloc, text).ok()?;
    let program = parse(alloc, text, &tokens).ok()?;
    check(alloc, program).ok()
}

/// The instances of the program of a text.
fn instances_of(alloc: Global, text: &str) -> Option<Vec<Instance>> {
    if text.len() > 8000 {
        return None;
    }
    let scoped = program_of(alloc, text.as_bytes())?;
    let _turns = scoped.turns;
    instances(alloc, &scoped.program).ok()
}

/// A name, and its index as it is written, after a blank where it is not the first.
fn push_name(line: &mut Vec<u8>, instance: &Instance) -> Result<(), AllocError> {
    if !line.is_empty() {
        line.push(b' ')?;
    }
    line.extend_from_slice(instance.name.as_bytes())?;
    if let Some(index) = instance.index {
        let mut buffer = Buffer::new();
        line.push(b'[')?;
        line.extend_from_slice(buffer.format(index).as_bytes())?;
        line.push(b']')?;
    }
    Ok(())
}

/// The line of the names of instances.
fn line_of(alloc: Global, instances: &[Instance]) -> Result<Vec<u8>, AllocError> {
    let mut line = Vec::new(alloc);
    for instance in instances {
        push_name(&mut line, instance)?;
    }
    Ok(line)
}

/// Whether the program of a case has the instances on its last line.
fn is_right(alloc: Global, case: &str) -> Result<bool, AllocError> {
    let (text, wanted) = case.split_once('\n').unwrap_or((case, ""));
    let Some(instances) = instances_of(alloc, text) else {
        return Ok(false);
    };
    let line = line_of(alloc, &instances)?;
    Ok(line.as_slice() == wanted.as_bytes())
}

/// Checks that the program of a case has its instances.
fn check_case(rt: &impl Abort, alloc: Global, case: &str) -> Result<(), AllocError> {
    let is_right = is_right(alloc, case)?;
    assert!(rt; is_right, "{case}");
    Ok(())
}

#[test]
fn listed(rt: HostRuntime) -> Result<(), AllocError> {
    let alloc = rt.alloc();
    for case in LISTED.split("\n\n") {
        check_case(&rt, alloc, case)?;
    }
    Ok(())
}
