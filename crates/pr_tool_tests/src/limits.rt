//! Quantities at their limits, and one above them.

use crate::calls::{PLAIN, check_calls};
use crate::files::{Files, put, put_long, texts};
use std::alloc::{AllocError, Global};
use std::fmt::Write;

/// Programs with so many complements of their input, of which they show the first, and samples.
const TEXTS: &str = "\
    #most-complements input x:8; for i in 0..16383 { let t[i]:8 = ~x; } output y = t[0];\
    #more-complements input x:8; for i in 0..16384 { let t[i]:8 = ~x; } output y = t[0];\
    #pair 5 3\n\
    #seventeen 9 1 2 3 4 5 6 7 8 9 10 11 12 13 14 15 16\n\
    #seven 7\n";

/// A program with so many inputs of a byte, of which it shows the first.
fn of_inputs(alloc: Global, inputs: usize) -> Result<Vec<u8>, AllocError> {
    let mut text = String::new(alloc);
    for i in 0..inputs {
        write!(text, "input a{i}:8;")?;
    }
    text.push_str("output y = a0;")?;
    Vec::from_slice(alloc, text.as_bytes())
}

/// The exclusive or in forty bytes.
const XOR: &str = "input a:8;\ninput b:8;\noutput y = a ^ b;\n";

/// Appends a program with so many inputs.
fn put_inputs(
    alloc: Global,
    files: &mut Files,
    name: &str,
    inputs: usize,
) -> Result<(), AllocError> {
    put(alloc, files, name, of_inputs(alloc, inputs)?)
}

/// Appends programs with so many bytes, by blanks behind the exclusive or, and so many inputs.
fn put_programs(alloc: Global, files: &mut Files) -> Result<(), AllocError> {
    put_long(alloc, files, "most-bytes", XOR, " ", 1_048_536, "")?;
    put_long(alloc, files, "more-bytes", XOR, " ", 1_048_537, "")?;
    put_inputs(alloc, files, "17-inputs", 17)?;
    put_inputs(alloc, files, "64-inputs", 64)
}

/// Programs with so many bytes, inputs and complements, and samples.
fn files(alloc: Global) -> Result<Files, AllocError> {
    let mut files = texts(alloc, TEXTS)?;
    put_programs(alloc, &mut files)?;
    Ok(files)
}

const CASES: &str = "\
$ run most-bytes pair --stripes 256
6
= Ok 0
$ run more-bytes pair --stripes 256
= Limit { which: ProgramBytes } 6
limit: program-bytes 1048576
$ run 17-inputs seventeen --fabric wide
9
= Ok 0
$ run 64-inputs e --fabric wide
= Limit { which: InputBytes } 6
limit: input-bytes 32
$ eval most-complements seven
248
= Ok 0
$ eval more-complements seven
= Limit { which: Equations } 6
limit: equations 16384
";

#[test]
fn limits(rt: HostRuntime) -> Result<(), AllocError> {
    let alloc = rt.alloc();
    check_calls(&rt, alloc, files(alloc)?, &PLAIN, CASES)
}
