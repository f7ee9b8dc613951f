//! Reads and writes that fail, and statuses.

use crate::calls::{OK, PLAIN, READ_FAULT, Setting, WRITE_FAULT, check_calls, check_lines};
use crate::files::{files, texts};
use std::alloc::{AllocError, Global};
use std::process::Abort;

/// Where the first write fails.
const FIRST: &str = "\
$ run p s
= WriteFault 11
write fault
$ eval p s
= WriteFault 11
write fault
$ exec c s
= WriteFault 11
write fault
";

/// Where the second one does.
const SECOND: &str = "\
$ run p s
6
= WriteFault 11
write fault
$ exec c s
6
= WriteFault 11
write fault
";

/// Makes these calls, where a write fails.
fn check_write(rt: &impl Abort, alloc: Global, write: u64, cases: &str) -> Result<(), AllocError> {
    let setting = Setting { write, ..PLAIN };
    check_calls(rt, alloc, files(alloc)?, &setting, cases)
}

#[test]
fn writes_that_fail(rt: HostRuntime) -> Result<(), AllocError> {
    check_write(&rt, rt.alloc(), 1, FIRST)?;
    check_write(&rt, rt.alloc(), 2, SECOND)
}

/// A stall text.
const STALL: &str = "#l iobo..b";

/// The lines of the program on its samples.
const LINES: &str = "6\n254\n";

/// A run on two stripes under a stall text.
const ON_TWO: &str = "run p s --stripes 2 --stall l";

/// Calls the tool on the words, where each of so many reads fails in turn, and then those behind them, which are not
/// asked for.
fn check_reads(rt: &impl Abort, alloc: Global, line: &str, count: u64) -> Result<(), AllocError> {
    for read in 1..8u64 {
        let setting = Setting { read, ..PLAIN };
        let ending = if read <= count { READ_FAULT } else { OK };
        let files = texts(alloc, STALL)?;
        check_lines(rt, alloc, line, files, &setting, ending, LINES)?;
    }
    Ok(())
}

/// Each file is read once, in two reads: one finds its bytes, the other its end.
#[test]
fn every_read_fails(rt: HostRuntime) -> Result<(), AllocError> {
    let alloc = rt.alloc();
    check_reads(&rt, alloc, ON_TWO, 6)?;
    check_reads(&rt, alloc, "run p s", 4)?;
    check_reads(&rt, alloc, "eval p s", 4)
}

/// Each of the two lines takes one write.
#[test]
fn every_write_fails(rt: HostRuntime) -> Result<(), AllocError> {
    let alloc = rt.alloc();
    for write in 1..4u64 {
        let setting = Setting { write, ..PLAIN };
        let ending = if write <= 2 { WRITE_FAULT } else { OK };
        let files = texts(alloc, STALL)?;
        check_lines(&rt, alloc, ON_TWO, files, &setting, ending, LINES)?;
    }
    Ok(())
}

/// Calls of which no note can be written.
const UNNOTED: &str = "\
$ run p b
6
254
= BadSample { line: 3 } 7
$ run g s
= NoWidth { equation: 2 } 4
$ eval g s
= NoWidth { equation: 2 } 4
$ exec c b
6
254
= BadSample { line: 3 } 7
$ exec c s --stall t
= BadStall { place: 2 } 8
$ show s
= BadConfig { rule: 2, place: 0 } 9
$ show n
= ReadFault 10
$ run t s --fabric wide
= Syntax { token: 0 } 3
$ fly
= Usage 2
";

#[test]
fn notes_that_fail(rt: HostRuntime) -> Result<(), AllocError> {
    let alloc = rt.alloc();
    let setting = Setting { note: 0, ..PLAIN };
    check_calls(&rt, alloc, files(alloc)?, &setting, UNNOTED)
}
