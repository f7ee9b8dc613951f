//! Machines that stay on the bench from one call to the next.

use crate::calls::{PLAIN, call_on, check, shelf_of};
use crate::files::files;
use pr_edge::MemShelf;
use pr_tool::Bench;
use std::alloc::{AllocError, Global};
use std::fmt::Write;
use std::process::Abort;

/// Appends what a bench holds: no machine, or one of a fabric and at a time.
fn put_bench(bench: &Bench, text: &mut String) -> Result<(), AllocError> {
    match bench {
        Bench::Nothing => writeln!(text, "nothing"),
        Bench::Base(machine) => writeln!(text, "base {}", machine.time()),
        Bench::Wide(machine) => writeln!(text, "wide {}", machine.time()),
    }
}

/// Calls that follow one another, how each ends, and what the bench holds after it. Two samples take four cycles. A bad
/// first line takes none.
const CALLS: &str = "\
$ show c
= Ok 0
nothing
$ run n s
= ReadFault 10
read fault
nothing
$ run p s
= Ok 0
base 4
$ eval p f
= BadSample { line: 1 } 7
bad sample: line 1
base 4
$ run p s --stall t
= BadStall { place: 2 } 8
bad stall: byte 2
base 4
$ exec wide f
= BadSample { line: 1 } 7
bad sample: line 1
wide 0
$ exec cut s
= BadConfig { rule: 1, place: 22 } 9
bad config: rule 1 word 22
wide 0
$ exec wide s
= Ok 0
wide 4
$ compile p
= Ok 0
wide 4
$ fly p s
= Usage 2
usage: piperench MODE FIRST [SECOND] [--stripes P] [--stall FILE] [--fabric F] [--narrow]
wide 4
$ run p s --narrow
= Ok 0
base 4
$ gen 1 --fabric wide
= Ok 0
wide 1003
$ checkpoint p s
= Ok 0
wide 1003
$ extend m s
= Ok 0
wide 1003
$ move c s
= BadConfig { rule: 9, place: 0 } 9
bad config: rule 9 word 0
wide 1003
$ move m e
= Ok 0
base 0
$ exec c s --fabric wide
= Ok 0
base 4
";

/// How a call ends, and what the bench holds then.
fn ending_on(
    alloc: Global,
    line: &str,
    shelf: &mut MemShelf,
    bench: &mut Bench,
) -> Result<Vec<u8>, AllocError> {
    let mut ending = call_on(alloc, line, shelf, bench, &PLAIN, &mut Vec::new(alloc))?;
    let mut held = String::new(alloc);
    put_bench(bench, &mut held)?;
    ending.extend_from_slice(held.as_bytes())?;
    Ok(ending)
}

/// Makes the calls on one bench, and checks how each ends, and what the bench holds then.
fn check_benches(rt: &impl Abort, alloc: Global, bench: &mut Bench) -> Result<(), AllocError> {
    let mut shelf = shelf_of(alloc, files(alloc)?, &PLAIN)?;
    for case in CALLS.split("$ ") {
        let (line, wanted) = case.split_once('\n').unwrap_or((case, ""));
        if !line.is_empty() {
            let came = ending_on(alloc, line, &mut shelf, bench)?;
            check(rt, &came, wanted.as_bytes(), line, &PLAIN);
        }
    }
    Ok(())
}

#[test]
fn benches(rt: HostRuntime) -> Result<(), AllocError> {
    check_benches(&rt, rt.alloc(), &mut Bench::Nothing)
}
