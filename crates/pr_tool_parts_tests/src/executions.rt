//! What runs come to.

use crate::trials::{check_run, shelf_of};
use pr_edge::MemShelf;
use pr_tool_files::{
    BASE, Change, Kind, NEWER, OLDER, OTHER, WIDE, WIDER, XOR, made, packed, repeated,
};
use std::alloc::{AllocError, Global};
use std::process::Abort;

/// Two samples, and what the exclusive or makes of them on both fabrics.
const TWO: &[u8] = b"5 3\n255 1\n";

const RESULTS: &str = "6\n254\n= Ok, 16 columns\n";

const WIDE_RESULTS: &str = "6\n254\n= Ok, 32 columns\n";

/// The exclusive or on the wide fabric, in the older format.
const WIDE_AND_OLDER: Kind = Kind::Plain {
    sizes: WIDE,
    words: 128,
    table: XOR,
};

/// Checks what comes of a run of this configuration on the two samples.
fn check_kind(
    rt: &impl Abort,
    alloc: Global,
    kind: Kind,
    wanted: &str,
    case: &str,
) -> Result<(), AllocError> {
    let configuration = made(alloc, kind, Change::Nothing)?;
    let shelf = shelf_of(alloc, configuration, TWO, b"", Vec::new(alloc))?;
    check_run(rt, alloc, false, shelf, wanted, case)
}

#[test]
fn both_formats_on_both_fabrics(rt: HostRuntime) -> Result<(), AllocError> {
    let alloc = rt.alloc();
    let other = "254\n254\n= Ok, 16 columns\n";
    check_kind(&rt, alloc, NEWER, RESULTS, "newer")?;
    check_kind(&rt, alloc, OLDER, RESULTS, "older")?;
    check_kind(&rt, alloc, OTHER, other, "other")?;
    check_kind(&rt, alloc, WIDER, WIDE_RESULTS, "wider")?;
    check_kind(&rt, alloc, WIDE_AND_OLDER, WIDE_RESULTS, "wide and older")
}

/// Checks what comes of a run of the exclusive or on samples under a stall text.
fn check_texts(
    rt: &impl Abort,
    alloc: Global,
    samples: &str,
    stall: &[u8],
    wanted: &str,
) -> Result<(), AllocError> {
    let configuration = packed(alloc, BASE, XOR)?;
    let failing = Vec::new(alloc);
    let shelf = shelf_of(alloc, configuration, samples.as_bytes(), stall, failing)?;
    check_run(rt, alloc, true, shelf, wanted, samples)
}

#[test]
fn samples_and_stall_texts(rt: HostRuntime) -> Result<(), AllocError> {
    let alloc = rt.alloc();
    let two = "5 3\n255 1\n";
    let blanks = "5\t3\r\n\r\n 255 1";
    let bad_line = "5 3\n255 1\n7 x\n1 1\n2 2\n";
    let bad_third = "6\n254\n= BadSample { line: 3 }, 16 columns\n";
    let bad_first = "= BadSample { line: 1 }, 16 columns\n";
    check_texts(&rt, alloc, two, b"o\noib..", RESULTS)?;
    check_texts(
        &rt,
        alloc,
        two,
        b"..x",
        "= BadStall { place: 2 }, 0 columns\n",
    )?;
    check_texts(&rt, alloc, "", b"", "= Ok, 16 columns\n")?;
    check_texts(&rt, alloc, blanks, b"o", RESULTS)?;
    check_texts(&rt, alloc, bad_line, b"i", bad_third)?;
    check_texts(&rt, alloc, "256 1\n", b"", bad_first)
}

/// A line may be longer than what is read at once.
#[test]
fn long_line(rt: HostRuntime) -> Result<(), AllocError> {
    let alloc = rt.alloc();
    let mut samples = repeated(alloc, b"0", 200_000)?;
    samples.extend_from_slice(b"5 3\n")?;
    let configuration = packed(alloc, BASE, XOR)?;
    let shelf = shelf_of(alloc, configuration, &samples, b"", Vec::new(alloc))?;
    check_run(
        &rt,
        alloc,
        false,
        shelf,
        "6\n= Ok, 16 columns\n",
        "long line",
    )
}

#[test]
fn a_stall_text_that_is_too_long(rt: HostRuntime) -> Result<(), AllocError> {
    let alloc = rt.alloc();
    let stall = repeated(alloc, b".", 1_048_577)?;
    let wanted = "= Limit { which: StallBytes }, 0 columns\n";
    check_texts(&rt, alloc, "5 3\n255 1\n", &stall, wanted)
}

#[test]
fn a_fabric_that_there_is_not(rt: HostRuntime) -> Result<(), AllocError> {
    let alloc = rt.alloc();
    let configuration = packed(alloc, WIDE + 1, XOR)?;
    let shelf = shelf_of(alloc, configuration, TWO, b"x", Vec::new(alloc))?;
    let wanted = "= BadConfig { rule: 3, place: 1 }, 0 columns\n";
    check_run(&rt, alloc, true, shelf, wanted, "no fabric")
}

#[test]
fn no_files(rt: HostRuntime) -> Result<(), AllocError> {
    let alloc = rt.alloc();
    let shelf = MemShelf::make(alloc, Vec::new(alloc), Vec::new(alloc))?;
    check_run(
        &rt,
        alloc,
        true,
        shelf,
        "= ReadFault, 0 columns\n",
        "no files",
    )
}
