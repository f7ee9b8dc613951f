//! Reads and writes that fail.

use crate::trials::{check, check_answer, run, run_on_two, shelf_of};
use pr_edge::MemSink;
use pr_tool_files::{BASE, XOR, packed, repeated, running_sum};
use pr_tool_modes::Answer;
use std::alloc::{AllocError, Global};
use std::process::Abort;

/// The running sums of twenty samples of 1 that begin with 250.
const SUMS: &[u8] = b"251\n252\n253\n254\n255\n0\n1\n2\n3\n4\n5\n6\n7\n8\n9\n10\n11\n12\n13\n14\n";

/// Checks an answer, and that the lines are the first bytes of the sums, or all where the answer is Ok.
fn check_sums(rt: &impl Abort, came: Answer, wanted: Answer, lines: &[u8], call: u64) {
    assert_eq!(rt; came, wanted, "call {call}");
    let count = if wanted == Answer::Ok {
        SUMS.len()
    } else {
        SUMS.len().min(lines.len())
    };
    assert_eq!(rt; lines, &SUMS[..count], "call {call}");
}

/// Runs the running sum on twenty samples, on two stripes and under a stall text, where these calls fail, and checks what
/// comes of it.
fn check_on_two(
    rt: &impl Abort,
    alloc: Global,
    reads: Vec<u64>,
    writes: Vec<u64>,
    wanted: Answer,
    call: u64,
) -> Result<(), AllocError> {
    let samples = repeated(alloc, b"1\n", 20)?;
    let mut shelf = shelf_of(alloc, running_sum(alloc)?, &samples, b"iobo..b", reads)?;
    let mut out = MemSink::make(alloc, 100, writes)?;
    let came = run_on_two(alloc, &mut shelf, &mut out);
    check_sums(rt, came, wanted, out.bytes(), call);
    Ok(())
}

/// What a call comes to where the read or write of this number fails, of so many.
fn fault_of(call: u64, calls: u64, fault: Answer) -> Answer {
    if call <= calls { fault } else { Answer::Ok }
}

/// Each of the three files takes two reads: one finds its bytes, the other its end.
#[test]
fn every_read_fails(rt: HostRuntime) -> Result<(), AllocError> {
    let alloc = rt.alloc();
    for call in 1..8u64 {
        let reads = Vec::from_slice(alloc, &[call])?;
        let wanted = fault_of(call, 6, Answer::ReadFault);
        check_on_two(&rt, alloc, reads, Vec::new(alloc), wanted, call)?;
    }
    Ok(())
}

/// Each of the twenty lines takes one write.
#[test]
fn every_write_fails(rt: HostRuntime) -> Result<(), AllocError> {
    let alloc = rt.alloc();
    for call in 1..22u64 {
        let writes = Vec::from_slice(alloc, &[call])?;
        let wanted = fault_of(call, 20, Answer::WriteFault);
        check_on_two(&rt, alloc, Vec::new(alloc), writes, wanted, call)?;
    }
    Ok(())
}

/// Runs the exclusive or on 700,000 bytes of samples on 16 stripes, where these reads fail, and checks what comes of it.
fn check_many(
    rt: &impl Abort,
    alloc: Global,
    reads: Vec<u64>,
    is_stalled: bool,
    out: &mut MemSink,
    wanted: Answer,
) -> Result<(), AllocError> {
    let samples = repeated(alloc, b"5 3\n", 175_000)?;
    let stall = repeated(alloc, b"o", if is_stalled { 1_000 } else { 0 })?;
    let mut shelf = shelf_of(alloc, packed(alloc, BASE, XOR)?, &samples, &stall, reads)?;
    let came = run(alloc, is_stalled, &mut shelf, out);
    check_answer(rt, came, wanted, "many samples");
    Ok(())
}

/// Of the samples two buffers are read before a read fails: the results of their lines are written.
#[test]
fn third_read_of_many_samples_fails(rt: HostRuntime) -> Result<(), AllocError> {
    let alloc = rt.alloc();
    let mut out = MemSink::make(alloc, 100_000, Vec::new(alloc))?;
    let reads = Vec::from_slice(alloc, &[5])?;
    check_many(&rt, alloc, reads, false, &mut out, Answer::ReadFault)?;
    let lines = repeated(alloc, b"6\n", 32_768)?;
    check(&rt, out.bytes(), &lines, "lines");
    Ok(())
}

/// Where the output side is held, the samples after the first buffer are not read, so that the write fails before a
/// read.
#[test]
fn back_pressure(rt: HostRuntime) -> Result<(), AllocError> {
    let alloc = rt.alloc();
    let mut out = MemSink::make(alloc, 100, Vec::from_slice(alloc, &[1])?)?;
    let reads = Vec::from_slice(alloc, &[6, 7, 8, 9, 10, 11, 12, 13, 14, 15])?;
    check_many(&rt, alloc, reads, true, &mut out, Answer::WriteFault)?;
    check(&rt, out.bytes(), b"", "lines");
    Ok(())
}
