//! Many samples, in calls of which some may fail.

use crate::calls::{OK, PLAIN, READ_FAULT, Setting, WRITE_FAULT, check, check_text, text_over};
use crate::files::{Files, long_text, put_long, texts};
use pr_edge::MemShelf;
use pr_tool_files::repeated;
use std::alloc::{AllocError, Global};

/// The sums of the first fifteen weights of the filter. That of all is 184.
const SUMS: &str = "8\n17\n27\n38\n50\n63\n77\n92\n107\n121\n134\n146\n157\n167\n176\n";

/// Appends many samples, a line that is longer than what is read at once, and a stall text of 1,000 turns.
fn put_streams(alloc: Global, files: &mut Files) -> Result<(), AllocError> {
    put_long(alloc, files, "ones", "", "1\n", 1_000, "")?;
    put_long(alloc, files, "long", "", "0", 200_000, "5 3\n")?;
    put_long(alloc, files, "many", "", "5 3\n", 175_000, "")?;
    put_long(alloc, files, "o", "", "o", 1_000, "")
}

/// The texts of all calls, and these.
fn files(alloc: Global) -> Result<Files, AllocError> {
    let mut files = texts(alloc, "")?;
    put_streams(alloc, &mut files)?;
    Ok(files)
}

#[test]
fn many_samples(rt: HostRuntime) -> Result<(), AllocError> {
    let alloc = rt.alloc();
    let sums = long_text(alloc, SUMS, "184\n", 985, "")?;
    check_text(
        &rt,
        alloc,
        "eval filter ones",
        files(alloc)?,
        &PLAIN,
        OK,
        &sums,
    )?;
    check_text(&rt, alloc, "run p long", files(alloc)?, &PLAIN, OK, b"6\n")
}

/// Of 700,000 bytes of samples two buffers are read before a read fails. The program takes two reads before them.
#[test]
fn third_read_fails(rt: HostRuntime) -> Result<(), AllocError> {
    let alloc = rt.alloc();
    let setting = Setting { read: 5, ..PLAIN };
    let lines = repeated(alloc, b"6\n", 32_768)?;
    check_text(
        &rt,
        alloc,
        "run p many",
        files(alloc)?,
        &setting,
        READ_FAULT,
        &lines,
    )
}

/// The files, where every read from the sixth on fails.
fn five_reads(alloc: Global) -> Result<MemShelf, AllocError> {
    let mut failing = Vec::new(alloc);
    for read in 6..1_000u64 {
        failing.push(read)?;
    }
    MemShelf::make(alloc, files(alloc)?, failing)
}

/// The output side is held, so that no samples are read after the first buffer. The program and the stall text take two
/// reads each before that, and every later read fails.
#[test]
fn back_pressure(rt: HostRuntime) -> Result<(), AllocError> {
    let alloc = rt.alloc();
    let setting = Setting { write: 1, ..PLAIN };
    let mut shelf = five_reads(alloc)?;
    let line = "run p many --stall o";
    let text = text_over(&rt, alloc, line, &mut shelf, &setting, WRITE_FAULT)?;
    check(&rt, &text, b"", line, &setting);
    Ok(())
}
