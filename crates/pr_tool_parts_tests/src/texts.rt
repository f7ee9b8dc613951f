//! Configuration files, good and damaged ones.

use crate::trials::{check, check_answer};
use pr_edge::{MemShelf, MemSink};
use pr_tool_files::{BASE, Change, Kind, NEWER, OLDER, WIDE, XOR, made, packed, plain};
use pr_tool_modes::{Answer, ConfSource, Form, write_text};
use std::alloc::{AllocError, Global};
use std::process::Abort;

const SUMMARY: &[u8] = b"stages 2 inputs 2 outputs 1
stage 0 cells 2 writes 2 states 0
stage 1 cells 1 writes 1 states 0
";

/// What comes of a file, where these reads fail.
fn answer(
    alloc: Global,
    bytes: Vec<u8>,
    failing: Vec<u64>,
    form: Form,
    out: &mut MemSink,
) -> Result<Answer, AllocError> {
    let mut files = Vec::new(alloc);
    files.push((String::from_str(alloc, "c")?, bytes))?;
    let mut shelf = MemShelf::make(alloc, files, failing)?;
    Ok(write_text(
        alloc,
        &ConfSource::File { name: "c" },
        form,
        &mut shelf,
        out,
    ))
}

/// Checks what comes of a file, and what is written.
fn check_text(
    rt: &impl Abort,
    alloc: Global,
    bytes: Vec<u8>,
    form: Form,
    wanted: Answer,
    text: &[u8],
) -> Result<(), AllocError> {
    let mut out = MemSink::make(alloc, 200, Vec::new(alloc))?;
    let came = answer(alloc, bytes, Vec::new(alloc), form, &mut out)?;
    check_answer(rt, came, wanted, "file");
    check(rt, out.bytes(), text, "text");
    Ok(())
}

/// Checks what is written of the files of both formats, of which the older one has so many words for each stage.
fn check_formats(
    rt: &impl Abort,
    alloc: Global,
    sizes: u32,
    words: usize,
    form: Form,
    text: &[u8],
) -> Result<(), AllocError> {
    check_text(
        rt,
        alloc,
        packed(alloc, sizes, XOR)?,
        form,
        Answer::Ok,
        text,
    )?;
    check_text(
        rt,
        alloc,
        plain(alloc, sizes, words, XOR)?,
        form,
        Answer::Ok,
        text,
    )
}

#[test]
fn files_of_both_formats_and_fabrics(rt: HostRuntime) -> Result<(), AllocError> {
    let alloc = rt.alloc();
    check_formats(&rt, alloc, BASE, 64, Form::File, &packed(alloc, BASE, XOR)?)?;
    check_formats(
        &rt,
        alloc,
        WIDE,
        128,
        Form::File,
        &packed(alloc, WIDE, XOR)?,
    )
}

#[test]
fn summaries_of_both_formats_and_fabrics(rt: HostRuntime) -> Result<(), AllocError> {
    let alloc = rt.alloc();
    check_formats(&rt, alloc, BASE, 64, Form::Summary, SUMMARY)?;
    check_formats(&rt, alloc, WIDE, 128, Form::Summary, SUMMARY)
}

/// A configuration of columns and registers that no fabric has.
const NO_FABRIC: Kind = Kind::Packed {
    sizes: 0x0020_0008,
    table: XOR,
};

/// Checks that a file breaks a rule at a place after a change, and that nothing is written.
fn check_damaged(
    rt: &impl Abort,
    alloc: Global,
    kind: Kind,
    change: Change,
    rule: u8,
    place: u32,
) -> Result<(), AllocError> {
    let bytes = made(alloc, kind, change)?;
    let wanted = Answer::BadConfig { rule, place };
    check_text(rt, alloc, bytes, Form::File, wanted, b"")
}

#[test]
fn damaged_files(rt: HostRuntime) -> Result<(), AllocError> {
    let alloc = rt.alloc();
    let third = Change::Word { place: 9, word: 7 };
    let far = Change::Word {
        place: 9,
        word: 0x0001_0003,
    };
    check_damaged(&rt, alloc, OLDER, Change::Shortened, 1, 136)?;
    check_damaged(&rt, alloc, OLDER, Change::Lengthened, 7, 137)?;
    check_damaged(&rt, alloc, NEWER, Change::Shortened, 1, 22)?;
    check_damaged(&rt, alloc, NEWER, Change::Lengthened, 7, 23)?;
    check_damaged(&rt, alloc, NEWER, third, 6, 19)?;
    check_damaged(&rt, alloc, NEWER, far, 8, 9)?;
    check_damaged(&rt, alloc, NO_FABRIC, Change::Nothing, 3, 1)?;
    check_damaged(&rt, alloc, Kind::Empty, Change::Nothing, 1, 0)
}

/// Where the second read fails, and then where the first write does.
#[test]
fn faults(rt: HostRuntime) -> Result<(), AllocError> {
    let alloc = rt.alloc();
    let mut out = MemSink::make(alloc, 200, Vec::from_slice(alloc, &[1])?)?;
    let reads = Vec::from_slice(alloc, &[2])?;
    let came = answer(
        alloc,
        packed(alloc, BASE, XOR)?,
        reads,
        Form::File,
        &mut out,
    )?;
    check_answer(&rt, came, Answer::ReadFault, "read");
    let came = answer(
        alloc,
        packed(alloc, BASE, XOR)?,
        Vec::new(alloc),
        Form::File,
        &mut out,
    )?;
    check_answer(&rt, came, Answer::WriteFault, "write");
    check(&rt, out.bytes(), b"", "text");
    Ok(())
}

#[test]
fn no_file(rt: HostRuntime) -> Result<(), AllocError> {
    let alloc = rt.alloc();
    let mut out = MemSink::make(alloc, 200, Vec::new(alloc))?;
    let mut shelf = MemShelf::make(alloc, Vec::new(alloc), Vec::new(alloc))?;
    let source = ConfSource::File { name: "c" };
    let came = write_text(alloc, &source, Form::Summary, &mut shelf, &mut out);
    check_answer(&rt, came, Answer::ReadFault, "no file");
    Ok(())
}
