//! Files and sinks in memory.

use crate::told::{put_file, put_text, put_whole, put_writes};
use pr_edge::{MemShelf, MemSink, SureShelf, SureSink};
use std::alloc::{AllocError, Global};
use std::test::Fail;

/// A shelf whose third call fails, with two files of the same name.
fn failing_shelf(alloc: Global) -> Result<MemShelf, AllocError> {
    let mut files = Vec::new(alloc);
    put_file(alloc, &mut files, "a", b"one")?;
    put_file(alloc, &mut files, "a", b"two!")?;
    MemShelf::make(alloc, files, vec![in alloc; 3u64]?)
}

fn put_reads(alloc: Global, told: &mut String) -> Result<(), AllocError> {
    let mut shelf = failing_shelf(alloc)?;
    put_whole(alloc, &mut shelf, "a", 3, told)?;
    put_whole(alloc, &mut shelf, "a", 3, told)?;
    put_whole(alloc, &mut shelf, "a", 2, told)?;
    put_whole(alloc, &mut shelf, "b", 2, told)
}

#[test]
fn reads_files(rt: HostRuntime) -> Result<(), Fail> {
    let mut told = String::new(rt.alloc());
    put_reads(rt.alloc(), &mut told)?;
    assert_eq!(rt; told.as_str(), "one\nReadFault\nTooLong\nReadFault\n");
    Ok(())
}

/// Writes to a sink with room for six bytes whose second call fails.
fn put_failing_writes(alloc: Global, told: &mut String) -> Result<(), AllocError> {
    let mut sink = MemSink::make(alloc, 6, vec![in alloc; 2u64]?)?;
    put_writes(&mut sink, &["one", "two", "six", "!"], told)?;
    put_text(sink.bytes(), told)
}

#[test]
fn writes_and_fails_in_turn(rt: HostRuntime) -> Result<(), Fail> {
    let mut told = String::new(rt.alloc());
    put_failing_writes(rt.alloc(), &mut told)?;
    let wanted = "one written\ntwo failed\nsix written\n! failed\nonesix";
    assert_eq!(rt; told.as_str(), wanted);
    Ok(())
}

fn put_sure_reads(alloc: Global, told: &mut String) -> Result<(), AllocError> {
    let mut files = Vec::new(alloc);
    put_file(alloc, &mut files, "a", b"one")?;
    let mut shelf = SureShelf::make(files);
    put_whole(alloc, &mut shelf, "a", 9, told)?;
    put_whole(alloc, &mut shelf, "b", 9, told)
}

/// Writes to a sink that has room for four bytes and drops the others.
fn put_sure_writes(alloc: Global, told: &mut String) -> Result<(), AllocError> {
    let mut sink = SureSink::make(alloc, 4)?;
    put_writes(&mut sink, &["one", "two"], told)?;
    put_text(sink.bytes(), told)
}

#[test]
fn never_fails(rt: HostRuntime) -> Result<(), Fail> {
    let mut told = String::new(rt.alloc());
    put_sure_reads(rt.alloc(), &mut told)?;
    put_sure_writes(rt.alloc(), &mut told)?;
    assert_eq!(rt; told.as_str(), "one\n\none written\ntwo written\nonet");
    Ok(())
}
