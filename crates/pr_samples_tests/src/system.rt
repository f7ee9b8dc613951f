//! Files and streams of the system that are interrupted, slow and full.

use crate::interrupted::{SlowFiles, SlowStream};
use crate::told::{put_part, put_whole, put_writes};
use pr_edge::Shelf;
use pr_system::{FileShelf, Gathered, Gathering, OutSink};
use std::alloc::{AllocError, Global};
use std::cell::RefCell;
use std::rt::Files;
use std::test::Fail;
use std::{fs, io};

/// Reads from files, each with the place of four bytes or none where it is read whole, and appends what was read.
fn put_reads<S: Shelf>(
    alloc: Global,
    shelf: &mut S,
    reads: &[(&str, Option<u64>)],
    told: &mut String,
) -> Result<(), AllocError> {
    for (name, place) in reads {
        match place {
            Some(place) => put_part(shelf, name, *place, told)?,
            None => put_whole(alloc, shelf, name, 10, told)?,
        }
    }
    Ok(())
}

/// The same over a shelf of these files.
fn put_files<R: Files>(
    alloc: Global,
    files: &R,
    reads: &[(&str, Option<u64>)],
    told: &mut String,
) -> io::Result<()> {
    let results = RefCell::new(Gathering::new(alloc, Vec::new(alloc))?);
    let mut shelf = FileShelf::make(alloc, files, &results)?;
    put_reads(alloc, &mut shelf, reads, told)?;
    Ok(())
}

/// A read that is interrupted fifteen times gives one byte, and one that is interrupted once more fails.
fn put_interrupted(rt: &HostRuntime, told: &mut String) -> io::Result<()> {
    fs::write(rt, "slow", b"bytes")?;
    for interrupts in [15, 16] {
        let files = SlowFiles { rt, interrupts };
        put_files(rt.alloc(), &files, &[("slow", Some(0))], told)?;
    }
    fs::remove_file(rt, "slow")
}

#[test]
fn interrupted_reads(rt: HostRuntime) -> Result<(), Fail> {
    let mut told = String::new(rt.alloc());
    put_interrupted(&rt, &mut told)?;
    assert_eq!(rt; told.as_str(), "b\nfailed\n");
    Ok(())
}

/// Two files in turn, and one that there is not.
const READS: [(&str, Option<u64>); 5] = [
    ("there", None),
    ("there", Some(1)),
    ("too", Some(0)),
    ("there", Some(5)),
    ("nowhere", None),
];

fn put_real(rt: &HostRuntime, told: &mut String) -> io::Result<()> {
    fs::write(rt, "there", b"some bytes")?;
    fs::write(rt, "too", b"others")?;
    put_files(rt.alloc(), rt, &READS, told)?;
    fs::remove_file(rt, "there")?;
    fs::remove_file(rt, "too")
}

#[test]
fn shelf_of_real_files(rt: HostRuntime) -> Result<(), Fail> {
    let mut told = String::new(rt.alloc());
    put_real(&rt, &mut told)?;
    let wanted = "some bytes\nome \nothe\nbyte\nReadFault\n";
    assert_eq!(rt; told.as_str(), wanted);
    Ok(())
}

/// Writes to a stream that is interrupted at first, and then has room for five bytes.
fn put_slow_writes(alloc: Global, told: &mut String) -> Result<(), AllocError> {
    let mut sink = OutSink::new(SlowStream {
        interrupts: 15,
        taken: Vec::new(alloc),
        room: 5,
    });
    put_writes(&mut sink, &["bytes", "!"], told)
}

/// Writes results that are gathered.
fn put_gathered(alloc: Global, told: &mut String) -> io::Result<()> {
    let results = RefCell::new(Gathering::new(alloc, Vec::new(alloc))?);
    let mut sink = OutSink::new(Gathered { results: &results });
    put_writes(&mut sink, &["some ", "bytes"], told)?;
    Ok(())
}

#[test]
fn interrupted_and_gathered_writes(rt: HostRuntime) -> Result<(), Fail> {
    let mut told = String::new(rt.alloc());
    put_slow_writes(rt.alloc(), &mut told)?;
    put_gathered(rt.alloc(), &mut told)?;
    let wanted = "bytes written\n! failed\nsome  written\nbytes written\n";
    assert_eq!(rt; told.as_str(), wanted);
    Ok(())
}
