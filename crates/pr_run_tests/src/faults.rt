//! Reads and writes that fail.

use crate::trials::{FREE, Trial, check_run};
use std::alloc::{AllocError, Global};
use std::test::Fail;

/// The output side is held, the first write fails, and so does each read but the first.
const HELD: Trial<'static> = Trial {
    turns: &[b'o'; 1_000],
    reads: &[2, 3, 4, 5, 6, 7, 8, 9, 10, 11, 12],
    writes: &[1],
    ..FREE
};

/// So many times the same piece, and this at the end.
fn repeated(alloc: Global, piece: &str, count: usize, end: &str) -> Result<String, AllocError> {
    let mut text = String::new(alloc);
    for _ in 0..count {
        text.push_str(piece)?;
    }
    text.push_str(end)?;
    Ok(text)
}

#[test]
fn third_read_fails(rt: HostRuntime) -> Result<(), Fail> {
    let alloc = rt.alloc();
    let samples = repeated(alloc, "5 3\n", 175_000, "")?;
    let trial = Trial {
        samples: &samples,
        reads: &[3],
        ..FREE
    };
    let wanted = repeated(alloc, "6\n", 32_768, "ReadFault")?;
    check_run(&rt, alloc, trial, &wanted)?;
    Ok(())
}

#[test]
fn second_write_fails(rt: HostRuntime) -> Result<(), Fail> {
    let trial = Trial {
        samples: "5 3\n255 1\n",
        writes: &[2],
        ..FREE
    };
    check_run(&rt, rt.alloc(), trial, "6\nWriteFault")?;
    Ok(())
}

/// The samples after the first buffer are not read, so that the write fails before a read.
#[test]
fn back_pressure(rt: HostRuntime) -> Result<(), Fail> {
    let samples = repeated(rt.alloc(), "5 3\n", 175_000, "")?;
    let trial = Trial {
        samples: &samples,
        ..HELD
    };
    check_run(&rt, rt.alloc(), trial, "WriteFault")?;
    Ok(())
}
