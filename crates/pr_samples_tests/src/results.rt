//! Lines of results.

use crate::told::put_text;
use pr_edge::{MemSink, WriteFault};
use pr_samples::put_result;
use std::alloc::{AllocError, Global};
use std::test::Fail;

fn put_ending(ending: Result<(), WriteFault>, told: &mut String) -> Result<(), AllocError> {
    told.push_str(match ending {
        Ok(()) => "written: ",
        Err(_) => "failed: ",
    })
}

/// A line of three outputs.
fn put_three(alloc: Global, told: &mut String) -> Result<(), AllocError> {
    let mut sink = MemSink::make(alloc, 100, Vec::new(alloc))?;
    let mut bytes = [255; 19];
    bytes[0] = 0;
    bytes[2] = 0;
    put_ending(put_result(&mut sink, &[16, 1, 128], &bytes), told)?;
    put_text(sink.bytes(), told)
}

/// A line of seventy outputs, longer than what is written in one call, of which the second fails.
fn put_seventy(alloc: Global, told: &mut String) -> Result<(), AllocError> {
    let mut sink = MemSink::make(alloc, 10_000, vec![in alloc; 2u64]?)?;
    put_ending(put_result(&mut sink, &[128; 70], &[255; 1120]), told)?;
    let front = b"340282366920938463463374607431768211455 ";
    if sink.bytes().starts_with(front) && sink.bytes().len() >= 2_560 {
        told.push_str("the first outputs are written")?;
    }
    Ok(())
}

const LINES: &str = "\
written: 65280 0 340282366920938463463374607431768211455
failed: the first outputs are written";

#[test]
fn lines_of_three_and_seventy_outputs(rt: HostRuntime) -> Result<(), Fail> {
    let mut told = String::new(rt.alloc());
    put_three(rt.alloc(), &mut told)?;
    put_seventy(rt.alloc(), &mut told)?;
    assert_eq!(rt; told.as_str(), LINES);
    Ok(())
}
