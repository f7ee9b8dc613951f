//! A run in which the output side is held.

use crate::trials::{FREE, Trial, check_run};
use std::alloc::{AllocError, Global};
use std::fmt::Write;
use std::ops::Range;
use std::test::Fail;

/// How the run ends.
const END: &str = "Done { cycles: 32, stalls: 22, results: 30 }";

/// The lines of the cycles in which the results of these numbers leave, each with the line of its result where
/// `is_free`.
fn put_cycles(text: &mut String, results: Range<u8>, is_free: bool) -> Result<(), AllocError> {
    for k in results {
        writeln!(
            text,
            "cycle {} conf - save - in {} out {k}",
            u16::from(k) + 2,
            u16::from(k) + 1
        )?;
        if is_free {
            writeln!(text, "{}", k ^ 200)?;
        }
    }
    Ok(())
}

/// The lines of the results of these numbers.
fn put_results(text: &mut String, results: Range<u8>) -> Result<(), AllocError> {
    for k in results {
        writeln!(text, "{}", k ^ 200)?;
    }
    Ok(())
}

/// The text of a run of 30 samples in which the output side is held for 40 turns. Results 0 to 15 leave and fill their
/// queue, and the cycle in which the next one would leave waits for the last 22 of these turns.
fn held_text(alloc: Global) -> Result<String, AllocError> {
    let mut text = String::from_str(
        alloc,
        "cycle 0 conf 0@0 save - in - out -\ncycle 1 conf 1@1 save - in 0 out -\n",
    )?;
    put_cycles(&mut text, 0..16, false)?;
    for _ in 0..22 {
        text.push_str("stall 18\n")?;
    }
    put_results(&mut text, 0..16)?;
    put_cycles(&mut text, 16..29, true)?;
    text.push_str("cycle 31 conf - save - in - out 29\n")?;
    put_results(&mut text, 29..30)?;
    text.push_str("end cycles 32 stalls 22 records 30\n")?;
    text.push_str(END)?;
    Ok(text)
}

/// The lines of 30 samples.
fn samples(alloc: Global) -> Result<String, AllocError> {
    let mut samples = String::new(alloc);
    for k in 0..30u8 {
        writeln!(samples, "{k} 200")?;
    }
    Ok(samples)
}

/// The text of the same run without a log.
fn plain_text(alloc: Global) -> Result<String, AllocError> {
    let mut text = String::new(alloc);
    put_results(&mut text, 0..30)?;
    text.push_str(END)?;
    Ok(text)
}

#[test]
fn held_output(rt: HostRuntime) -> Result<(), Fail> {
    let samples = samples(rt.alloc())?;
    let trial = Trial {
        turns: &[b'o'; 40],
        samples: &samples,
        ..FREE
    };
    check_run(&rt, rt.alloc(), trial, &plain_text(rt.alloc())?)?;
    let logged = Trial { log: true, ..trial };
    check_run(&rt, rt.alloc(), logged, &held_text(rt.alloc())?)?;
    Ok(())
}
