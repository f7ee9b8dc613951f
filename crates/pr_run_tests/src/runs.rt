//! Runs on few and many stripes, with a log and without, and of samples that end in many ways.

use crate::configurations::{FOUR_NOTS, Program, SUM_COMPLEMENT, XOR};
use crate::trials::{FREE, Trial, check_run};
use std::alloc::{AllocError, Global};
use std::process::Abort;
use std::test::Fail;

/// Runs without a log: the stripes, the samples, and what is written, with the end behind it.
const FOUR_NOTS_RUNS: [&str; 2] = [
    "2 | 1\n2\n3\n | 1\n2\n3\nDone { cycles: 16, stalls: 0, results: 3 }",
    "16 | 1\n2\n3\n | 1\n2\n3\nDone { cycles: 8, stalls: 0, results: 3 }",
];

const SUM_COMPLEMENT_RUNS: [&str; 2] = [
    "2 | 5\n1\n1\n | 0\n255\n254\nDone { cycles: 10, stalls: 0, results: 3 }",
    "16 | 5\n1\n1\n | 0\n255\n254\nDone { cycles: 6, stalls: 0, results: 3 }",
];

const XOR_RUNS: [&str; 4] = [
    "16 |  | Done { cycles: 0, stalls: 0, results: 0 }",
    "16 | 5 3\n255 1 | 6\n254\nDone { cycles: 4, stalls: 0, results: 2 }",
    "16 | 5 3\n255 1\n7 x\n1 1\n2 2\n | 6\n254\nBadSample { line: 3 }",
    "16 | 256 1\n | BadSample { line: 1 }",
];

/// The log of four samples on three stripes, and the end.
const FOUR_NOTS_LOG: &str = "cycle 0 conf 0@0 save - in - out -
cycle 1 conf 1@1 save - in 0 out -
cycle 2 conf 2@2 save - in 1 out -
cycle 3 conf 3@0 save 0 00000000000000000000000000000000 in - out -
cycle 4 conf 4@1 save 1 00000000000000000000000000000000 in - out -
cycle 5 conf 0@2 save 2 00000000000000000000000000000000 in - out 0
1
cycle 6 conf 1@0 save 3 00000000000000000000000000000000 in 2 out 1
2
cycle 7 conf 2@1 save 4 00000000000000000000000000000000 in 3 out -
cycle 8 conf 3@2 save 0 00000000000000000000000000000000 in - out -
cycle 9 conf 4@0 save 1 00000000000000000000000000000000 in - out -
cycle 10 conf 0@1 save 2 00000000000000000000000000000000 in - out 2
3
cycle 11 conf 1@2 save 3 00000000000000000000000000000000 in - out 3
4
end cycles 12 stalls 0 records 4
Done { cycles: 12, stalls: 0, results: 4 }";

/// The log of three samples on two stripes, and the end.
const SUM_LOG: &str = "cycle 0 conf 0@0 save - in - out -
cycle 1 conf 1@1 save - in 0 out -
cycle 2 conf 2@0 save 0 00000000000000000000000000000000 in - out -
cycle 3 conf 0@1 save 1 00ff0000000000000000000000000000 in - out 0
0
cycle 4 conf 1@0 save 2 00000000000000000000000000000000 in 1 out -
cycle 5 conf 2@1 save 0 00000000000000000000000000000000 in - out -
cycle 6 conf 0@0 save 1 00000000000000000000000000000000 in - out 1
255
cycle 7 conf 1@1 save 2 00000000000000000000000000000000 in 2 out -
cycle 8 conf 2@0 save 0 00000000000000000000000000000000 in - out -
cycle 9 conf 0@1 save 1 00010000000000000000000000000000 in - out 2
254
end cycles 10 stalls 0 records 3
Done { cycles: 10, stalls: 0, results: 3 }";

/// The log of no samples, and the end.
const EMPTY_LOG: &str = "end cycles 0 stalls 0 records 0
Done { cycles: 0, stalls: 0, results: 0 }";

/// Runs a program as these cases say.
fn check_cases(
    rt: &impl Abort,
    alloc: Global,
    program: Program,
    cases: &[&str],
) -> Result<(), AllocError> {
    for case in cases {
        let (stripes, rest) = case.split_once(" | ").unwrap_or(("", ""));
        let (samples, wanted) = rest.split_once(" | ").unwrap_or(("", ""));
        let trial = Trial {
            program,
            stripes: stripes.parse().unwrap_or(0),
            samples,
            ..FREE
        };
        check_run(rt, alloc, trial, wanted)?;
    }
    Ok(())
}

#[test]
fn ends_and_lines(rt: HostRuntime) -> Result<(), Fail> {
    check_cases(&rt, rt.alloc(), FOUR_NOTS, &FOUR_NOTS_RUNS)?;
    check_cases(&rt, rt.alloc(), SUM_COMPLEMENT, &SUM_COMPLEMENT_RUNS)?;
    check_cases(&rt, rt.alloc(), XOR, &XOR_RUNS)?;
    Ok(())
}

/// Runs a program with a log.
fn check_log(
    rt: &impl Abort,
    alloc: Global,
    program: Program,
    stripes: usize,
    samples: &str,
    wanted: &str,
) -> Result<(), AllocError> {
    let trial = Trial {
        program,
        stripes,
        log: true,
        samples,
        ..FREE
    };
    check_run(rt, alloc, trial, wanted)
}

#[test]
fn logs(rt: HostRuntime) -> Result<(), Fail> {
    let alloc = rt.alloc();
    check_log(&rt, alloc, FOUR_NOTS, 3, "1\n2\n3\n4\n", FOUR_NOTS_LOG)?;
    check_log(&rt, alloc, SUM_COMPLEMENT, 2, "5\n1\n1\n", SUM_LOG)?;
    check_log(&rt, alloc, XOR, 16, "", EMPTY_LOG)?;
    Ok(())
}
