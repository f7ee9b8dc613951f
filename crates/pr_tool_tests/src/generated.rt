//! Runs of generated programs.

use crate::calls::{PLAIN, check_calls};
use std::alloc::AllocError;

/// What is told of the runs.
const RUNS: &str = "\
$ gen 1
k 1 units 4 stages 3 samples 1000 cycles 1003 first 12393 last 25513
= Ok 0
$ gen 2
k 2 units 7 stages 5 samples 1000 cycles 1005 first 12478 last 50497
= Ok 0
$ gen 2 --stripes 2
k 2 units 7 stages 5 samples 1000 cycles 5001 first 12478 last 50497
= Ok 0
$ gen 1 --fabric wide
k 1 units 4 stages 3 samples 1000 cycles 1003 first 12393 last 25513
= Ok 0
";

#[test]
fn generated_programs(rt: HostRuntime) -> Result<(), AllocError> {
    let alloc = rt.alloc();
    check_calls(&rt, alloc, Vec::new(alloc), &PLAIN, RUNS)
}
