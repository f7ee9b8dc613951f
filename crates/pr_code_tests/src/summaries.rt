//! Summaries of files.

use crate::files::{PACKED, SUM, file};
use pr_code::decode;
use pr_code_show::show;
use std::alloc::{AllocError, Global};
use std::process::Abort;

/// The summary of the configuration whose file has these words, on 16 columns of 8 registers; nothing where the file is
/// refused.
fn summary_of(alloc: Global, words: &[u32]) -> Result<Vec<u8>, AllocError> {
    let bytes = file(alloc, words)?;
    match decode::<16, 8>(alloc, &bytes) {
        Ok(conf) => show(alloc, &conf),
        Err(_) => Ok(Vec::new(alloc)),
    }
}

const OF_PACKED: &str = "\
stages 2 inputs 2 outputs 1
stage 0 cells 2 writes 2 states 0
stage 1 cells 1 writes 1 states 0
";

const OF_SUM: &str = "\
stages 2 inputs 1 outputs 1
stage 0 cells 1 writes 1 states 0
stage 1 cells 2 writes 1 states 1
";

/// Checks the summary of a file.
fn check_summary(
    rt: &impl Abort,
    alloc: Global,
    words: &[u32],
    wanted: &str,
) -> Result<(), AllocError> {
    let shown = summary_of(alloc, words)?;
    assert!(rt; shown.as_slice() == wanted.as_bytes(), "{wanted}");
    Ok(())
}

#[test]
fn what_stages_use(rt: HostRuntime) -> Result<(), AllocError> {
    check_summary(&rt, rt.alloc(), &PACKED, OF_PACKED)?;
    check_summary(&rt, rt.alloc(), &SUM, OF_SUM)
}
