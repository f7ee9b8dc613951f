//! Runs that are moved by way of checkpoints.

use crate::calls::{OK, PLAIN, check_calls, check_text, text_of};
use crate::files::{Files, put, put_long, texts};
use pr_tool_files::{Change, changed, repeated, running_sum};
use std::alloc::{AllocError, Global};
use std::process::Abort;

/// Samples.
const TEXTS: &str = "#five 5\n#one 1\n#two 1\n1\n#bad 1\nx\n";

/// The checkpoint of the sum after the sample 5, or after so many: it is 255.
fn checkpoint(alloc: Global, count: u64) -> Result<Vec<u8>, AllocError> {
    let sum = Change::Word {
        place: 20,
        word: 0xaaff_ff00,
    };
    let file = changed(alloc, running_sum(alloc)?, sum)?;
    changed(alloc, file, Change::Marked(count))
}

/// Appends the checkpoint after so many samples, after a change.
fn put_checkpoint(
    alloc: Global,
    files: &mut Files,
    name: &str,
    count: u64,
    change: Change,
) -> Result<(), AllocError> {
    let file = changed(alloc, checkpoint(alloc, count)?, change)?;
    put(alloc, files, name, file)
}

/// Appends checkpoints: `m` is after one sample, `last` after as many as one run may have but one, and the others are no
/// checkpoints.
fn put_checkpoints(alloc: Global, files: &mut Files) -> Result<(), AllocError> {
    let first = Change::Word {
        place: 0,
        word: 0x5049_5032,
    };
    let third = Change::Word {
        place: 3,
        word: 0x5049_5031,
    };
    put_checkpoint(alloc, files, "m", 1, Change::Nothing)?;
    put_checkpoint(alloc, files, "last", 0xff_ffff_ffff, Change::Nothing)?;
    put_checkpoint(alloc, files, "many", 0x100_0000_0001, Change::Nothing)?;
    put_checkpoint(alloc, files, "first", 1, first)?;
    put_checkpoint(alloc, files, "third", 1, third)?;
    put_checkpoint(alloc, files, "cut", 1, Change::Shortened)
}

/// Appends samples, so many times 1, and checkpoints.
fn put_all(alloc: Global, files: &mut Files) -> Result<(), AllocError> {
    put_long(alloc, files, "400", "", "1\n", 400, "")?;
    put_long(alloc, files, "600", "", "1\n", 600, "")?;
    put_checkpoints(alloc, files)
}

/// Programs, samples and checkpoints.
fn files(alloc: Global) -> Result<Files, AllocError> {
    let mut files = texts(alloc, TEXTS)?;
    put_all(alloc, &mut files)?;
    Ok(files)
}

const CASES: &str = "\
$ move m two
0
1
= Ok 0
$ move m two --stripes 3
0
1
= Ok 0
$ checkpoint r bad
= BadSample { line: 2 } 7
bad sample: line 2
$ move first two
= BadConfig { rule: 9, place: 0 } 9
bad config: rule 9 word 0
$ move third two
= BadConfig { rule: 2, place: 3 } 9
bad config: rule 2 word 3
$ extend cut two
= BadConfig { rule: 1, place: 24 } 9
bad config: rule 1 word 24
$ extend many two
= BadConfig { rule: 10, place: 2 } 9
bad config: rule 10 word 2
$ move last two
0
= Limit { which: Samples } 6
limit: samples 1099511627776
";

#[test]
fn moved_runs(rt: HostRuntime) -> Result<(), AllocError> {
    let alloc = rt.alloc();
    check_calls(&rt, alloc, files(alloc)?, &PLAIN, CASES)
}

#[test]
fn a_written_checkpoint(rt: HostRuntime) -> Result<(), AllocError> {
    let alloc = rt.alloc();
    let line = "checkpoint r five --stripes 2";
    let wanted = checkpoint(alloc, 1)?;
    check_text(&rt, alloc, line, files(alloc)?, &PLAIN, OK, &wanted)
}

/// The files, and what the tool writes for the words of a line as `n`.
fn files_after(rt: &impl Abort, alloc: Global, line: &str) -> Result<Files, AllocError> {
    let written = text_of(rt, alloc, line, files(alloc)?, &PLAIN, OK)?;
    let mut files = files(alloc)?;
    put(alloc, &mut files, "n", written)?;
    Ok(files)
}

/// Checks what the tool writes for the words of the second line, where what it writes for those of the first is `n`.
fn check_moved(
    rt: &impl Abort,
    alloc: Global,
    first: &str,
    second: &str,
    wanted: &[u8],
) -> Result<(), AllocError> {
    let files = files_after(rt, alloc, first)?;
    check_text(rt, alloc, second, files, &PLAIN, OK, wanted)
}

#[test]
fn an_extended_checkpoint(rt: HostRuntime) -> Result<(), AllocError> {
    check_moved(&rt, rt.alloc(), "extend m one", "move n one", b"1\n")
}

#[test]
fn a_checkpoint_before_all_samples(rt: HostRuntime) -> Result<(), AllocError> {
    check_moved(
        &rt,
        rt.alloc(),
        "checkpoint r e",
        "move n q",
        b"255\n0\n1\n",
    )
}

/// The last 600 of a thousand samples go through a filter on other stripes than the first 400.
#[test]
fn moved_filter(rt: HostRuntime) -> Result<(), AllocError> {
    let alloc = rt.alloc();
    let wanted = repeated(alloc, b"184\n", 600)?;
    let first = "checkpoint filter 400 --stripes 4";
    check_moved(&rt, alloc, first, "move n 600 --stripes 30", &wanted)
}
