//! Runs of files in memory, and what is checked of them.
ghost use Rattle.std.specs.Prelude.{◌≤◌};

use pr_edge::{MemShelf, MemSink};
use pr_tool_modes::{Answer, Bench, ConfSource, Job, Run, execute};
use std::alloc::{AllocError, Global};
use std::fmt::Write;
use std::process::Abort;

/// Appends a file.
fn put(
    alloc: Global,
    files: &mut Vec<(String, Vec<u8>)>,
    name: &str,
    bytes: Vec<u8>,
) -> Result<(), AllocError> {
    files.push((String::from_str(alloc, name)?, bytes))?;
    Ok(())
}

/// A shelf with the configuration `c`, the samples `s` and the stall text `t`, of which these reads fail.
pub(crate) fn shelf_of(
    alloc: Global,
    configuration: Vec<u8>,
    samples: &[u8],
    stall: &[u8],
    failing: Vec<u64>,
) -> Result<MemShelf, AllocError> {
    let mut files = Vec::new(alloc);
    put(alloc, &mut files, "c", configuration)?;
    put(alloc, &mut files, "s", Vec::from_slice(alloc, samples)?)?;
    put(alloc, &mut files, "t", Vec::from_slice(alloc, stall)?)?;
    MemShelf::make(alloc, files, failing)
}

/// The run of `c` on `s` on so many stripes, under this stall text.
fn job_of(stall: Option<&str>, stripes: usize) -> Job<'_>
    requires two { 2 ≤ stripes }
    requires most { stripes ≤ 256 }
{
    Job {
        source: ConfSource::File { name: "c" },
        run: Run {
            samples: "s",
            stall,
            stripes,
            log: false,
        },
    }
}

/// Runs `c` on `s` on 16 stripes, under the stall text `t` where it is to be read.
pub(crate) fn run_on_sixteen(
    alloc: Global,
    is_stalled: bool,
    shelf: &mut MemShelf,
    out: &mut MemSink,
    bench: &mut Bench,
) -> Answer {
    let stall = if is_stalled { Some("t") } else { None };
    execute(alloc, &job_of(stall, 16), shelf, out, bench)
}

/// The same with nothing on the bench.
pub(crate) fn run(
    alloc: Global,
    is_stalled: bool,
    shelf: &mut MemShelf,
    out: &mut MemSink,
) -> Answer {
    run_on_sixteen(alloc, is_stalled, shelf, out, &mut Bench::Nothing)
}

/// Runs `c` on `s` on two stripes, under the stall text `t`.
pub(crate) fn run_on_two(alloc: Global, shelf: &mut MemShelf, out: &mut MemSink) -> Answer {
    execute(
        alloc,
        &job_of(Some("t"), 2),
        shelf,
        out,
        &mut Bench::Nothing,
    )
}

/// The columns of the machine on a bench, 0 where there is none.
fn columns(bench: &Bench) -> usize {
    match bench {
        Bench::Nothing => 0,
        Bench::Base(_) => 16,
        Bench::Wide(_) => 32,
    }
}

/// Appends a line with the answer, and with the columns of the machine that is left.
fn put_ending(
    alloc: Global,
    came: &mut Vec<u8>,
    answer: Answer,
    columns: usize,
) -> Result<(), AllocError> {
    let mut line = String::new(alloc);
    writeln!(line, "= {answer:?}, {columns} columns")?;
    came.extend_from_slice(line.as_bytes())?;
    Ok(())
}

/// What comes of a run on 16 stripes: its lines, and one with the answer and the columns of the machine that is left.
fn came_on(
    alloc: Global,
    is_stalled: bool,
    shelf: &mut MemShelf,
    bench: &mut Bench,
) -> Result<Vec<u8>, AllocError> {
    let mut out = MemSink::make(alloc, 100, Vec::new(alloc))?;
    let answer = run_on_sixteen(alloc, is_stalled, shelf, &mut out, bench);
    let mut came = Vec::from_slice(alloc, out.bytes())?;
    put_ending(alloc, &mut came, answer, columns(bench))?;
    Ok(came)
}

/// The same with nothing on the bench.
fn came_of(alloc: Global, is_stalled: bool, shelf: &mut MemShelf) -> Result<Vec<u8>, AllocError> {
    came_on(alloc, is_stalled, shelf, &mut Bench::Nothing)
}

/// Checks what came of the case of this name.
pub(crate) fn check(rt: &impl Abort, came: &[u8], wanted: &[u8], case: &str) {
    assert_eq!(rt; came, wanted, "{case}");
}

/// Checks the answer to the case of this name.
pub(crate) fn check_answer(rt: &impl Abort, came: Answer, wanted: Answer, case: &str) {
    assert_eq!(rt; came, wanted, "{case}");
}

/// Runs `c` on `s` on 16 stripes, and checks what comes of it.
pub(crate) fn check_run(
    rt: &impl Abort,
    alloc: Global,
    is_stalled: bool,
    mut shelf: MemShelf,
    wanted: &str,
    case: &str,
) -> Result<(), AllocError> {
    let came = came_of(alloc, is_stalled, &mut shelf)?;
    check(rt, &came, wanted.as_bytes(), case);
    Ok(())
}
