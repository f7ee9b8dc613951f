//! The lines of a summary.

ghost use Rattle.std.specs.Prelude.{◌≡◌, ◌≤◌, ◌++◌, length, map, OnOk, decimal};
ghost use Rattle.pr_conf.specs.Configuration.{pes_of};
ghost use Rattle.pr_code_show.specs.Shown.{head_line, stage_line, stage_lines};

use crate::counts::{cells, states, writes};
use itoa::Buffer;
use pr_conf::Stage;
use std::alloc::AllocError;

/// Appends a word and a number.
fn put_count(text: &mut Vec<u8>, word: &str, count: usize) -> Result<(), AllocError>
    ensures { OnOk result (text.new.items ≡ text.old.items ++ word.now ++ decimal count) }
{
    text.extend_from_slice(word.as_bytes())?;
    let mut buffer = Buffer::new();
    text.extend_from_slice(buffer.format(count).as_bytes())
}

/// Appends the first line.
pub fn put_head(
    text: &mut Vec<u8>,
    stages: usize,
    inputs: usize,
    outputs: usize,
) -> Result<(), AllocError>
    ensures { OnOk result (text.new.items ≡ text.old.items ++ head_line stages inputs outputs) }
{
    put_count(text, "stages ", stages)?;
    put_count(text, " inputs ", inputs)?;
    put_count(text, " outputs ", outputs)?;
    text.push(b'\n')?;
    Ok(())
}

/// Appends the line of a stage of this number.
fn put_stage<const N: usize>(
    text: &mut Vec<u8>,
    number: usize,
    stage: &Stage<N>,
) -> Result<(), AllocError>
    ensures { OnOk result (text.new.items ≡ text.old.items ++ stage_line number (pes_of stage.now)) }
{
    put_count(text, "stage ", number)?;
    put_count(text, " cells ", cells(&stage.pes))?;
    put_count(text, " writes ", writes(&stage.pes))?;
    put_count(text, " states ", states(&stage.pes))?;
    text.push(b'\n')?;
    Ok(())
}

/// Appends the lines of stages, which are counted from 0.
pub fn put_stages<const N: usize>(text: &mut Vec<u8>, stages: &[Stage<N>]) -> Result<(), AllocError>
    ensures { OnOk result (text.new.items ≡ text.old.items ++ stage_lines 0 (map pes_of stages.now)) }
{
    for number in 0..stages.len() {
        put_stage(text, number, &stages[number])?;
    }
    Ok(())
}
