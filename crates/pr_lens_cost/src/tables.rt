//! Costs as texts.

ghost use Rattle.std.specs.Prelude.{◌≡◌, ◌≤◌, ◌^◌, ◌++◌, IfOk, OnOk, length};
ghost use Rattle.std.specs.List.{flat_map};
ghost use Rattle.pr_lens_cost.specs.Texts.{IsCostText, IsFullest, amounts_text, digit_text, fullest_text, line_text, part_text, rate_text, right_text, row_text, runs_text, savings_text, stage_text, stages_text, thousandths_text, way_text};

use crate::amounts::Cost;
use crate::counts::StageCost;
use crate::cycles::{Row, rows_of};
use crate::streams::put_streams;
use itoa::Buffer;
use pr_lens_text::{put, put_counted, put_many};
use std::alloc::{AllocError, Global};

/// Units and stages of the same program, compiled the other way.
#[derive(Clone, Copy)]
pub struct Savings {
    /// Whether that way is the one with narrowed equations.
    pub narrowed: bool,
    pub units: usize,
    pub stages: usize,
}

/// Adds a number that ends in a column of so many bytes.
#[tactic(auto, unfolding(crate::specs::Texts::right_text))]
pub fn put_right(text: &mut Vec<u8>, width: usize, number: u64) -> Result<(), AllocError>
    ensures { OnOk result (text.new.items ≡ text.old.items ++ right_text width number) }
{
    let mut buffer = Buffer::new();
    let digits = buffer.format(number);
    put_many(text, b' ', width.saturating_sub(digits.len()))?;
    put(text, digits)
}

/// Adds a line of words and a number.
fn put_line(text: &mut Vec<u8>, words: &str, number: usize) -> Result<(), AllocError>
    ensures { OnOk result (text.new.items ≡ text.old.items ++ line_text words.now number) }
{
    put_counted(text, words, number)?;
    put(text, "\n")
}

fn way(narrowed: bool) -> &'static str
    ensures { result.now ≡ way_text narrowed }
{
    if narrowed {
        "with --narrow: units "
    } else {
        "without --narrow: units "
    }
}

/// Adds units and stages of the program, compiled the other way.
fn put_savings(text: &mut Vec<u8>, savings: Option<Savings>) -> Result<(), AllocError>
    ensures { OnOk result (text.new.items ≡ text.old.items ++ savings_text savings) }
{
    let Some(other) = savings else {
        return Ok(());
    };
    put_counted(text, way(other.narrowed), other.units)?;
    put_line(text, " stages ", other.stages)
}

/// Adds the sums of a cost.
#[tactic(auto, unfolding(crate::specs::Texts::amounts_text))]
fn put_amounts(text: &mut Vec<u8>, cost: &Cost, savings: Option<Savings>) -> Result<(), AllocError>
    ensures { OnOk result (text.new.items ≡ text.old.items
        ++ amounts_text cost.now.equations cost.now.units (length cost.now.stages.items) savings) }
{
    put_line(text, "equations ", cost.equations)?;
    put_line(text, "units ", cost.units)?;
    put_line(text, "stages ", cost.stages.len())?;
    put_savings(text, savings)
}

/// The stage that has most in use, the first of several.
pub fn fullest(stages: &[StageCost]) -> (usize, usize)
    ensures { IsFullest stages.now result.0 result.1 }
{
    let mut number = 0;
    let mut most = 0;
    for (at, stage) in stages.iter().enumerate() {
        if stage.cells > most {
            number = at;
            most = stage.cells;
        }
    }
    (number, most)
}

/// Adds the stage of this number, with how many of its columns are in use.
fn put_fullest(
    text: &mut Vec<u8>,
    number: usize,
    cells: usize,
    columns: usize,
) -> Result<(), AllocError>
    ensures { OnOk result (text.new.items ≡ text.old.items ++ fullest_text number cells columns) }
{
    put_counted(text, "fullest stage ", number)?;
    put_counted(text, ", with ", cells)?;
    put_counted(text, " of ", columns)?;
    put(text, " columns in use\n")
}

/// Adds the line of the stage of this number.
#[tactic(auto, unfolding(crate::specs::Texts::stage_text))]
fn put_stage(text: &mut Vec<u8>, number: usize, stage: &StageCost) -> Result<(), AllocError>
    ensures { OnOk result (text.new.items ≡ text.old.items ++ stage_text number stage.now) }
{
    put_right(text, 8, number as u64)?;
    put_right(text, 9, stage.cells as u64)?;
    put_right(text, 11, stage.writes as u64)?;
    put_right(text, 8, stage.states as u64)?;
    put(text, "\n")
}

/// Adds the table of stages, which are counted from 0.
#[tactic(auto, unfolding(crate::specs::Texts::stage_lines))]
fn put_stages(text: &mut Vec<u8>, stages: &[StageCost]) -> Result<(), AllocError>
    ensures { OnOk result (text.new.items ≡ text.old.items ++ stages_text stages.now) }
{
    put(text, "\n   stage  columns  registers  states\n")?;
    for (number, stage) in stages.iter().enumerate() {
        put_stage(text, number, stage)?;
    }
    Ok(())
}

/// Adds the last digit of a number.
fn put_digit(text: &mut Vec<u8>, number: u128) -> Result<(), AllocError>
    ensures { OnOk result (text.new.items ≡ text.old.items ++ digit_text number) }
{
    text.push(b'0' + (number % 10) as u8)?;
    Ok(())
}

/// Adds so many thousandths, as `0.667`.
fn put_thousandths(text: &mut Vec<u8>, number: u128) -> Result<(), AllocError>
    ensures { OnOk result (text.new.items ≡ text.old.items ++ thousandths_text number) }
{
    put(text, "   0.")?;
    put_digit(text, number / 100)?;
    put_digit(text, number / 10)?;
    put_digit(text, number)
}

/// Adds the thousandths of a part of a whole, or 1.
#[tactic(auto, unfolding(crate::specs::Texts::part_text))]
fn put_part(text: &mut Vec<u8>, part: u64, whole: u64) -> Result<(), AllocError>
    ensures { OnOk result (text.new.items ≡ text.old.items ++ part_text part whole) }
{
    if whole <= part {
        return put(text, "   1.000");
    }
    put_thousandths(text, u128::from(part) * 1000 / u128::from(whole))
}

/// Adds how many samples go through in how many cycles.
fn put_rate(text: &mut Vec<u8>, samples: u64, cycles: u64) -> Result<(), AllocError>
    ensures { OnOk result (text.new.items ≡ text.old.items ++ rate_text samples cycles) }
{
    put_part(text, samples, cycles)?;
    put_right(text, 6, samples)?;
    put(text, " in ")?;
    put_right(text, 5, cycles)
}

/// Adds a line of the table of stripes.
#[tactic(auto, unfolding(crate::specs::Texts::row_text))]
fn put_row(text: &mut Vec<u8>, row: &Row) -> Result<(), AllocError>
    ensures { OnOk result (text.new.items ≡ text.old.items ++ row_text row.now) }
{
    put_right(text, 10, row.stripes)?;
    put_rate(text, row.rate.samples, row.rate.cycles)?;
    put_right(text, 18, row.cycles)?;
    put(text, "\n")
}

/// Adds the lines of the table of stripes.
fn put_rows(text: &mut Vec<u8>, rows: &[Row]) -> Result<(), AllocError>
    ensures { OnOk result (text.new.items ≡ text.old.items ++ flat_map row_text rows.now) }
{
    for row in rows {
        put_row(text, row)?;
    }
    Ok(())
}

/// Adds the table of stripes, for runs of so many samples.
fn put_runs(text: &mut Vec<u8>, samples: u64, rows: &[Row]) -> Result<(), AllocError>
    ensures { OnOk result (text.new.items ≡ text.old.items ++ runs_text samples rows.now) }
{
    put_line(text, "\nsamples of a run ", samples as usize)?;
    put(
        text,
        "   stripes   samples per cycle      cycles of a run\n",
    )?;
    put_rows(text, rows)
}

/// The text of a cost on so many columns, with what the other way saves, and for runs of so many samples.
pub fn put_cost(
    alloc: Global,
    cost: &Cost,
    savings: Option<Savings>,
    columns: usize,
    samples: u64,
) -> Result<Vec<u8>, AllocError>
    requires { samples ≤ 2 ^ 40 }
    ensures { IfOk result (λ text. IsCostText cost.now savings columns samples text.items) }
{
    let mut text = Vec::new(alloc);
    put_amounts(&mut text, cost, savings)?;
    let (number, cells) = fullest(&cost.stages);
    put_fullest(&mut text, number, cells, columns)?;
    put_streams(&mut text, &cost.shares)?;
    put_stages(&mut text, &cost.stages)?;
    let rows = rows_of(alloc, cost.stages.len() as u64, samples)?;
    put_runs(&mut text, samples, &rows)?;
    Ok(text)
}
