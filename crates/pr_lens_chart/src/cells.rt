//! The cells: what a stripe does in a cycle.

ghost use Rattle.std.specs.Prelude.{◌≡◌, ◌++◌, ◌&&◌, OnOk, is_some};
ghost use Rattle.pr_lens_log.specs.Boards.{stage_in};
ghost use Rattle.pr_lens_log.specs.Lines.{is_into};
ghost use Rattle.pr_lens_chart.specs.Pictures.{cell_text, class_text, column_text, column_words, columns_text, corner_text, entry_words, save_cell, stage_cell, stall_text, stripe_area, stripe_cell, stripe_cells};

use crate::colours::put_fill;
use crate::frames::{HIGH, TOP, WIDE, below, column_at};
use crate::pieces::{Area, put_area, put_digits};
use pr_lens_log::{Board, Logged, Totals};
use pr_lens_text::{put, put_counted};
use std::alloc::AllocError;

/// Adds a black corner.
#[tactic(auto, unfolding(crate::specs::Pictures::corner_text))]
fn put_corner(text: &mut Vec<u8>, x: usize, y: usize) -> Result<(), AllocError>
    ensures { OnOk result (text.new.items ≡ text.old.items ++ corner_text x y) }
{
    put_counted(text, "<path d=\"M", x)?;
    put_counted(text, " ", y)?;
    put(text, "h9l-9 9z\" fill=\"#000\"/>\n")
}

/// The class of the number in a cell: bold where its stage comes in.
fn class(comes: bool) -> &'static str
    ensures { result.now ≡ class_text comes }
{
    if comes { "b" } else { "n" }
}

/// Adds what a stripe does in a cycle, where its stage computes or comes in.
#[tactic(auto, unfolding(crate::specs::Pictures::cell_text))]
fn put_cell(
    text: &mut Vec<u8>,
    area: Area,
    stage: u32,
    stages: usize,
    comes: bool,
) -> Result<(), AllocError>
    ensures { OnOk result (text.new.items ≡ text.old.items ++ cell_text area stage stages comes) }
{
    put_area(text, area)?;
    put_fill(text, stage as usize, stages, !comes)?;
    let x = area.x.saturating_add(area.width / 2);
    put_digits(
        text,
        class(comes),
        x,
        area.y.saturating_add(17),
        stage as usize,
    )
}

/// Adds what a stripe does in a cycle, where a stage stands in it.
fn put_stage(
    text: &mut Vec<u8>,
    stage: Option<u32>,
    area: Area,
    stages: usize,
    comes: bool,
) -> Result<(), AllocError>
    ensures { OnOk result (text.new.items ≡ text.old.items ++ stage_cell stage area stages comes) }
{
    match stage {
        None => Ok(()),
        Some(stage) => put_cell(text, area, stage, stages, comes),
    }
}

/// Adds a corner where a state is saved.
fn put_save(text: &mut Vec<u8>, saves: bool, area: Area) -> Result<(), AllocError>
    ensures { OnOk result (text.new.items ≡ text.old.items ++ save_cell saves area) }
{
    if saves {
        put_corner(text, area.x, area.y)
    } else {
        Ok(())
    }
}

/// Where the cell of a stripe stands.
fn stripe_area(x: usize, stripe: usize) -> Area
    ensures { result ≡ stripe_area x stripe }
{
    Area {
        x,
        y: below(stripe).saturating_add(1),
        width: WIDE - 2,
        height: HIGH - 2,
    }
}

/// Whether a state is saved from a stripe.
fn saves(logged: &Logged, stripe: usize) -> bool
    ensures { result ≡ (is_into logged.now.turn.configured stripe && is_some logged.now.turn.saved) }
{
    logged.comes_into(stripe) && logged.turn.saved.is_some()
}

/// Adds the cell of a stripe.
#[tactic(auto, unfolding(crate::specs::Pictures::stripe_cell))]
fn put_stripe(
    text: &mut Vec<u8>,
    board: &Board,
    logged: &Logged,
    stages: usize,
    x: usize,
    stripe: usize,
) -> Result<(), AllocError>
    ensures { OnOk result (text.new.items ≡ text.old.items
        ++ stripe_cell board.now.stages.items logged.now.turn stages x stripe) }
{
    let area = stripe_area(x, stripe);
    put_stage(
        text,
        board.stage(stripe),
        area,
        stages,
        logged.comes_into(stripe),
    )?;
    put_save(text, saves(logged, stripe), area)
}

/// Adds what all stripes do in a cycle.
#[tactic(auto, using(crate::proofs::PictureLaws::cells_more), unfolding(crate::specs::Pictures::stripe_cells))]
fn put_stripes(
    text: &mut Vec<u8>,
    board: &Board,
    logged: &Logged,
    totals: &Totals,
    x: usize,
) -> Result<(), AllocError>
    ensures { OnOk result (text.new.items ≡ text.old.items
        ++ stripe_cells totals.now.stripes board.now.stages.items logged.now.turn totals.now.stages x) }
{
    for stripe in 0..totals.stripes {
        put_stripe(text, board, logged, totals.stages, x, stripe)?;
    }
    Ok(())
}

/// Adds the number of a sample or a result, where there is one.
fn put_entry(text: &mut Vec<u8>, entry: Option<u64>, x: usize, y: usize) -> Result<(), AllocError>
    ensures { OnOk result (text.new.items ≡ text.old.items ++ entry_words entry x y) }
{
    match entry {
        None => Ok(()),
        Some(number) => put_digits(text, "n", x, y, number as usize),
    }
}

/// Adds the numbers above and below the stripes.
#[tactic(auto, unfolding(crate::specs::Pictures::column_words))]
fn put_numbers(
    text: &mut Vec<u8>,
    logged: &Logged,
    stripes: usize,
    x: usize,
) -> Result<(), AllocError>
    ensures { OnOk result (text.new.items ≡ text.old.items ++ column_words logged.now stripes x) }
{
    let middle = x.saturating_add(WIDE / 2);
    let y = below(stripes);
    put_digits(text, "n", middle, TOP - 12, logged.time as usize)?;
    put_entry(text, logged.turn.entered, middle, y.saturating_add(17))?;
    put_entry(text, logged.turn.left, middle, y.saturating_add(37))
}

/// Adds a grey column.
#[tactic(auto, unfolding(crate::specs::Pictures::stall_text))]
fn put_stall(text: &mut Vec<u8>, x: usize, stripes: usize) -> Result<(), AllocError>
    ensures { OnOk result (text.new.items ≡ text.old.items ++ stall_text x stripes) }
{
    let area = Area {
        x,
        y: TOP,
        width: WIDE - 2,
        height: stripes.saturating_mul(HIGH),
    };
    put_area(text, area)?;
    put(text, " fill=\"#bbb\"/>\n")
}

/// Adds the column of a cycle, after which these stages stand in the stripes.
#[tactic(auto, unfolding(crate::specs::Pictures::column_text))]
fn put_column(
    text: &mut Vec<u8>,
    board: &Board,
    logged: &Logged,
    totals: &Totals,
    x: usize,
) -> Result<(), AllocError>
    ensures { OnOk result (text.new.items ≡ text.old.items
        ++ column_text totals.now.stages totals.now.stripes x board.now.stages.items logged.now) }
{
    if !logged.turn.advanced {
        return put_stall(text, x, totals.stripes);
    }
    put_stripes(text, board, logged, totals, x)?;
    put_numbers(text, logged, totals.stripes, x)
}

/// Adds these cycles of a log, before which these stages stand in the stripes.
#[tactic(auto, unfolding(crate::specs::Pictures::columns_text))]
pub fn put_cycles(
    text: &mut Vec<u8>,
    totals: &Totals,
    board: &mut Board,
    cycles: &[Logged],
) -> Result<(), AllocError>
    ensures { OnOk result (text.new.items ≡ text.old.items
        ++ columns_text totals.now.stages totals.now.stripes 0 board.old.stages.items cycles.now) }
{
    for (number, logged) in cycles.iter().enumerate() {
        board.step(&logged.turn);
        put_column(text, board, logged, totals, column_at(number))?;
    }
    Ok(())
}
