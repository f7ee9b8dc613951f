//! What stands around the cells.

ghost use Rattle.std.specs.Prelude.{◌≡◌, ◌++◌, OnOk, codes};
ghost use Rattle.pr_lens_chart.specs.Pictures.{below, column_at, left_ends, left_height, left_words, legend_height, legend_text, legend_words, lower, picture_head, row_names, stage_key, stage_keys, stripe_name, stripe_names, style_text, svg_text};

use crate::colours::put_fill;
use crate::pieces::{Area, begin_words, put_area, put_digits, put_words};
use pr_lens_log::Totals;
use pr_lens_text::{put, put_counted};
use std::alloc::AllocError;

/// Where the cells begin, from the left.
const LEFT: usize = 80;

/// Where they begin, from the top.
pub const TOP: usize = 44;

/// How wide a column is.
pub const WIDE: usize = 30;

/// How high the row of a stripe is.
pub const HIGH: usize = 26;

/// The stages of a row of the legend.
const ROW: usize = 16;

/// How high a row of the legend is.
const ROW_HIGH: usize = 24;

/// Where the rows below the stripes begin.
pub fn below(stripes: usize) -> usize
    ensures { result ≡ below stripes }
{
    stripes.saturating_mul(HIGH).saturating_add(TOP)
}

/// Where the column of a cycle begins.
pub fn column_at(number: usize) -> usize
    ensures { result ≡ column_at number }
{
    number.saturating_mul(WIDE).saturating_add(LEFT)
}

/// Begins a picture of a size.
#[tactic(auto, unfolding(crate::specs::Pictures::svg_text))]
fn put_size(text: &mut Vec<u8>, width: usize, height: usize) -> Result<(), AllocError>
    ensures { OnOk result (text.new.items ≡ text.old.items ++ svg_text width height) }
{
    put_counted(
        text,
        "<svg xmlns=\"http://www.w3.org/2000/svg\" width=\"",
        width,
    )?;
    put_counted(text, "\" height=\"", height)?;
    put(text, "\">\n<style>\n")
}

/// Adds how words look, and a white ground.
#[tactic(auto, unfolding(crate::specs::Pictures::style_text))]
fn put_style(text: &mut Vec<u8>) -> Result<(), AllocError>
    ensures { OnOk result (text.new.items ≡ text.old.items ++ style_text) }
{
    put(
        text,
        "text { font-family: sans-serif; font-size: 12px; fill: #222 }\n",
    )?;
    put(
        text,
        ".n { text-anchor: middle } .b { text-anchor: middle; font-weight: bold; fill: #fff }\n",
    )?;
    put(text, ".s { font-size: 9px; fill: #222 }\n</style>\n")?;
    put(
        text,
        "<rect width=\"100%\" height=\"100%\" fill=\"#fff\"/>\n",
    )
}

/// How high the colours of so many stages are.
fn legend_height(stages: usize) -> usize
    ensures { result ≡ legend_height stages }
{
    let rows = stages.saturating_add(ROW - 1) / ROW;
    rows.max(1).saturating_mul(ROW_HIGH)
}

/// How many cycles of a log are left out, before those that are drawn and behind them.
#[derive(Clone, Copy)]
pub struct Left {
    pub before: usize,
    pub behind: usize,
}

/// How high the line is that says which cycles are left out.
fn left_height(left: Left) -> usize
    ensures { result ≡ left_height left }
{
    if left.before == 0 && left.behind == 0 {
        0
    } else {
        18
    }
}

/// Begins a picture of so many cycles of a log, of which so many are left out.
#[tactic(auto, unfolding(crate::specs::Pictures::picture_head))]
pub fn put_head(
    text: &mut Vec<u8>,
    cycles: usize,
    totals: &Totals,
    left: Left,
) -> Result<(), AllocError>
    ensures { OnOk result (text.new.items ≡ text.old.items
        ++ picture_head cycles totals.now.stripes totals.now.stages left) }
{
    let width = cycles.saturating_mul(WIDE).saturating_add(LEFT + 20);
    let height = below(totals.stripes)
        .saturating_add(legend_height(totals.stages))
        .saturating_add(106)
        .saturating_add(left_height(left));
    put_size(text, width.max(660), height)?;
    put_style(text)?;
    put_words(text, "t", 8, TOP - 12, "cycle")
}

/// Adds the name of a stripe.
#[tactic(auto, unfolding(crate::specs::Pictures::stripe_name))]
fn put_name(text: &mut Vec<u8>, stripe: usize) -> Result<(), AllocError>
    ensures { OnOk result (text.new.items ≡ text.old.items ++ stripe_name stripe) }
{
    let y = below(stripe).saturating_add(17);
    put_words(text, "t", 8, y, "stripe")?;
    put_digits(text, "t", 50, y, stripe)
}

/// Adds the names of stripes.
#[tactic(auto, using(crate::proofs::PictureLaws::names_more), unfolding(crate::specs::Pictures::stripe_names))]
fn put_stripe_names(text: &mut Vec<u8>, stripes: usize) -> Result<(), AllocError>
    ensures { OnOk result (text.new.items ≡ text.old.items ++ stripe_names stripes) }
{
    for stripe in 0..stripes {
        put_name(text, stripe)?;
    }
    Ok(())
}

/// Adds the names of the rows.
#[tactic(auto, unfolding(crate::specs::Pictures::row_names))]
pub fn put_names(text: &mut Vec<u8>, stripes: usize) -> Result<(), AllocError>
    ensures { OnOk result (text.new.items ≡ text.old.items ++ row_names stripes) }
{
    put_stripe_names(text, stripes)?;
    let y = below(stripes);
    put_words(text, "t", 8, y.saturating_add(17), "sample in")?;
    put_words(text, "t", 8, y.saturating_add(37), "result out")
}

/// Adds the colour of a stage to the legend.
#[tactic(auto, unfolding(crate::specs::Pictures::stage_key))]
fn put_stage(text: &mut Vec<u8>, stage: usize, stages: usize, y: usize) -> Result<(), AllocError>
    ensures { OnOk result (text.new.items ≡ text.old.items ++ stage_key stages y stage) }
{
    let x = column_at(stage % ROW);
    let y = (stage / ROW).saturating_mul(ROW_HIGH).saturating_add(y);
    let area = Area {
        x,
        y,
        width: 24,
        height: 18,
    };
    put_area(text, area)?;
    put_fill(text, stage, stages, true)?;
    put_digits(text, "n", x.saturating_add(12), y.saturating_add(13), stage)
}

/// Adds the colours of the first so many stages.
#[tactic(auto, using(crate::proofs::PictureLaws::keys_more), unfolding(crate::specs::Pictures::stage_keys))]
fn put_keys(text: &mut Vec<u8>, shown: usize, stages: usize, y: usize) -> Result<(), AllocError>
    ensures { OnOk result (text.new.items ≡ text.old.items ++ stage_keys shown stages y) }
{
    for stage in 0..shown {
        put_stage(text, stage, stages, y)?;
    }
    Ok(())
}

/// Adds what the colours and marks mean.
#[tactic(auto, unfolding(crate::specs::Pictures::legend_words))]
fn put_meaning(text: &mut Vec<u8>, y: usize) -> Result<(), AllocError>
    ensures { OnOk result (text.new.items ≡ text.old.items ++ legend_words y) }
{
    put_words(
        text,
        "t",
        8,
        y,
        "dark: the stage comes into the stripe; pale: it computes; a black corner: the state of the stage",
    )?;
    put_words(
        text,
        "t",
        8,
        y.saturating_add(18),
        "before is saved; grey: the cycle is stalled, and nothing moves",
    )
}

/// Adds which cycles are left out.
#[tactic(auto, unfolding(crate::specs::Pictures::left_ends))]
fn put_left_ends(text: &mut Vec<u8>, left: Left) -> Result<(), AllocError>
    ensures { OnOk result (text.new.items ≡ text.old.items ++ left_ends left) }
{
    if left.before == 0 {
        return put_counted(text, "the last ", left.behind);
    }
    if left.behind == 0 {
        return put_counted(text, "the first ", left.before);
    }
    put_counted(text, "the first ", left.before)?;
    put_counted(text, " and the last ", left.behind)
}

/// Adds which cycles of so many are left out, where some are.
#[tactic(auto, unfolding(crate::specs::Pictures::left_words))]
fn put_left(text: &mut Vec<u8>, left: Left, cycles: usize, y: usize) -> Result<(), AllocError>
    ensures { OnOk result (text.new.items ≡ text.old.items ++ left_words left cycles y) }
{
    if left.before == 0 && left.behind == 0 {
        return Ok(());
    }
    begin_words(text, "t", 8, y)?;
    put(text, "left out: ")?;
    put_left_ends(text, left)?;
    put_counted(text, " of ", cycles)?;
    put(text, " cycles</text>\n")
}

/// Adds the legend of a picture that leaves so many cycles out.
#[tactic(auto, unfolding(crate::specs::Pictures::legend_text))]
pub fn put_legend(text: &mut Vec<u8>, totals: &Totals, left: Left) -> Result<(), AllocError>
    ensures { OnOk result (text.new.items ≡ text.old.items
        ++ legend_text totals.now.stages totals.now.count left (lower (below totals.now.stripes) 56)) }
{
    let y = below(totals.stripes).saturating_add(56);
    put_words(text, "t", 8, y.saturating_add(13), "stage")?;
    put_keys(text, totals.stages, totals.stages, y)?;
    let words = legend_height(totals.stages).saturating_add(y.saturating_add(14));
    put_meaning(text, words)?;
    put_left(text, left, totals.count, words.saturating_add(36))
}

/// Ends the picture.
pub fn put_end(text: &mut Vec<u8>) -> Result<(), AllocError>
    ensures { OnOk result (text.new.items ≡ text.old.items ++ codes "</svg>\n") }
{
    put(text, "</svg>\n")
}
