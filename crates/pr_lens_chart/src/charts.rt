//! A log as a picture (SVG): stripes down, cycles across, a colour for each stage.

ghost use Rattle.std.specs.Prelude.{◌≡◌, Some, IfOk};
ghost use Rattle.pr_lens_log.specs.declared.windows.Window.{Window};
ghost use Rattle.pr_lens_log.specs.Excerpts.{most, stages_to, stripes_to};
ghost use Rattle.pr_lens_log.specs.Logs.{IsKept, Tale};
ghost use Rattle.pr_lens_log.specs.Windows.{part_of};
ghost use Rattle.pr_lens_chart.specs.Pictures.{chart_text, picture_text};

use crate::cells::put_cycles;
use crate::frames::{Left, put_end, put_head, put_legend, put_names};
use pr_lens_log::{Excerpt, Log};
use std::alloc::{AllocError, Global};

/// The cycles that are drawn at most.
pub const MOST: usize = 400;

/// The picture of the cycles that a log keeps. It says which cycles of the log are left out.
#[tactic(auto, unfolding(crate::specs::Pictures::picture_text))]
fn picture(alloc: Global, log: Log) -> Result<Vec<u8>, AllocError>
    ensures { IfOk result (λ text. text.items ≡ picture_text log.totals.stages log.totals.stripes log.totals.count
        log.excerpt.part.start log.excerpt.past.board.stages.items log.excerpt.cycles.items) }
{
    let Log { totals, excerpt } = log;
    let Excerpt {
        part,
        past,
        cycles,
        written: _,
    } = excerpt;
    let behind = totals.count.saturating_sub(part.start);
    let left = Left {
        before: part.start,
        behind: behind.saturating_sub(cycles.len()),
    };
    let mut board = past.board;
    let mut text = Vec::new(alloc);
    put_head(&mut text, cycles.len(), &totals, left)?;
    put_names(&mut text, totals.stripes)?;
    put_cycles(&mut text, &totals, &mut board, &cycles)?;
    put_legend(&mut text, &totals, left)?;
    put_end(&mut text)?;
    Ok(text)
}

/// The picture of the cycles that a log keeps. It says which cycles of the log are left out.
pub fn chart(alloc: Global, log: Log) -> Result<Vec<u8>, AllocError>
    // Where a log keeps the first 400 cycles that a window shows, it is the picture of these.
    ensures { (window : Window) (tale : Tale) → IsKept (record { window = window; most = Some 400 }) tale log
        → IfOk result (λ text. text.items ≡ chart_text (part_of window tale.cycles)
        (most stages_to tale.cycles) (most stripes_to tale.cycles) tale.cycles) }
{
    picture(alloc, log)
}
