//! A log as a waveform: a text of value changes (VCD), as wave viewers read it.

ghost use Rattle.std.specs.Prelude.{◌≡◌, None, IfOk};
ghost use Rattle.pr_lens_log.specs.declared.windows.Window.{Window};
ghost use Rattle.pr_lens_log.specs.Excerpts.{most, stripes_to};
ghost use Rattle.pr_lens_log.specs.Logs.{IsKept, Tale};
ghost use Rattle.pr_lens_log.specs.Windows.{part_of};
ghost use Rattle.pr_lens_wave.specs.Scenes.{wave_text};

use crate::changes::put_cycles;
use crate::head::put_head;
use pr_lens_log::Log;
use std::alloc::{AllocError, Global};

/// The waveform of the cycles that a log keeps. A cycle takes ten units of time, also one that is stalled, and each
/// begins where it does in the waveform of the whole log.
pub fn wave(alloc: Global, log: Log) -> Result<Vec<u8>, AllocError>
    // Where a log keeps all cycles that a window shows, it is their waveform.
    ensures { (window : Window) (tale : Tale) → IsKept (record { window = window; most = None }) tale log
        → IfOk result (λ text. text.items
        ≡ wave_text (part_of window tale.cycles) (most stripes_to tale.cycles) tale.cycles tale.written) }
{
    let mut text = Vec::new(alloc);
    put_head(&mut text, log.totals.stripes)?;
    put_cycles(alloc, &mut text, log)?;
    Ok(text)
}
