//! Colours of stages.

ghost use Rattle.std.specs.Prelude.{◌≡◌, ◌++◌, OnOk};
ghost use Rattle.pr_lens_chart.specs.Pictures.{fill_text, shade_text};

use pr_lens_text::{put, put_counted};
use std::alloc::AllocError;

/// How pale a colour is, and the end of its rectangle.
fn shade(computes: bool) -> &'static str
    ensures { result.now ≡ shade_text computes }
{
    if computes {
        ",70%,80%)\"/>\n"
    } else {
        ",65%,50%)\"/>\n"
    }
}

/// Adds the colour of a stage, of so many: round the circle of colours, paler where the stage computes.
#[tactic(auto, unfolding(crate::specs::Pictures::fill_text))]
pub fn put_fill(
    text: &mut Vec<u8>,
    stage: usize,
    stages: usize,
    computes: bool,
) -> Result<(), AllocError>
    ensures { OnOk result (text.new.items ≡ text.old.items ++ fill_text stage stages computes) }
{
    let hue = stage.saturating_mul(360) / stages.max(1) % 360;
    put_counted(text, " fill=\"hsl(", hue)?;
    put(text, shade(computes))
}
