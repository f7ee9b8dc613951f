//! The whole summary.

ghost use Rattle.std.specs.Prelude.{◌≡◌, IfOk};
ghost use Rattle.pr_conf.specs.Configuration.{shape_of};
ghost use Rattle.pr_code_show.specs.Shown.{shown};

use crate::lines::{put_head, put_stages};
use pr_conf::Configuration;
use std::alloc::{AllocError, Global};

/// The summary of a configuration: a line with the numbers of its stages, inputs and outputs, and then a line for each
/// stage with the numbers of those processing elements that do anything, that write a register, and that change their
/// state.
pub fn show<const N: usize, const P: usize>(
    alloc: Global,
    conf: &Configuration<N, P>,
) -> Result<Vec<u8>, AllocError>
    ensures { IfOk result (λ text. text.items ≡ shown (shape_of conf.now)) }
{
    let mut text = Vec::new(alloc);
    put_head(
        &mut text,
        conf.stages.len(),
        conf.inputs.len(),
        conf.outputs.len(),
    )?;
    put_stages(&mut text, &conf.stages)?;
    Ok(text)
}
