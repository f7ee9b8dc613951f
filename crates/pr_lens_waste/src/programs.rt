//! The lines of the program of a text.

ghost use Rattle.std.specs.Prelude.{◌≤◌, length, IfErr, IfOk};
ghost use Rattle.pr_lens_waste.specs.Lines.{lines_in};
ghost use Rattle.pr_lens_waste.specs.Programs.{AreLines, HasLines, IsWhy};

use crate::faults::LineFault;
use crate::lines::{Lines, lines_over, no_lines};
use pr_compile_front::{Front, read_program};
use pr_cut_plan::plan_of;
use pr_lens_probe::{Detail, probe};
use pr_lens_shares::shown_operands;
use std::alloc::{AllocError, Global};

/// The columns of the wide fabric.
const MOST_COLUMNS: usize = 32;

/// The lines of the program of a text.
fn found_lines(alloc: Global, text: &[u8]) -> Result<Lines, LineFault>
    requires { length text.now ≤ 1048576 }
    ensures lines { IfOk result (λ lines. HasLines text.now (lines_in lines)) }
    ensures untold { IfErr result (IsWhy text.now) }
{
    let front = read_program(alloc, text)?;
    let Front {
        scoped,
        flat,
        widths,
    } = front;
    let plan = plan_of(alloc, &flat, &widths, MOST_COLUMNS)?;
    let probed = probe(alloc, scoped, Detail::Streams)?;
    let operands = shown_operands(&probed);
    let lines = lines_over(alloc, &flat, &plan.reached, &probed.instances, operands)?;
    Ok(lines)
}

/// What is known of the names of a text's program: which of their last instances are delays that no output needs. Nothing,
/// where the text is refused, leaves no turn of the walk, or makes a net that passes a limit.
pub fn lines_of(alloc: Global, text: &[u8]) -> Result<Lines, AllocError>
    requires { length text.now ≤ 1048576 }
    ensures { IfOk result (λ lines. AreLines text.now (lines_in lines)) }
{
    match found_lines(alloc, text) {
        Ok(lines) => Ok(lines),
        Err(LineFault::Untold) => Ok(no_lines(alloc)),
        Err(LineFault::Memory(error)) => Err(error),
    }
}
