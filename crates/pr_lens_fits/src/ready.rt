//! The equations of which a net is made.

ghost use Rattle.std.specs.Prelude.{◌≡◌, ◌≤◌, ℕ, List, length, IfOk, IfNone, IfSome, OnOk, IsTrue, IsFalse};
ghost use Rattle.pr_compile_front.specs.Passed.{IsPassed};
ghost use Rattle.pr_compile_front.specs.Refusals.{IsAnswer, IsRefusal};
ghost use Rattle.pr_lens_fits.specs.Unfits.{HasRefusal, IsReadyOf};
ghost use Rattle.pr_flat.specs.Flats.{equations_of};
ghost use Rattle.pr_flat.specs.Widths.{AreWidths};
ghost use Rattle.pr_narrow.specs.Narrowed.{AreNarrowed};

use pr_compile_front::{Front, FrontFault, read_program};
use pr_flat::Flat;
use pr_narrow::narrow;
use pr_width::Widths;
use std::alloc::{AllocError, Global};

/// The equations of which a program's net is made, with their widths: narrowed, or as they are.
pub fn ready_of(
    alloc: Global,
    flat: Flat,
    widths: Widths,
    narrowed: bool,
) -> Result<(Flat, Widths), AllocError>
    requires { AreWidths (equations_of flat) widths }
    ensures widths { IfOk result (λ r. AreWidths (equations_of r.0) r.1) }
    ensures narrowed { IsTrue narrowed → IfOk result (λ r. AreNarrowed
        (equations_of flat) flat.outputs.items widths (equations_of r.0) r.1) }
    ensures whole { IsFalse narrowed → IfOk result (λ r. (r.0 ≡ flat) × (r.1 ≡ widths)) }
    ensures outputs { IfOk result (λ r. r.0.outputs.items ≡ flat.outputs.items) }
{
    if narrowed {
        narrow(alloc, &flat, &widths)
    } else {
        Ok((flat, widths))
    }
}

/// Passes want of memory on.
fn refused(fault: FrontFault) -> Result<(), AllocError>
    ensures { (text : List ℕ) → IsAnswer text fault → OnOk result (IsRefusal text fault) }
{
    match fault {
        FrontFault::Syntax { token: _ } => {
            return Ok(());
        }
        FrontFault::Scope { rule: _, item: _ } => {
            return Ok(());
        }
        FrontFault::NoWidth { equation: _ } => {
            return Ok(());
        }
        FrontFault::Limit(_) => {
            return Ok(());
        }
        FrontFault::Memory(error) => {
            return Err(error);
        }
    }
}

/// The program of a text with its equations and their widths; none where it is refused before it has widths.
pub fn read_front(alloc: Global, text: &[u8]) -> Result<Option<Front>, AllocError>
    requires { length text.now ≤ 1048576 }
    ensures passed { IfOk result (λ o. IfSome o (IsPassed text.now)) }
    ensures none { IfOk result (λ o. IfNone o (HasRefusal text.now)) }
{
    match read_program(alloc, text) {
        Ok(front) => Ok(Some(front)),
        Err(fault) => {
            refused(fault)?;
            Ok(None)
        }
    }
}

/// The equations of which the net of a text's program is made: narrowed, or as they are; none where it is refused before
/// it has widths.
pub fn ready_in(
    alloc: Global,
    text: &[u8],
    narrowed: bool,
) -> Result<Option<(Flat, Widths)>, AllocError>
    requires { length text.now ≤ 1048576 }
    ensures widths { IfOk result (λ o. IfSome o (λ r. AreWidths (equations_of r.0) r.1)) }
    ensures told { IfOk result (λ o. IfSome o (λ r. IsReadyOf narrowed text.now r.0 r.1)) }
    ensures none { IfOk result (λ o. IfNone o (HasRefusal text.now)) }
{
    let Some(front) = read_front(alloc, text)? else {
        return Ok(None);
    };
    let Front {
        scoped: _scoped,
        flat,
        widths,
    } = front;
    let made = ready_of(alloc, flat, widths, narrowed)?;
    Ok(Some(made))
}
