//! A program whose instances are shown.

ghost use Rattle.std.specs.Prelude.{◌≤◌, length, IfErr, IfOk};
ghost use Rattle.pr_flat.specs.Widths.{AreWidths};
ghost use Rattle.pr_expand_spec.specs.Programs.{equations_of};
ghost use Rattle.pr_lens_signals.specs.Reading.{IsReady, IsShowing};
ghost use Rattle.pr_lens_signals.specs.Signals.{IsUnshown};

use pr_base::Cap;
use pr_compile_front::Front;
use pr_lens_probe::{Detail, ProbeFault, Probed, probe};
use pr_tool_answers::Answer;
use pr_width::Widths;
use std::alloc::Global;

/// A program, its equations with an output more for each of its instances, and their widths. The
/// kinds of the instances are told.
#[derive(Drop)]
pub struct Showing {
    pub probed: Probed,
    pub widths: Widths,
}

/// The equations of a program with an output more for each of its instances.
pub fn showing_of(alloc: Global, front: Front) -> Result<Showing, Answer>
    requires few { length (equations_of front.scoped.program).equations ≤ 16384 }
    requires widths { AreWidths (equations_of front.scoped.program).equations front.widths }
    ensures shows { IfOk result (λ s. IsShowing front.scoped.program s) }
    ensures ready { IfOk result IsReady }
    ensures refused { IfErr result (λ answer. IsUnshown front.scoped.program answer) }
{
    let Front {
        scoped,
        flat: _,
        widths,
    } = front;
    match probe(alloc, scoped, Detail::Kinds) {
        Ok(probed) => Ok(Showing { probed, widths }),
        Err(ProbeFault::Turns) => Err(Answer::Limit { which: Cap::Turns }),
        Err(ProbeFault::Memory(_)) => Err(Answer::Memory),
    }
}
