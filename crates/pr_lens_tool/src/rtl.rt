//! The module of a program, in Verilog.

ghost use Rattle.std.specs.Prelude.{◌≡◌, ◌≤◌, length, IfOk, IfErr};
ghost use Rattle.pr_conf.specs.Configuration.{shape_of};
ghost use Rattle.pr_tool_answers.specs.declared.answers.Answer.{Answer};
ghost use Rattle.pr_lens_tool.specs.declared.outcomes.Outcome.TheVariants.{Plain};
ghost use Rattle.pr_lens_tool.specs.Modules.{IsModuleOrLong, IsWrittenOrLong};
ghost use Rattle.pr_lens_tool.specs.Programs.{IsUnanswered};

use crate::compiling::{Compilation, compilation_of};
use crate::outcomes::{Outcome, Output};
use crate::refusals::refusal_of;
use pr_lens_notes::notes_of;
use pr_lens_rtl_text::{NoText, Notes, rtl};
use pr_tool::Answer;
use std::alloc::Global;

/// The module of a program and its configuration, with comments, unless it is too long.
fn module_text<const N: usize, const P: usize>(
    alloc: Global,
    name: &str,
    made: &Compilation<N, P>,
    notes: &Notes,
) -> Result<Output, Outcome>
    ensures told { IfOk result (λ o. IsWrittenOrLong N P notes.now name.now
        made.now.front.scoped.program (shape_of made.now.conf) o.outcome o.text.items) }
    ensures refused { IfErr result (λ o. o ≡ Plain Answer.Memory) }
{
    match rtl::<N, P>(alloc, name, &made.front.scoped.program, &made.conf, notes) {
        Ok(text) => Ok(Output {
            text,
            outcome: Outcome::Plain(Answer::Ok),
        }),
        Err(NoText::Long) => Ok(Output {
            text: Vec::new(alloc),
            outcome: Outcome::LongModule,
        }),
        Err(NoText::Memory(error)) => Err(Outcome::from(error)),
    }
}

/// The module of a program, with comments that name its streams, unless it is too long.
pub fn rtl_of<const N: usize, const P: usize>(
    alloc: Global,
    narrowed: bool,
    name: &str,
    text: &[u8],
) -> Result<Output, Outcome>
    requires short { length text.now ≤ 1048576 }
    requires columns { 1 ≤ N }
    requires most_columns { N ≤ 64 }
    requires registers { 2 ≤ P }
    requires most_registers { P ≤ 16 }
    ensures told { IfOk result (λ o.
        IsModuleOrLong N P narrowed text.now name.now o.outcome o.text.items) }
    ensures refused { IfErr result (IsUnanswered N P narrowed text.now) }
{
    let made = match compilation_of::<N, P>(alloc, text, narrowed) {
        Ok(made) => made,
        Err(fault) => return Err(refusal_of::<N, P>(alloc, text, narrowed, &fault)),
    };
    let notes = match notes_of::<N, P>(alloc, text, narrowed) {
        Ok(notes) => notes,
        Err(fault) => return Err(refusal_of::<N, P>(alloc, text, narrowed, &fault)),
    };
    module_text::<N, P>(alloc, name, &made, &notes)
}
