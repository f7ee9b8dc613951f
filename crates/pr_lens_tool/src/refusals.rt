//! Programs that are refused.

ghost use Rattle.std.specs.Prelude.{◌≤◌, length};
ghost use Rattle.pr_compile.specs.Refusals.{IsCompileAnswer};
ghost use Rattle.pr_lens_tool.specs.Programs.{IsUnanswered};

use crate::outcomes::Outcome;
use pr_compile::CompileFault;
use pr_lens_why::help_of;
use pr_tool_modes::compile_answer;
use std::alloc::Global;

/// What a call comes to where this fault refuses a text, with the options that make it fit; want of memory is no refusal.
pub fn refusal_of<const N: usize, const P: usize>(
    alloc: Global,
    text: &[u8],
    narrowed: bool,
    fault: &CompileFault,
) -> Outcome
    requires short { length text.now ≤ 1048576 }
    requires columns { 1 ≤ N }
    requires most_columns { N ≤ 64 }
    requires registers { 2 ≤ P }
    requires most_registers { P ≤ 16 }
    requires answer { IsCompileAnswer N P narrowed text.now fault.now }
    ensures { IsUnanswered N P narrowed text.now result }
{
    match fault {
        CompileFault::Memory(error) => Outcome::from(*error),
        _ => match help_of::<N, P>(alloc, text, narrowed, fault) {
            Ok(help) => Outcome::Refused {
                answer: compile_answer(fault),
                help,
            },
            Err(error) => Outcome::from(error),
        },
    }
}
