//! The walk over a program.
ghost use Rattle.std.specs.Prelude.{◌≡◌, ◌≤◌, IfErr, IfOk, Ok, OnOk, length, vec_len};
ghost use Rattle.pr_scope.specs.Walk.{IsFault, IsRefusal, Walked, ended, items_walk, offence, program_walk, world_of};

use crate::checking::{ScopeFault, Scoped};
use crate::items::walk_item;
use crate::progress::WalkState;
use pr_base::Cap;
use pr_lang::{Item, Program};
use pr_scope_names::{Count, Offence, Rule, Statics, Stop, Streams};
use std::alloc::Global;

fn fault(stop: Stop, item: u32) -> ScopeFault
    ensures { IsFault stop item result }
{
    match stop {
        Stop::Offends(Offence::Turns) => ScopeFault::Limit(Cap::Turns),
        Stop::Offends(Offence::Breaks(rule)) => ScopeFault::Scope {
            rule: rule.number(),
            item,
        },
        Stop::Memory(error) => ScopeFault::Memory(error),
    }
}

fn end(state: &WalkState, item: u32) -> Result<(), ScopeFault>
    ensures { Walked result (λ _. world_of state.now) (ended item (world_of state.now)) }
{
    if state.inputs.is_empty() || !state.has_output {
        return Err(ScopeFault::Scope {
            rule: Rule::Ends.number(),
            item,
        });
    }
    Ok(())
}

fn walk_items(alloc: Global, state: &mut WalkState, items: &[Item]) -> Result<(), ScopeFault>
    ensures walk { Walked result (λ _. world_of state.new) (items_walk 0 items.now (world_of state.old)) }
    ensures few { OnOk result (length items.now ≤ state.new.count.turns) }
{
    let mut number = 0;
    for item in items {
        walk_item(alloc, state, number, item).map_err(|stop| fault(stop, number))?;
        number += 1;
    }
    end(state, number)
}

/// Checks the scope rules of a program.
///
/// # Errors
///
/// The first point of the walk that breaks a rule or passes the limit of turns. A refusal gives the program up.
pub fn check(alloc: Global, program: Program) -> Result<Scoped, ScopeFault>
    ensures ok { IfOk result (λ s. s.program ≡ program) }
    ensures err { IfErr result (λ e. IsRefusal e (offence program)) }
{
    let mut state = WalkState {
        statics: Statics::new(alloc)?,
        streams: Streams::new(alloc),
        count: Count {
            turns: 0,
            deepest: 0,
        },
        inputs: Vec::new(alloc),
        has_output: false,
    };
    walk_items(alloc, &mut state, &program.items)?;
    Ok(hand_over(program, state))
}

fn hand_over(program: Program, state: WalkState) -> Scoped
    requires walk { program_walk program ≡ Ok (world_of state) }
    requires few { vec_len program.items ≤ state.count.turns }
    ensures { result.program ≡ program }
{
    Scoped {
        program,
        inputs: state.inputs,
        turns: state.count.turns,
    }
}
