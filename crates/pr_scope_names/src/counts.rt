//! The count of turns.
ghost use Rattle.std.specs.Prelude.{◌≡◌, ◌<◌, IfOk};
ghost use Rattle.pr_scope_names.specs.Outcomes.{counted};

use crate::rules::Offence;
use pr_base::Cap;

/// How many turns there were, and in a function's body the greatest depth of the functions that were called.
#[derive(Clone, Copy)]
pub struct Count {
    pub turns: u32,
    pub deepest: u8,
}

/// One turn more, and those of the body where it is a call.
pub fn count_one(count: Count, body: u32) -> Result<Count, Offence>
    ensures value { result ≡ counted body count }
    ensures grows { IfOk result (λ c. count.turns < c.turns) }
{
    let turns = u64::from(count.turns) + 1 + u64::from(body);
    if turns > Cap::MOST_TURNS {
        return Err(Offence::Turns);
    }
    Ok(Count {
        turns: turns as u32,
        deepest: count.deepest,
    })
}
