//! Limits.

ghost use Rattle.std.specs.Prelude.{◌≡◌, ◌++◌, OnOk};
ghost use Rattle.pr_lens_why.specs.Limits.{limit_text};

use pr_base::Cap;
use pr_lens_text::put;
use std::alloc::AllocError;

/// Which quantity passes its limit, and what to do; a program has no other ones than these, its bytes left out.
#[tactic(auto, unfolding(crate::specs::Limits::limit_text))]
fn limit_text(cap: Cap) -> &'static str
    ensures { result.now ≡ limit_text cap }
{
    match cap {
        Cap::Nesting =>
            "Brackets and operators are nested too deep here.\nAssign parts of the expression to names of their own.\n",
        Cap::Turns =>
            "The loops and calls, unrolled, take too many turns.\nSee whether a loop's end is what was meant: each turn, each statement in it and each call counts.\n",
        Cap::Equations =>
            "The program, unrolled, has too many equations.\nShare what is computed several times by assigning it to a name, or split the program.\n",
        Cap::InputBytes =>
            "All inputs of a sample together have more bytes than a stage has columns.\nDeclare smaller widths, or split the program.\n",
        Cap::Outputs =>
            "The program has too many outputs.\nJoin outputs by `cat`, or split the program.\n",
        _ =>
            "The program has too many units.\nProducts and shifts by streams take a unit for each bit: declare smaller widths.\n",
    }
}

/// Tells which quantity passes its limit, and what to do.
pub fn tell(message: &mut Vec<u8>, cap: Cap) -> Result<(), AllocError>
    ensures { OnOk result (message.new.items ≡ message.old.items ++ limit_text cap) }
{
    put(message, limit_text(cap))
}
