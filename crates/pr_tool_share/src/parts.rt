//! What ends single programs of a list.
ghost use Rattle.std.specs.Prelude.{◌≡◌};
ghost use Rattle.pr_tool_share.specs.Lists.{part_of, part_answer};

use pr_tool_answers::{Answer, Cause};

/// The part of a list's answer that a program is which ends so; none where its answer tells of no single program.
pub(crate) fn part_of(number: u8, answer: Answer) -> Option<Answer>
    ensures { result ≡ part_of number answer }
{
    let cause = match answer {
        Answer::Syntax { token } => Cause::Syntax { token },
        Answer::Scope { rule, item } => Cause::Scope { rule, item },
        Answer::NoWidth { equation } => Cause::NoWidth { equation },
        Answer::NoFit { unit } => Cause::NoFit { unit },
        Answer::Limit { which } => Cause::Limit { which },
        Answer::BadSample { line } => Cause::BadSample { line },
        _ => return None,
    };
    Some(Answer::Part {
        program: number,
        cause,
    })
}

/// The answer where a program of a list ends so, by the answer of the program alone.
pub(crate) fn part_answer(number: u8, answer: Answer) -> Answer
    ensures { result ≡ part_answer number answer }
{
    part_of(number, answer).unwrap_or(answer)
}
