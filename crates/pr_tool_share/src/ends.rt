//! How the samples of programs ended.
ghost use Rattle.std.specs.Prelude.{◌≡◌, ◌≤◌, length, map, unwrap_or};
ghost use Rattle.std.specs.List.{list_any};
ghost use Rattle.pr_tool_answers.specs.declared.answers.Answer.{Answer};
ghost use Rattle.pr_tool_share.specs.Ends.{is_read_fault, part_or, first_part, answer_of_all};
ghost use Rattle.pr_tool_share.specs.Items.{end_of};

use crate::parts::part_of;
use pr_samples::Got;
use pr_share::ShareItem;
use pr_tool_answers::Answer;
use pr_tool_modes::answer_of;

/// Whether a read of the samples of some program failed.
fn is_unread(items: &[ShareItem<16, 8>]) -> bool
    ensures { result ≡ list_any (λ i. is_read_fault (end_of i)) items.now }
{
    items
        .iter()
        .any(|item| matches!(item.ended, Some(Got::ReadFault)))
}

/// The answer where a bad line or a limit ended the samples of a program.
fn part_in(number: u8, item: &ShareItem<16, 8>) -> Option<Answer>
    ensures { (other : Answer) → unwrap_or result other ≡ part_or number (end_of item.now) other }
{
    match item.ended {
        None => None,
        Some(last) => part_of(number, answer_of(last)),
    }
}

/// The answer for the first program whose samples a bad line or a limit ended.
fn first_part(items: &[ShareItem<16, 8>]) -> Answer
    requires { length items.now ≤ 8 }
    ensures { result ≡ first_part 0 (map end_of items.now) }
{
    for number in 0..items.len() {
        if let Some(answer) = part_in(number as u8, &items[number]) {
            return answer;
        }
    }
    Answer::Ok
}

/// What it comes to that the samples of the programs ended as they did.
pub(crate) fn answer_of_all(items: &[ShareItem<16, 8>]) -> Answer
    requires { length items.now ≤ 8 }
    ensures { result ≡ answer_of_all (map end_of items.now) }
{
    if is_unread(items) {
        Answer::ReadFault
    } else {
        first_part(items)
    }
}
