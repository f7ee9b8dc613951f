//! Laws of answers.

ghost use Rattle.std.specs.Prelude.{ℕ, List, Option};
ghost use Rattle.pr_base.specs.Laws.{AtMostOne};
ghost use Rattle.pr_tool.specs.Words.{Asked};
ghost use Rattle.pr_tool.specs.Calls.{IsVerdict};

/// Words and files have one verdict at most.
pub fn answer_law()
    ensures { (files : List ℕ → Option (List ℕ)) (asked : Asked) → AtMostOne (IsVerdict files asked) }
{}
