//! Laws of verdicts: there is exactly one on whatever words and files the tool is given; and a list of programs is read or bad.
ghost use Rattle.std.specs.Prelude.{ℕ, List, Option};
ghost use Rattle.pr_tool_share.specs.Entries.{IsListed, IsBadAt};
ghost use Rattle.pr_tool.specs.Words.{Asked};
ghost use Rattle.pr_tool.specs.Calls.{IsVerdict};
ghost use Rattle.pr_compile_verdicts.specs.Verdicts.{SomeOf, ExactlyOne};
ghost use Rattle.pr_tool_laws.specs.Bytes.{HaveBytes};

/// Each text lists entries, or is bad at a line.
pub fn list_verdict_law()
    ensures { (text : List ℕ) → SomeOf (IsListed text) (IsBadAt text) }
{}

/// Words, lawful or not, have exactly one verdict on all files whose texts are bytes.
pub fn words_verdict_law()
    ensures { (files : List ℕ → Option (List ℕ)) (asked : Asked) → HaveBytes files →
        ExactlyOne (IsVerdict files asked) }
{}
