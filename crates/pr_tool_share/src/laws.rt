//! Laws of lists, and of the mode. The functions do nothing.
ghost use Rattle.std.specs.Prelude.{◌≡◌, ℕ, List, Option, Some};
ghost use Rattle.pr_base.specs.Laws.{AtMostOne};
ghost use Rattle.pr_tool_answers.specs.declared.answers.Answer.{Answer};
ghost use Rattle.pr_tool_answers.specs.Owed.{IsOwed};
ghost use Rattle.pr_tool_modes.specs.Calls.{Call};
ghost use Rattle.pr_tool_share.specs.Ends.{IsShareVerdict};
ghost use Rattle.pr_tool_share.specs.Entries.{Entry, IsListed, IsBadAt};
ghost use Rattle.pr_tool_share.specs.Lines.{AreSharedLines};
ghost use Rattle.pr_tool_share.specs.Shares.{IsSharedBy};

/// A text lists entries, and then these alone, or is bad at one line, and not both.
pub fn list_law()
    ensures one_list { (text : List ℕ) (a b : List Entry) → IsListed text a → IsListed text b → a ≡ b }
    ensures one_line { (text : List ℕ) (m n : ℕ) → IsBadAt text m → IsBadAt text n → m ≡ n }
    ensures not_both { (text : List ℕ) (a : List Entry) (n : ℕ) → IsListed text a → IsBadAt text n → ⊥ }
{}

/// Over told files what the mode came to is the verdict on its list, or a fault that was counted, or want of memory; there is one
/// verdict at most; and what is written is as the answer says.
pub fn share_law()
    ensures owed { (files : List ℕ → Option (List ℕ)) (list : List ℕ) (stripes : ℕ) (k : Call) (a : Answer)
        → k.before.told ≡ Some files → IsSharedBy list stripes k a
        → IsOwed (IsShareVerdict files list) k.before.faults k.now.faults k.out_before k.out_now a }
    ensures one { (files : List ℕ → Option (List ℕ)) (list : List ℕ) → AtMostOne (IsShareVerdict files list) }
    ensures lines { (files : List ℕ → Option (List ℕ)) (list : List ℕ) (stripes : ℕ) (k : Call) (a : Answer)
        → k.before.told ≡ Some files → IsSharedBy list stripes k a
        → AreSharedLines files list k a }
{}
