//! The text of programs that take turns on one machine. The functions state laws of these definitions and do nothing.
#![tactic(auto)]

ghost use Rattle.std.specs.Prelude.{ℕ, ◌≡◌, ◌+◌, List, Some, slice_get};
ghost use Rattle.pr_base.specs.Rows.{written};
ghost use Rattle.pr_share_text.specs.Text.{Part, HaveQuotas, share_text, lines_of_program};

/// The lines of one program in the text are those that it writes alone, whatever the other programs are and whatever
/// they write.
pub fn isolation_law()
    ensures own { (parts : List Part) (k : ℕ) (part : Part) → HaveQuotas parts → slice_get parts k ≡ Some part
        → lines_of_program k (share_text parts) ≡ written part.rows }
    ensures alone { (parts others : List Part) (k : ℕ) (part : Part) → HaveQuotas parts → HaveQuotas others
        → slice_get parts k ≡ Some part → slice_get others k ≡ Some part
        → lines_of_program k (share_text parts) ≡ lines_of_program k (share_text others) }
{}
