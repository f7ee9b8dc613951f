//! Laws of configuration files and checkpoints.

ghost use Rattle.std.specs.Prelude.{◌≡◌, ◌<◌, ◌≤◌, ◌^◌, ℕ, List, true, None, slice_index};
ghost use Rattle.pr_conf.specs.Shape.{Shape};
ghost use Rattle.pr_conf.specs.Rules.{IsLawful};
ghost use Rattle.pr_code.specs.Spelling.{IsFile, IsSomeFile, has_bytes};
ghost use Rattle.pr_code.specs.Rules.{bad_word};
ghost use Rattle.pr_code.specs.Marks.{IsMark, IsSomeMark, bad_mark};

/// No word of a file breaks a rule exactly where it is the file of a configuration, and of one alone.
pub fn files_law()
    ensures accepted { (N P : ℕ) (bytes : List ℕ) → 1 ≤ N → N ≤ 64 → 2 ≤ P → P ≤ 16
        → ((i : ℕ) → slice_index bytes i < 256) → bad_word N P bytes ≡ None → IsSomeFile N P bytes }
    ensures files { (N P : ℕ) (c : Shape) (bytes : List ℕ) → IsLawful N P c → has_bytes c ≡ true
        → IsFile N P c bytes → bad_word N P bytes ≡ None }
    ensures one { (N P : ℕ) (c d : Shape) (bytes : List ℕ)
        → IsLawful N P c → has_bytes c ≡ true → IsLawful N P d → has_bytes d ≡ true
        → IsFile N P c bytes → IsFile N P d bytes → c ≡ d }
{}

/// No word of a file breaks a rule of checkpoints exactly where it is the checkpoint of a count and a configuration,
/// and of one pair alone.
pub fn marks_law()
    ensures accepted { (N P : ℕ) (bytes : List ℕ) → 1 ≤ N → N ≤ 64 → 2 ≤ P → P ≤ 16
        → ((i : ℕ) → slice_index bytes i < 256) → bad_mark N P bytes ≡ None → IsSomeMark N P bytes }
    ensures files { (N P n : ℕ) (c : Shape) (bytes : List ℕ) → IsLawful N P c → has_bytes c ≡ true
        → IsMark N P n c bytes → bad_mark N P bytes ≡ None }
    ensures one { (N P n m : ℕ) (c d : Shape) (bytes : List ℕ)
        → IsLawful N P c → has_bytes c ≡ true → IsLawful N P d → has_bytes d ≡ true
        → IsMark N P n c bytes → IsMark N P m d bytes → (n ≡ m) × (c ≡ d) }
{}
