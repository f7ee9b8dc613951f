//! Laws of what is written of a program's configuration: it is read as that configuration.
//!
//! The laws of `pr_tool_modes` on configuration files and checkpoints ask that constants are bytes, and that the file is not too long.
//! The laws here give that of each file that was written of a program.
ghost use Rattle.std.specs.Prelude.{◌≡◌, ◌<◌, ◌≤◌, ◌^◌, ℕ, List, Bool, Option, true, None, length};
ghost use Rattle.pr_code.specs.Marks.{bad_mark, mark_of};
ghost use Rattle.pr_code.specs.Rules.{bad_word};
ghost use Rattle.pr_code.specs.Spelling.{bytes_of_words, words_of, has_bytes};
ghost use Rattle.pr_compile.specs.Configured.{IsCompiled};
ghost use Rattle.pr_conf.specs.After.{conf_after};
ghost use Rattle.pr_conf.specs.Rules.{IsLawful};
ghost use Rattle.pr_conf.specs.Shape.{Shape};
ghost use Rattle.pr_tool_modes.specs.declared.targets.Target.{Target};
ghost use Rattle.pr_tool_modes.specs.Behaviours.{IsKept};
ghost use Rattle.pr_tool_modes.specs.Resumptions.{IsMarkKept};
ghost use Rattle.pr_tool_modes.specs.Samples.{pieces};
ghost use Rattle.pr_tool_laws.specs.Written.{IsWritten, IsMarkWritten};

/// All constants of a compiled configuration are bytes, and so they are after samples.
pub fn bytes_law()
    ensures compiled { (N P : ℕ) (narrow : Bool) (text : List ℕ) (c : Shape) → IsCompiled N P narrow text c
        → has_bytes c ≡ true }
    ensures after { (N P : ℕ) (c : Shape) (rows : List (List ℕ)) → has_bytes c ≡ true
        → has_bytes (conf_after N P c (pieces c rows)) ≡ true }
{}

/// No word of what is written of a lawful configuration breaks a rule. On the base fabric it is shorter than a file may be.
pub fn written_law()
    ensures file { (N P : ℕ) (c : Shape) → IsLawful N P c → has_bytes c ≡ true
        → bad_word N P (bytes_of_words (words_of N P c)) ≡ None }
    ensures mark { (N P count : ℕ) (c : Shape) → IsLawful N P c → has_bytes c ≡ true → count ≤ 2 ^ 40
        → bad_mark N P (mark_of N P count c) ≡ None }
    ensures short_file { (c : Shape) → IsLawful 16 8 c → length (bytes_of_words (words_of 16 8 c)) < 16777216 }
    ensures short_mark { (count : ℕ) (c : Shape) → IsLawful 16 8 c → length (mark_of 16 8 count c) < 16777216 }
{}

/// A file that is written of a program's configuration, or of its checkpoint, is one of which the laws on such files speak.
pub fn kept_law()
    ensures file { (files : List ℕ → Option (List ℕ)) (name : List ℕ) (target : Target) (kept : List ℕ)
        → IsWritten files name target kept → IsKept files name target kept }
    ensures mark { (files : List ℕ → Option (List ℕ)) (name : List ℕ) (target : Target) (rows : List (List ℕ))
        (kept : List ℕ) → IsMarkWritten files name target rows kept → IsMarkKept files name target rows kept }
{}
