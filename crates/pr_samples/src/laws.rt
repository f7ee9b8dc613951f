//! Laws of the texts.
ghost use Rattle.std.specs.Prelude.{◌≡◌, ◌≢◌, ◌<◌, ◌↔◌, ◌++◌, ◌≤◌, ℕ, List, All, true, length};
ghost use Rattle.pr_base.specs.Rows.{IsRow};
ghost use Rattle.pr_samples.specs.declared.feed.Feed.{Feed};
ghost use Rattle.pr_samples.specs.declared.tails.Tail.{Tail};
ghost use Rattle.pr_samples.specs.Fed.{begins_lawful, IsLawful, fed_of};
ghost use Rattle.pr_samples.specs.Feed.{StandsFor, given_of, whole_samples};

/// The bytes of a line that the limit cuts may begin a sample exactly where some line of which they are the first is one.
pub fn cut_law()
    ensures { (widths bytes : List ℕ) →
        (begins_lawful widths bytes ≡ true) ↔ ((rest : List ℕ) × IsLawful widths (bytes ++ rest)) }
{}

/// A feed that gave the samples of more lines than stand with their LF in its file has met the file's end, and reads no more.
pub fn last_line_law()
    ensures { (f : Feed) (file : List ℕ) → StandsFor f file →
        length (whole_samples f file) < given_of f → f.tail ≢ Tail.Open }
{}

/// The samples of a file have a number for each input, below 2 to the power of its width, and are as many as are allowed at
/// most.
pub fn samples_law()
    ensures rows { (widths : List ℕ) (limit most : ℕ) (file : List ℕ) →
        All (IsRow widths) (fed_of widths limit most file).samples }
    ensures count { (widths : List ℕ) (limit most : ℕ) (file : List ℕ) →
        length (fed_of widths limit most file).samples ≤ most }
{}
