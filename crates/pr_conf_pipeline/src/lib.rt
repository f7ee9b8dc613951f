//! What a pipeline of stages makes of a whole list of rows: definitions and their laws. Nothing here runs.
//!
//! A pipeline is a function from a stage's number to its step: the state that the stage begins with, and the state and
//! the row that it makes of a state and a row. A stage works through the complete list, and only then does the one above
//! it begin. The laws hold for states and rows of every type (`proofs/`); the functions below state them for lists of bytes.
#![tactic(auto)]

ghost use Rattle.std.specs.Prelude.{ℕ, ◌≡◌, ◌+◌, List, ◌++◌, length, take};
ghost use Rattle.pr_conf_pipeline.specs.Rows.{BytePipeline, rows, state_after, through, resumed};

/// Every sample gives one row, and the first rows are those of the first samples: what comes later changes nothing.
pub fn first_samples_law()
    ensures count { (M : BytePipeline) (s : ℕ) (xs : List (List ℕ)) → length (rows M s xs) ≡ length xs }
    ensures first { (M : BytePipeline) (s j : ℕ) (xs : List (List ℕ)) → take j (rows M s xs) ≡ rows M s (take j xs) }
    ensures results { (M : BytePipeline) (v j : ℕ) (tap : List ℕ → List ℕ) (xs : List (List ℕ))
        → take j (through M v tap xs) ≡ through M v tap (take j xs) }
{}

/// The samples that follow others meet stages that begin where those left them.
pub fn resume_law()
    ensures rows { (M : BytePipeline) (s : ℕ) (xs ys : List (List ℕ))
        → rows M s (xs ++ ys) ≡ rows M s xs ++ rows (resumed M xs) s ys }
    ensures states { (M : BytePipeline) (s j : ℕ) (xs ys : List (List ℕ))
        → state_after M s (length xs + j) (xs ++ ys) ≡ state_after (resumed M xs) s j ys }
    ensures results { (M : BytePipeline) (v : ℕ) (tap : List ℕ → List ℕ) (xs ys : List (List ℕ))
        → through M v tap (xs ++ ys) ≡ through M v tap xs ++ through (resumed M xs) v tap ys }
{}
