//! The law of generated samples.
ghost use Rattle.std.specs.Prelude.{◌≡◌, ◌≤◌, ◌^◌, ◌∷◌, [], ℕ, List, length};
ghost use Rattle.pr_edge.specs.Tape.{Tape, Appends};
ghost use Rattle.pr_gen.specs.Texts.{sample_lines};
ghost use Rattle.pr_run.specs.Turns.{Going};
ghost use Rattle.pr_samples.specs.Fed.{End};
ghost use Rattle.pr_tool_modes.specs.Generations.{Generation, HasGenerated, rows_for};
ghost use Rattle.pr_tool_modes.specs.Samples.{fed_in};
ghost use Rattle.pr_tool_laws.specs.Generated.{sample_rows, all_fed};

/// A line of the generated samples gives a sample of one number. An input of 16 bits takes the samples of all lines.
/// Whatever the inputs are, they take all where no line is bad and no limit is met. So a run of `gen` that ends with Ok
/// had a thousand samples.
pub fn generated_law()
    ensures read { (count : ℕ) → count ≤ 2 ^ 40 → fed_in (16 ∷ []) (sample_lines count) ≡ all_fed count }
    ensures ended { (widths : List ℕ) (count : ℕ) → count ≤ 2 ^ 40 → (fed_in widths (sample_lines count)).ending ≡ End
        → (fed_in widths (sample_lines count)).samples ≡ sample_rows count }
    ensures many { (count : ℕ) → length (sample_rows count) ≡ count }
    ensures run { (N P : ℕ) (g : Generation) (old new : Tape) (machine : Going N P)
        → (h : HasGenerated g (Appends old new) machine) → rows_for h.conf ≡ sample_rows 1000 }
{}
