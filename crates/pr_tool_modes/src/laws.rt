//! Laws of verdicts.

ghost use Rattle.std.specs.Prelude.{◌≡◌, ◌+◌, ◌++◌, ℕ, List, All, length, Option, Some};
ghost use Rattle.pr_base.specs.Rows.{IsRow};
ghost use Rattle.pr_base.specs.Laws.{AtMostOne};
ghost use Rattle.pr_conf.specs.Shape.{Shape};
ghost use Rattle.pr_conf.specs.After.{conf_after};
ghost use Rattle.pr_edge.specs.Tape.{Appends};
ghost use Rattle.pr_lang.specs.declared.trees.Program.{Program};
ghost use Rattle.pr_lang_meaning.specs.Programs.{out};
ghost use Rattle.pr_samples.specs.Fed.{Ending};
ghost use Rattle.pr_tool_answers.specs.declared.answers.Answer.{Answer};
ghost use Rattle.pr_tool_modes.specs.declared.benches.Bench.{Bench};
ghost use Rattle.pr_tool_modes.specs.declared.targets.Target.{Target};
ghost use Rattle.pr_tool_modes.specs.Behaviours.{from_source, IsKept};
ghost use Rattle.pr_tool_modes.specs.Calls.{Call};
ghost use Rattle.pr_tool_modes.specs.Evaluations.{IsEvalVerdict};
ghost use Rattle.pr_tool_modes.specs.Executions.{IsRunVerdict};
ghost use Rattle.pr_tool_modes.specs.Folds.{mark_after};
ghost use Rattle.pr_tool_modes.specs.Jobs.{Job};
ghost use Rattle.pr_tool_modes.specs.Lines.{IsWholeRun, MeansLines, NoMore};
ghost use Rattle.pr_tool_modes.specs.Programs.{HasProgram};
ghost use Rattle.pr_tool_modes.specs.Resumptions.{GoesOn, IsMarkKept};
ghost use Rattle.pr_tool_modes.specs.Samples.{pieces};
ghost use Rattle.pr_tool_modes.specs.Sources.{ConfSource, File, Text, Mark, Gives};
ghost use Rattle.pr_tool_modes.specs.Texts.{IsTextVerdict};

/// Files alone fix the answer of a mode: each mode has one verdict at most. All programs of one file mean the same, so
/// their lines are one text.
pub fn verdict_law()
    ensures text { (files : List ℕ → Option (List ℕ)) (source : ConfSource) → AtMostOne (IsTextVerdict files source) }
    ensures eval { (files : List ℕ → Option (List ℕ)) (first second : List ℕ)
        → AtMostOne (IsEvalVerdict files first second) }
    ensures run { (files : List ℕ → Option (List ℕ)) (j : Job) → AtMostOne (IsRunVerdict files j) }
    ensures meaning { (files : List ℕ → Option (List ℕ)) (name : List ℕ) (p q : Program) (v w : List ℕ)
        → HasProgram (Some files) name p v → HasProgram (Some files) name q w
        → (rows : List (List ℕ)) → out p rows ≡ out q rows }
{}

/// One file, one behaviour. The file that is written of a program's configuration is read as this configuration. So a
/// run of the file and a run of the program have the same verdict, with the same samples, stripes, stall text and log.
/// Where both have fed all samples, they have written the same text.
pub fn behaviour_law()
    ensures gives { (files : List ℕ → Option (List ℕ)) (name : List ℕ) (target : Target) (kept : List ℕ)
        → (k : IsKept files name target kept) → Gives (Some files) (File kept) k.N k.P k.conf }
    ensures verdict { (files : List ℕ → Option (List ℕ)) (name : List ℕ) (target : Target) (kept : List ℕ) (j : Job)
        (a : Answer) → IsKept files name target kept
        → IsRunVerdict files (from_source (Text name target) j) a → IsRunVerdict files (from_source (File kept) j) a }
    ensures text { (files : List ℕ → Option (List ℕ)) (name : List ℕ) (target : Target) (kept : List ℕ) (j : Job)
        (samples : List ℕ) (c d : Call) (one other : Bench) (e f : Ending)
        → IsKept files name target kept
        → IsWholeRun (MeansLines files (from_source (Text name target) j)) files
        (from_source (Text name target) j) samples c one e
        → IsWholeRun NoMore files (from_source (File kept) j) samples d other f
        → (e ≡ f) × ((text : List ℕ) × Appends c.old c.new text × Appends d.old d.new text) }
{}

/// Checkpoints keep the meaning. A program's lines on further samples are those of its configuration after the first
/// ones, so `move` writes the rest of what the program means. The file of a checkpoint is read as that checkpoint. The
/// checkpoint after further samples is the one after all of them.
pub fn moving_law()
    ensures lines { (files : List ℕ → Option (List ℕ)) (name : List ℕ) (target : Target) (N P : ℕ) (conf : Shape)
        (xs ys : List (List ℕ)) → Gives (Some files) (Text name target) N P conf
        → All (IsRow conf.inputs) xs → All (IsRow conf.inputs) ys → GoesOn files name N P conf xs ys }
    ensures kept { (files : List ℕ → Option (List ℕ)) (name : List ℕ) (target : Target) (rows : List (List ℕ))
        (kept : List ℕ) → (k : IsMarkKept files name target rows kept)
        → Gives (Some files) (Mark kept (length rows)) k.N k.P (conf_after k.N k.P k.conf (pieces k.conf rows)) }
    ensures chain { (N P before : ℕ) (conf : Shape) (xs ys : List (List ℕ))
        → mark_after N P (before + length xs) (conf_after N P conf (pieces conf xs)) ys ≡ mark_after N P before conf
        (xs ++ ys) }
{}
