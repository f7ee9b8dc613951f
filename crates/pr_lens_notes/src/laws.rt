//! What is known of comments. Nothing here runs.

ghost use Rattle.std.specs.Prelude.{◌≡◌, ◌<◌, ◌≤◌, ℕ, None, option_map};
ghost use Rattle.pr_net.specs.Shape.{NetShape};
ghost use Rattle.pr_net.specs.Nets.{IsNet};
ghost use Rattle.pr_place.specs.Placements.{PlacementShape, column_of, stage_of};
ghost use Rattle.pr_place.specs.Greedy.{IsGreedy};
ghost use Rattle.pr_place.specs.Sound.{IsCell};
ghost use Rattle.pr_lens_origins.specs.declared.streams.Origins.{Origins};
ghost use Rattle.pr_lens_origins.specs.Origins.{stream_of};
ghost use Rattle.pr_lens_rtl_text.specs.declared.notes.Notes.{Notes};
ghost use Rattle.pr_lens_rtl_text.specs.Notes.{label_of};
ghost use Rattle.pr_lens_notes.specs.Labels.{label_of as stream_label};
ghost use Rattle.pr_lens_notes.specs.Noted.{AreNotesFor};

use pr_place::placement_law;

/// In the placement of the greedy rule, the column in which a cell of a unit stands has the label of the stream that
/// the unit is made for, if it is made for one. A column in which no cell stands has no label.
pub fn notes_law()
    ensures named { (N P : ℕ) (net : NetShape) (p : PlacementShape) (origins : Origins) (notes : Notes)
        → IsNet N net → 2 ≤ P → IsGreedy N P net p → AreNotesFor N p origins notes → (u i : ℕ) → IsCell net u i
        → label_of notes (stage_of p u) (column_of p u i) ≡ option_map stream_label (stream_of origins u) }
    ensures bare { (N P : ℕ) (net : NetShape) (p : PlacementShape) (origins : Origins) (notes : Notes)
        → IsNet N net → 2 ≤ P → IsGreedy N P net p → AreNotesFor N p origins notes
        → (stage col : ℕ) → stage < p.stages → col < N
        → ((u i : ℕ) → IsCell net u i → stage_of p u ≡ stage → column_of p u i ≡ col → ⊥)
        → label_of notes stage col ≡ None }
{
    placement_law();
}
