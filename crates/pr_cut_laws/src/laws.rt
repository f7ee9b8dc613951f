//! Laws of what the net of flat equations shows.

ghost use Rattle.std.specs.Prelude.{◌<◌, ◌≤◌, ◌*◌, ◌%◌, ◌^◌, ℕ, Bool, List};
ghost use Rattle.pr_flat.specs.Laws.{AreSamples, EachFlat};
ghost use Rattle.pr_net.specs.declared.cells.Slice.{Slice};
ghost use Rattle.pr_net.specs.Reading.{Reading, shown};
ghost use Rattle.pr_net.specs.Runs.{AreBytes};
ghost use Rattle.pr_cut_units.specs.Products.{product};
ghost use Rattle.pr_cut_units.specs.Shifts.{shifted_by};
ghost use Rattle.pr_cut_laws.specs.Laws.{AreEarlier, AreShown, GivesLists, ShowsPart, shifted};

/// The net of flat equations gives the lists of their outputs, on all lawful samples.
pub fn net_law()
    ensures { EachFlat (λ equations outputs widths. (samples : List (List ℕ)) → AreSamples equations samples →
        GivesLists equations widths outputs samples) }
{}

/// The slices of each input, and of each equation from which an output can be reached, show its list.
pub fn cut_law()
    ensures { EachFlat (λ equations outputs widths. (samples : List (List ℕ)) → AreSamples equations samples →
        AreShown equations widths outputs samples) }
{}

/// Wherever the units of a product stand in a net, its slices show the product of what the operands show there.
pub fn product_law()
    ensures { (r : Reading) (u bits wa wb : ℕ) (a b : List Slice) → 1 ≤ bits → 1 ≤ wb →
        AreBytes r → AreEarlier u a → AreEarlier u b → shown r a < 2 ^ wa → shown r b < 2 ^ wb →
        ShowsPart r u (product bits a wa b wb) ((shown r a * shown r b) % 2 ^ bits) }
{}

/// Wherever the units of a shift by an operand stand in a net, its slices show the number that is shifted so.
pub fn shift_law()
    ensures { (left : Bool) (r : Reading) (u wa wby : ℕ) (a by : List Slice) → 1 ≤ wa → wa ≤ 128 →
        AreBytes r → AreEarlier u a → AreEarlier u by → shown r a < 2 ^ wa → shown r by < 2 ^ wby →
        ShowsPart r u (shifted_by left wa by wby a) (shifted left (shown r a) (shown r by) % 2 ^ wa) }
{}
