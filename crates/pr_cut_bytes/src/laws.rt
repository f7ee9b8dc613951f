//! The law of the bytes that the net of flat equations shows.

ghost use Rattle.std.specs.Prelude.{◌≡◌, ◌<◌, ℕ, None, List};
ghost use Rattle.std.specs.List.{All};
ghost use Rattle.pr_flat.specs.Laws.{AreSamples, EachFlat};
ghost use Rattle.pr_net.specs.Runs.{Runs};
ghost use Rattle.pr_net.specs.Whole.{net_reading, ShowsBytes};
ghost use Rattle.pr_cut_units.specs.Nets.{net_of, limit_passed};
ghost use Rattle.pr_cut_bytes.specs.Bytes.{byte_lists, EquationsGiveBytes, OutputsGiveBytes};

/// The net that `cut` of `pr_cut` makes of flat equations shows bytes. Where it is within the limits of a fabric, it
/// runs on all samples, and keeps the rules of nets by `lawful_law` of `pr_cut_units`. The laws of `pr_route` ask for
/// these three.
///
/// On lawful samples the slices of each input, of each equation from which an output can be reached, and of each output
/// give the bytes of its numbers. Each of these bytes is below 256.
pub fn cut_bytes_law()
    ensures runs { (columns : ℕ) → EachFlat (λ equations outputs widths.
        limit_passed columns (net_of equations widths outputs) ≡ None → (samples : List (List ℕ)) →
        Runs (net_of equations widths outputs).units (net_reading (net_of equations widths outputs) samples)) }
    ensures bytes { EachFlat (λ equations outputs widths. ShowsBytes (net_of equations widths outputs)) }
    ensures equations { EachFlat (λ equations outputs widths. (samples : List (List ℕ)) → AreSamples equations samples →
        EquationsGiveBytes equations widths outputs samples) }
    ensures outputs { EachFlat (λ equations outputs widths. (samples : List (List ℕ)) → AreSamples equations samples →
        OutputsGiveBytes equations widths outputs samples) }
    ensures small { (w : ℕ) (numbers : List ℕ) → All (All (λ b. b < 256)) (byte_lists w numbers) }
{}
