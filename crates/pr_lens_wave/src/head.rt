//! The signals of a waveform.

ghost use Rattle.std.specs.Prelude.{◌≡◌, ◌++◌, OnOk};
ghost use Rattle.pr_lens_wave.specs.Waves.{signal_text, stripe_text, stripes_text, signals_text, head_text};

use crate::values::put_name;
use pr_lens_text::{put, put_counted};
use std::alloc::AllocError;

/// What is shown of a cycle.
#[derive(Clone, Copy)]
pub enum Signal {
    Cycle,
    Stalled,
    /// The sample that enters.
    Sample,
    /// The result that leaves.
    Result,
    /// The samples that have entered and whose results have not left.
    UnderWay,
    /// The results that have left and are not written.
    Waiting,
    /// The stage in a stripe.
    Stage(usize),
    /// Whether a stage comes into a stripe.
    Configured(usize),
}

impl Signal {
    ghost use Rattle.pr_lens_wave.specs.Waves.{number_of, label_of, bits_of};

    /// Its number among all signals.
    pub fn number(self) -> usize
        ensures { result ≡ number_of self }
    {
        match self {
            Signal::Cycle => 0,
            Signal::Stalled => 1,
            Signal::Sample => 2,
            Signal::Result => 3,
            Signal::UnderWay => 4,
            Signal::Waiting => 5,
            Signal::Stage(stripe) => stripe.saturating_mul(2).saturating_add(6),
            Signal::Configured(stripe) => stripe.saturating_mul(2).saturating_add(7),
        }
    }

    /// Its name.
    fn name(self) -> &'static str
        ensures { result.now ≡ label_of self }
    {
        match self {
            Signal::Cycle => "cycle",
            Signal::Stalled => "stalled",
            Signal::Sample => "sample_in",
            Signal::Result => "result_out",
            Signal::UnderWay => "under_way",
            Signal::Waiting => "results_waiting",
            Signal::Stage(_) => "stage",
            Signal::Configured(_) => "configured",
        }
    }

    /// How many bits it has.
    fn bits(self) -> usize
        ensures { result ≡ bits_of self }
    {
        match self {
            Signal::Stalled | Signal::Configured(_) => 1,
            Signal::Cycle | Signal::Sample | Signal::Result => 64,
            Signal::UnderWay => 32,
            Signal::Stage(_) => 16,
            Signal::Waiting => 8,
        }
    }
}

/// Adds a signal.
#[tactic(auto, unfolding(crate::specs::Waves::signal_text))]
fn put_signal(text: &mut Vec<u8>, signal: Signal) -> Result<(), AllocError>
    ensures { OnOk result (text.new.items ≡ text.old.items ++ signal_text signal) }
{
    put_counted(text, "$var wire ", signal.bits())?;
    put(text, " ")?;
    put_name(text, signal.number())?;
    put(text, " ")?;
    put(text, signal.name())?;
    put(text, " $end\n")
}

/// Adds the scope of a stripe.
#[tactic(auto, unfolding(crate::specs::Waves::stripe_text))]
fn put_stripe(text: &mut Vec<u8>, stripe: usize) -> Result<(), AllocError>
    ensures { OnOk result (text.new.items ≡ text.old.items ++ stripe_text stripe) }
{
    put_counted(text, "$scope module stripe_", stripe)?;
    put(text, " $end\n")?;
    put_signal(text, Signal::Stage(stripe))?;
    put_signal(text, Signal::Configured(stripe))?;
    put(text, "$upscope $end\n")
}

/// Adds the signals beside those of the stripes.
#[tactic(auto, unfolding(crate::specs::Waves::signals_text))]
fn put_signals(text: &mut Vec<u8>) -> Result<(), AllocError>
    ensures { OnOk result (text.new.items ≡ text.old.items ++ signals_text) }
{
    put_signal(text, Signal::Cycle)?;
    put_signal(text, Signal::Stalled)?;
    put_signal(text, Signal::Sample)?;
    put_signal(text, Signal::Result)?;
    put_signal(text, Signal::UnderWay)?;
    put_signal(text, Signal::Waiting)
}

/// Adds the scopes of the first so many stripes.
#[tactic(auto, using(crate::proofs::WaveLaws::stripes_more), unfolding(crate::specs::Waves::stripes_text))]
fn put_stripes(text: &mut Vec<u8>, stripes: usize) -> Result<(), AllocError>
    ensures { OnOk result (text.new.items ≡ text.old.items ++ stripes_text stripes) }
{
    for stripe in 0..stripes {
        put_stripe(text, stripe)?;
    }
    Ok(())
}

/// Adds all signals, for so many stripes.
#[tactic(auto, unfolding(crate::specs::Waves::head_text))]
pub fn put_head(text: &mut Vec<u8>, stripes: usize) -> Result<(), AllocError>
    ensures { OnOk result (text.new.items ≡ text.old.items ++ head_text stripes) }
{
    put(text, "$comment a run on a fabric, from its log $end\n")?;
    put(text, "$timescale 1 ns $end\n$scope module run $end\n")?;
    put_signals(text)?;
    put_stripes(text, stripes)?;
    put(text, "$upscope $end\n$enddefinitions $end\n")
}
