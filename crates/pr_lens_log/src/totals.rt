//! What is known of all cycles of a log.

ghost use Rattle.std.specs.Prelude.{◌≡◌, ℕ, ◌+◌, ◌<◌, ◌^◌, ◌++◌, ◌∷◌, ◌==◌, [], List, if◌then◌else◌};
ghost use Rattle.pr_lens_log.specs.declared.lines.Logged.{Logged};
ghost use Rattle.pr_lens_log.specs.Excerpts.{AreTotals, stages_to, stripes_to};

use crate::lines::Logged;

/// What is known of all cycles of a log.
#[derive(Clone, Copy)]
pub struct Totals {
    /// How many cycles there are, and how many results.
    pub count: usize,
    pub results: usize,
    /// The numbers of the first cycle and of the last.
    pub first: u64,
    pub last: u64,
    /// The number of stages that are named, and of stripes.
    pub stages: usize,
    pub stripes: usize,
}

/// How many stages there are at least.
fn stages_to(configured: Option<(u32, u32)>) -> usize
    ensures { result ≡ stages_to configured }
{
    match configured {
        None => 0,
        Some((stage, _)) => stage as usize + 1,
    }
}

/// How many stripes there are at least.
fn stripes_to(configured: Option<(u32, u32)>) -> usize
    ensures { result ≡ stripes_to configured }
{
    match configured {
        None => 0,
        Some((_, stripe)) => stripe as usize + 1,
    }
}

impl Totals {
    /// No cycle, and no result.
    pub fn none() -> Totals
        ensures { AreTotals [] 0 result }
    {
        Totals {
            count: 0,
            results: 0,
            first: 0,
            last: 0,
            stages: 0,
            stripes: 0,
        }
    }

    /// The number of the first cycle, where there is one more of this number.
    fn first_with(self, time: u64) -> u64
        ensures { result ≡ (if self.count == 0 then time else self.first) }
    {
        if self.count == 0 { time } else { self.first }
    }

    /// One cycle more.
    pub fn with(self, logged: &Logged) -> Totals
        requires { self.count + 1 < 2 ^ 64 }
        ensures totals { (cycles : List Logged) (results : ℕ) → AreTotals cycles results self
            → AreTotals (cycles ++ logged.now ∷ []) results result }
        ensures count { result.count ≡ self.count + 1 }
        ensures results { result.results ≡ self.results }
    {
        let configured = logged.turn.configured;
        Totals {
            count: self.count + 1,
            results: self.results,
            first: self.first_with(logged.time),
            last: logged.time,
            stages: self.stages.max(stages_to(configured)),
            stripes: self.stripes.max(stripes_to(configured)),
        }
    }
}
