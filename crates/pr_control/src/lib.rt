//! When stages are where: the arithmetic of the cycles, a plan that follows it, and the states of all stages.
//!
//! A fabric has v stages and p stripes. In cycle t the event of that cycle puts one stage into one stripe; the stages
//! that are in a stripe compute, but for the one whose stripe the event meets. `specs/` defines the events, who is where
//! and who computes; `laws` states the laws that a machine rests on.
#![tactic(auto)]

ghost use Rattle.std.specs.Prelude.{ℕ, ◌≡◌, ◌+◌, ◌<◌, ◌≤◌, ◌%◌, ◌^◌, Option, Some, None};
ghost use Rattle.pr_control.specs.Time.{event, turned, ahead, back, before, IsActive, IsRing, IsInside, IsResident};

pub mod laws;
mod states;

pub use states::Store;

/// Which stage comes into which stripe, cycle by cycle, from cycle 0 on.
///
/// It counts stages and stripes beside the cycles, so that no cycle divides.
#[derive(Drop)]
pub struct Plan {
    stages: u32,
    stripes: u32,
    time: u64,
    stage: u32,
    stripe: u32,
    ghost some: { 0 < stages },
    ghost two: { 2 ≤ stripes },
    ghost few: { stripes ≤ 256 },
    ghost stage_is: { stage ≡ time % stages },
    ghost stripe_is: { stripe ≡ time % stripes },
}

/// The count after `q`, which goes round below `n`.
#[tactic(auto, using(crate::proofs::Round::ahead_cases))]
fn after(n: u32, q: u32) -> u32
    requires { q < n }
    ensures { result ≡ ahead n q }
{
    if q + 1 == n { 0 } else { q + 1 }
}

/// The place before place `q` of `n`; of the first place it is the last.
pub fn place_before(n: usize, q: usize) -> usize
    requires { q < n }
    ensures { result ≡ before n q }
{
    if q == 0 { n - 1 } else { q - 1 }
}

/// Where a count that goes round below `n` stood `d + 1` steps before it stood at `q`.
#[tactic(auto, using(crate::proofs::Round::back_cases))]
pub fn place_back(n: usize, q: usize, d: usize) -> usize
    requires at { q < n }
    requires by { d < n }
    requires small { n < 2 ^ 32 }
    ensures is { result ≡ back n q d }
    ensures below { result < n }
{
    if d < q { q - 1 - d } else { q + n - 1 - d }
}

impl Plan {
    /// The plan of so many stages on so many stripes, at cycle 0.
    pub fn make(stages: u32, stripes: u32) -> Plan
        requires some { 0 < stages }
        requires two { 2 ≤ stripes }
        requires few { stripes ≤ 256 }
        ensures stages { result.stages ≡ stages }
        ensures stripes { result.stripes ≡ stripes }
        ensures time { result.time ≡ 0 }
    {
        Plan {
            stages,
            stripes,
            time: 0,
            stage: 0,
            stripe: 0,
        }
    }

    /// The number of the cycle.
    pub fn time(&self) -> u64
        ensures { result ≡ self.now.time }
    {
        self.time
    }

    /// The stripe and the stage of this cycle's event; none where no event falls.
    pub fn peek(&self) -> Option<(u32, u32)>
        ensures { result ≡ turned (event self.now.stages self.now.stripes self.now.time) }
    {
        if self.stripes < self.stages {
            return Some((self.stripe, self.stage));
        }
        if self.time < u64::from(self.stages) {
            return Some((self.stripe, self.stage));
        }
        None
    }

    /// The stripe and the stage of this cycle's event, and the plan goes on to the next cycle, also where no event falls.
    pub fn next(&mut self) -> Option<(u32, u32)>
        requires { self.old.time < 2 ^ 63 }
        ensures event { result ≡ turned (event self.old.stages self.old.stripes self.old.time) }
        ensures inside { IsInside self.old.stages self.old.stripes result }
        ensures time { self.new.time ≡ self.old.time + 1 }
        ensures stages { self.new.stages ≡ self.old.stages }
        ensures stripes { self.new.stripes ≡ self.old.stripes }
    {
        let event = self.peek();
        self.stage = after(self.stages, self.stage);
        self.stripe = after(self.stripes, self.stripe);
        self.time += 1;
        event
    }

    /// The stripe of this cycle's event where there are more stages than stripes, so that every cycle has one.
    pub fn ring(&self) -> Option<usize>
        ensures { IsRing self.now.stages self.now.stripes self.now.time result }
    {
        if self.stages <= self.stripes {
            None
        } else {
            Some(self.stripe as usize)
        }
    }

    /// The stripe in which a stage computes in this cycle; none where it does not compute.
    pub fn active(&self, stage: u32) -> Option<usize>
        requires { stage < self.now.stages }
        ensures { IsActive self.now.stages self.now.stripes self.now.time stage result }
    {
        if self.time <= u64::from(stage) {
            return None;
        }
        if self.stages <= self.stripes {
            return Some(stage as usize);
        }
        let age = place_back(self.stages as usize, self.stage as usize, stage as usize);
        if age + 1 < self.stripes as usize {
            return Some(place_back(self.stripes as usize, self.stripe as usize, age));
        }
        None
    }

    /// Whether a stage is in a stripe in this cycle.
    pub fn resident(&self, stage: u32) -> bool
        requires { stage < self.now.stages }
        ensures { IsResident self.now.stages self.now.stripes self.now.time stage result }
    {
        if self.time <= u64::from(stage) {
            return false;
        }
        if self.stages <= self.stripes {
            return true;
        }
        place_back(self.stages as usize, self.stage as usize, stage as usize)
            < self.stripes as usize
    }
}
