//! How long runs take: samples by cycles, and the cycles of so many samples.

ghost use Rattle.std.specs.Prelude.{◌≡◌, ◌≤◌, ◌<◌, ◌^◌, ℕ, map, IfOk};
ghost use Rattle.pr_control.specs.Counts as counts;
ghost use Rattle.pr_lens_cost.specs.Rates as rates;

use std::alloc::{AllocError, Global};

/// How many samples go through in how many cycles, over and over.
#[derive(Clone, Copy)]
pub struct Rate {
    pub samples: u64,
    pub cycles: u64,
}

/// The rate of so many stages on so many stripes: one sample a cycle where each stage has a stripe, and else one less
/// than there are stripes in as many cycles as there are stages.
fn rate_of(stages: u64, stripes: u64) -> Rate
    requires { 2 ≤ stripes }
    ensures { result ≡ rates.rate_of stages stripes }
{
    if stages <= stripes {
        return Rate {
            samples: 1,
            cycles: 1,
        };
    }
    Rate {
        samples: stripes - 1,
        cycles: stages,
    }
}

/// After how many cycles the last of so many samples has left, where samples are always ready and results always taken.
fn cycles_of(stages: u64, stripes: u64, samples: u64) -> u64
    requires stages { stages ≤ 32768 }
    requires least { 2 ≤ stripes }
    requires greatest { stripes ≤ 256 }
    requires samples { samples ≤ 2 ^ 40 }
    ensures { result ≡ counts.cycles_of stages stripes samples }
{
    if samples == 0 {
        return 0;
    }
    let others = samples - 1;
    if stages <= stripes {
        return others + 1 + stages;
    }
    let turns = others / (stripes - 1);
    let rest = others % (stripes - 1);
    stages * (turns + 1) + rest + 1
}

/// How long a run takes on so many stripes.
#[derive(Clone, Copy)]
pub struct Row {
    pub stripes: u64,
    /// The samples that go through in so many cycles.
    pub rate: Rate,
    /// The cycles of the run.
    pub cycles: u64,
}

fn row_of(stages: u64, samples: u64, stripes: u64) -> Row
    requires stages { stages ≤ 32768 }
    requires samples { samples ≤ 2 ^ 40 }
    requires least { 2 ≤ stripes }
    requires greatest { stripes ≤ 256 }
    ensures { result ≡ rates.row_of stages samples stripes }
{
    Row {
        stripes,
        rate: rate_of(stages, stripes),
        cycles: cycles_of(stages, stripes, samples),
    }
}

/// How long a run of so many samples through so many stages takes, by stripes.
pub fn rows_of(alloc: Global, stages: u64, samples: u64) -> Result<Vec<Row>, AllocError>
    requires stages { stages ≤ 32768 }
    requires samples { samples ≤ 2 ^ 40 }
    ensures { IfOk result (λ rows. rows.items ≡ map (rates.row_of stages samples) rates.told_stripes) }
{
    let rows = vec![in alloc;
        row_of(stages, samples, 2),
        row_of(stages, samples, 3),
        row_of(stages, samples, 4),
        row_of(stages, samples, 7),
        row_of(stages, samples, 8),
        row_of(stages, samples, 16),
        row_of(stages, samples, 32),
        row_of(stages, samples, 64),
        row_of(stages, samples, 128),
        row_of(stages, samples, 256),
    ]?;
    Ok(rows)
}

/// The rate is that of the cycles: so many samples more take so many cycles more.
pub fn rate_law()
    ensures { (v p n : ℕ) → 2 ≤ p → 0 < n → rates.TakesTheRate v p n }
{}
