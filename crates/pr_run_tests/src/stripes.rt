//! One configuration on several numbers of stripes.

use crate::fabrics::{BEFORE, PASSING};
use crate::machine_trials::{Setting, play_new};
use pr_conf::{Carry, Mode, Next, Pe, Source};
use std::alloc::{AllocError, Global};
use std::process::Abort;

/// The states that the stages begin with.
const FIRST_STATES: [u8; 7] = [11, 41, 71, 101, 131, 161, 191];

/// A stage that adds its state, and one more in every third; the state becomes the sum in the even stages, and else what
/// was read.
fn adder(stage: usize, init: u8) -> Pe {
    Pe {
        a: if stage == 0 { Source::Bus(0) } else { BEFORE },
        hi: Source::State(0),
        table: 0xcc,
        mode: Mode::Sum,
        cin: if stage % 3 == 2 {
            Carry::One
        } else {
            Carry::Zero
        },
        next: if stage % 2 == 0 {
            Next::Output
        } else {
            Next::A
        },
        init,
        ..PASSING
    }
}

/// What such a stage makes of a list.
fn add_states(values: &mut [u8], stage: usize, init: u8) {
    let mut state = init;
    for value in values.iter_mut() {
        let read = *value;
        *value = read
            .wrapping_add(state)
            .wrapping_add(u8::from(stage % 3 == 2));
        state = if stage % 2 == 0 { *value } else { read };
    }
}

/// Runs the samples through seven such stages on so many stripes, under a stall text that holds each side at times, and
/// checks the results.
fn check_stripes(
    rt: &impl Abort,
    alloc: Global,
    stages: &[[Pe; 2]],
    stripes: usize,
    samples: &[[u8; 1]],
    results: &[u8],
) -> Result<(), AllocError> {
    let setting = Setting {
        stages,
        stripes,
        stall: "..io.boo.ib",
        turns: 700,
    };
    let trial = play_new(rt, alloc, setting, samples)?;
    assert!(rt; trial.results.as_slice() == results, "{stripes} stripes");
    Ok(())
}

#[test]
fn any_number_of_stripes_gives_the_same_results(rt: HostRuntime) -> Result<(), AllocError> {
    let mut samples = [[0u8; 1]; 40];
    let mut results = [0u8; 40];
    for k in 0..40u8 {
        samples[usize::from(k)] = [k.wrapping_mul(67) ^ 29];
        results[usize::from(k)] = k.wrapping_mul(67) ^ 29;
    }
    let mut stages = [[Pe::IDLE; 2]; 7];
    for (stage, init) in FIRST_STATES.iter().enumerate() {
        stages[stage][0] = adder(stage, *init);
        add_states(&mut results, stage, *init);
    }
    for stripes in [2, 3, 5, 7, 8, 256] {
        check_stripes(&rt, rt.alloc(), &stages, stripes, &samples, &results)?;
    }
    Ok(())
}
