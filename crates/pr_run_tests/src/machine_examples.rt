//! Worked examples: each cycle of a machine, the states it saves, and its results.

use crate::fabrics::{FOUR_NOTS, SUM_COMPLEMENT, XOR, machine_of};
use crate::machine_trials::{Setting, offer, play_new, take};
use pr_machine::{Machine, Running};
use std::alloc::{AllocError, Global};
use std::process::Abort;

/// Runs samples through a new machine, and checks the log, which has what each cycle did and the rows of the states that
/// were saved, and the results.
fn check_run<const B: usize>(
    rt: &impl Abort,
    alloc: Global,
    setting: Setting<'_>,
    samples: &[[u8; B]],
    log: &str,
    results: &[u8],
) -> Result<(), AllocError> {
    let trial = play_new(rt, alloc, setting, samples)?;
    assert_eq!(rt; trial.log.as_str(), log);
    assert!(rt; trial.results.as_slice() == results);
    Ok(())
}

/// The log of five stages on three stripes.
const ON_THREE: &str = "\
cycle 0 conf Some((0, 0)) save None in None out None
cycle 1 conf Some((1, 1)) save None in Some(0) out None
cycle 2 conf Some((2, 2)) save None in Some(1) out None
cycle 3 conf Some((3, 0)) save Some(0) in None out None 0 0 0 0 0 0 0 0 0 0 0 0 0 0 0 0
cycle 4 conf Some((4, 1)) save Some(1) in None out None 0 0 0 0 0 0 0 0 0 0 0 0 0 0 0 0
cycle 5 conf Some((0, 2)) save Some(2) in None out Some(0) 0 0 0 0 0 0 0 0 0 0 0 0 0 0 0 0
cycle 6 conf Some((1, 0)) save Some(3) in Some(2) out Some(1) 0 0 0 0 0 0 0 0 0 0 0 0 0 0 0 0
cycle 7 conf Some((2, 1)) save Some(4) in Some(3) out None 0 0 0 0 0 0 0 0 0 0 0 0 0 0 0 0
cycle 8 conf Some((3, 2)) save Some(0) in None out None 0 0 0 0 0 0 0 0 0 0 0 0 0 0 0 0
cycle 9 conf Some((4, 0)) save Some(1) in None out None 0 0 0 0 0 0 0 0 0 0 0 0 0 0 0 0
cycle 10 conf Some((0, 1)) save Some(2) in None out Some(2) 0 0 0 0 0 0 0 0 0 0 0 0 0 0 0 0
cycle 11 conf Some((1, 2)) save Some(3) in None out Some(3) 0 0 0 0 0 0 0 0 0 0 0 0 0 0 0 0
";

#[test]
fn five_stages_on_three_stripes(rt: HostRuntime) -> Result<(), AllocError> {
    let setting = Setting {
        stages: FOUR_NOTS,
        stripes: 3,
        stall: "",
        turns: 12,
    };
    check_run(
        &rt,
        rt.alloc(),
        setting,
        &[[1], [2], [3], [4]],
        ON_THREE,
        &[1, 2, 3, 4],
    )
}

/// The log of five stages on two stripes.
const ON_TWO: &str = "\
cycle 0 conf Some((0, 0)) save None in None out None
cycle 1 conf Some((1, 1)) save None in Some(0) out None
cycle 2 conf Some((2, 0)) save Some(0) in None out None 0 0 0 0 0 0 0 0 0 0 0 0 0 0 0 0
cycle 3 conf Some((3, 1)) save Some(1) in None out None 0 0 0 0 0 0 0 0 0 0 0 0 0 0 0 0
cycle 4 conf Some((4, 0)) save Some(2) in None out None 0 0 0 0 0 0 0 0 0 0 0 0 0 0 0 0
cycle 5 conf Some((0, 1)) save Some(3) in None out Some(0) 0 0 0 0 0 0 0 0 0 0 0 0 0 0 0 0
cycle 6 conf Some((1, 0)) save Some(4) in Some(1) out None 0 0 0 0 0 0 0 0 0 0 0 0 0 0 0 0
cycle 7 conf Some((2, 1)) save Some(0) in None out None 0 0 0 0 0 0 0 0 0 0 0 0 0 0 0 0
cycle 8 conf Some((3, 0)) save Some(1) in None out None 0 0 0 0 0 0 0 0 0 0 0 0 0 0 0 0
cycle 9 conf Some((4, 1)) save Some(2) in None out None 0 0 0 0 0 0 0 0 0 0 0 0 0 0 0 0
cycle 10 conf Some((0, 0)) save Some(3) in None out Some(1) 0 0 0 0 0 0 0 0 0 0 0 0 0 0 0 0
cycle 11 conf Some((1, 1)) save Some(4) in Some(2) out None 0 0 0 0 0 0 0 0 0 0 0 0 0 0 0 0
cycle 12 conf Some((2, 0)) save Some(0) in None out None 0 0 0 0 0 0 0 0 0 0 0 0 0 0 0 0
cycle 13 conf Some((3, 1)) save Some(1) in None out None 0 0 0 0 0 0 0 0 0 0 0 0 0 0 0 0
cycle 14 conf Some((4, 0)) save Some(2) in None out None 0 0 0 0 0 0 0 0 0 0 0 0 0 0 0 0
cycle 15 conf Some((0, 1)) save Some(3) in None out Some(2) 0 0 0 0 0 0 0 0 0 0 0 0 0 0 0 0
";

#[test]
fn five_stages_on_two_stripes(rt: HostRuntime) -> Result<(), AllocError> {
    let setting = Setting {
        stages: FOUR_NOTS,
        stripes: 2,
        stall: "",
        turns: 16,
    };
    check_run(
        &rt,
        rt.alloc(),
        setting,
        &[[1], [2], [3]],
        ON_TWO,
        &[1, 2, 3],
    )
}

/// The log of five stages on five stripes.
const ON_FIVE: &str = "\
cycle 0 conf Some((0, 0)) save None in None out None
cycle 1 conf Some((1, 1)) save None in Some(0) out None
cycle 2 conf Some((2, 2)) save None in Some(1) out None
cycle 3 conf Some((3, 3)) save None in Some(2) out None
cycle 4 conf Some((4, 4)) save None in Some(3) out None
cycle 5 conf None save None in None out Some(0)
cycle 6 conf None save None in None out Some(1)
cycle 7 conf None save None in None out Some(2)
cycle 8 conf None save None in None out Some(3)
";

#[test]
fn five_stages_stay_on_five_stripes(rt: HostRuntime) -> Result<(), AllocError> {
    let setting = Setting {
        stages: FOUR_NOTS,
        stripes: 5,
        stall: "",
        turns: 9,
    };
    check_run(
        &rt,
        rt.alloc(),
        setting,
        &[[1], [2], [3], [4]],
        ON_FIVE,
        &[1, 2, 3, 4],
    )
}

/// The log of a sum on two stripes. The state of stage 1 is saved in the cycles 3, 6 and 9.
const SUM: &str = "\
cycle 0 conf Some((0, 0)) save None in None out None
cycle 1 conf Some((1, 1)) save None in Some(0) out None
cycle 2 conf Some((2, 0)) save Some(0) in None out None 0 0 0 0 0 0 0 0 0 0 0 0 0 0 0 0
cycle 3 conf Some((0, 1)) save Some(1) in None out Some(0) 0 255 0 0 0 0 0 0 0 0 0 0 0 0 0 0
cycle 4 conf Some((1, 0)) save Some(2) in Some(1) out None 0 0 0 0 0 0 0 0 0 0 0 0 0 0 0 0
cycle 5 conf Some((2, 1)) save Some(0) in None out None 0 0 0 0 0 0 0 0 0 0 0 0 0 0 0 0
cycle 6 conf Some((0, 0)) save Some(1) in None out Some(1) 0 0 0 0 0 0 0 0 0 0 0 0 0 0 0 0
cycle 7 conf Some((1, 1)) save Some(2) in Some(2) out None 0 0 0 0 0 0 0 0 0 0 0 0 0 0 0 0
cycle 8 conf Some((2, 0)) save Some(0) in None out None 0 0 0 0 0 0 0 0 0 0 0 0 0 0 0 0
cycle 9 conf Some((0, 1)) save Some(1) in None out Some(2) 0 1 0 0 0 0 0 0 0 0 0 0 0 0 0 0
";

#[test]
fn states_are_saved_and_restored(rt: HostRuntime) -> Result<(), AllocError> {
    let setting = Setting {
        stages: SUM_COMPLEMENT,
        stripes: 2,
        stall: "",
        turns: 10,
    };
    check_run(
        &rt,
        rt.alloc(),
        setting,
        &[[5], [1], [1]],
        SUM,
        &[0, 255, 254],
    )
}

/// The log of 30 samples where the outputs are held in the first 40 turns: the turns 18 to 39 stall. A sample is offered
/// in each turn, so that all are in by turn 29, and the stalls that follow change nothing.
const HELD: &str = "\
cycle 0 conf Some((0, 0)) save None in None out None
cycle 1 conf Some((1, 1)) save None in Some(0) out None
cycle 2 conf None save None in Some(1) out Some(0)
cycle 3 conf None save None in Some(2) out Some(1)
cycle 4 conf None save None in Some(3) out Some(2)
cycle 5 conf None save None in Some(4) out Some(3)
cycle 6 conf None save None in Some(5) out Some(4)
cycle 7 conf None save None in Some(6) out Some(5)
cycle 8 conf None save None in Some(7) out Some(6)
cycle 9 conf None save None in Some(8) out Some(7)
cycle 10 conf None save None in Some(9) out Some(8)
cycle 11 conf None save None in Some(10) out Some(9)
cycle 12 conf None save None in Some(11) out Some(10)
cycle 13 conf None save None in Some(12) out Some(11)
cycle 14 conf None save None in Some(13) out Some(12)
cycle 15 conf None save None in Some(14) out Some(13)
cycle 16 conf None save None in Some(15) out Some(14)
cycle 17 conf None save None in Some(16) out Some(15)
stall 18 conf None save None in None out None: entered 17 left 16 taken 0 waiting 2 and 16
stall 18 conf None save None in None out None: entered 17 left 16 taken 0 waiting 3 and 16
stall 18 conf None save None in None out None: entered 17 left 16 taken 0 waiting 4 and 16
stall 18 conf None save None in None out None: entered 17 left 16 taken 0 waiting 5 and 16
stall 18 conf None save None in None out None: entered 17 left 16 taken 0 waiting 6 and 16
stall 18 conf None save None in None out None: entered 17 left 16 taken 0 waiting 7 and 16
stall 18 conf None save None in None out None: entered 17 left 16 taken 0 waiting 8 and 16
stall 18 conf None save None in None out None: entered 17 left 16 taken 0 waiting 9 and 16
stall 18 conf None save None in None out None: entered 17 left 16 taken 0 waiting 10 and 16
stall 18 conf None save None in None out None: entered 17 left 16 taken 0 waiting 11 and 16
stall 18 conf None save None in None out None: entered 17 left 16 taken 0 waiting 12 and 16
stall 18 conf None save None in None out None: entered 17 left 16 taken 0 waiting 13 and 16
stall 18 conf None save None in None out None: entered 17 left 16 taken 0 waiting 13 and 16
stall 18 conf None save None in None out None: entered 17 left 16 taken 0 waiting 13 and 16
stall 18 conf None save None in None out None: entered 17 left 16 taken 0 waiting 13 and 16
stall 18 conf None save None in None out None: entered 17 left 16 taken 0 waiting 13 and 16
stall 18 conf None save None in None out None: entered 17 left 16 taken 0 waiting 13 and 16
stall 18 conf None save None in None out None: entered 17 left 16 taken 0 waiting 13 and 16
stall 18 conf None save None in None out None: entered 17 left 16 taken 0 waiting 13 and 16
stall 18 conf None save None in None out None: entered 17 left 16 taken 0 waiting 13 and 16
stall 18 conf None save None in None out None: entered 17 left 16 taken 0 waiting 13 and 16
stall 18 conf None save None in None out None: entered 17 left 16 taken 0 waiting 13 and 16
cycle 18 conf None save None in Some(17) out Some(16)
cycle 19 conf None save None in Some(18) out Some(17)
cycle 20 conf None save None in Some(19) out Some(18)
cycle 21 conf None save None in Some(20) out Some(19)
cycle 22 conf None save None in Some(21) out Some(20)
cycle 23 conf None save None in Some(22) out Some(21)
cycle 24 conf None save None in Some(23) out Some(22)
cycle 25 conf None save None in Some(24) out Some(23)
cycle 26 conf None save None in Some(25) out Some(24)
cycle 27 conf None save None in Some(26) out Some(25)
cycle 28 conf None save None in Some(27) out Some(26)
cycle 29 conf None save None in Some(28) out Some(27)
cycle 30 conf None save None in Some(29) out Some(28)
cycle 31 conf None save None in None out Some(29)
";

/// The stall text of these turns: 40, and 14 more.
const FORTY_HELD: &str = "oooooooooooooooooooooooooooooooooooooooo..............";

#[test]
fn held_outputs_stall_the_machine(rt: HostRuntime) -> Result<(), AllocError> {
    let mut samples = [[0u8, 5]; 30];
    let mut wanted = [0u8; 30];
    for k in 0..30u8 {
        samples[usize::from(k)][0] = k;
        wanted[usize::from(k)] = k ^ 5;
    }
    let setting = Setting {
        stages: XOR,
        stripes: 16,
        stall: FORTY_HELD,
        turns: 54,
    };
    check_run(&rt, rt.alloc(), setting, &samples, HELD, &wanted)
}

/// Checks that a machine without results takes sixteen samples.
fn check_queue(rt: &impl Abort, machine: &mut Machine<16, 8, Running>) {
    assert!(rt; take(machine).is_none());
    for k in 0..17 {
        assert!(rt; offer(machine, &[9, 5]) == (k < 16), "offer {k}");
    }
    assert!(rt; machine.waiting_in() == 16);
}

#[test]
fn a_queue_takes_sixteen(rt: HostRuntime) -> Result<(), AllocError> {
    let mut machine = machine_of(&rt, rt.alloc(), &[8, 8], XOR, 16)?;
    check_queue(&rt, &mut machine);
    Ok(())
}
