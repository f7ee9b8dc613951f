//! Lines of the log.

use pr_conf::Turn;
use pr_log::{end_line, line};

const IDLE: Turn = Turn {
    advanced: true,
    configured: None,
    saved: None,
    entered: None,
    left: None,
};

/// What a cycle did, its time, the state that it saved, and its line.
const CASES: [(Turn, u64, &[u8], &str); 4] = [
    (IDLE, 5, &[7; 16], "cycle 5 conf - save - in - out -\n"),
    (
        Turn {
            advanced: true,
            configured: Some((0, 1)),
            saved: Some(1),
            entered: None,
            left: Some(0),
        },
        3,
        &[0, 255, 0, 0, 0, 0, 0, 0, 0, 0, 0, 0, 0, 0, 0, 0],
        "cycle 3 conf 0@1 save 1 00ff0000000000000000000000000000 in - out 0\n",
    ),
    (
        Turn {
            advanced: true,
            configured: Some((u32::MAX, u32::MAX)),
            saved: Some(u32::MAX),
            entered: Some(u64::MAX),
            left: Some(u64::MAX),
        },
        u64::MAX,
        &[255; 64],
        LONGEST,
    ),
    (
        Turn {
            advanced: false,
            configured: None,
            saved: None,
            entered: None,
            left: None,
        },
        18,
        &[],
        "stall 18\n",
    ),
];

/// A line of 248 bytes.
const LONGEST: &str =
    "cycle 18446744073709551615 conf 4294967295@4294967295 save 4294967295 ffffffffffffffffffffffffffffffffffffffffffffffffffffffffffffffffffffffffffffffffffffffffffffffffffffffffffffffffffffffffffffffff in 18446744073709551615 out 18446744073709551615\n";

/// Whether a cycle has this line.
fn has_line(turn: Turn, time: u64, state: &[u8], text: &str) -> bool {
    state.len() <= 64 && line(&turn, time, state).as_str() == text
}

#[test]
fn lines_of_cycles(rt: HostRuntime) {
    assert!(rt; LONGEST.len() == 248);
    for (turn, time, state, text) in CASES {
        assert!(rt; has_line(turn, time, state, text), "{text}");
    }
}

#[test]
fn line_of_an_end(rt: HostRuntime) {
    let text = end_line(32, 22, 30);
    assert_eq!(rt; text.as_str(), "end cycles 32 stalls 22 records 30\n");
}
