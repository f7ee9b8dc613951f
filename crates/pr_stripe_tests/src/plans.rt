//! Plans against a log of the cycles, and a store.

ghost use Rattle.std.specs.Prelude.{◌<◌, length};

use pr_control::{Plan, Store};
use std::test::Fail;

/// Five stages on three stripes, as a log of the cycles has them: each event, and who computes.
#[test]
fn five_stages_on_three_stripes(rt: HostRuntime) {
    let mut plan = Plan::make(5, 3);
    for (time, event, first, last) in [
        (0, Some((0, 0)), None, None),
        (1, Some((1, 1)), Some(0), None),
        (2, Some((2, 2)), Some(0), None),
        (3, Some((0, 3)), None, None),
        (4, Some((1, 4)), None, None),
        (5, Some((2, 0)), None, Some(1)),
        (6, Some((0, 1)), Some(2), Some(1)),
    ] {
        assert!(rt; plan.time() == time && plan.peek() == event, "{time}");
        assert!(rt; plan.active(0) == first && plan.active(4) == last, "{time}");
        assert!(rt; plan.next() == event, "{time}");
    }
}

/// With as many stripes as stages each stage comes once, and stays.
#[test]
fn three_stages_stay(rt: HostRuntime) {
    let mut plan = Plan::make(3, 3);
    for event in [Some((0, 0)), Some((1, 1)), Some((2, 2)), None, None] {
        assert!(rt; plan.next() == event);
    }
    assert!(rt; plan.active(2) == Some(2));
    assert!(rt; plan.resident(0));
    assert!(rt; plan.ring().is_none());
}

/// The rows of a store.
fn rows(store: &Store<2>) -> [[u8; 2]; 3]
    requires { 2 < length store.now }
{
    let mut rows = [[0; 2]; 3];
    for stage in 0..3u32 {
        rows[stage as usize].copy_from_slice(store.row(stage));
    }
    rows
}

/// A row is put, and the others stay.
#[test]
fn rows_of_a_store(rt: HostRuntime) -> Result<(), Fail> {
    let mut store = Store::<2>::make(rt.alloc(), &[1, 2, 3, 4, 5, 6])?;
    store.put(1, &[7, 8]);
    assert!(rt; rows(&store) == [[1, 2], [7, 8], [5, 6]]);
    Ok(())
}
