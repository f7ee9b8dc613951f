//! A queue that goes round.

ghost use Rattle.std.specs.Prelude.{◌≡◌, ◌≤◌};

use pr_queue::Queue;
use std::alloc::AllocError;
use std::rt::HostRuntime;

/// Whether no piece comes out, and nothing is written.
fn is_empty(queue: &mut Queue) -> bool
    requires { queue.old.size ≡ 2 }
    ensures { queue.new.size ≡ 2 }
{
    let mut into = [7; 2];
    queue.get(&mut into).is_err() && into == [7, 7] && queue.len() == 0
}

/// Whether a piece with this number goes in.
fn goes_in(queue: &mut Queue, k: u8) -> bool
    requires size { queue.old.size ≡ 2 }
    requires number { k ≤ 200 }
    ensures { queue.new.size ≡ 2 }
{
    queue.put(&[k, 200 - k]).is_ok()
}

/// Whether the piece with this number comes out.
fn comes_out(queue: &mut Queue, k: u8) -> bool
    requires size { queue.old.size ≡ 2 }
    requires number { k ≤ 200 }
    ensures { queue.new.size ≡ 2 }
{
    let mut into = [7; 2];
    queue.get(&mut into).is_ok() && into == [k, 200 - k]
}

/// Pieces come out in the order in which they went in, over the ring's end too.
#[test]
fn first_in_first_out(rt: HostRuntime) -> Result<(), AllocError> {
    let mut queue = Queue::make(rt.alloc(), 2)?;
    assert!(rt; is_empty(&mut queue));
    for k in 0..20u8 {
        assert!(rt; goes_in(&mut queue, k) == (k < 16));
    }
    for k in 0..40u8 {
        assert!(rt; queue.len() == 16 && comes_out(&mut queue, k) && goes_in(&mut queue, k + 16));
    }
    Ok(())
}
