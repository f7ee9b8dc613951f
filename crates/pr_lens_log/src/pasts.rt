//! What cycles leave behind.

ghost use Rattle.std.specs.Prelude.{◌≡◌, [], IfOk, take};
ghost use Rattle.pr_lens_log.specs.Boards.{after_turn};
ghost use Rattle.pr_lens_log.specs.Pasts.{IsPast, count_after};

use crate::boards::Board;
use pr_conf::Turn;
use std::alloc::{AllocError, Global};

/// Which stage stands in which stripe after some cycles, how many samples have entered in them, and how many results
/// have left.
#[derive(Drop)]
pub struct Past {
    pub board: Board,
    pub entered: u64,
    pub left: u64,
}

/// The count behind a cycle in which this sample entered, or this result left.
fn counted(count: u64, number: Option<u64>) -> u64
    ensures { result ≡ count_after count number }
{
    match number {
        None => count,
        Some(number) => number.saturating_add(1),
    }
}

impl Past {
    /// No cycle went by, on so many stripes.
    pub fn make(alloc: Global, stripes: usize) -> Result<Past, AllocError>
        ensures { IfOk result (IsPast stripes []) }
    {
        Ok(Past {
            board: Board::make(alloc, stripes)?,
            entered: 0,
            left: 0,
        })
    }

    /// A cycle goes by.
    pub fn step(&mut self, turn: &Turn)
        ensures board { self.new.board.stages.items ≡ after_turn self.old.board.stages.items turn.now.configured }
        ensures entered { self.new.entered ≡ count_after self.old.entered turn.now.entered }
        ensures left { self.new.left ≡ count_after self.old.left turn.now.left }
    {
        self.board.step(turn);
        self.entered = counted(self.entered, turn.entered);
        self.left = counted(self.left, turn.left);
    }

    /// Only the first so many stripes are looked at from now on.
    pub fn cut(&mut self, stripes: usize)
        ensures board { self.new.board.stages.items ≡ take stripes self.old.board.stages.items }
        ensures entered { self.new.entered ≡ self.old.entered }
        ensures left { self.new.left ≡ self.old.left }
    {
        self.board.stages.truncate(stripes);
    }
}
