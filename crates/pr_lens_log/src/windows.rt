//! Which cycles of a log are shown.

ghost use Rattle.std.specs.Prelude.{◌≡◌, ◌+◌, ◌<◌, ◌^◌};
ghost use Rattle.pr_lens_log.specs.Windows.{part_with, side_of};

/// Cycles by their numbers, from the first of these to the last.
#[derive(Clone, Copy, PartialEq, Eq, Debug)]
pub struct Window {
    pub from: u64,
    pub to: u64,
}

/// Neighbouring cycles of a log by their places: those from `start` on that stand before `end`.
#[derive(Clone, Copy, PartialEq, Eq, Debug)]
pub struct Part {
    pub start: usize,
    pub end: usize,
}

impl Part {
    ghost use Rattle.std.specs.Prelude.{◌≤◌, ◌↔◌, IsTrue};

    /// Whether no cycle is among them.
    pub fn is_empty(self) -> bool
        ensures { IsTrue result ↔ (self.end ≤ self.start) }
    {
        self.end <= self.start
    }
}

/// Where a cycle stands by the part of a log that is shown.
#[derive(Clone, Copy)]
pub enum Side {
    Before,
    Within,
    Behind,
}

/// Where a cycle of this number stands behind so many cycles, of which this part is shown.
pub fn side_of(window: Window, count: usize, part: Part, time: u64) -> Side
    ensures { result ≡ side_of window count part time }
{
    if part.start == count && time < window.from {
        Side::Before
    } else if part.end == count && time <= window.to {
        Side::Within
    } else {
        Side::Behind
    }
}

/// The part that is shown with one cycle more behind so many.
pub fn part_with(side: Side, count: usize, part: Part) -> Part
    requires { count + 1 < 2 ^ 64 }
    ensures { result ≡ part_with side count part }
{
    let next = count + 1;
    match side {
        Side::Before => Part {
            start: next,
            end: next,
        },
        Side::Within => Part {
            start: part.start,
            end: next,
        },
        Side::Behind => part,
    }
}
