//! How much of an item is kept.

ghost use Rattle.std.specs.Prelude.{◌≡◌, ◌+◌, ◌-◌, ◌<◌, ◌↔◌, IsTrue, IsFalse};
ghost use Rattle.pr_lens_items.specs.Cuts.{is_out, fixeds_from};

/// How much of an item is kept.
#[derive(Clone, Copy)]
pub struct Cut {
    /// Points of expressions.
    pub values: u32,
    /// Frames, the item's own among them, which is always kept.
    pub frames: u32,
    /// Points of the constant expressions of the last frame that is kept.
    pub fixeds: u32,
}

/// From which point or frame on what follows is cut off, counted from 1; 0 where that was before.
#[derive(Clone, Copy)]
pub struct Left {
    from: u64,
}

impl Left {
    /// So many are kept.
    pub fn of(count: u32) -> Left
        ensures { result.from ≡ count + 1 }
    {
        Left {
            from: u64::from(count) + 1,
        }
    }

    /// So many are kept, the first of which is passed.
    pub fn behind_first(count: u32) -> Left
        ensures { result.from ≡ count }
    {
        Left {
            from: u64::from(count),
        }
    }

    /// Passes one; whether it is not kept.
    pub fn misses(&mut self) -> bool
        ensures test { result ≡ is_out self.old.from }
        ensures below { IsTrue result ↔ (self.old.from < 2) }
        ensures from { self.new.from ≡ self.old.from - 1 }
    {
        let missed = self.from < 2;
        self.from = self.from.saturating_sub(1);
        missed
    }

    /// Whether nothing is kept of what follows, of which there is something.
    pub fn is_out(&mut self) -> bool
        ensures test { result ≡ is_out self.old.from }
        ensures below { IsTrue result ↔ (self.old.from < 2) }
        ensures out { IsTrue result → self.new.from ≡ 0 }
        ensures kept { IsFalse result → self.new.from ≡ self.old.from }
    {
        if self.from < 2 {
            self.from = 0;
            return true;
        }
        false
    }

    /// Whether one was not kept.
    pub fn has_missed(&self) -> bool
        ensures { IsTrue result ↔ (self.now.from ≡ 0) }
    {
        self.from == 0
    }
}

/// What is left while an item is copied.
#[derive(Clone, Copy)]
pub struct Rest {
    pub values: Left,
    pub frames: Left,
    /// Points of the constant expressions of the last frame that is kept.
    pub last: u32,
}

impl Rest {
    /// All that a cut keeps behind the item's own frame.
    pub fn of(cut: Cut) -> Rest
        ensures values { result.values.from ≡ cut.values + 1 }
        ensures frames { result.frames.from ≡ cut.frames }
        ensures last { result.last ≡ cut.fixeds }
    {
        Rest {
            values: Left::of(cut.values),
            frames: Left::behind_first(cut.frames),
            last: cut.fixeds,
        }
    }

    /// The points of constant expressions that the frame that was just passed keeps: all, unless it is the last one.
    pub fn fixeds(&self) -> Left
        ensures { result.from ≡ fixeds_from self.now.frames.from self.now.last }
    {
        let mut frames = self.frames;
        if frames.is_out() {
            Left::of(self.last)
        } else {
            Left::of(u32::MAX)
        }
    }
}
