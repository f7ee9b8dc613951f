//! A shelf that gives few bytes at a time.

ghost use Rattle.std.specs.Prelude.{◌^◌, ◌<◌};

use pr_edge::{Failed, Shelf};
use std::alloc::{AllocError, Global};

/// A shelf with one file, whatever the name, that gives few bytes at a time, and one of whose reads fails.
#[derive(Drop)]
pub(crate) struct SlowShelf {
    bytes: Vec<u8>,
    most: usize,
    failing: u64,
    calls: u64,
    faults: u64,
    ghost in_range: { faults < 2 ^ 64 },
}

impl SlowShelf {
    /// A shelf of which no call was made yet.
    pub(crate) fn make(
        alloc: Global,
        text: &[u8],
        most: usize,
        failing: u64,
    ) -> Result<SlowShelf, AllocError> {
        Ok(SlowShelf {
            bytes: Vec::from_slice(alloc, text)?,
            most,
            failing,
            calls: 0,
            faults: 0,
        })
    }
}

impl Shelf for SlowShelf {
    ghost use Rattle.std.specs.Prelude.{None};

    ghost view = { λ s. record { told = None; reach = λ _. None; faults = s.faults } };

    ghost counted = { λ s. s.in_range };

    fn read_at(&mut self, _name: &str, place: u64, buf: &mut [u8]) -> Result<usize, Failed> {
        self.calls = self.calls.saturating_add(1);
        if self.calls == self.failing {
            self.faults = self.faults.saturating_add(1);
            return Err(Failed);
        }
        if place >= self.bytes.len() as u64 {
            return Ok(0);
        }
        let from = place as usize;
        let count = buf.len().min(self.most).min(self.bytes.len() - from);
        buf[..count].copy_from_slice(&self.bytes[from..from + count]);
        Ok(count)
    }
}
