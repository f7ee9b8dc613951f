//! Logs, line by line.

ghost use Rattle.std.specs.Prelude.{◌≡◌, ◌↔◌, ◌<◌, ◌≤◌, ◌+◌, ◌^◌, ◌++◌, ◌∷◌, [], ℕ, List, false, IsTrue, IfOk, OnOk};
ghost use Rattle.pr_lens_log.specs.declared.excerpts.Choice.{Choice};
ghost use Rattle.pr_lens_log.specs.declared.lines.Logged.{Logged};
ghost use Rattle.pr_lens_log.specs.Excerpts.{AreTotals, IsExcerpt, most, stripes_to};
ghost use Rattle.pr_lens_log.specs.Logs.{AreDrawn, HasTale, IsKept, IsTaken, IsUnlawful, Tale, nothing_told};

use crate::excerpts::{Choice, Excerpt};
use crate::lines::{LogLine, Logged, read_line};
use crate::totals::Totals;
use std::alloc::{AllocError, Global};
use thiserror::Error;

/// A log: what is known of all its cycles, and those of them that are kept.
#[derive(Drop)]
pub struct Log {
    pub totals: Totals,
    pub excerpt: Excerpt,
}

/// Why a text is no log.
#[derive(Debug, Drop, Error)]
pub enum LogFault {
    /// The line of this number, from 1, is none.
    #[error("bad log: line {line}")]
    BadLine { line: usize },
    /// No line is that of a cycle.
    #[error("bad log: no cycle")]
    NoCycle,
    #[error("out of memory")]
    Memory(AllocError),
}

impl From<AllocError> for LogFault {
    ghost use Rattle.std.specs.Prelude.{◌≡◌};
    ghost use Rattle.pr_lens_log.specs.declared.logs.LogFault.TheVariants.{Memory};

    ghost from_gives = { λ a e. e ≡ Memory a };

    fn from(error: AllocError) -> LogFault {
        LogFault::Memory(error)
    }
}

/// The most stripes and stages of a log that is drawn.
pub const MOST_STRIPES: usize = 256;

const MOST_STAGES: u32 = 32_768;

/// Whether a stage and its stripe are among those that are drawn.
fn are_drawn(configured: Option<(u32, u32)>) -> bool
    ensures { IsTrue result ↔ AreDrawn configured }
{
    match configured {
        None => true,
        Some((stage, stripe)) => stage < MOST_STAGES && stripe < MOST_STRIPES as u32,
    }
}

impl Log {
    /// A log of which no line was taken.
    pub fn make(alloc: Global) -> Result<Log, AllocError>
        ensures none { IfOk result (λ log. log.totals.count + log.totals.results ≡ 0) }
        ensures told { (choice : Choice) → IfOk result (HasTale choice 256 nothing_told) }
    {
        Ok(Log {
            totals: Totals::none(),
            excerpt: Excerpt::make(alloc, MOST_STRIPES)?,
        })
    }

    /// Takes a cycle.
    fn add(&mut self, choice: Choice, logged: Logged) -> Result<(), AllocError>
        requires { self.old.totals.count + 1 < 2 ^ 64 }
        ensures told { OnOk result ((stripes : ℕ) (cycles : List Logged) (written : List ℕ)
            → AreTotals cycles self.old.totals.results self.old.totals
            → IsExcerpt choice stripes cycles written self.old.excerpt
            → AreTotals (cycles ++ logged ∷ []) self.old.totals.results self.new.totals
            × IsExcerpt choice stripes (cycles ++ logged ∷ [])
            (written ++ self.old.totals.results ∷ []) self.new.excerpt) }
        ensures count { OnOk result (self.new.totals.count ≡ self.old.totals.count + 1) }
        ensures results { OnOk result (self.new.totals.results ≡ self.old.totals.results) }
    {
        let totals = self.totals;
        self.totals = totals.with(&logged);
        self.excerpt
            .add(choice, totals.count, totals.results, logged)
    }

    /// Takes a line; whether it is one of a log.
    pub fn take(&mut self, choice: Choice, bytes: &[u8]) -> Result<bool, AllocError>
        requires { self.old.totals.count + self.old.totals.results + 1 < 2 ^ 64 }
        ensures taken { IfOk result (λ good. IsTrue good
            → (tale : Tale) → HasTale choice 256 tale self.old → IsTaken choice bytes.now tale self.new) }
        ensures refused { IfOk result (λ good. good ≡ false → IsUnlawful bytes.now) }
        ensures few { IfOk result (λ good. self.new.totals.count + self.new.totals.results
            ≤ self.old.totals.count + self.old.totals.results + 1) }
    {
        match read_line(bytes) {
            None => Ok(false),
            Some(LogLine::End) => Ok(true),
            Some(LogLine::Result) => {
                self.totals.results += 1;
                Ok(true)
            }
            Some(LogLine::Cycle(logged)) => {
                if !are_drawn(logged.turn.configured) {
                    return Ok(false);
                }
                self.add(choice, logged)?;
                Ok(true)
            }
        }
    }

    /// Only the stripes that are named are looked at from now on.
    pub fn cut(&mut self)
        ensures { (choice : Choice) (tale : Tale) → most stripes_to tale.cycles ≤ 256
            → HasTale choice 256 tale self.old → IsKept choice tale self.new }
    {
        self.excerpt.past.cut(self.totals.stripes);
    }
}
