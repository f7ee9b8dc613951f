//! What is kept of a log while its lines are read.

ghost use Rattle.std.specs.Prelude.{◌≡◌, ℕ, ◌+◌, ◌<◌, ◌^◌, ◌++◌, ◌∷◌, [], List, IfOk, OnOk, length};
ghost use Rattle.pr_lens_log.specs.declared.lines.Logged.{Logged};
ghost use Rattle.pr_lens_log.specs.declared.excerpts.Choice.{Choice};
ghost use Rattle.pr_lens_log.specs.Excerpts.{IsExcerpt, has_room, with_one};

use crate::lines::Logged;
use crate::pasts::Past;
use crate::windows::{Part, Side, Window, part_with, side_of};
use std::alloc::{AllocError, Global};

/// Which cycles of a log are kept: those that a window shows, or the first so many of them.
#[derive(Clone, Copy)]
pub struct Choice {
    pub window: Window,
    pub most: Option<usize>,
}

impl Choice {
    /// Whether one more cycle is kept beside so many.
    fn has_room(self, kept: usize) -> bool
        ensures { result ≡ has_room self.most kept }
    {
        match self.most {
            None => true,
            Some(most) => kept < most,
        }
    }
}

/// The cycles of a log that are kept.
#[derive(Drop)]
pub struct Excerpt {
    /// The places of all cycles that the window shows.
    pub part: Part,
    /// What the cycles before them left behind.
    pub past: Past,
    pub cycles: Vec<Logged>,
    /// How many results were written before each of these.
    pub written: Vec<usize>,
}

impl Excerpt {
    /// Nothing of no cycle, on so many stripes.
    pub fn make(alloc: Global, stripes: usize) -> Result<Excerpt, AllocError>
        ensures { (choice : Choice) → IfOk result (IsExcerpt choice stripes [] []) }
    {
        Ok(Excerpt {
            part: Part { start: 0, end: 0 },
            past: Past::make(alloc, stripes)?,
            cycles: Vec::new(alloc),
            written: Vec::new(alloc),
        })
    }

    /// Keeps a cycle, where there is room for one more.
    fn keep(&mut self, room: bool, results: usize, logged: Logged) -> Result<(), AllocError>
        ensures cycles { OnOk result (self.new.cycles.items ≡ with_one room self.old.cycles.items logged) }
        ensures written { OnOk result (self.new.written.items ≡ with_one room self.old.written.items results) }
        ensures part { self.new.part ≡ self.old.part }
        ensures past { self.new.past ≡ self.old.past }
    {
        if !room {
            return Ok(());
        }
        self.cycles.push(logged)?;
        self.written.push(results)?;
        Ok(())
    }

    /// One cycle more, behind so many cycles and so many results.
    pub fn add(
        &mut self,
        choice: Choice,
        count: usize,
        results: usize,
        logged: Logged,
    ) -> Result<(), AllocError>
        requires { count + 1 < 2 ^ 64 }
        ensures { OnOk result ((stripes : ℕ) (cycles : List Logged) (written : List ℕ) → length cycles ≡ count
            → IsExcerpt choice stripes cycles written self.old
            → IsExcerpt choice stripes (cycles ++ logged ∷ []) (written ++ results ∷ []) self.new) }
    {
        let side = side_of(choice.window, count, self.part, logged.time);
        self.part = part_with(side, count, self.part);
        match side {
            Side::Before => {
                self.past.step(&logged.turn);
                Ok(())
            }
            Side::Within => {
                let room = choice.has_room(self.cycles.len());
                self.keep(room, results, logged)?;
                Ok(())
            }
            Side::Behind => Ok(()),
        }
    }
}
