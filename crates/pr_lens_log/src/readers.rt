//! Whole logs, read piece by piece.

ghost use Rattle.std.specs.Prelude.{◌≡◌, ◌≢◌, ◌+◌, ◌-◌, ◌<◌, ◌≤◌, ◌^◌, ◌++◌, ℕ, List, [], true, false, IfOk, IfErr, OnOk, length};
ghost use Rattle.pr_lens_text.specs.Places.{HasNoEnd};
ghost use Rattle.pr_lens_log.specs.declared.logs.Log.{Log};
ghost use Rattle.pr_lens_log.specs.Logs.{HasTale, IsLineFault, IsLineOf, IsLogAnswer, IsLogOf, IsKept, IsTaleOf, Tale};
ghost use Rattle.pr_lens_log.specs.Readers.{HasRead, HasReadAll, HasRoom, HasTaken, IsAtLine, choice_of};

use crate::excerpts::Choice;
use crate::logs::{Log, LogFault};
use pr_lens_text::end_of;
use std::alloc::{AllocError, Global};

/// A log that is read piece by piece. The text itself is not kept, but for the line that goes on.
#[derive(Drop)]
pub struct Reader {
    choice: Choice,
    log: Log,
    /// How many lines were taken.
    lines: usize,
    /// What stands behind the last line feed, of no more bytes than a line may have.
    pending: Vec<u8>,
}

/// The bytes of a line, at most.
const LINE: usize = 65_536;

/// Whether so many bytes and so many more are too many for a line.
fn is_long(pending: usize, more: usize) -> bool
    ensures long { result ≡ true → 65536 < pending + more }
    ensures short { result ≡ false → pending + more ≤ 65536 }
{
    if LINE < pending {
        return true;
    }
    LINE - pending < more
}

/// Where the next line begins: behind the line feed of this one, or at the end.
fn next_line(text: &[u8], start: usize) -> usize
    requires { start < length text.now }
    ensures { IsLineOf text.now start result }
{
    let end = end_of(text, start);
    if end < text.len() { end + 1 } else { end }
}

/// The log of which all lines were taken, where it has a cycle.
fn closed(mut log: Log) -> Result<Log, LogFault>
    ensures log { (choice : Choice) (text : List ℕ) (lines : ℕ) → HasTaken choice text lines (length text) log
        → IfOk result (IsLogOf choice text) }
    ensures refused { (choice : Choice) (text : List ℕ) (lines : ℕ) → HasTaken choice text lines (length text) log
        → IfErr result (IsLogAnswer text) }
{
    if log.totals.count == 0 {
        return Err(LogFault::NoCycle);
    }
    log.cut();
    Ok(log)
}

impl Reader {
    /// A reader that has read nothing, and keeps these cycles.
    pub fn make(alloc: Global, choice: Choice) -> Result<Reader, AllocError>
        ensures choice { IfOk result (λ r. choice_of r ≡ choice) }
        ensures read { IfOk result (HasRead []) }
        ensures room { (more : ℕ) → more < 2 ^ 64 → IfOk result (λ r. HasRoom r more) }
    {
        Ok(Reader {
            choice,
            log: Log::make(alloc)?,
            lines: 0,
            pending: Vec::new(alloc),
        })
    }

    /// Takes the line that is pending.
    fn end_line(&mut self) -> Result<(), LogFault>
        requires { HasRoom self.old 1 }
        ensures taken { OnOk result ((text : List ℕ) (from to : ℕ) → IsAtLine text from to self.old
            → HasTaken self.new.choice text self.new.lines to self.new.log) }
        ensures refused { IfErr result (λ e. (text : List ℕ) (from to : ℕ) → IsAtLine text from to self.old
            → IsLineFault text e) }
        ensures pending { OnOk result (self.new.pending.items ≡ []) }
        ensures choice { OnOk result (choice_of self.new ≡ choice_of self.old) }
        ensures room { OnOk result ((more : ℕ) → HasRoom self.old (more + 1) → HasRoom self.new more) }
    {
        self.lines += 1;
        if !self.log.take(self.choice, &self.pending)? {
            return Err(LogFault::BadLine { line: self.lines });
        }
        self.pending.clear();
        Ok(())
    }

    /// Takes bytes of a line, to its line feed where they have it.
    fn put(&mut self, bytes: &[u8]) -> Result<(), LogFault>
        requires room { HasRoom self.old 1 }
        requires some { 0 < length bytes.now }
        requires none { HasNoEnd bytes.now 0 (length bytes.now - 1) }
        ensures read { OnOk result ((text : List ℕ) → HasRead text self.old → HasRead (text ++ bytes.now) self.new) }
        ensures refused { IfErr result (λ e. (text more : List ℕ) → HasRead text self.old
            → IsLineFault (text ++ bytes.now ++ more) e) }
        ensures choice { OnOk result (choice_of self.new ≡ choice_of self.old) }
        ensures room { OnOk result ((more : ℕ) → HasRoom self.old (more + 1) → HasRoom self.new more) }
    {
        if is_long(self.pending.len(), bytes.len()) {
            return Err(LogFault::BadLine {
                line: self.lines + 1,
            });
        }
        self.pending.extend_from_slice(bytes)?;
        if bytes[bytes.len() - 1] != b'\n' {
            return Ok(());
        }
        self.end_line()
    }

    /// Reads a piece of the text.
    pub fn read(&mut self, piece: &[u8]) -> Result<(), LogFault>
        requires { HasRoom self.old (length piece.now) }
        ensures read { OnOk result ((text : List ℕ) → HasRead text self.old → HasRead (text ++ piece.now) self.new) }
        ensures refused { IfErr result (λ e. (text more : List ℕ) → HasRead text self.old
            → IsLineFault (text ++ piece.now ++ more) e) }
        ensures choice { OnOk result (choice_of self.new ≡ choice_of self.old) }
        ensures room { OnOk result ((more : ℕ) → HasRoom self.old (more + length piece.now) → HasRoom self.new more) }
    {
        let mut start = 0;
        while start < piece.len() {
            let next = next_line(piece, start);
            match self.put(&piece[start..next]) {
                Ok(()) => start = next,
                Err(fault) => return Err(fault),
            }
        }
        Ok(())
    }

    /// Takes the last line, which may have no line feed.
    fn end_text(&mut self) -> Result<(), LogFault>
        requires { HasRoom self.old 1 }
        ensures read { OnOk result ((text : List ℕ) → HasRead text self.old → HasReadAll text self.new) }
        ensures refused { IfErr result (λ e. (text : List ℕ) → HasRead text self.old → IsLineFault text e) }
        ensures choice { OnOk result (choice_of self.new ≡ choice_of self.old) }
    {
        if self.pending.is_empty() {
            return Ok(());
        }
        self.end_line()
    }

    /// The log, where the text has ended.
    pub fn finish(mut self) -> Result<Log, LogFault>
        requires { HasRoom self 1 }
        ensures log { (text : List ℕ) → HasRead text self → IfOk result (IsLogOf (choice_of self) text) }
        ensures refused { (text : List ℕ) → HasRead text self → IfErr result (IsLogAnswer text) }
    {
        match self.end_text() {
            Ok(()) => {}
            Err(fault) => return Err(fault),
        }
        let Reader {
            choice: _,
            log,
            lines: _,
            pending: _,
        } = self;
        closed(log)
    }
}
