//! Results on their way to a stream, gathered to pieces.
ghost use Rattle.std.specs.Prelude.{◌≡◌, ◌≤◌, [], length, true, false, None, IfOk, IfSome, IsErr, is_some, not};
ghost use Rattle.std.specs.Io.Buffered.{writer_contents, writer_inner, writer_buffer};
ghost use Rattle.std.specs.Io.KnownBytes.{Keeps, WriteAppends};
ghost use Rattle.pr_system.specs.Gathering.{are_through, IsHandedOn};

use crate::streams::flush_once;
use std::alloc::Global;
use std::cell::RefCell;
use std::io::{self, BufWriter, ErrorKind, Write};

/// The bytes that are handed on at once, at most.
const PIECE: usize = 65_536;

/// Results on their way to a stream, gathered to pieces.
#[derive(Drop)]
pub struct Gathering<W: Write + Drop> {
    stream: BufWriter<W>,
    /// Whether results could not be handed on, so that no more are taken.
    is_broken: bool,
}

impl<W: Write + Drop> Gathering<W> {
    /// What gathers results for a stream.
    pub fn new(alloc: Global, stream: W) -> io::Result<Self>
        ensures stream { IfOk result (λ g. writer_inner g.stream ≡ stream) }
        ensures empty { IfOk result (λ g. writer_buffer g.stream ≡ []) }
        ensures whole { IfOk result (λ g. g.is_broken ≡ false) }
    {
        Ok(Gathering {
            stream: BufWriter::with_capacity(alloc, PIECE, stream)?,
            is_broken: false,
        })
    }

    /// Takes a piece, or its first bytes.
    #[inline(always)]
    fn put(&mut self, bytes: &[u8]) -> io::Result<usize>
        ensures bound { IfOk result (λ k. k ≤ length bytes.now) }
        ensures bytes { WriteAppends (writer_contents W.contents self.old.stream)
            (writer_contents W.contents self.new.stream) result bytes.now }
        ensures broken { self.old.is_broken ≡ true → IsErr result }
        ensures same { self.new.is_broken ≡ self.old.is_broken }
    {
        if self.is_broken {
            return Err(io::Error::from(ErrorKind::BrokenPipe));
        }
        self.stream.write(bytes)
    }

    /// Hands on what is gathered, and says whether it went through. Where it did not, the next results are refused.
    pub fn hand_on(&mut self) -> bool
        ensures bytes { Keeps (writer_contents W.contents self.old.stream)
            (writer_contents W.contents self.new.stream) }
        ensures broken { self.old.is_broken ≡ true → self.new.is_broken ≡ true }
        ensures handed { IsHandedOn self.new }
        ensures told { result ≡ not self.new.is_broken }
    {
        if !flush_once(&mut self.stream) || !self.stream.buffer().is_empty() {
            self.is_broken = true;
        }
        !self.is_broken
    }

    /// Hands on what is gathered for the last time, and gives the stream back if all went through.
    pub fn finish(mut self) -> Finished<W>
        ensures bytes { IfSome result.stream
            (λ stream. Keeps (writer_contents W.contents self.stream) (W.contents stream)) }
        ensures broken { self.is_broken ≡ true → result.stream ≡ None }
    {
        if !self.hand_on() {
            return Finished { stream: None };
        }
        Finished {
            stream: self.stream.into_inner().ok(),
        }
    }
}

/// What became of the last results of a gathering. Only `finish` makes one.
#[derive(Drop)]
pub struct Finished<W> {
    /// The stream, if all results went through.
    stream: Option<W>,
}

impl<W> Finished<W> {
    /// Whether all results went through.
    pub fn went_through(&self) -> bool
        ensures { result ≡ is_some self.now.stream }
    {
        self.stream.is_some()
    }
}

/// Whether the last results were handed on, and went through.
pub fn are_through<W>(last: &Option<Finished<W>>) -> bool
    ensures { result ≡ are_through last.now }
{
    match last {
        Some(finished) => finished.went_through(),
        None => false,
    }
}

/// The way to what gathers results, as a stream.
#[derive(Drop)]
pub struct Gathered<'a, W: Write + Drop> {
    pub results: &'a RefCell<Gathering<W>>,
}

impl<'a, W: Write + Drop> Write for Gathered<'a, W> {
    #[inline(always)]
    fn write(&mut self, bytes: &[u8]) -> io::Result<usize> {
        match self.results.try_borrow_mut() {
            Ok(mut gathering) => gathering.put(bytes),
            Err(_) => Err(io::Error::from(ErrorKind::ResourceBusy)),
        }
    }

    fn flush(&mut self) -> io::Result<()> {
        match self.results.try_borrow_mut() {
            Ok(mut gathering) => {
                if gathering.hand_on() {
                    Ok(())
                } else {
                    Err(io::Error::from(ErrorKind::BrokenPipe))
                }
            }
            Err(_) => Err(io::Error::from(ErrorKind::ResourceBusy)),
        }
    }
}
