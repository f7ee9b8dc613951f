//! A stream of the system as a sink.
ghost use Rattle.std.specs.Prelude.{◌≡◌, ℕ, ◌^◌, ◌<◌, ◌≤◌, length, take, None, IfOk, IsOk, IfSome, IfNone, OnOk, OnErr};
ghost use Rattle.std.specs.Io.KnownBytes as known;
ghost use Rattle.pr_edge.specs.Count.{Rose};
ghost use Rattle.pr_edge.specs.Tape.{Appends, untold};

use crate::TRIES;
use pr_edge::{Failed, Sink};
use std::io::{ErrorKind, Write};

/// A stream of the system.
#[derive(Drop)]
pub struct OutSink<W> {
    inner: W,
    faults: u64,
    ghost in_range: { faults < 2 ^ 64 },
}

impl<W: Write> OutSink<W> {
    /// A sink of which no call failed yet.
    pub fn new(inner: W) -> Self
        ensures inner { result.inner ≡ inner }
        ensures faults { result.faults ≡ 0 }
    {
        OutSink { inner, faults: 0 }
    }
}

/// Flushes the stream, and says whether it went through.
pub fn flush_once<W: Write>(inner: &mut W) -> bool
    ensures { known.Keeps (W.contents inner.old) (W.contents inner.new) }
{
    for _ in 0..TRIES {
        match inner.flush() {
            Ok(()) => return true,
            Err(e) if e.kind() == ErrorKind::Interrupted => {}
            Err(_) => return false,
        }
    }
    false
}

/// Writes some bytes of the piece, one at least, and says how many, after a call that was interrupted.
#[inline(never)]
fn write_again<W: Write>(inner: &mut W, bytes: &[u8]) -> Option<usize>
    ensures some { IfSome result (λ k. (0 < k) × (k ≤ length bytes.now)) }
    ensures bytes { IfSome result (λ k.
        known.Appends (W.contents inner.old) (W.contents inner.new) (take k bytes.now)) }
    ensures none { IfNone result (known.Keeps (W.contents inner.old) (W.contents inner.new)) }
{
    for _ in 1..TRIES {
        match inner.write(bytes) {
            Ok(0) => return None,
            Ok(count) => return Some(count),
            Err(e) if e.kind() == ErrorKind::Interrupted => {}
            Err(_) => return None,
        }
    }
    None
}

/// Writes some bytes of the piece, one at least, and says how many.
#[inline(always)]
fn write_once<W: Write>(inner: &mut W, bytes: &[u8]) -> Option<usize>
    ensures some { IfSome result (λ k. (0 < k) × (k ≤ length bytes.now)) }
    ensures bytes { IfSome result (λ k.
        known.Appends (W.contents inner.old) (W.contents inner.new) (take k bytes.now)) }
    ensures none { IfNone result (known.Keeps (W.contents inner.old) (W.contents inner.new)) }
{
    match inner.write(bytes) {
        Ok(0) => None,
        Ok(count) => Some(count),
        Err(e) if e.kind() == ErrorKind::Interrupted => write_again(inner, bytes),
        Err(_) => None,
    }
}

impl<W: Write> Sink for OutSink<W> {
    ghost view = { λ s. record { told = untold; faults = s.faults } };

    ghost counted = { λ s. s.in_range };

    #[inline(always)]
    fn write(&mut self, bytes: &[u8]) -> Result<usize, Failed>
        ensures bound { IfOk result (λ k. k ≤ length bytes.now) }
        ensures some { IfOk result (λ k. 0 < length bytes.now → 0 < k) }
        ensures empty { length bytes.now ≡ 0 → IsOk result }
        ensures appended { IfOk result (λ k. Appends untold untold (take k bytes.now)) }
        ensures cause { OnErr result (Rose self.old.faults self.new.faults) }
        ensures later { self.old.faults ≤ self.new.faults }
        ensures steady { OnOk result (self.new.faults ≡ self.old.faults) }

        // What the stream holds, where that is known.
        ensures known { known.WriteAppends (W.contents self.old.inner) (W.contents self.new.inner) result bytes.now }
    {
        if bytes.is_empty() {
            return Ok(0);
        }
        match write_once(&mut self.inner, bytes) {
            Some(count) => Ok(count),
            None => {
                self.faults = self.faults.saturating_add(1);
                Err(Failed)
            }
        }
    }
}
