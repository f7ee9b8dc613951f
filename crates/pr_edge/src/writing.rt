//! Bytes that are written one piece after the other.
ghost use Rattle.std.specs.Prelude.{◌≡◌, ℕ, ◌^◌, ◌<◌, ◌≤◌, length, take, IfOk, IsOk, OnOk, OnErr};
ghost use Rattle.pr_edge.specs.Count.{Rose};
ghost use Rattle.pr_edge.specs.Tape.{Written, Appends, AppendsFront};

use crate::Failed;
use thiserror::Error;

/// A place to which bytes are written.
///
/// A sink may tell the bytes that were written to it. A sink over a real stream tells none.
pub trait Sink {
    ghost view: { Self → Written };

    /// Writes the first bytes of a piece, as many as it likes but at least one where there is one, and says how many.
    fn write(&mut self, bytes: &[u8]) -> Result<usize, Failed>
        ensures bound { IfOk result (λ k. k ≤ length bytes.now) }
        ensures some { IfOk result (λ k. 0 < length bytes.now → 0 < k) }
        ensures empty { length bytes.now ≡ 0 → IsOk result }
        ensures appended { IfOk result (λ k. Appends (view self.old).told (view self.new).told (take k bytes.now)) }

        ensures unchanged { OnErr result ((view self.new).told ≡ (view self.old).told) }
        ensures cause { OnErr result (Rose (view self.old).faults (view self.new).faults) }
        ensures later { (view self.old).faults ≤ (view self.new).faults }
        ensures steady { OnOk result ((view self.new).faults ≡ (view self.old).faults) };

    ghost counted: { (s : Self) → (view s).faults < 2 ^ 64 };
}

/// A write that failed before all bytes were written.
#[derive(Debug, Drop, Error)]
#[error("a write failed")]
pub struct WriteFault;

/// Writes all bytes, in as many calls as the sink asks for.
#[inline(never)]
fn write_pieces<K: Sink>(sink: &mut K, bytes: &[u8]) -> Result<(), WriteFault>
    ensures all { OnOk result (Appends (K.view sink.old).told (K.view sink.new).told bytes.now) }
    ensures front { OnErr result (AppendsFront (K.view sink.old).told (K.view sink.new).told bytes.now) }
    ensures cause { OnErr result (Rose (K.view sink.old).faults (K.view sink.new).faults) }
    ensures later { (K.view sink.old).faults ≤ (K.view sink.new).faults }
    ensures steady { OnOk result ((K.view sink.new).faults ≡ (K.view sink.old).faults) }
{
    let mut done = 0;
    while done < bytes.len() {
        match sink.write(&bytes[done..]) {
            Err(_) => return Err(WriteFault),
            Ok(count) => done += count,
        }
    }
    Ok(())
}

/// Writes all bytes, in as many calls as the sink asks for, which is one mostly.
///
/// Where a call fails, the first bytes were written, as many as the calls before it took.
#[inline(always)]
pub fn write_all<K: Sink>(sink: &mut K, bytes: &[u8]) -> Result<(), WriteFault>
    ensures all { OnOk result (Appends (K.view sink.old).told (K.view sink.new).told bytes.now) }
    ensures front { OnErr result (AppendsFront (K.view sink.old).told (K.view sink.new).told bytes.now) }
    ensures cause { OnErr result (Rose (K.view sink.old).faults (K.view sink.new).faults) }
    ensures later { (K.view sink.old).faults ≤ (K.view sink.new).faults }

    // A write that fails is not tried again.
    ensures steady { OnOk result ((K.view sink.new).faults ≡ (K.view sink.old).faults) }
{
    if bytes.is_empty() {
        return Ok(());
    }
    match sink.write(bytes) {
        Err(_) => Err(WriteFault),
        Ok(count) => {
            if count == bytes.len() {
                return Ok(());
            }
            write_pieces(sink, &bytes[count..])
        }
    }
}
