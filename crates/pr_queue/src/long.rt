//! Pieces of more than 8 bytes: their bytes wait one after the other in a ring of bytes.

ghost use Rattle.std.specs.Prelude.{◌≡◌, ◌+◌, ◌*◌, ◌<◌, ◌≤◌, ◌↔◌, [], ◌∷◌, ◌++◌, length, IsErr, OnOk, OnErr};
ghost use Rattle.pr_queue.specs.Pieces.{pieces_of};

use crate::{Empty, Full, ROOM};
use circular_buffer::HeapCircularBuffer;

/// Appends the bytes of a piece to a ring in which `count` pieces wait, or says that 16 wait.
#[inline(never)]
pub(crate) fn put_bytes(
    bytes: &mut HeapCircularBuffer<u8>,
    count: &mut usize,
    piece: &[u8],
) -> Result<(), Full>
    requires long { length bytes.old.items ≡ count.old * length piece.now }
    requires room { bytes.old.capacity ≡ 16 * length piece.now }
    requires few { count.old ≤ 16 }
    ensures full { IsErr result ↔ (count.old ≡ 16) }
    ensures room { OnOk result (count.old < 16) }
    ensures more { OnOk result (count.new ≡ count.old + 1) }
    ensures put { OnOk result (pieces_of count.new (length piece.now) bytes.new.items ≡
        pieces_of count.old (length piece.now) bytes.old.items ++ piece.now ∷ []) }
    ensures long { length bytes.new.items ≡ count.new * length piece.now }
    ensures capacity { bytes.new.capacity ≡ bytes.old.capacity }
    ensures same { OnErr result ((bytes.new ≡ bytes.old) × (count.new ≡ count.old)) }
{
    if *count == ROOM {
        return Err(Full);
    }
    bytes.fill_from_slice(piece);
    *count += 1;
    Ok(())
}

/// Takes the bytes of the oldest of `count` pieces, or says that none waits.
#[inline(never)]
pub(crate) fn get_bytes(
    bytes: &mut HeapCircularBuffer<u8>,
    count: &mut usize,
    into: &mut [u8],
) -> Result<(), Empty>
    requires { length bytes.old.items ≡ count.old * length into.old }
    ensures empty { IsErr result ↔ (count.old ≡ 0) }
    ensures less { OnOk result (count.old ≡ count.new + 1) }
    ensures got { OnOk result (pieces_of count.old (length into.old) bytes.old.items ≡
        into.new ∷ pieces_of count.new (length into.old) bytes.new.items) }
    ensures left { length bytes.new.items ≡ count.new * length into.old }
    ensures capacity { bytes.new.capacity ≡ bytes.old.capacity }
    ensures same { OnErr result ((bytes.new ≡ bytes.old) × (count.new ≡ count.old) × (into.new ≡ into.old)) }
{
    if *count == 0 {
        return Err(Empty);
    }
    bytes.read_into(into);
    *count -= 1;
    Ok(())
}
