//! A part of a file, and how far a file was read in order.
ghost use Rattle.std.specs.Prelude.{◌≡◌, ◌≤◌, ◌+◌, ◌<◌, ◌^◌, length, drop, min, slice_set, slice_index_or, None, vec_len};
ghost use Rattle.pr_edge.specs.Files.{IsPart, raised};

/// Copies the bytes from a place on, as many as there are and fit.
pub fn copy_part(file: &[u8], place: u64, buf: &mut [u8]) -> usize
    ensures count { result ≡ min (length buf.new) (length (drop place file.now)) }
    ensures part { IsPart file.now place result buf.new }
    ensures fits { place + result < 2 ^ 64 }
{
    if place >= file.len() as u64 {
        return 0;
    }
    let from = place as usize;
    let count = buf.len().min(file.len() - from);
    buf[..count].copy_from_slice(&file[from..from + count]);
    count
}

/// Moves the reach of a file to the end of a read, or drops it where the read did not begin at the reach.
pub fn raise(reached: &mut Vec<Option<u64>>, i: usize, place: u64, count: usize)
    requires within { i < vec_len reached.old }
    requires fits { place + count < 2 ^ 64 }
    ensures { reached.new.items
        ≡ slice_set reached.old.items i (raised (slice_index_or reached.old.items i None) place count) }
{
    reached[i] = match reached[i] {
        None => None,
        Some(reach) => {
            if place == reach {
                Some(reach + count as u64)
            } else if count == 0 {
                Some(reach)
            } else {
                None
            }
        }
    };
}
