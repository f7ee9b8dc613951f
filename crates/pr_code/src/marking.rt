//! Writing a checkpoint.

ghost use Rattle.std.specs.Prelude.{◌≡◌, ◌≤◌, ◌^◌, true, None, IfOk, OnOk};
ghost use Rattle.pr_conf.specs.Configuration.{shape_of};
ghost use Rattle.pr_code.specs.Spelling.{has_bytes};
ghost use Rattle.pr_code.specs.Marks.{mark_of, bad_mark, IsMark};

use crate::encoding::put_configuration;
use crate::words::put_words;
use pr_conf::Configuration;
use std::alloc::{AllocError, Global};

/// The bytes `PICK`.
pub const CHECKPOINT: u32 = 0x5049_434B;

/// The file of a checkpoint after so many samples: the count and the configuration. No word of it breaks a rule.
pub fn write_mark<const N: usize, const P: usize>(
    alloc: Global,
    count: u64,
    conf: &Configuration<N, P>,
) -> Result<Vec<u8>, AllocError>
    requires { count ≤ 2 ^ 40 }
    ensures mark { IfOk result (λ out. out.items ≡ mark_of N P count (shape_of conf.now)) }
    ensures bytes { OnOk result (has_bytes (shape_of conf.now) ≡ true) }
    ensures is { IfOk result (λ out. IsMark N P count (shape_of conf.now) out.items) }
    ensures good { IfOk result (λ out. bad_mark N P out.items ≡ None) }
{
    let mut out = Vec::new(alloc);
    put_words(
        &mut out,
        &[CHECKPOINT, (count >> 32) as u32, (count % (1 << 32)) as u32],
    )?;
    put_configuration(alloc, &mut out, conf)?;
    Ok(out)
}
