//! The memory of a run.
ghost use Rattle.std.specs.Prelude.{◌≡◌, IfOk, replicate, vec_capacity, vec_len};

use pr_base::Num;
use pr_samples::filled;
use std::alloc::{AllocError, Global};

/// Buffers in which the samples and the results of every configuration have room: 64 numbers and the bytes of 64, and
/// the 1,024 bytes of 64 outputs of the greatest width. None has room for more, so no run lets one grow.
#[derive(Drop)]
pub struct Room {
    /// 64 numbers.
    pub numbers: Vec<Num>,
    /// The bytes of a sample, 64 at most.
    pub sample: Vec<u8>,
    /// The bytes of a result, 1,024 at most.
    pub result: Vec<u8>,
    pub ghost numbers_size: { vec_len numbers ≡ 64 },
    pub ghost sample_size: { vec_len sample ≡ 64 },
    pub ghost result_size: { vec_len result ≡ 1024 },
    pub ghost numbers_room: { vec_capacity numbers ≡ vec_len numbers },
    pub ghost sample_room: { vec_capacity sample ≡ vec_len sample },
    pub ghost result_room: { vec_capacity result ≡ vec_len result },
}

impl Room {
    /// The buffers, all zero. A run takes no memory beside them.
    pub fn make(alloc: Global) -> Result<Room, AllocError>
        ensures numbers { IfOk result (λ r. r.numbers.items ≡ replicate 64 0) }
        ensures sample { IfOk result (λ r. r.sample.items ≡ replicate 64 0) }
        ensures bytes { IfOk result (λ r. r.result.items ≡ replicate 1024 0) }
    {
        let numbers = filled(alloc, 0, 64)?;
        let sample = filled(alloc, 0, 64)?;
        let result = filled(alloc, 0, 1024)?;
        Ok(Room {
            numbers,
            sample,
            result,
        })
    }
}
