//! A sink that keeps nothing.
ghost use Rattle.std.proofs.Common.{arith};
ghost use Rattle.std.specs.Prelude.{◌≡◌, ℕ, ◌^◌, ◌<◌, ◌≤◌, length, take, IfOk, IsOk, OnOk, OnErr};
ghost use Rattle.pr_edge.specs.Count.{Rose};
ghost use Rattle.pr_edge.specs.Tape.{Appends, untold};

use pr_edge::{Failed, Sink};

/// Bytes that are written to it are dropped. It never fails and tells nothing.
#[derive(Drop)]
pub struct Nowhere;

impl Sink for Nowhere {
    ghost view = { λ _. record { told = untold; faults = 0 } };

    ghost counted = { λ _. Prim.omega arith };

    fn write(&mut self, bytes: &[u8]) -> Result<usize, Failed>
        ensures bound { IfOk result (λ k. k ≤ length bytes.now) }
        ensures some { IfOk result (λ k. 0 < length bytes.now → 0 < k) }
        ensures empty { length bytes.now ≡ 0 → IsOk result }
        ensures appended { IfOk result (λ k. Appends untold untold (take k bytes.now)) }
        ensures unchanged { OnErr result (untold ≡ untold) }
        ensures cause { OnErr result (Rose 0 0) }
        ensures later { 0 ≤ 0 }
        ensures steady { OnOk result (◌≡◌ {A = ℕ} 0 0) }
        ensures whole { result ≡ Ok (length bytes.now) }
    {
        Ok(bytes.len())
    }
}
