//! Which stage stands in which stripe.

ghost use Rattle.std.specs.Prelude.{◌≡◌, IfOk, None, replicate};
ghost use Rattle.pr_lens_log.specs.Boards.{stage_in, after_turn};

use pr_conf::Turn;
use std::alloc::{AllocError, Global};

/// The stage in each stripe, as cycles go by.
#[derive(Drop)]
pub struct Board {
    pub stages: Vec<Option<u32>>,
}

impl Board {
    /// So many stripes without stages.
    #[tactic(auto, using(std::proofs::lemmas::List::replicate_more))]
    pub fn make(alloc: Global, stripes: usize) -> Result<Board, AllocError>
        ensures { IfOk result (λ board. board.stages.items ≡ replicate stripes None) }
    {
        let mut stages = Vec::new(alloc);
        for _ in 0..stripes {
            stages.push(None)?;
        }
        Ok(Board { stages })
    }

    /// The stage in a stripe.
    pub fn stage(&self, stripe: usize) -> Option<u32>
        ensures { result ≡ stage_in self.now.stages.items stripe }
    {
        match self.stages.get(stripe) {
            None => None,
            Some(stage) => *stage,
        }
    }

    /// A cycle goes by: the stage that it configures stands in its stripe from then on.
    pub fn step(&mut self, turn: &Turn)
        ensures { self.new.stages.items ≡ after_turn self.old.stages.items turn.now.configured }
    {
        if let Some((stage, stripe)) = turn.configured {
            let stripe = stripe as usize;
            if stripe < self.stages.len() {
                self.stages[stripe] = Some(stage);
            }
        }
    }
}
