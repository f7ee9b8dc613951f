//! A cycle of a stripe by the rows that were prepared of its stage.

ghost use Rattle.std.specs.Prelude.{◌≡◌, ◌<◌, ◌-◌, ◌==◌, true, length};

use crate::rows::Row;
use crate::stripes::{Live, Stripe};
use pr_conf::Stage;
use pr_stripe_prepared::{Prepared, first_step, step};

impl<const N: usize, const P: usize> Stripe<N, P, Live> {
    ghost use Rattle.pr_conf.specs.Rules.{are_lawful_pes, site_of};
    ghost use Rattle.pr_stripe.specs.Cycles.{cycled_row, cycled_state};
    ghost use Rattle.pr_stripe.specs.Rows.{entering, shown};
    ghost use Rattle.pr_stripe_prepared.specs.Prepared.{IsPrepared};

    /// One cycle of the stage, as `compute`, by the rows that were prepared of it. Contracts alone read the stage itself.
    #[inline(never)]
    pub fn compute_prepared(
        &mut self,
        prev: &Row<N, P>,
        bus: &[u8],
        valid: bool,
        _stage: &Stage<N>,
        prepared: &Prepared,
    )
        requires lawful { are_lawful_pes (site_of N P (length bus.now) self.old.mark.stage) _stage.now.pes.items ≡ true }
        requires valid { 0 < self.old.mark.stage → valid ≡ prev.now.valid }
        requires prepared { IsPrepared prepared.now _stage.now.pes.items (P - 1) }
        ensures stage { self.new.mark.stage ≡ self.old.mark.stage }
        ensures state { self.new.state.items ≡ cycled_state N P self.old.mark.stage _stage.now.pes.items
            self.old.state.items (entering valid bus.now) (shown prev.now) }
        ensures row { shown self.new.row ≡ cycled_row N P self.old.mark.stage _stage.now.pes.items
            self.old.state.items (entering valid bus.now) (shown prev.now) }
    {
        self.row.valid = valid;
        if !valid {
            return;
        }
        if self.mark.stage == 0 {
            first_step(
                prepared,
                &mut self.row.bytes,
                &mut self.state,
                bus,
                &self.zeros,
                P - 1,
            );
        } else {
            step(
                prepared,
                &mut self.row.bytes,
                &mut self.state,
                &prev.bytes,
                &prev.bytes,
                P - 1,
            );
        }
    }
}
