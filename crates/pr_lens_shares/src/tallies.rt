//! The streams of a program, with their units.

ghost use Rattle.std.specs.Prelude.{◌≡◌, ◌≤◌, ℕ, Bool, List, true, IfErr, IfOk, OnOk, length};
ghost use Rattle.pr_lang.specs.declared.trees.Program.{Program};
ghost use Rattle.pr_flat.specs.Flats.{equations_of as flat_equations};
ghost use Rattle.pr_flat.specs.Widths.{AreWidths};
ghost use Rattle.pr_lang_meaning.specs.Programs.{has_widths};
ghost use Rattle.pr_expand_spec.specs.Programs.{equations_of};
ghost use Rattle.pr_cut_units.specs.Equations.{UnitPlan};
ghost use Rattle.pr_cut_units.specs.Flats.{flat_net, flat_plan};
ghost use Rattle.pr_compile_front.specs.Passed.{HasEquations};
ghost use Rattle.pr_lens_probe.specs.Shown.{Shows};
ghost use Rattle.pr_lens_shares.specs.Counts.{unit_counts};
ghost use Rattle.pr_lens_shares.specs.Tallies.{HasNoShares, IsTally, IsTallyIn, IsUncounted, IsUnshown, AreUntold, shown_operands};

use crate::counts::unit_counts;
use crate::owners::unit_owners;
use pr_base::Cap;
use pr_compile_front::Front;
use pr_cut_plan::CutFault;
use pr_flat::{Flat, Operand};
use pr_lens_fits::ready_of;
use pr_lens_probe::{Detail, ProbeFault, Probed, probe};
use pr_scope::Scoped;
use pr_scope_names::Instance;
use pr_width::Widths;
use std::alloc::{AllocError, Global};
use thiserror::Error;

/// The streams of a program, with their units.
#[derive(Drop)]
pub struct Tally {
    /// The streams in text order, with loops unrolled.
    pub instances: Vec<Instance>,
    /// How many units are made for each.
    pub counts: Vec<usize>,
    /// For each unit the place of the stream that it is made for. The units behind the last are made for none.
    pub owners: Vec<Option<usize>>,
}

/// Why the units of streams are not told.
#[derive(Debug, Drop, Error)]
pub enum ShareFault {
    /// The program leaves no turn of the walk.
    #[error("the walk has too many turns")]
    Turns,
    /// Its net passes a limit.
    #[error("limit: {0:?}")]
    Limit(Cap),
    #[error("out of memory")]
    Memory(AllocError),
}

impl From<AllocError> for ShareFault {
    ghost use Rattle.std.specs.Prelude.{◌≡◌};
    ghost use Rattle.pr_lens_shares.specs.declared.tallies.ShareFault.TheVariants.{Memory};

    ghost from_gives = { λ a e. e ≡ Memory a };

    fn from(error: AllocError) -> ShareFault {
        ShareFault::Memory(error)
    }
}

/// What the last outputs give of a program that shows its instances: one for each.
pub fn shown_operands(probed: &Probed) -> &[Operand]
    ensures { result.now ≡ shown_operands probed.now }
{
    let first = probed
        .flat
        .outputs
        .len()
        .saturating_sub(probed.instances.len());
    &probed.flat.outputs[first..]
}

/// The program with an output more for each of its instances.
fn shown(alloc: Global, scoped: Scoped) -> Result<Probed, ShareFault>
    requires widths { has_widths scoped.program ≡ true }
    requires few { length (equations_of scoped.program).equations ≤ 16384 }
    ensures shows { IfOk result (λ p. Shows scoped.program p) }
    ensures refused { IfErr result (IsUnshown scoped.program) }
{
    match probe(alloc, scoped, Detail::Streams) {
        Ok(probed) => Ok(probed),
        Err(ProbeFault::Turns) => Err(ShareFault::Turns),
        Err(ProbeFault::Memory(error)) => Err(ShareFault::Memory(error)),
    }
}

/// The instances of a program that shows them, where so many units are made for each.
fn tally_with(
    alloc: Global,
    flat: &Flat,
    probed: Probed,
    counts: Vec<usize>,
) -> Result<Tally, AllocError>
    ensures { (plan : UnitPlan) → plan.equations ≡ flat_equations flat.now →
        counts.items ≡ unit_counts plan 0 (shown_operands probed) → IfOk result (λ t. IsTallyIn probed t plan) }
{
    let owners = unit_owners(alloc, flat, shown_operands(&probed), &counts)?;
    let Probed {
        scoped: _scoped,
        flat: _flat,
        instances,
        kinds: _kinds,
    } = probed;
    Ok(Tally {
        instances,
        counts,
        owners,
    })
}

/// The shown streams with their units, in the net of equations on so many columns.
fn tally_in(
    alloc: Global,
    flat: &Flat,
    widths: &Widths,
    probed: Probed,
    columns: usize,
) -> Result<Tally, ShareFault>
    requires widths { AreWidths (flat_equations flat.now) widths.now }
    requires columns { (1 ≤ columns) × (columns ≤ 64) }
    ensures tally { IfOk result (λ t. IsTallyIn probed t (flat_plan flat.now widths.now)) }
    ensures refused { IfErr result (IsUncounted columns (flat_net flat.now widths.now)) }
{
    match unit_counts(alloc, flat, widths, shown_operands(&probed), columns) {
        Ok(counts) => {
            let tally = tally_with(alloc, flat, probed, counts)?;
            Ok(tally)
        }
        Err(CutFault::Limit(which)) => Err(ShareFault::Limit(which)),
        Err(CutFault::Memory(error)) => Err(ShareFault::Memory(error)),
    }
}

/// All streams of a program with their units, in its net on so many columns. The equations are narrowed where that is asked
/// for.
pub fn tally_of(
    alloc: Global,
    front: Front,
    narrowed: bool,
    columns: usize,
) -> Result<Tally, ShareFault>
    requires equations { HasEquations front.scoped.program front.flat }
    requires widths { AreWidths (equations_of front.scoped.program).equations front.widths }
    requires columns { (1 ≤ columns) × (columns ≤ 64) }
    ensures tally { IfOk result (λ t. IsTally narrowed front.scoped.program front.widths t) }
    ensures refused { IfErr result (HasNoShares columns narrowed front.scoped.program front.widths) }
{
    let Front {
        scoped,
        flat,
        widths,
    } = front;
    let (ready, news) = ready_of(alloc, flat, widths, narrowed)?;
    match shown(alloc, scoped) {
        Ok(probed) => {
            return tally_in(alloc, &ready, &news, probed, columns);
        }
        Err(fault) => {
            return Err(fault);
        }
    }
}

/// Passes want of memory on; else the streams are not told.
pub fn untold(fault: ShareFault) -> Result<(), AllocError>
    ensures { (columns : ℕ) (narrowed : Bool) (program : Program) (widths : List ℕ) →
        HasNoShares columns narrowed program widths fault → OnOk result (AreUntold columns narrowed program widths) }
{
    match fault {
        ShareFault::Turns => {
            return Ok(());
        }
        ShareFault::Limit(_which) => {
            return Ok(());
        }
        ShareFault::Memory(error) => {
            return Err(error);
        }
    }
}
