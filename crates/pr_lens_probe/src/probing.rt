//! Equations whose last outputs show the stream instances of a program.

ghost use Rattle.std.specs.Prelude.{◌≡◌, ◌<◌, ◌≤◌, ◌++◌, true, IfErr, IfOk, length};
ghost use Rattle.pr_lang_meaning.specs.Programs.{has_widths};
ghost use Rattle.pr_expand_spec.specs.Programs.{equations_of};
ghost use Rattle.pr_flat.specs.Flats.{equations_of as flat_equations};
ghost use Rattle.pr_probe.specs.Instances.{instances_of};
ghost use Rattle.pr_lens_probe.specs.Asked.{IsPart};
ghost use Rattle.pr_lens_probe.specs.Given.{AreKinds, AreLawful};
ghost use Rattle.pr_lens_probe.specs.Shown.{IsTooLong, Shows};

use crate::kinds::{Detail, tell_all};
use crate::lengths::longest;
use crate::parts::show_all;
use crate::passes::expanded;
use pr_flat::{Flat, Operand};
use pr_probe::instances;
use pr_scope::Scoped;
use pr_scope_names::Instance;
use std::alloc::{AllocError, Global};
use thiserror::Error;

/// The turns of a walk over a program, at most.
const MOST_TURNS: usize = 65_536;

/// The equations of a program, at most.
const MOST_EQUATIONS: usize = 16_384;

/// A program, and equations whose last outputs show its instances.
#[derive(Drop)]
pub struct Probed {
    /// The program as it was given.
    pub scoped: Scoped,
    /// Its equations, with its outputs and then one for each instance.
    pub flat: Flat,
    /// What the last outputs show, in text order and with loops unrolled.
    pub instances: Vec<Instance>,
    /// Which of them are signed, where that was asked; none of a program with more than 16,382 equations.
    pub kinds: Vec<bool>,
}

/// Why the instances of a program are not shown.
#[derive(Debug, Drop, Error)]
pub enum ProbeFault {
    /// The program leaves no turn.
    #[error("the walk has too many turns")]
    Turns,
    #[error("out of memory")]
    Memory(AllocError),
}

impl From<AllocError> for ProbeFault {
    ghost use Rattle.pr_lens_probe.specs.declared.probing.ProbeFault.TheVariants.{Memory};

    ghost from_gives = { λ a e. e ≡ Memory a };

    fn from(error: AllocError) -> ProbeFault {
        ProbeFault::Memory(error)
    }
}

/// Equations with further outputs.
fn with_outputs(flat: Flat, more: &[Operand]) -> Result<Flat, AllocError>
    requires { AreLawful (flat_equations flat) more.now }
    ensures equations { IfOk result (λ f. flat_equations f ≡ flat_equations flat) }
    ensures outputs { IfOk result (λ f. f.outputs.items ≡ flat.outputs.items ++ more.now) }
{
    let Flat {
        equations,
        mut outputs,
    } = flat;
    outputs.extend_from_slice(more)?;
    Ok(Flat { equations, outputs })
}

/// How many instances are asked for their kinds at a time, where so many turns and equations are made. Each takes a turn
/// and two equations.
fn part_of(turns: usize, equations: usize) -> Option<usize>
    requires turns { turns < 65536 }
    requires equations { equations ≤ 16384 }
    ensures { IsPart turns equations result }
{
    let pairs = (MOST_EQUATIONS - equations) / 2;
    if pairs == 0 {
        return None;
    }
    Some(pairs.min(MOST_TURNS - turns))
}

/// The equations of a program with outputs more, which give the streams of its instances; and the kinds of these, where
/// that is asked.
///
/// # Errors
///
/// `Turns` where the program leaves none of 65,536 turns, `Memory` where memory is wanting.
pub fn probe(alloc: Global, scoped: Scoped, detail: Detail) -> Result<Probed, ProbeFault>
    requires widths { has_widths scoped.program ≡ true }
    requires few { length (equations_of scoped.program).equations ≤ 16384 }
    ensures shows { IfOk result (λ p. Shows scoped.program p) }
    ensures kinds { IfOk result (λ p. AreKinds detail scoped.program (instances_of scoped.program) p.kinds.items) }
    ensures refused { IfErr result (λ fault. IsTooLong scoped.program fault) }
{
    if scoped.turns as usize >= MOST_TURNS {
        return Err(ProbeFault::Turns);
    }
    let instances = instances(alloc, &scoped.program)?;
    let flat = expanded(alloc, &scoped)?;
    let most = longest(&scoped.program.items, &instances);
    let part = part_of(scoped.turns as usize, flat.equations.len());
    let left = MOST_TURNS - scoped.turns as usize;
    let Scoped {
        program,
        inputs,
        turns,
    } = scoped;
    let told = tell_all(alloc, program, most, &instances, part, detail)?;
    let shown = show_all(alloc, told.program, most, &instances, left)?;
    let flat = with_outputs(flat, &shown.operands)?;
    Ok(Probed {
        scoped: Scoped {
            program: shown.program,
            inputs,
            turns,
        },
        flat,
        instances,
        kinds: told.kinds,
    })
}
