//! The bench for the module of a program.

ghost use Rattle.std.specs.Prelude.{◌≡◌, ◌≢◌, ◌≤◌, ℕ, List, length, IfOk, IfErr, OnOk};
ghost use Rattle.pr_base.specs.Fabrics.{columns, registers};
ghost use Rattle.pr_conf.specs.Configuration.{shape_of};
ghost use Rattle.pr_tool_answers.specs.declared.answers.Answer.{Answer};
ghost use Rattle.pr_tool_modes.specs.Files.{IsInOrder};
ghost use Rattle.pr_lens_bench.specs.Reading.{IsFit};
ghost use Rattle.pr_lens_bench.specs.Benches.{IsBench, IsUnbenched};
ghost use Rattle.pr_lens_tool.specs.declared.outcomes.Outcome.TheVariants.{Plain};
ghost use Rattle.pr_lens_tool.specs.Asked.{target_in};
ghost use Rattle.pr_lens_tool.specs.Outcomes.{Shows};
ghost use Rattle.pr_lens_tool.specs.Programs.{IsUnanswered};
ghost use Rattle.pr_lens_tool.specs.Benches.{IsBenchOf, IsNoBenchOf, IsDesign, IsPlanned, IsUntried};

use crate::compiling::{Compilation, compilation_of};
use crate::orders::Target;
use crate::outcomes::{Outcome, Output};
use crate::refusals::refusal_of;
use pr_base::{Cap, Fabric};
use pr_conf::Configuration;
use pr_edge::Shelf;
use pr_lang::Program;
use pr_lens_bench::{Design, NoBench, Trial, bench};
use pr_lens_rtl_text::{input_ports, module_name, output_ports};
use pr_tool::Answer;
use pr_tool_modes::read_file;
use std::alloc::{AllocError, Global};

/// The design for the module of a program and its configuration.
fn design_of<const N: usize, const P: usize>(
    alloc: Global,
    name: &str,
    seed: u32,
    program: &Program,
    conf: &Configuration<N, P>,
) -> Result<Design, AllocError>
    ensures { IfOk result (IsDesign name.now seed program.now (shape_of conf.now)) }
{
    Ok(Design {
        name: module_name(alloc, name)?,
        inputs: input_ports::<N, P>(alloc, program, conf)?,
        outputs: output_ports::<N, P>(alloc, program, conf)?,
        seed,
    })
}

/// The program of a text with the design for its module; else the answer to it.
fn planned<const N: usize, const P: usize>(
    alloc: Global,
    narrowed: bool,
    name: &str,
    seed: u32,
    text: &[u8],
) -> Result<Trial, Outcome>
    requires short { length text.now ≤ 1048576 }
    requires columns { 1 ≤ N }
    requires most_columns { N ≤ 64 }
    requires registers { 2 ≤ P }
    requires most_registers { P ≤ 16 }
    ensures planned { IfOk result (λ t.
        IsPlanned N P narrowed name.now seed text.now t.front.scoped.program t.design) }
    ensures fit { IfOk result IsFit }
    ensures refused { IfErr result (IsUnanswered N P narrowed text.now) }
{
    let made = match compilation_of::<N, P>(alloc, text, narrowed) {
        Ok(made) => made,
        Err(fault) => return Err(refusal_of::<N, P>(alloc, text, narrowed, &fault)),
    };
    let Compilation { front, conf } = made;
    let design = design_of::<N, P>(alloc, name, seed, &front.scoped.program, &conf)?;
    Ok(Trial { front, design })
}

/// The program of a text with the design for its module, on the fabric that it is compiled for.
fn planned_on(
    alloc: Global,
    target: &Target,
    name: &str,
    seed: u32,
    text: &[u8],
) -> Result<Trial, Outcome>
    requires { length text.now ≤ 1048576 }
    ensures planned { IfOk result (λ t. IsPlanned (columns target.now.fabric) (registers target.now.fabric)
        target.now.narrowed name.now seed text.now t.front.scoped.program t.design) }
    ensures fit { IfOk result IsFit }
    ensures refused { IfErr result
        (IsUnanswered (columns target.now.fabric) (registers target.now.fabric) target.now.narrowed text.now) }
{
    match target.fabric {
        Fabric::Base => planned::<16, 8>(alloc, target.narrowed, name, seed, text),
        Fabric::Wide => planned::<32, 16>(alloc, target.narrowed, name, seed, text),
    }
}

/// The bench of a trial on the samples of a file; else what the call comes to.
fn tried<S: Shelf>(
    alloc: Global,
    trial: &Trial,
    samples: &str,
    shelf: &mut S,
) -> Result<Output, Outcome>
    requires { IsFit trial.now }
    ensures well { IfOk result (λ o. o.outcome ≡ Plain Answer.Ok) }
    ensures made { IfOk result (λ o.
        IsBench (S.view shelf.old).told samples.now trial.now.front.scoped.program trial.now.design o.text.items) }
    ensures refused { IfErr result (λ o. IsUntried
        (IsUnbenched (S.view shelf.old).told samples.now trial.now.front.scoped.program trial.now.design
        (S.view shelf.old).faults (S.view shelf.new).faults) o) }
    ensures steady { OnOk result ((S.view shelf.new).faults ≡ (S.view shelf.old).faults) }
    ensures shown { IfErr result (Shows (S.view shelf.old).faults (S.view shelf.new).faults) }
    ensures later { (S.view shelf.old).faults ≤ (S.view shelf.new).faults }
    ensures same { (S.view shelf.new).told ≡ (S.view shelf.old).told }
    ensures once { IsInOrder ((S.view shelf.old).reach samples.now) ((S.view shelf.new).reach samples.now) }
    ensures others { (q : List ℕ) → q ≢ samples.now → (S.view shelf.new).reach q ≡ (S.view shelf.old).reach q }
{
    match bench(alloc, trial, samples, shelf) {
        Ok(text) => Ok(Output {
            text,
            outcome: Outcome::Plain(Answer::Ok),
        }),
        Err(NoBench::Long) => Err(Outcome::LongBench),
        Err(NoBench::Ended(answer)) => Err(Outcome::Streamed(answer)),
    }
}

/// The bench for the module of this name, of the program of a file, on the samples of another; else what the call comes
/// to.
pub fn bench_of<S: Shelf>(
    alloc: Global,
    target: &Target,
    samples: &str,
    name: &str,
    seed: u32,
    shelf: &mut S,
) -> Result<Output, Outcome>
    ensures well { IfOk result (λ o. o.outcome ≡ Plain Answer.Ok) }
    ensures made { IfOk result (λ o.
        IsBenchOf (S.view shelf.old).told (target_in target.now) samples.now name.now seed o.text.items) }
    ensures refused { IfErr result (IsNoBenchOf (S.view shelf.old).told (target_in target.now) samples.now name.now seed
        (S.view shelf.old).faults (S.view shelf.new).faults) }
    ensures steady { OnOk result ((S.view shelf.new).faults ≡ (S.view shelf.old).faults) }
    ensures shown { IfErr result (Shows (S.view shelf.old).faults (S.view shelf.new).faults) }
    ensures later { (S.view shelf.old).faults ≤ (S.view shelf.new).faults }
    ensures same { (S.view shelf.new).told ≡ (S.view shelf.old).told }

    // A file that is not both the program and the samples is read in order, and no byte of it twice.
    ensures once { (q : List ℕ) → (q ≡ (target_in target.now).file → q ≢ samples.now)
        → IsInOrder ((S.view shelf.old).reach q) ((S.view shelf.new).reach q) }
    ensures others { (q : List ℕ) → q ≢ (target_in target.now).file → q ≢ samples.now
        → (S.view shelf.new).reach q ≡ (S.view shelf.old).reach q }
{
    let most = Cap::MOST_PROGRAM_BYTES;
    let text = match read_file(alloc, shelf, target.file, most, Cap::ProgramBytes) {
        Ok(text) => text,
        Err(answer) => return Err(Outcome::Plain(answer)),
    };
    let trial = planned_on(alloc, target, name, seed, &text)?;
    tried(alloc, &trial, samples, shelf)
}
