//! Runs of generated programs, of which a summary is told.
ghost use Rattle.std.specs.Prelude.{◌≡◌, ◌≢◌, ◌≤◌, ◌⊎◌, ◌++◌, ℕ, Some, decimal, length, IfOk, OnOk, IfErr};
ghost use Rattle.pr_edge.specs.SureShelf.{told_of};
ghost use Rattle.pr_conf.specs.Shape.{Shape};
ghost use Rattle.pr_machine.specs.Stands.{Stands, History, account_of};
ghost use Rattle.pr_tool_modes.specs.Jobs.{job_of as job_in};
ghost use Rattle.pr_tool_modes.specs.Lines.{OnBench};
ghost use Rattle.pr_tool_modes.specs.Generations.{generation_of, job_for, generated, first_line, last_line, Tells, TellsOn, IsUntold, HasGenerated, IsGenVerdict, IsGenerated};

use crate::benches::Bench;
use crate::executions::{Ran, run_either};
use crate::jobs::{ConfSource, Generation, Job, Run};
use crate::loadables::Origin;
use crate::programs::compile_file;
use itoa::Buffer;
use pr_edge::{MemSink, Sink, SureShelf, write_all};
use pr_gen::{program_of, samples_of};
use pr_machine::{Machine, Running};
use pr_samples::line_end;
use pr_tool_answers::Answer;
use std::alloc::{AllocError, Global};

/// The name of the generated program.
const PROGRAM: &str = "program";

/// The name of the generated samples.
const SAMPLES: &str = "samples";

/// Room for the lines of a thousand results.
const ROOM: usize = 8_192;

/// A run of a generated program: what is told of it, and its machine.
#[derive(Drop)]
struct Generated {
    text: Vec<u8>,
    bench: Bench,
}

/// The run of the program on the samples.
fn job_of(generation: &Generation) -> Job<'static>
    ensures { job_in result ≡ job_for (generation_of generation.now) }
{
    Job {
        source: ConfSource::Program {
            name: PROGRAM,
            target: generation.target,
        },
        run: Run {
            samples: SAMPLES,
            stall: None,
            stripes: generation.stripes,
            log: false,
        },
    }
}

/// The generated texts as the files of a shelf.
fn shelf_of(alloc: Global, turns: u32) -> Result<SureShelf, AllocError>
    requires least { 1 ≤ turns }
    requires greatest { turns ≤ 1000 }
    ensures { IfOk result (λ s. told_of s ≡ Some (generated turns)) }
{
    let program = program_of(alloc, turns)?;
    let samples = samples_of(alloc, turns)?;
    let first = String::from_str(alloc, PROGRAM)?;
    let second = String::from_str(alloc, SAMPLES)?;
    let files = vec![in alloc; (first, program), (second, samples)]?;
    Ok(SureShelf::make(files))
}

/// The first line of a text, without its end.
fn first_line(text: &[u8]) -> &[u8]
    ensures { result.now ≡ first_line text.now }
{
    match line_end(text) {
        Some(end) => &text[..end],
        None => text,
    }
}

/// The last line of a text, without its end: read backwards, it is the first line after that end.
fn last_line(alloc: Global, text: &[u8]) -> Result<Vec<u8>, AllocError>
    ensures { IfOk result (λ v. v.items ≡ last_line text.now) }
{
    let mut backwards = Vec::from_slice(alloc, text)?;
    backwards.reverse();
    let start = backwards.len().min(1);
    let mut line = Vec::from_slice(alloc, first_line(&backwards[start..]))?;
    line.reverse();
    Ok(line)
}

/// Appends a label and a number.
fn put(text: &mut Vec<u8>, label: &str, number: u64) -> Result<(), AllocError>
    ensures { OnOk result (text.new.items ≡ text.old.items ++ (label.now ++ decimal number)) }
{
    text.extend_from_slice(label.as_bytes())?;
    let mut buffer = Buffer::new();
    text.extend_from_slice(buffer.format(number).as_bytes())?;
    Ok(())
}

/// What is told of a run of a program of so many turns and units: its machine's stages and cycles, and the first and the last
/// of its lines.
fn summary_of<const N: usize, const P: usize>(
    alloc: Global,
    turns: u32,
    units: usize,
    machine: &Machine<N, P, Running>,
    lines: &[u8],
) -> Result<Vec<u8>, AllocError>
    ensures { IfOk result (λ v. Tells turns units lines.now v.items machine.now) }
{
    let mut text = Vec::new(alloc);
    put(&mut text, "k ", u64::from(turns))?;
    put(&mut text, " units ", units as u64)?;
    put(&mut text, " stages ", machine.conf().stages() as u64)?;
    put(&mut text, " samples 1000 cycles ", machine.time())?;
    text.extend_from_slice(b" first ")?;
    text.extend_from_slice(first_line(lines))?;
    text.extend_from_slice(b" last ")?;
    text.extend_from_slice(&last_line(alloc, lines)?)?;
    text.push(b'\n')?;
    Ok(text)
}

/// The same of the machine on a bench.
fn summary_on(
    alloc: Global,
    turns: u32,
    units: usize,
    bench: &Bench,
    lines: &[u8],
) -> Result<Vec<u8>, AllocError>
    requires { bench.now ≢ Bench.Nothing }
    ensures { IfOk result (λ v. TellsOn turns units lines.now v.items bench.now) }
{
    match bench {
        Bench::Nothing => unreachable!(),
        Bench::Base(machine) => summary_of(alloc, turns, units, machine, lines),
        Bench::Wide(machine) => summary_of(alloc, turns, units, machine, lines),
    }
}

/// What is told of a run that is over; else what it came to. Where a line had no room, memory is wanting.
fn summary_if_good(
    alloc: Global,
    turns: u32,
    units: usize,
    ran: &Ran,
    lines: &[u8],
) -> Result<Vec<u8>, Answer>
    requires { ran.now.bench ≢ Bench.Nothing }
    ensures told { IfOk result (λ v. TellsOn turns units lines.now v.items ran.now.bench) }
    ensures good { OnOk result (ran.now.answer ≡ Answer.Ok) }
    ensures refused { IfErr result (λ a. IsUntold ran.now.answer a) }
{
    match ran.answer {
        Answer::Ok => Ok(summary_on(alloc, turns, units, &ran.bench, lines)?),
        Answer::WriteFault => Err(Answer::Memory),
        answer => Err(answer),
    }
}

/// Makes both texts, compiles the program and runs it on the samples, and says what is to be told of it.
fn run_generated(alloc: Global, generation: &Generation) -> Result<Generated, Answer>
    ensures told { IfOk result
        (λ r. OnBench (λ N P machine. HasGenerated (generation_of generation.now) (λ text. r.text.items ≡ text) machine)
        r.bench) }
    ensures refused { IfErr result (λ a. IsGenVerdict (generation_of generation.now) a ⊎ (a ≡ Answer.Memory)) }
    ensures failed { IfErr result (λ a. a ≢ Answer.Ok) }
{
    let mut shelf = shelf_of(alloc, generation.turns)?;
    let made = compile_file(alloc, &mut shelf, PROGRAM, generation.target)?;
    let mut lines = MemSink::make(alloc, ROOM, Vec::new(alloc))?;
    let job = job_of(generation);
    let origin = Origin {
        conf: made.loaded,
        before: 0,
    };
    let ran = run_either(alloc, origin, &job.run, &mut shelf, &mut lines)?;
    let text = summary_if_good(alloc, generation.turns, made.units, &ran, lines.bytes())?;
    Ok(Generated {
        text,
        bench: ran.bench,
    })
}

/// Makes a program of so many turns and a thousand samples, compiles the program and runs it on the samples, and tells of the
/// run: its size, its cycles, and its first and last result. The machine goes to the bench. No file is read. Where the lines of
/// the results need more room than was made for them, memory is wanting.
pub fn generate<K: Sink>(
    alloc: Global,
    generation: &Generation,
    out: &mut K,
    bench: &mut Bench,
) -> Answer
    ensures ended { IsGenerated (generation_of generation.now)
        (K.view out.old).told (K.view out.new).told (K.view out.old).faults
        (K.view out.new).faults bench.old bench.new result }
    ensures later { (K.view out.old).faults ≤ (K.view out.new).faults }
{
    let ran = match run_generated(alloc, generation) {
        Ok(ran) => ran,
        Err(answer) => return answer,
    };
    *bench = ran.bench;
    match write_all(out, &ran.text) {
        Ok(()) => Answer::Ok,
        Err(_) => Answer::WriteFault,
    }
}
