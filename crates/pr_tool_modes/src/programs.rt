//! Programs that are read from files.
ghost use Rattle.std.specs.Prelude.{◌≡◌, ◌≢◌, ◌≤◌, ◌+◌, ◌⊎◌, ℕ, List, length, IfOk, OnOk, IfErr};
ghost use Rattle.pr_base.specs.Fabrics.{columns, registers};
ghost use Rattle.pr_base.specs.Limits.{most_program_bytes};
ghost use Rattle.pr_edge.specs.Files.{IsReadOnce};
ghost use Rattle.pr_conf.specs.Configuration.{shape_of};
ghost use Rattle.pr_compile.specs.Configured.{IsCompiled, HasUnits};
ghost use Rattle.pr_tool_modes.specs.Files.{ShowsFault};
ghost use Rattle.pr_tool_modes.specs.Programs.{front_answer, compile_answer, IsNotLoaded, IsUncompiled, IsNotCompiled, IsLoaded, HasCompiled, IsCounted};
ghost use Rattle.pr_tool_modes.specs.Sources.{columns_in, registers_in, shape_in, IsOnFabric};

use crate::files::read_file;
use crate::loadables::Loadable;
use crate::targets::Target;
use pr_base::{Cap, Fabric};
use pr_compile::{CompileFault, Compiled, compile_counted};
use pr_compile_front::{Front, FrontFault, read_program};
use pr_edge::Shelf;
use pr_tool_answers::Answer;
use std::alloc::Global;

/// The answer that a fault of a text is.
fn answer_of_front(fault: FrontFault) -> Answer
    ensures { result ≡ front_answer fault }
{
    match fault {
        FrontFault::Syntax { token } => Answer::Syntax { token },
        FrontFault::Scope { rule, item } => Answer::Scope { rule, item },
        FrontFault::NoWidth { equation } => Answer::NoWidth { equation },
        FrontFault::Limit(which) => Answer::Limit { which },
        FrontFault::Memory(_) => Answer::Memory,
    }
}

/// The answer that a fault of compilation is.
pub fn compile_answer(fault: &CompileFault) -> Answer
    ensures { result ≡ compile_answer fault.now }
{
    match *fault {
        CompileFault::Syntax { token } => Answer::Syntax { token },
        CompileFault::Scope { rule, item } => Answer::Scope { rule, item },
        CompileFault::NoWidth { equation } => Answer::NoWidth { equation },
        CompileFault::NoFit { unit } => Answer::NoFit { unit },
        CompileFault::Limit(which) => Answer::Limit { which },
        CompileFault::Memory(_) => Answer::Memory,
    }
}

/// Reads the program of a file, with its equations and their widths.
pub fn load_program<S: Shelf>(alloc: Global, shelf: &mut S, name: &str) -> Result<Front, Answer>
    ensures loaded { IfOk result (λ f. IsLoaded (S.view shelf.old).told name.now f) }
    ensures refused { IfErr result
        (IsNotLoaded (S.view shelf.old).told name.now (S.view shelf.old).faults (S.view shelf.new).faults) }
    ensures later { (S.view shelf.old).faults ≤ (S.view shelf.new).faults }
    ensures steady { OnOk result ((S.view shelf.new).faults ≡ (S.view shelf.old).faults) }
    ensures shown { IfErr result (ShowsFault (S.view shelf.old).faults (S.view shelf.new).faults) }
    ensures same { (S.view shelf.new).told ≡ (S.view shelf.old).told }
    ensures once { IsReadOnce (most_program_bytes + 4096) ((S.view shelf.old).reach name.now)
        ((S.view shelf.new).reach name.now) }
    ensures others { (q : List ℕ) → q ≢ name.now → (S.view shelf.new).reach q ≡ (S.view shelf.old).reach q }
{
    let most = Cap::MOST_PROGRAM_BYTES;
    let text = read_file(alloc, shelf, name, most, Cap::ProgramBytes)?;
    match read_program(alloc, &text) {
        Ok(front) => Ok(front),
        Err(fault) => Err(answer_of_front(fault)),
    }
}

/// A program that was compiled.
#[derive(Drop)]
pub struct CompiledProgram {
    /// Its configuration.
    pub loaded: Loadable,
    /// The units of its net.
    pub units: usize,
}

/// The configuration of a text, on this fabric, narrowed or not.
fn compile_text<const N: usize, const P: usize>(
    alloc: Global,
    text: &[u8],
    narrowed: bool,
) -> Result<Compiled<N, P>, Answer>
    requires short { length text.now ≤ 1048576 }
    requires columns { 1 ≤ N }
    requires most_columns { N ≤ 64 }
    requires registers { 2 ≤ P }
    requires most_registers { P ≤ 16 }
    ensures compiled { IfOk result (λ c. IsCompiled N P narrowed text.now (shape_of c.conf)) }
    ensures units { IfOk result (λ c. HasUnits narrowed text.now c.units) }
    ensures refused { IfErr result (λ a. IsUncompiled N P narrowed text.now a ⊎ (a ≡ Answer.Memory)) }
{
    match compile_counted::<N, P>(alloc, text, narrowed) {
        Ok(compiled) => Ok(compiled),
        Err(fault) => Err(compile_answer(&fault)),
    }
}

/// Reads and compiles the program of a file, on this fabric, narrowed or not.
pub fn compile_on<const N: usize, const P: usize, S: Shelf>(
    alloc: Global,
    shelf: &mut S,
    name: &str,
    narrowed: bool,
) -> Result<Compiled<N, P>, Answer>
    requires columns { 1 ≤ N }
    requires most_columns { N ≤ 64 }
    requires registers { 2 ≤ P }
    requires most_registers { P ≤ 16 }
    ensures compiled { IfOk result (λ c. HasCompiled (S.view shelf.old).told name.now N P narrowed (shape_of c.conf)) }
    ensures units { IfOk result (λ c. IsCounted (S.view shelf.old).told name.now narrowed c.units) }
    ensures refused { IfErr result
        (IsNotCompiled N P narrowed (S.view shelf.old).told name.now (S.view shelf.old).faults
        (S.view shelf.new).faults) }
    ensures later { (S.view shelf.old).faults ≤ (S.view shelf.new).faults }
    ensures steady { OnOk result ((S.view shelf.new).faults ≡ (S.view shelf.old).faults) }
    ensures shown { IfErr result (ShowsFault (S.view shelf.old).faults (S.view shelf.new).faults) }
    ensures same { (S.view shelf.new).told ≡ (S.view shelf.old).told }
    ensures once { IsReadOnce (most_program_bytes + 4096) ((S.view shelf.old).reach name.now)
        ((S.view shelf.new).reach name.now) }
    ensures others { (q : List ℕ) → q ≢ name.now → (S.view shelf.new).reach q ≡ (S.view shelf.old).reach q }
{
    let most = Cap::MOST_PROGRAM_BYTES;
    let text = read_file(alloc, shelf, name, most, Cap::ProgramBytes)?;
    compile_text::<N, P>(alloc, &text, narrowed)
}

/// Reads and compiles the program of a file, for this target.
pub fn compile_file<S: Shelf>(
    alloc: Global,
    shelf: &mut S,
    name: &str,
    target: Target,
) -> Result<CompiledProgram, Answer>
    ensures compiled { IfOk result
        (λ m. IsOnFabric (S.view shelf.old).told name.now target (columns_in m.loaded) (registers_in m.loaded)
        (shape_in m.loaded)) }
    ensures units { IfOk result (λ m. IsCounted (S.view shelf.old).told name.now target.narrowed m.units) }
    ensures refused { IfErr result
        (IsNotCompiled (columns target.fabric) (registers target.fabric) target.narrowed
        (S.view shelf.old).told name.now (S.view shelf.old).faults (S.view shelf.new).faults) }
    ensures later { (S.view shelf.old).faults ≤ (S.view shelf.new).faults }
    ensures steady { OnOk result ((S.view shelf.new).faults ≡ (S.view shelf.old).faults) }
    ensures shown { IfErr result (ShowsFault (S.view shelf.old).faults (S.view shelf.new).faults) }
    ensures same { (S.view shelf.new).told ≡ (S.view shelf.old).told }
    ensures once { IsReadOnce (most_program_bytes + 4096) ((S.view shelf.old).reach name.now)
        ((S.view shelf.new).reach name.now) }
    ensures others { (q : List ℕ) → q ≢ name.now → (S.view shelf.new).reach q ≡ (S.view shelf.old).reach q }
{
    match target.fabric {
        Fabric::Base => {
            let made = compile_on::<16, 8, S>(alloc, shelf, name, target.narrowed)?;
            let Compiled { conf, units } = made;
            let loaded = Loadable::Base(conf);
            Ok(CompiledProgram { loaded, units })
        }
        Fabric::Wide => {
            let made = compile_on::<32, 16, S>(alloc, shelf, name, target.narrowed)?;
            let Compiled { conf, units } = made;
            let loaded = Loadable::Wide(conf);
            Ok(CompiledProgram { loaded, units })
        }
    }
}
