//! Configurations of either fabric, and where they come from.
ghost use Rattle.std.specs.Prelude.{◌≡◌, ◌≢◌, ◌≤◌, ◌+◌, ℕ, List, IfOk, OnOk, IfErr};
ghost use Rattle.pr_edge.specs.Files.{IsReadOnce};
ghost use Rattle.pr_tool_modes.specs.Files.{ShowsFault};
ghost use Rattle.pr_tool_modes.specs.Sources.{columns_in, registers_in, shape_in, name_in, most_bytes, Gives, IsSourceRefusal};
ghost use Rattle.pr_tool_modes.specs.Jobs.{source_of};

use crate::configurations::read_configuration;
use crate::jobs::ConfSource;
use crate::loadables::Loadable;
use crate::programs::compile_file;
use pr_edge::Shelf;
use pr_tool_answers::Answer;
use std::alloc::Global;

/// Reads the file of a source for its configuration, which is of the fabric that a configuration file names, or that a program
/// is compiled for.
pub fn load<S: Shelf>(
    alloc: Global,
    source: &ConfSource<'_>,
    shelf: &mut S,
) -> Result<Loadable, Answer>
    ensures gives { IfOk result
        (λ l. Gives (S.view shelf.old).told (source_of source.now) (columns_in l) (registers_in l) (shape_in l)) }
    ensures refused { IfErr result
        (IsSourceRefusal (S.view shelf.old).told (source_of source.now) (S.view shelf.old).faults
        (S.view shelf.new).faults) }
    ensures later { (S.view shelf.old).faults ≤ (S.view shelf.new).faults }
    ensures steady { OnOk result ((S.view shelf.new).faults ≡ (S.view shelf.old).faults) }
    ensures shown { IfErr result (ShowsFault (S.view shelf.old).faults (S.view shelf.new).faults) }
    ensures same { (S.view shelf.new).told ≡ (S.view shelf.old).told }
    ensures once { IsReadOnce (most_bytes (source_of source.now) + 4096)
        ((S.view shelf.old).reach (name_in (source_of source.now)))
        ((S.view shelf.new).reach (name_in (source_of source.now))) }
    ensures others { (q : List ℕ) → q ≢ name_in (source_of source.now) → (S.view shelf.new).reach q
        ≡ (S.view shelf.old).reach q }
{
    match *source {
        ConfSource::File { name } => read_configuration(alloc, shelf, name),
        ConfSource::Program { name, target } => Ok(
            compile_file(alloc, shelf, name, target)?.loaded,
        ),
    }
}
