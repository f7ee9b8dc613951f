//! Configurations that are read from configuration files.
ghost use Rattle.std.specs.Prelude.{◌≡◌, ◌≢◌, ◌≤◌, ◌+◌, ℕ, List, None, IfOk, OnOk, IfErr};
ghost use Rattle.pr_base.specs.Limits.{most_config_bytes};
ghost use Rattle.pr_edge.specs.Files.{IsReadOnce};
ghost use Rattle.pr_conf.specs.Configuration.{shape_of};
ghost use Rattle.pr_code.specs.Spelling.{IsFile};
ghost use Rattle.pr_code.specs.Rules.{bad_word, shape_read};
ghost use Rattle.pr_tool_modes.specs.Files.{ShowsFault};
ghost use Rattle.pr_tool_modes.specs.Configurations.{columns_of, registers_of, IsWordRefusal, IsLoadable, HasConfiguration, IsNotConfigured};
ghost use Rattle.pr_tool_modes.specs.Sources.{columns_in, registers_in, shape_in};

use crate::files::read_file;
use crate::loadables::Loadable;
use pr_base::{Cap, Fabric};
use pr_code::{CodeFault, decode, fabric_of};
use pr_conf::Configuration;
use pr_edge::Shelf;
use pr_tool_answers::Answer;
use std::alloc::Global;

/// The configuration of a file's bytes, on this fabric.
fn decode_bytes<const N: usize, const P: usize>(
    alloc: Global,
    bytes: &[u8],
) -> Result<Configuration<N, P>, Answer>
    requires columns { 1 ≤ N }
    requires most_columns { N ≤ 64 }
    requires registers { 2 ≤ P }
    requires most_registers { P ≤ 16 }
    ensures good { OnOk result (bad_word N P bytes.now ≡ None) }
    ensures file { IfOk result (λ c. IsFile N P (shape_of c) bytes.now) }
    ensures shape { IfOk result (λ c. shape_of c ≡ shape_read N bytes.now) }
    ensures refused { IfErr result (IsWordRefusal (bad_word N P bytes.now)) }
{
    match decode::<N, P>(alloc, bytes) {
        Ok(conf) => Ok(conf),
        Err(CodeFault::BadConfig { rule, place }) => Err(Answer::BadConfig { rule, place }),
        Err(CodeFault::Memory(_)) => Err(Answer::Memory),
    }
}

/// The configuration of a file's bytes, on the fabric that they name.
fn decode_named(alloc: Global, bytes: &[u8]) -> Result<Loadable, Answer>
    ensures read { IfOk result (λ l. IsLoadable (columns_in l) (registers_in l) (shape_in l) bytes.now) }
    ensures refused { IfErr result
        (IsWordRefusal (bad_word (columns_of bytes.now) (registers_of bytes.now) bytes.now)) }
{
    match fabric_of(bytes) {
        Fabric::Base => Ok(Loadable::Base(decode_bytes::<16, 8>(alloc, bytes)?)),
        Fabric::Wide => Ok(Loadable::Wide(decode_bytes::<32, 16>(alloc, bytes)?)),
    }
}

/// Reads the configuration of a file, on the fabric that the file names.
pub fn read_configuration<S: Shelf>(
    alloc: Global,
    shelf: &mut S,
    name: &str,
) -> Result<Loadable, Answer>
    ensures read { IfOk result
        (λ l. HasConfiguration (S.view shelf.old).told name.now (columns_in l) (registers_in l) (shape_in l)) }
    ensures refused { IfErr result
        (IsNotConfigured (S.view shelf.old).told name.now (S.view shelf.old).faults (S.view shelf.new).faults) }
    ensures later { (S.view shelf.old).faults ≤ (S.view shelf.new).faults }
    ensures steady { OnOk result ((S.view shelf.new).faults ≡ (S.view shelf.old).faults) }
    ensures shown { IfErr result (ShowsFault (S.view shelf.old).faults (S.view shelf.new).faults) }
    ensures same { (S.view shelf.new).told ≡ (S.view shelf.old).told }
    ensures once { IsReadOnce (most_config_bytes + 4096) ((S.view shelf.old).reach name.now)
        ((S.view shelf.new).reach name.now) }
    ensures others { (q : List ℕ) → q ≢ name.now → (S.view shelf.new).reach q ≡ (S.view shelf.old).reach q }
{
    let bytes = read_file(alloc, shelf, name, Cap::MOST_CONFIG_BYTES, Cap::ConfigBytes)?;
    decode_named(alloc, &bytes)
}
