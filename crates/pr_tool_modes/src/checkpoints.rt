//! Configurations that are read from checkpoints.
ghost use Rattle.std.specs.Prelude.{◌≡◌, ◌≢◌, ◌≤◌, ◌+◌, ◌^◌, ℕ, List, drop, None, IfOk, OnOk, IfErr};
ghost use Rattle.pr_base.specs.Limits.{most_config_bytes};
ghost use Rattle.pr_edge.specs.Files.{IsReadOnce};
ghost use Rattle.pr_conf.specs.Configuration.{shape_of};
ghost use Rattle.pr_code.specs.Marks.{IsMark, bad_mark, count_read, shape_marked};
ghost use Rattle.pr_tool_modes.specs.Files.{ShowsFault};
ghost use Rattle.pr_tool_modes.specs.Configurations.{IsWordRefusal};
ghost use Rattle.pr_tool_modes.specs.Checkpoints.{broken_mark, IsResumable, HasMark, IsNotMarked};
ghost use Rattle.pr_tool_modes.specs.Sources.{columns_in, registers_in, shape_in};

use crate::files::read_file;
use crate::loadables::{Loadable, Origin};
use pr_base::{Cap, Fabric};
use pr_code::{CodeFault, fabric_of, read_mark};
use pr_conf::Configuration;
use pr_edge::Shelf;
use pr_tool_answers::Answer;
use std::alloc::Global;

/// The bytes before the configuration: the first word and the count.
const HEAD: usize = 12;

/// A configuration of one fabric, and the number of samples that came before it.
#[derive(Drop)]
struct Marked<const N: usize, const P: usize> {
    conf: Configuration<N, P>,
    before: u64,
}

/// The count and the configuration of a checkpoint's bytes, on this fabric.
fn decode_mark<const N: usize, const P: usize>(
    alloc: Global,
    bytes: &[u8],
) -> Result<Marked<N, P>, Answer>
    requires columns { 1 ≤ N }
    requires most_columns { N ≤ 64 }
    requires registers { 2 ≤ P }
    requires most_registers { P ≤ 16 }
    ensures good { OnOk result (bad_mark N P bytes.now ≡ None) }
    ensures mark { IfOk result (λ m. IsMark N P m.before (shape_of m.conf) bytes.now) }
    ensures count { IfOk result (λ m. m.before ≡ count_read bytes.now) }
    ensures shape { IfOk result (λ m. shape_of m.conf ≡ shape_marked N bytes.now) }
    ensures refused { IfErr result (IsWordRefusal (bad_mark N P bytes.now)) }
{
    match read_mark::<N, P>(alloc, bytes) {
        Ok((before, conf)) => Ok(Marked { conf, before }),
        Err(CodeFault::BadConfig { rule, place }) => Err(Answer::BadConfig { rule, place }),
        Err(CodeFault::Memory(_)) => Err(Answer::Memory),
    }
}

/// The part of a checkpoint that is a configuration file; it is empty where there is none.
fn file_part(bytes: &[u8]) -> &[u8]
    ensures { result.now ≡ drop 12 bytes.now }
{
    &bytes[HEAD.min(bytes.len())..]
}

/// The count and the configuration of a checkpoint's bytes, on the fabric that they name.
fn decode_named(alloc: Global, bytes: &[u8]) -> Result<Origin, Answer>
    ensures read { IfOk result
        (λ l. IsResumable (columns_in l.conf) (registers_in l.conf) l.before (shape_in l.conf) bytes.now) }
    ensures refused { IfErr result (IsWordRefusal (broken_mark bytes.now)) }
{
    match fabric_of(file_part(bytes)) {
        Fabric::Base => {
            let Marked { conf, before } = decode_mark::<16, 8>(alloc, bytes)?;
            Ok(Origin {
                conf: Loadable::Base(conf),
                before,
            })
        }
        Fabric::Wide => {
            let Marked { conf, before } = decode_mark::<32, 16>(alloc, bytes)?;
            Ok(Origin {
                conf: Loadable::Wide(conf),
                before,
            })
        }
    }
}

/// Reads the configuration of a checkpoint, and the number of samples that came before, on the fabric that the file names.
pub fn read_checkpoint<S: Shelf>(alloc: Global, shelf: &mut S, name: &str) -> Result<Origin, Answer>
    ensures read { IfOk result
        (λ l. HasMark (S.view shelf.old).told name.now (columns_in l.conf) (registers_in l.conf) l.before
        (shape_in l.conf)) }
    ensures refused { IfErr result
        (IsNotMarked (S.view shelf.old).told name.now (S.view shelf.old).faults (S.view shelf.new).faults) }
    ensures later { (S.view shelf.old).faults ≤ (S.view shelf.new).faults }
    ensures steady { OnOk result ((S.view shelf.new).faults ≡ (S.view shelf.old).faults) }
    ensures shown { IfErr result (ShowsFault (S.view shelf.old).faults (S.view shelf.new).faults) }
    ensures same { (S.view shelf.new).told ≡ (S.view shelf.old).told }
    ensures once { IsReadOnce (most_config_bytes + 4096) ((S.view shelf.old).reach name.now)
        ((S.view shelf.new).reach name.now) }
    ensures others { (q : List ℕ) → q ≢ name.now → (S.view shelf.new).reach q ≡ (S.view shelf.old).reach q }
{
    let bytes = read_file(alloc, shelf, name, Cap::MOST_CONFIG_BYTES, Cap::ConfigBytes)?;
    decode_named(alloc, &bytes)
}
