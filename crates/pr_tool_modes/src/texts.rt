//! Texts of configurations.
ghost use Rattle.std.specs.Prelude.{◌≡◌, ◌≢◌, ◌≤◌, ◌+◌, ℕ, List, IfOk};
ghost use Rattle.pr_edge.specs.Files.{IsReadOnce};
ghost use Rattle.pr_conf.specs.Configuration.{shape_of};
ghost use Rattle.pr_tool_modes.specs.Calls.{call};
ghost use Rattle.pr_tool_modes.specs.Jobs.{source_of};
ghost use Rattle.pr_tool_modes.specs.Sources.{name_in, most_bytes, columns_in, registers_in, shape_in};
ghost use Rattle.pr_tool_modes.specs.Texts.{text_in, IsPut, IsTexted};

use crate::jobs::ConfSource;
use crate::loadables::Loadable;
use crate::sources::load;
use pr_code::encode;
use pr_code_show::show as summary;
use pr_conf::Configuration;
use pr_edge::{Shelf, Sink, write_all};
use pr_tool_answers::Answer;
use std::alloc::{AllocError, Global};

/// A text of a configuration.
#[derive(Clone, Copy, PartialEq, Eq, Debug)]
pub enum Form {
    /// Its summary.
    Summary,
    /// Its file, in the newer format.
    File,
}

/// A text of a configuration.
fn text_of<const N: usize, const P: usize>(
    alloc: Global,
    conf: &Configuration<N, P>,
    form: Form,
) -> Result<Vec<u8>, AllocError>
    ensures { IfOk result (λ v. v.items ≡ text_in form N P (shape_of conf.now)) }
{
    match form {
        Form::Summary => summary(alloc, conf),
        Form::File => encode(alloc, conf),
    }
}

/// A text of a configuration of either fabric.
fn loaded_text(alloc: Global, loaded: &Loadable, form: Form) -> Result<Vec<u8>, AllocError>
    ensures { IfOk result
        (λ v. v.items ≡ text_in form (columns_in loaded.now) (registers_in loaded.now) (shape_in loaded.now)) }
{
    match loaded {
        Loadable::Base(conf) => text_of(alloc, conf, form),
        Loadable::Wide(conf) => text_of(alloc, conf, form),
    }
}

/// Writes a text of a configuration. It is made whole before its first byte is written.
fn put_text<K: Sink>(alloc: Global, loaded: &Loadable, form: Form, out: &mut K) -> Answer
    ensures put { IsPut (text_in form (columns_in loaded.now) (registers_in loaded.now) (shape_in loaded.now))
        (K.view out.old).told (K.view out.new).told (K.view out.old).faults (K.view out.new).faults result }
    ensures later { (K.view out.old).faults ≤ (K.view out.new).faults }
{
    let text = match loaded_text(alloc, loaded, form) {
        Ok(text) => text,
        Err(_) => return Answer::Memory,
    };
    match write_all(out, &text) {
        Ok(()) => Answer::Ok,
        Err(_) => Answer::WriteFault,
    }
}

/// Writes a text of the configuration of a source.
pub fn write_text<S: Shelf, K: Sink>(
    alloc: Global,
    source: &ConfSource<'_>,
    form: Form,
    shelf: &mut S,
    out: &mut K,
) -> Answer
    // What it came to: there is no configuration and nothing is written, or its text was to be written.
    ensures ended { IsTexted form (source_of source.now)
        (call (S.view shelf.old) (S.view shelf.new) (K.view out.old) (K.view out.new)) result }

    ensures told { (S.view shelf.new).told ≡ (S.view shelf.old).told }

    // The file of the source is read once.
    ensures once { IsReadOnce (most_bytes (source_of source.now) + 4096)
        ((S.view shelf.old).reach (name_in (source_of source.now)))
        ((S.view shelf.new).reach (name_in (source_of source.now))) }
    ensures others { (q : List ℕ) → q ≢ name_in (source_of source.now) → (S.view shelf.new).reach q
        ≡ (S.view shelf.old).reach q }
    ensures shelf_later { (S.view shelf.old).faults ≤ (S.view shelf.new).faults }
    ensures out_later { (K.view out.old).faults ≤ (K.view out.new).faults }
{
    match load(alloc, source, shelf) {
        Err(answer) => answer,
        Ok(loaded) => put_text(alloc, &loaded, form, out),
    }
}
