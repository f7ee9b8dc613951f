//! The names that a text has for units and outputs.

ghost use Rattle.std.specs.Prelude.{◌≡◌, ◌≤◌, ◌++◌, IfOk, OnOk, length};
ghost use Rattle.std.specs.List.{flat_map};
ghost use Rattle.pr_flat.specs.Widths.{AreWidths};
ghost use Rattle.pr_expand_spec.specs.Programs.{equations_of};
ghost use Rattle.pr_compile_front.specs.Passed.{HasEquations};
ghost use Rattle.pr_lens_graph.specs.Names.{AreNamesOrNone, output_in};

use pr_compile_front::Front;
use pr_lang::{Item, Name};
use pr_lens_origins::{Origins, origins_of};
use std::alloc::{AllocError, Global};

/// The streams that units are made for, and the names of outputs; none of either where streams are not told.
#[derive(Drop)]
pub struct Names {
    pub origins: Origins,
    pub outputs: Vec<Name>,
}

/// Adds the name of an output; nothing for another item.
fn put_output(alloc: Global, names: &mut Vec<Name>, item: &Item) -> Result<(), AllocError>
    ensures { OnOk result (names.new.items ≡ names.old.items ++ output_in item.now) }
{
    match item {
        Item::Output {
            name,
            width: _,
            value: _,
        } => {
            names.push(name.copy(alloc)?)?;
            Ok(())
        }
        _ => Ok(()),
    }
}

/// The names of the outputs among items.
fn outputs_of(alloc: Global, items: &[Item]) -> Result<Vec<Name>, AllocError>
    ensures { IfOk result (λ names. names.items ≡ flat_map output_in items.now) }
{
    let mut names = Vec::new(alloc);
    for item in items {
        put_output(alloc, &mut names, item)?;
    }
    Ok(names)
}

/// The names of a program for the units of its net on so many columns, and for its outputs. The equations are narrowed where
/// that is asked for.
pub fn names_of(
    alloc: Global,
    front: Front,
    text: &[u8],
    narrowed: bool,
    columns: usize,
) -> Result<Names, AllocError>
    requires equations { HasEquations front.scoped.program front.flat }
    requires widths { AreWidths (equations_of front.scoped.program).equations front.widths }
    requires columns { (1 ≤ columns) × (columns ≤ 64) }
    requires short { length text.now ≤ 1048576 }
    ensures { IfOk result (AreNamesOrNone columns narrowed text.now front.scoped.program front.widths) }
{
    let outputs = outputs_of(alloc, &front.scoped.program.items)?;
    match origins_of(alloc, front, text, narrowed, columns)? {
        Some(origins) => {
            return Ok(Names { origins, outputs });
        }
        None => {
            let origins = Origins {
                streams: Vec::new(alloc),
                owners: Vec::new(alloc),
            };
            return Ok(Names {
                origins,
                outputs: Vec::new(alloc),
            });
        }
    }
}
