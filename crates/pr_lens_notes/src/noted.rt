//! The comments of the module of a program.

ghost use Rattle.std.specs.Prelude.{◌≡◌, ◌≤◌, length, IfErr, IfOk};
ghost use Rattle.pr_place.specs.Placements.{shape_of};
ghost use Rattle.pr_compile.specs.Refusals.{IsCompileAnswer};
ghost use Rattle.pr_lens_rtl_text.specs.Notes.{AreBare};
ghost use Rattle.pr_lens_notes.specs.Noted.{AreNotes, AreNotesBy, AreNotesFor};

use crate::labels::labels;
use crate::tables::owners_in;
use pr_compile::CompileFault;
use pr_compile_front::read_program;
use pr_lens_graph::layout_front;
use pr_lens_origins::{Origins, origins_of};
use pr_lens_rtl_text::Notes;
use pr_place::Placement;
use std::alloc::{AllocError, Global};

/// No comments.
fn bare(alloc: Global) -> Notes
    ensures { AreBare result }
{
    Notes {
        labels: Vec::new(alloc),
        columns: 0,
        owners: Vec::new(alloc),
    }
}

/// The comments of units that stand so in so many columns, and come from these streams.
fn notes_for(
    alloc: Global,
    columns: u8,
    placement: &Placement,
    origins: &Origins,
) -> Result<Notes, AllocError>
    requires { columns ≤ 64 }
    ensures { IfOk result (AreNotesFor columns (shape_of placement.now) origins.now) }
{
    let labels = labels(alloc, &origins.streams)?;
    let owners = owners_in(alloc, usize::from(columns), placement, &origins.owners)?;
    Ok(Notes {
        labels,
        columns,
        owners,
    })
}

/// The same, or none where the streams are not told.
fn notes_by(
    alloc: Global,
    columns: u8,
    placement: &Placement,
    origins: Option<Origins>,
) -> Result<Notes, AllocError>
    requires { columns ≤ 64 }
    ensures { IfOk result (AreNotesBy columns (shape_of placement.now) origins) }
{
    match origins {
        None => Ok(bare(alloc)),
        Some(origins) => notes_for(alloc, columns, placement, &origins),
    }
}

/// The comments of the module of the program of a text on N columns and P registers, with its equations narrowed where
/// that is asked for: each column has the line and the name of the stream that its unit is made for. There are none
/// where the program leaves no turn of the walk, or its net passes a limit. Else why the program has no configuration,
/// as the compiler answers.
pub fn notes_of<const N: usize, const P: usize>(
    alloc: Global,
    text: &[u8],
    narrowed: bool,
) -> Result<Notes, CompileFault>
    requires short { length text.now ≤ 1048576 }
    requires columns { 1 ≤ N }
    requires most_columns { N ≤ 64 }
    requires registers { 2 ≤ P }
    requires most_registers { P ≤ 16 }
    ensures notes { IfOk result (AreNotes N P narrowed text.now) }
    ensures refused { IfErr result (IsCompileAnswer N P narrowed text.now) }
{
    let front = read_program(alloc, text)?;
    let placed = layout_front::<N, P>(alloc, &front, narrowed)?;
    let origins = origins_of(alloc, front, text, narrowed, N)?;
    let notes = notes_by(alloc, N as u8, &placed.placement, origins)?;
    Ok(notes)
}
