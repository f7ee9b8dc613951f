//! Layouts.

ghost use Rattle.std.specs.Prelude.{◌≡◌, ◌≤◌, length, map, IfOk, IfErr};
ghost use Rattle.pr_flat.specs.Shape.{shapes_of};
ghost use Rattle.pr_flat.specs.Widths.{AreWidths};
ghost use Rattle.pr_expand_spec.specs.Programs.{equations_of};
ghost use Rattle.pr_cut_units.specs.Flats.{flat_net};
ghost use Rattle.pr_compile_front.specs.Passed.{HasEquations};
ghost use Rattle.pr_compile.specs.Refusals.{IsNetAnswer, IsFrontAnswer, IsCompileAnswer};
ghost use Rattle.pr_place.specs.Placements.{shape_of};
ghost use Rattle.pr_lens_graph.specs.Layouts.{IsLayout, IsLayoutBy, IsLaidOut, stage_of_home};

use crate::naming::{Names, names_of};
use pr_compile::CompileFault;
use pr_compile_front::{Front, read_program};
use pr_cut::cut;
use pr_flat::Flat;
use pr_narrow::narrow;
use pr_net::Net;
use pr_place::{Home, Placement, place};
use pr_width::Widths;
use std::alloc::{AllocError, Global};

/// Units, and for each the stage in which it stands.
#[derive(Drop)]
pub struct Layout {
    pub net: Net,
    pub stages: Vec<u32>,
    pub names: Names,
}

/// Units with where they stand and their stages, before they have names.
#[derive(Drop)]
pub struct Placed {
    pub net: Net,
    pub placement: Placement,
    pub stages: Vec<u32>,
}

/// The stages of homes.
fn stages_of(alloc: Global, homes: &[Home]) -> Result<Vec<u32>, AllocError>
    ensures { IfOk result (λ stages. stages.items ≡ map stage_of_home homes.now) }
{
    let mut stages = Vec::new(alloc);
    for home in homes {
        stages.push(home.stage)?;
    }
    Ok(stages)
}

/// The units of equations on N columns, and their stages by the greedy rule with P registers; else why they have none.
fn laid_out<const N: usize, const P: usize>(
    alloc: Global,
    flat: &Flat,
    widths: &Widths,
) -> Result<Placed, CompileFault>
    requires widths { AreWidths (shapes_of flat.now.equations.items) widths.now }
    requires columns { 1 ≤ N }
    requires most_columns { N ≤ 64 }
    requires registers { 2 ≤ P }
    requires most_registers { P ≤ 16 }
    ensures layout { IfOk result (λ p.
        IsLaidOut N P (flat_net flat.now widths.now) p.net (shape_of p.placement) p.stages.items) }
    ensures refused { IfErr result (IsNetAnswer N P (flat_net flat.now widths.now)) }
{
    let net = cut(alloc, flat, widths, N)?;
    let placement = place::<N, P>(alloc, &net)?;
    let stages = stages_of(alloc, &placement.homes)?;
    Ok(Placed {
        net,
        placement,
        stages,
    })
}

/// The units of a program, whose equations are narrowed where that is asked for, with their stages; else why it has none.
pub fn layout_front<const N: usize, const P: usize>(
    alloc: Global,
    front: &Front,
    narrowed: bool,
) -> Result<Placed, CompileFault>
    requires equations { HasEquations front.now.scoped.program front.now.flat }
    requires widths { AreWidths (equations_of front.now.scoped.program).equations front.now.widths }
    requires columns { 1 ≤ N }
    requires most_columns { N ≤ 64 }
    requires registers { 2 ≤ P }
    requires most_registers { P ≤ 16 }
    ensures layout { IfOk result (λ p.
        IsLayoutBy N P narrowed front.now.scoped.program front.now.widths p.net (shape_of p.placement) p.stages.items) }
    ensures refused { IfErr result (IsFrontAnswer N P narrowed front.now.scoped.program front.now.widths) }
{
    if !narrowed {
        return laid_out::<N, P>(alloc, &front.flat, &front.widths);
    }
    let (flat, widths) = narrow(alloc, &front.flat, &front.widths)?;
    laid_out::<N, P>(alloc, &flat, &widths)
}

/// The units of the program of a text on N columns, with its equations narrowed where that is asked for, and their
/// stages by the greedy rule with P registers, and their names; else why it has none, as the compiler answers.
pub fn layout_of<const N: usize, const P: usize>(
    alloc: Global,
    text: &[u8],
    narrowed: bool,
) -> Result<Layout, CompileFault>
    requires short { length text.now ≤ 1048576 }
    requires columns { 1 ≤ N }
    requires most_columns { N ≤ 64 }
    requires registers { 2 ≤ P }
    requires most_registers { P ≤ 16 }
    ensures layout { IfOk result (IsLayout N P narrowed text.now) }
    ensures refused { IfErr result (IsCompileAnswer N P narrowed text.now) }
{
    let front = read_program(alloc, text)?;
    let Placed {
        net,
        placement: _,
        stages,
    } = layout_front::<N, P>(alloc, &front, narrowed)?;
    let names = names_of(alloc, front, text, narrowed, N)?;
    Ok(Layout { net, stages, names })
}
