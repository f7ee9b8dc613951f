//! The steps from a text to its configuration.

ghost use Rattle.std.specs.Prelude.{◌≡◌, ◌≤◌, true, false, length, IfOk, IfErr};
ghost use Rattle.pr_flat.specs.Shape.{shapes_of};
ghost use Rattle.pr_flat.specs.Widths.{AreWidths};
ghost use Rattle.pr_expand_spec.specs.Programs.{equations_of};
ghost use Rattle.pr_cut_units.specs.Nets.{net_of};
ghost use Rattle.pr_conf.specs.Configuration.{shape_of};
ghost use Rattle.pr_compile_front.specs.Passed.{HasEquations};
ghost use Rattle.pr_compile.specs.Configured.{IsConfigured, IsConfiguredBy, HasUnitsBy, IsCompiled, HasUnits};
ghost use Rattle.pr_compile.specs.Refusals.{IsNetAnswer, IsFrontAnswer, IsCompileAnswer};

use crate::faults::CompileFault;
use pr_compile_front::{Front, read_program};
use pr_conf::Configuration;
use pr_cut::cut;
use pr_flat::Flat;
use pr_narrow::narrow;
use pr_place::place;
use pr_route::route;
use pr_width::Widths;
use std::alloc::Global;

/// A configuration, and how many units it was made of.
#[derive(Drop)]
pub struct Compiled<const N: usize, const P: usize> {
    /// The configuration.
    pub conf: Configuration<N, P>,
    /// The units of its net.
    pub units: usize,
}

/// The configuration of equations; else the first limit that their net passes on N columns, or the last unit of the group
/// that fits in no stripe of N columns and P registers.
pub fn configure<const N: usize, const P: usize>(
    alloc: Global,
    flat: &Flat,
    widths: &Widths,
) -> Result<Compiled<N, P>, CompileFault>
    requires widths { AreWidths (shapes_of flat.now.equations.items) widths.now }
    requires columns { 1 ≤ N }
    requires most_columns { N ≤ 64 }
    requires registers { 2 ≤ P }
    requires most_registers { P ≤ 16 }
    ensures configured { let equations = shapes_of flat.now.equations.items in
        IfOk result (λ c. IsConfigured N P equations widths.now flat.now.outputs.items (shape_of c.conf)) }
    ensures units { let net = net_of (shapes_of flat.now.equations.items) widths.now flat.now.outputs.items in
        IfOk result (λ c. c.units ≡ length net.units) }
    ensures refused { let net = net_of (shapes_of flat.now.equations.items) widths.now flat.now.outputs.items in
        IfErr result (IsNetAnswer N P net) }
{
    let net = cut(alloc, flat, widths, N)?;
    let placement = place::<N, P>(alloc, &net)?;
    let conf = route::<N, P>(alloc, &net, &placement)?;
    Ok(Compiled {
        conf,
        units: net.units.len(),
    })
}

/// The configuration of a program that is refused at no point up to the widths of its equations, whose equations are narrowed
/// where that is asked for; else why it has none.
pub fn compile_front<const N: usize, const P: usize>(
    alloc: Global,
    front: &Front,
    narrowed: bool,
) -> Result<Compiled<N, P>, CompileFault>
    requires equations { HasEquations front.now.scoped.program front.now.flat }
    requires widths { AreWidths (equations_of front.now.scoped.program).equations front.now.widths }
    requires columns { 1 ≤ N }
    requires most_columns { N ≤ 64 }
    requires registers { 2 ≤ P }
    requires most_registers { P ≤ 16 }
    ensures configured { let program = front.now.scoped.program in
        IfOk result (λ c. IsConfiguredBy N P narrowed program front.now.widths (shape_of c.conf)) }
    ensures units { IfOk result (λ c. HasUnitsBy narrowed front.now.scoped.program front.now.widths c.units) }
    ensures refused { IfErr result (IsFrontAnswer N P narrowed front.now.scoped.program front.now.widths) }
{
    if !narrowed {
        return configure(alloc, &front.flat, &front.widths);
    }
    let (flat, widths) = narrow(alloc, &front.flat, &front.widths)?;
    configure(alloc, &flat, &widths)
}

/// Compiles a text for N columns and P registers, narrowed or not, and counts the units.
///
/// # Errors
///
/// The first point that refuses the text, in this order: a token that breaks the grammar or is nested too deep, a
/// broken scope rule or too many turns, too many equations, an equation without a width, too many bytes of input,
/// outputs or units, or a group that fits in no stripe.
pub fn compile_counted<const N: usize, const P: usize>(
    alloc: Global,
    text: &[u8],
    narrowed: bool,
) -> Result<Compiled<N, P>, CompileFault>
    requires short { length text.now ≤ 1048576 }
    requires columns { 1 ≤ N }
    requires most_columns { N ≤ 64 }
    requires registers { 2 ≤ P }
    requires most_registers { P ≤ 16 }
    ensures compiled { IfOk result (λ c. IsCompiled N P narrowed text.now (shape_of c.conf)) }
    ensures units { IfOk result (λ c. HasUnits narrowed text.now c.units) }
    ensures refused { IfErr result (IsCompileAnswer N P narrowed text.now) }
{
    let front = read_program(alloc, text)?;
    let compiled = compile_front::<N, P>(alloc, &front, narrowed)?;
    Ok(compiled)
}

/// Compiles a text, not narrowed. The errors are those of `compile_counted`.
pub fn compile<const N: usize, const P: usize>(
    alloc: Global,
    text: &[u8],
) -> Result<Configuration<N, P>, CompileFault>
    requires short { length text.now ≤ 1048576 }
    requires columns { 1 ≤ N }
    requires most_columns { N ≤ 64 }
    requires registers { 2 ≤ P }
    requires most_registers { P ≤ 16 }
    ensures compiled { IfOk result (λ c. IsCompiled N P false text.now (shape_of c)) }
    ensures refused { IfErr result (IsCompileAnswer N P false text.now) }
{
    let compiled = compile_counted::<N, P>(alloc, text, false)?;
    Ok(compiled.conf)
}

/// Compiles a text, narrowed. The errors are those of `compile_counted`, and the limits of the net are those of the
/// narrowed equations.
pub fn compile_narrow<const N: usize, const P: usize>(
    alloc: Global,
    text: &[u8],
) -> Result<Configuration<N, P>, CompileFault>
    requires short { length text.now ≤ 1048576 }
    requires columns { 1 ≤ N }
    requires most_columns { N ≤ 64 }
    requires registers { 2 ≤ P }
    requires most_registers { P ≤ 16 }
    ensures compiled { IfOk result (λ c. IsCompiled N P true text.now (shape_of c)) }
    ensures refused { IfErr result (IsCompileAnswer N P true text.now) }
{
    let compiled = compile_counted::<N, P>(alloc, text, true)?;
    Ok(compiled.conf)
}
