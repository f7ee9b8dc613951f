//! The verdicts on the comparisons of a program.

ghost use Rattle.std.specs.Prelude.{◌≡◌, IfOk, None, OnOk, Some};
ghost use Rattle.pr_lens_extents.specs.Scenes.{fixed_value, seen_in};
ghost use Rattle.pr_lens_extents.specs.Statements.{IsAdded};
ghost use Rattle.pr_lens_extents.specs.Programs.{body_outcome, function_outcome, item_outcome, output_outcome, program_verdicts, with_entries, with_value};

use crate::expressions::{extent_of, put_assigned, put_verdicts};
use crate::parameters::{Function, set_params};
use crate::scenes::{Scene, empty, fixed_value, set_constant, set_stream};
use crate::statements::{put_stmt, put_stmts};
use crate::verdicts::Verdict;
use pr_lang::{Expr, Fixed, Item, Name, Program, Stmt};
use pr_lens_reach::{settled_as, width_form};
use pr_scope_names::Instances;
use std::alloc::{AllocError, Global};
use std::mem;

/// A constant or an entry of a table has this value, where that is known.
fn set_value(
    alloc: Global,
    scene: &mut Scene,
    name: &Name,
    place: Option<u64>,
    value: &Fixed,
) -> Result<(), AllocError>
    ensures { OnOk result (seen_in scene.new
        ≡ with_value name.now place (fixed_value value.now (seen_in scene.old)) (seen_in scene.old)) }
{
    match fixed_value(scene, value) {
        None => Ok(()),
        Some(number) => set_constant(alloc, scene, name, place, number),
    }
}

/// The entries of a table have these values.
fn set_entries(
    alloc: Global,
    scene: &mut Scene,
    name: &Name,
    values: &[Fixed],
) -> Result<(), AllocError>
    ensures { OnOk result (seen_in scene.new ≡ with_entries name.now 0 values.now (seen_in scene.old)) }
{
    for at in 0..values.len() {
        set_value(alloc, scene, name, Some(at as u64), &values[at])?;
    }
    Ok(())
}

/// Adds the verdicts on the body of a function, with parameters of which nothing is known.
fn put_body(
    alloc: Global,
    scene: &mut Scene,
    verdicts: &mut Vec<Verdict>,
    body: &[Stmt],
    value: &Expr,
) -> Result<(), AllocError>
    ensures { OnOk result (IsAdded (body_outcome body.now value.now (seen_in scene.old))
        verdicts.old.items verdicts.new.items (seen_in scene.new)) }
{
    let outer = mem::replace(&mut scene.streams, Instances::new(alloc));
    put_stmts(alloc, scene, verdicts, body)?;
    put_verdicts(verdicts, Some(scene), value)?;
    scene.streams = outer;
    Ok(())
}

/// Adds the verdicts on the body of a function, and looks which of its parameters it reads by `signed`.
fn put_function(
    alloc: Global,
    scene: &mut Scene,
    verdicts: &mut Vec<Verdict>,
    function: &Function,
) -> Result<(), AllocError>
    ensures { let f = function.now in OnOk result
        (IsAdded (function_outcome f.name.now f.params.now f.body.now f.result.now (seen_in scene.old))
        verdicts.old.items verdicts.new.items (seen_in scene.new)) }
{
    put_body(alloc, scene, verdicts, function.body, function.result)?;
    set_params(alloc, scene, function)
}

fn put_output(
    alloc: Global,
    scene: &mut Scene,
    verdicts: &mut Vec<Verdict>,
    name: &Name,
    width: Option<u64>,
    value: &Expr,
) -> Result<(), AllocError>
    ensures { OnOk result (IsAdded (output_outcome name.now width value.now (seen_in scene.old))
        verdicts.old.items verdicts.new.items (seen_in scene.new)) }
{
    put_assigned(verdicts, Some(scene), width, value)?;
    let extent = settled_as(width, extent_of(scene, value));
    set_stream(alloc, scene, name, None, extent)
}

/// Adds the verdicts on the comparisons of an item, and looks at what it makes known.
fn put_item(
    alloc: Global,
    scene: &mut Scene,
    verdicts: &mut Vec<Verdict>,
    item: &Item,
) -> Result<(), AllocError>
    ensures { OnOk result (IsAdded (item_outcome item.now (seen_in scene.old))
        verdicts.old.items verdicts.new.items (seen_in scene.new)) }
{
    match item {
        Item::Input { name, width } => {
            set_stream(alloc, scene, name, None, width_form(false, *width))
        }
        Item::Output { name, width, value } => {
            put_output(alloc, scene, verdicts, name, *width, value)
        }
        Item::Const { name, value } => set_value(alloc, scene, name, None, value),
        Item::Table { name, values } => set_entries(alloc, scene, name, values),
        Item::Function {
            name,
            params,
            width: _,
            body,
            result,
        } => {
            let function = Function {
                name,
                params,
                body,
                result,
            };
            put_function(alloc, scene, verdicts, &function)
        }
        Item::Step(stmt) => put_stmt(alloc, scene, verdicts, stmt),
    }
}

/// What is known of each comparison of a program, in the order of its text.
pub fn verdicts_of(alloc: Global, program: &Program) -> Result<Vec<Verdict>, AllocError>
    ensures { IfOk result (λ verdicts. verdicts.items ≡ program_verdicts program.now) }
{
    let mut scene = empty(alloc);
    let mut verdicts = Vec::new(alloc);
    for item in &program.items {
        put_item(alloc, &mut scene, &mut verdicts, item)?;
    }
    Ok(verdicts)
}
